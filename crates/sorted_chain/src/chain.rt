//! The chain: entries in the order of their keys, and room for more.
ghost use Rattle.std.specs.Prelude.{min, max, ◌≡◌, ◌+◌, ◌-◌, ◌≤◌, ◌<◌, ◌^◌, ◌↔◌, [], length, if◌then◌else◌, IsTrue, IfOk, IfErr, IfSome, IfNone, OnOk, OnErr, IsOk, MatchResult, Some, codes, slice_get, vec_capacity};
ghost use Rattle.std.specs.Option.{option_copied, option_map};
ghost use Rattle.std.specs.Box.{box_allocator};
ghost use Rattle.std.specs.FinMap.{find, put as put_entry};
ghost use Rattle.sorted_chain.specs.Chain.{key_cmp, has_key, above, shown, IsAscending};

use crate::NoMemory;
use crate::iter::Iter;
use crate::linked_list::{LinkedList, Node};
use crate::marks::Marks;
use std::alloc::Global;
use std::error::Error;
use std::fmt;
use std::marker::Model;

/// One more than the most nodes that a chain has.
const LIMIT: usize = 0x4000_0000_0000_0000;

/// A map from keys to values in the order of the keys, and how many new keys fit without memory.
pub struct SortedChain<V> {
    alloc: Global,
    records: LinkedList<V>,
    /// A mark for each record, and room for one for each spare node.
    marks: Marks,
    spares: LinkedList<V>,
}

impl<V> Model for SortedChain<V> {
    ghost use Rattle.std.specs.Prelude.{◌≡◌, ◌+◌, ◌<◌, ◌≤◌, ◌^◌, vec_capacity};
    ghost use Rattle.sorted_chain.specs.Chain.{Chain, chain_code, IsAscending};
    ghost use Rattle.sorted_chain.specs.Marks.{AreMarks};
    ghost use Rattle.sorted_chain.specs.Nodes.{pays, entries, IsFull};

    ghost Value = { Chain V };

    ghost coded = { chain_code V.code };

    ghost view = { λ c.
        record { items = entries (pays c.records.boxes.items); spare = c.spares.len } };

    ghost invariant = { λ c. IsFull (pays c.records.boxes.items)
        × IsAscending (entries (pays c.records.boxes.items)) × (c.records.boxes.alloc ≡ c.alloc)
        × (c.spares.boxes.alloc ≡ c.alloc) × (c.records.len + c.spares.len < 2 ^ 62)
        × AreMarks c.records.boxes.places (pays c.records.boxes.items) c.marks.in_order.items
        × (c.records.len + c.spares.len ≤ vec_capacity c.marks.in_order) };
}

impl<V> fmt::Debug for SortedChain<V> {
    fn fmt<W: fmt::Write>(&self, f: &mut fmt::Formatter<W>) -> fmt::Result {
        let entries = self.records.len;
        let spare = self.spares.len;
        write!(f, "SortedChain {{ entries: {entries}, spare: {spare} }}")
    }
}

/// The allocator refused memory for an entry of this value.
#[derive(Debug, Drop)]
pub struct PutFault<V>(pub V);

impl<V> fmt::Display for PutFault<V> {
    ghost output = { λ _. Some (codes "out of memory") };

    fn fmt<W: fmt::Write>(&self, f: &mut fmt::Formatter<W>) -> fmt::Result {
        f.write_str("out of memory")
    }
}

impl<V: fmt::Debug + Drop> Error for PutFault<V> {}

impl<V: Drop> From<PutFault<V>> for NoMemory {
    fn from(_fault: PutFault<V>) -> NoMemory {
        NoMemory
    }
}

impl<V> SortedChain<V> {
    /// No entries, and no room.
    pub fn new(alloc: Global) -> SortedChain<V>
        ensures items { result.items ≡ [] }
        ensures spare { result.spare ≡ 0 }
    {
        SortedChain {
            alloc,
            records: LinkedList::new(alloc),
            marks: Marks::new(alloc),
            spares: LinkedList::new(alloc),
        }
    }

    /// How many entries there are.
    pub fn len(&self) -> usize
        ensures len { result ≡ length self.now.items }
        ensures ascending { IsAscending self.now.items }
    {
        self.records.len
    }

    /// Whether there are none.
    pub fn is_empty(&self) -> bool
        ensures { IsTrue result ↔ (self.now.items ≡ []) }
    {
        self.len() == 0
    }

    /// The value at the key.
    pub fn find(&self, k: &[u8; 20]) -> Option<&V>
        ensures { option_copied result ≡ find key_cmp k.now self.now.items }
    {
        match self.marks.seek(&self.records, k) {
            Ok(here) => self.records.node(here.index, here.at).value.as_ref(),
            Err(_) => None,
        }
    }

    /// The first entry, or the first above a key.
    pub fn after(&self, k: Option<&[u8; 20]>) -> Option<(&[u8; 20], &V)>
        ensures { option_map shown result
            ≡ slice_get (above (option_copied k.entry) self.now.items) 0 }
    {
        self.iter_after(k).next()
    }

    /// The entries in the order of their keys: all, or those above a key.
    pub fn iter_after(&self, k: Option<&[u8; 20]>) -> Iter<'_, V>
        ensures { result ≡ above (option_copied k.entry) self.now.items }
    {
        let (index, at) = self.marks.seek_above(&self.records, k);
        Iter {
            records: &self.records,
            index,
            at,
        }
    }
}

impl<V: Drop> SortedChain<V> {
    /// Removes all entries. The room for new keys stays.
    pub fn take_all(&mut self)
        ensures items { self.new.items ≡ [] }
        ensures spare { self.new.spare ≡ self.old.spare }
    {
        self.marks.clear();
        shrink(&mut self.records, self.alloc, 0);
    }

    /// Makes room for `n` new keys.
    pub fn reserve(&mut self, n: usize) -> Result<(), NoMemory>
        ensures items { self.new.items ≡ self.old.items }
        ensures enough { OnOk result (n ≤ self.new.spare) }
        ensures kept { OnOk result (self.old.spare ≤ self.new.spare) }
        ensures unchanged { OnErr result (self.new.spare ≡ self.old.spare) }
    {
        self.marks.reserve(n)?;
        grow(&mut self.spares, self.alloc, self.records.len, n)
    }

    /// Puts the value at the key, and returns the one that it replaced. A new key uses up room for
    /// one, if there is any. Where the key is new, there is no room and no memory, the value comes
    /// back.
    pub fn put(&mut self, k: [u8; 20], v: V) -> Result<Option<V>, PutFault<V>>
        ensures items { OnOk result (self.new.items ≡ put_entry key_cmp k v self.old.items) }
        ensures replaced { IfOk result (λ o. o ≡ find key_cmp k self.old.items) }
        ensures spare { OnOk result
            (self.new.spare
            ≡ (if has_key k self.old.items then self.old.spare else self.old.spare - 1)) }
        ensures unchanged { OnErr result (self.new ≡ self.old) }
        ensures handed_back { IfErr result (λ fault. fault.0 ≡ v) }
        ensures present { IsTrue (has_key k self.old.items) → IsOk result }
        ensures spared { 0 < self.old.spare → IsOk result }
    {
        match self.marks.seek(&self.records, &k) {
            Ok(here) => Ok(self.records.replace(here.index, here.at, v)),
            Err(gap) => match take_node(&mut self.spares, &mut self.marks, self.alloc) {
                None => Err(PutFault(v)),
                Some(mut node) => {
                    let filled = Node {
                        key: k,
                        next: None,
                        value: Some(v),
                    };
                    drop(Box::replace(&mut node, filled));
                    let here = self.records.link(gap, node);
                    self.marks.insert(here, &k);
                    Ok(None)
                }
            },
        }
    }
}

impl<V: Drop> Drop for SortedChain<V> {
    fn drop(mut self) {
        self.take_all();
        let SortedChain {
            alloc,
            records,
            marks,
            mut spares,
        } = self;
        drop(marks);
        shrink(&mut spares, alloc, 0);
        records.end();
        spares.end();
    }
}

/// A node without a value, for a chain that has `len`.
fn fresh<V: Drop>(alloc: Global, len: usize) -> Option<Box<Node<V>>>
    ensures { IfSome result
        (λ b. (box_allocator b ≡ alloc) × (b.value.value ≡ None) × (len + 1 < 2 ^ 62)) }
{
    if LIMIT - 1 <= len {
        return None;
    }
    let blank = Node {
        key: [0; 20],
        next: None,
        value: None,
    };
    Box::new(alloc, blank).ok()
}

/// A spare node, or else a fresh one, and room for its mark.
fn take_node<V: Drop>(
    spares: &mut LinkedList<V>,
    marks: &mut Marks,
    alloc: Global,
) -> Option<Box<Node<V>>>
    requires alloc { alloc ≡ spares.old.boxes.alloc }
    requires few { length marks.old.in_order.items + spares.old.len < 2 ^ 62 }
    requires room { length marks.old.in_order.items + spares.old.len
        ≤ vec_capacity marks.old.in_order }
    ensures some { IfSome result (λ b. (box_allocator b ≡ alloc)
        × (length marks.old.in_order.items + spares.new.len + 1 < 2 ^ 62)
        × (length marks.old.in_order.items + spares.new.len + 1
        ≤ vec_capacity marks.new.in_order)) }
    ensures spare { spares.new.len ≡ spares.old.len - 1 }
    ensures none { IfNone result (spares.old.len ≡ 0) }
    ensures alloc { spares.new.boxes.alloc ≡ spares.old.boxes.alloc }
    ensures marks { marks.new.in_order.items ≡ marks.old.in_order.items }
    ensures kept { vec_capacity marks.old.in_order ≤ vec_capacity marks.new.in_order }
{
    marks.reserve(1).ok()?;
    match spares.pop(alloc) {
        Some(node) => Some(node),
        None => fresh(alloc, marks.in_order.len()),
    }
}

/// Frees nodes until at most `keep` are left.
fn shrink<V: Drop>(nodes: &mut LinkedList<V>, alloc: Global, keep: usize)
    requires { alloc ≡ nodes.old.boxes.alloc }
    ensures len { nodes.new.len ≡ min keep nodes.old.len }
    ensures alloc { nodes.new.boxes.alloc ≡ nodes.old.boxes.alloc }
{
    while keep < nodes.len {
        drop(nodes.pop(alloc));
    }
}

/// Makes spare nodes until there are `n`, for a chain with `others` entries.
fn grow<V: Drop>(
    spares: &mut LinkedList<V>,
    alloc: Global,
    others: usize,
    n: usize,
) -> Result<(), NoMemory>
    requires alloc { alloc ≡ spares.old.boxes.alloc }
    requires few { others + spares.old.len < 2 ^ 62 }
    ensures enough { OnOk result (spares.new.len ≡ max n spares.old.len) }
    ensures unchanged { OnErr result (spares.new.len ≡ spares.old.len) }
    ensures few { others + spares.new.len < 2 ^ 62 }
    ensures alloc { spares.new.boxes.alloc ≡ spares.old.boxes.alloc }
{
    let had = spares.len;
    while spares.len < n {
        match fresh(alloc, others + spares.len) {
            Some(node) => spares.push(node),
            None => {
                shrink(spares, alloc, had);
                return Err(NoMemory);
            }
        }
    }
    Ok(())
}
