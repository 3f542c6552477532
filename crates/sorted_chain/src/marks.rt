//! Marks by which the node of a key is found.
ghost use Rattle.std.specs.Prelude.{◌≡◌, ◌+◌, ◌<◌, ◌≤◌, [], length, drop, map, slice_get, vec_capacity, MatchResult, IfSome, OnOk, OnErr};
ghost use Rattle.std.specs.List.{insert};
ghost use Rattle.std.specs.Option.{option_copied};
ghost use Rattle.sorted_chain.specs.Chain.{key_cmp, above, IsAscending};
ghost use Rattle.sorted_chain.specs.Marks.{key_front, IsTwentyBytes, AreMarks};
ghost use Rattle.sorted_chain.specs.Nodes.{pays, entries, before_of, IsFull, IsNodeOf, IsGapOf};

use crate::NoMemory;
use crate::boxes::Place;
use crate::key::{front_of, key_order};
use crate::linked_list::{Gap, Here, LinkedList};
use std::alloc::Global;
use std::cmp::Ordering;

/// Where a node lies, and the front of its key.
#[derive(Clone, Copy)]
pub struct Mark {
    pub(crate) front: u64,
    pub(crate) at: Place,
}

/// A mark for each node of a list, in the order of the nodes.
///
/// The marks lie side by side, so a look-up reads few lines of memory for them. It reads a node
/// only where the front of its key is that of the key that is sought.
#[derive(Drop)]
pub struct Marks {
    pub(crate) in_order: Vec<Mark>,
}

impl Marks {
    pub(crate) fn new(alloc: Global) -> Marks
        ensures { result.in_order.items ≡ [] }
    {
        Marks {
            in_order: Vec::new(alloc),
        }
    }

    /// Looks for the node of a key, by halves.
    pub(crate) fn seek<V>(&self, nodes: &LinkedList<V>, k: &[u8; 20]) -> Result<Here, Gap>
        requires full { IsFull (pays nodes.now.boxes.items) }
        requires ascending { IsAscending (entries (pays nodes.now.boxes.items)) }
        requires marks { AreMarks nodes.now.boxes.places (pays nodes.now.boxes.items)
            self.now.in_order.items }
        ensures { MatchResult result
            (λ here. IsNodeOf k.now nodes.now.boxes.places nodes.now.boxes.items here.index here.at)
            (λ gap.
            IsGapOf k.now nodes.now.boxes.places nodes.now.boxes.items gap.index gap.before
            gap.at) }
    {
        let front = front_of(k);
        let mut low = 0;
        let mut high = self.in_order.len();
        while low < high {
            let middle = low + (high - low) / 2;
            match self.order(nodes, k, front, middle) {
                Ordering::Less => high = middle,
                Ordering::Equal => {
                    return Ok(Here {
                        index: middle,
                        at: self.mark(middle).at,
                    });
                }
                Ordering::Greater => low = middle + 1,
            }
        }
        Err(self.gap(low))
    }

    /// Compares a key, which has this front, with that of the `i`-th node.
    fn order<V>(&self, nodes: &LinkedList<V>, k: &[u8; 20], front: u64, i: usize) -> Ordering
        requires marks { AreMarks nodes.now.boxes.places (pays nodes.now.boxes.items)
            self.now.in_order.items }
        requires within { i < length self.now.in_order.items }
        requires key { IsTwentyBytes k.now }
        requires front { front ≡ key_front k.now }
        ensures { IfSome (slice_get nodes.now.boxes.items i)
            (λ n. result ≡ key_cmp k.now n.key) }
    {
        let mark = self.mark(i);
        match front.cmp(&mark.front) {
            Ordering::Equal => key_order(k, &nodes.node(i, mark.at).key),
            unequal => unequal,
        }
    }

    fn mark(&self, i: usize) -> Mark
        requires { i < length self.now.in_order.items }
        ensures { slice_get self.now.in_order.items i ≡ Some result }
    {
        self.in_order[i]
    }

    /// The gap before the `i`-th node.
    fn gap(&self, i: usize) -> Gap
        ensures index { result.index ≡ i }
        ensures before { result.before ≡ before_of (map (λ m. m.at) self.now.in_order.items) i }
        ensures at { result.at ≡ slice_get (map (λ m. m.at) self.now.in_order.items) i }
    {
        Gap {
            index: i,
            before: if i == 0 { None } else { self.place(i - 1) },
            at: self.place(i),
        }
    }

    /// Where the `i`-th node lies, if there are so many.
    fn place(&self, i: usize) -> Option<Place>
        ensures { result ≡ slice_get (map (λ m. m.at) self.now.in_order.items) i }
    {
        match self.in_order.get(i) {
            Some(mark) => Some(mark.at),
            None => None,
        }
    }

    /// Where the first node lies, or the first above a key.
    pub(crate) fn seek_above<V>(
        &self,
        nodes: &LinkedList<V>,
        k: Option<&[u8; 20]>,
    ) -> (usize, Option<Place>)
        requires full { IsFull (pays nodes.now.boxes.items) }
        requires ascending { IsAscending (entries (pays nodes.now.boxes.items)) }
        requires marks { AreMarks nodes.now.boxes.places (pays nodes.now.boxes.items)
            self.now.in_order.items }
        ensures rest { drop result.0 (entries (pays nodes.now.boxes.items))
            ≡ above (option_copied k.entry) (entries (pays nodes.now.boxes.items)) }
        ensures at { result.1 ≡ slice_get nodes.now.boxes.places result.0 }
    {
        let Some(k) = k else {
            return (0, nodes.head);
        };
        match self.seek(nodes, k) {
            Ok(here) => (here.index + 1, nodes.node(here.index, here.at).next),
            Err(gap) => (gap.index, gap.at),
        }
    }

    /// Makes room for `n` more marks.
    pub(crate) fn reserve(&mut self, n: usize) -> Result<(), NoMemory>
        ensures marks { self.new.in_order.items ≡ self.old.in_order.items }
        ensures room { OnOk result
            (length self.old.in_order.items + n ≤ vec_capacity self.new.in_order) }
        ensures kept { vec_capacity self.old.in_order ≤ vec_capacity self.new.in_order }
        ensures full { OnErr result
            (vec_capacity self.old.in_order < length self.old.in_order.items + n) }
    {
        self.in_order.reserve(n)
    }

    /// Marks a node of this key that was linked in. There is room for its mark.
    pub(crate) fn insert(&mut self, here: Here, k: &[u8; 20])
        requires within { here.index ≤ length self.old.in_order.items }
        requires room { length self.old.in_order.items < vec_capacity self.old.in_order }
        ensures marks { self.new.in_order.items
            ≡ insert self.old.in_order.items here.index
            (record { front = key_front k.now; at = here.at }) }
        ensures key { IsTwentyBytes k.now }
        ensures room { vec_capacity self.new.in_order ≡ vec_capacity self.old.in_order }
    {
        let mark = Mark {
            front: front_of(k),
            at: here.at,
        };
        let _ = self.in_order.insert(here.index, mark);
    }

    /// Forgets all nodes. The room for marks stays.
    pub(crate) fn clear(&mut self)
        ensures marks { self.new.in_order.items ≡ [] }
        ensures room { vec_capacity self.new.in_order ≡ vec_capacity self.old.in_order }
    {
        self.in_order.clear();
    }
}
