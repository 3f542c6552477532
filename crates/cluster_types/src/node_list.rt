//! Short lists of nodes that are copied.
ghost use Rattle.std.specs.Prelude.{◌≡◌, ◌<◌, ◌≤◌, ◌↔◌, ◌==◌, ◌++◌, ◌∷◌, [], ℕ, length, Some, Err, Contains, IsTrue, IsOk, IfOk, MatchOption, slice_get, nat_eq};
ghost use Rattle.std.specs.Option.{option_copied};
ghost use Rattle.std.specs.List.{list_any};
ghost use Rattle.std.specs.Cmp.{partial_equiv_from_equiv};
ghost use Rattle.std.specs.Cmp.Lexicographic.{pointwise, nat_list_eq_equiv};
ghost use Rattle.cluster_types.specs.Distinct.{AreDistinct, IsFirstRepeat, without};
ghost use Rattle.cluster_types.specs.NodeLists.{IsNodeList};
ghost use Rattle.cluster_types.specs.declared.node_list.ListFault.TheVariants.{TooMany, Repeated};

use crate::node_id::NodeId;
use std::fmt;
use std::marker::Model;

/// How many items a list may have.
pub const LIST_LIMIT: usize = 16;

/// Why a slice is no list of at most 16 distinct nodes.
#[derive(Clone, Copy, Debug, PartialEq, Eq)]
pub enum ListFault {
    /// More than 16 items: their number.
    TooMany(usize),
    /// The place, from 0, of the first id that stood before.
    Repeated(usize),
}

/// 0 to 16 distinct ids, in the order in which they were given.
#[derive(Clone, Copy)]
pub struct NodeList {
    ids: [NodeId; 16],
    len: usize,
}

impl Model for NodeList {
    ghost use Rattle.std.specs.Prelude.{List, ℕ, length, take};
    ghost use Rattle.cluster_types.specs.Distinct.{AreDistinct};
    ghost use Rattle.cluster_types.specs.Filled.{IsFilled, padded, padded-take, length-taken};

    ghost Value = { List ℕ };

    ghost view = { λ l. take l.len l.ids };

    ghost invariant = { λ l. IsFilled l.ids l.len 1 × AreDistinct (take l.len l.ids) };

    ghost inverse = { λ xs. record { ids = padded xs 1; len = length xs } };

    ghost inverse_ok = { λ a h i.
        record { ids = padded-take a.ids a.len 1 h.0 i; len = length-taken a.ids a.len 1 h.0 i } };
}

impl NodeList {
    /// No ids.
    pub fn new() -> NodeList
        ensures { result ≡ [] }
    {
        NodeList {
            ids: [NodeId::MIN; LIST_LIMIT],
            len: 0,
        }
    }

    /// These ids in this order. `TooMany` where there are more than 16, and otherwise `Repeated`
    /// where one stands twice.
    pub fn from_slice(ids: &[NodeId]) -> Result<NodeList, ListFault>
        ensures ok { IfOk result (λ l. l ≡ ids.now) }
        ensures valid { IsOk result ↔ IsNodeList ids.now }

        ensures too_many { (n : ℕ)
            → (result ≡ Err (TooMany n)) ↔ ((16 < length ids.now) × (n ≡ length ids.now)) }
        ensures repeated { (place : ℕ)
            → (result ≡ Err (Repeated place))
            ↔ ((length ids.now ≤ 16) × IsFirstRepeat ids.now place) }
    {
        if ids.len() > LIST_LIMIT {
            return Err(ListFault::TooMany(ids.len()));
        }
        match first_repeat(ids) {
            Some(place) => Err(ListFault::Repeated(place)),
            None => Ok(NodeList::of(ids)),
        }
    }

    fn of(ids: &[NodeId]) -> NodeList
        requires { IsNodeList ids.now }
        ensures { result ≡ ids.now }
    {
        let mut places = [NodeId::MIN; LIST_LIMIT];
        places[..ids.len()].copy_from_slice(ids);
        NodeList {
            ids: places,
            len: ids.len(),
        }
    }

    /// How many ids there are: 0 to 16.
    pub fn len(&self) -> usize
        ensures value { result ≡ length self.now }
        ensures limit { result ≤ 16 }
    {
        self.len
    }

    /// Whether there are none.
    pub fn is_empty(&self) -> bool
        ensures { IsTrue result ↔ (self.now ≡ []) }
    {
        self.len == 0
    }

    /// The ids in their order.
    pub fn as_slice(&self) -> &[NodeId]
        ensures same { result.now ≡ self.now }
        ensures valid { IsNodeList self.now }
    {
        &self.ids[..self.len]
    }

    /// The id at that place, and `None` from the length on.
    pub fn get(&self, i: usize) -> Option<&NodeId>
        ensures { option_copied result ≡ slice_get self.now i }
    {
        self.as_slice().get(i)
    }

    /// Whether the id is in the list.
    pub fn contains(&self, id: NodeId) -> bool
        ensures value { result ≡ list_any (λ n. n == id) self.now }
        ensures found { IsTrue result ↔ Contains self.now id }
    {
        is_among(id, self.as_slice())
    }

    /// Adds an id at the end.
    pub fn push(&mut self, id: NodeId)
        requires room { length self.old < 16 }
        requires new { ¬ (Contains self.old id) }
        ensures { self.new ≡ self.old ++ id ∷ [] }
    {
        self.ids[self.len] = id;
        self.len += 1;
    }

    /// The list less that id.
    pub fn without(&self, id: NodeId) -> NodeList
        ensures { result ≡ without self.now id }
    {
        let mut kept = NodeList::new();
        for n in self.as_slice() {
            if *n != id {
                kept.push(*n);
            }
        }
        kept
    }
}

impl PartialEq for NodeList {
    ghost eq = { pointwise nat_eq };

    ghost laws = { partial_equiv_from_equiv nat_list_eq_equiv };

    fn eq(&self, other: &NodeList) -> bool {
        self.as_slice() == other.as_slice()
    }
}

impl Eq for NodeList {
    ghost laws = { nat_list_eq_equiv };
}

impl fmt::Debug for NodeList {
    fn fmt<W: fmt::Write>(&self, f: &mut fmt::Formatter<W>) -> fmt::Result {
        fmt::Debug::fmt(self.as_slice(), f)
    }
}

/// The first place whose id stood before.
pub(crate) fn first_repeat(ids: &[NodeId]) -> Option<usize>
    ensures { MatchOption result (AreDistinct ids.now) (IsFirstRepeat ids.now) }
{
    for i in 0..ids.len() {
        if is_among(ids[i], &ids[..i]) {
            return Some(i);
        }
    }
    None
}

fn is_among(id: NodeId, ids: &[NodeId]) -> bool
    ensures value { result ≡ list_any (λ n. n == id) ids.now }
    ensures found { IsTrue result ↔ Contains ids.now id }
{
    ids.contains(&id)
}
