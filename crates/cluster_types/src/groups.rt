//! The groups of a divided network.
ghost use Rattle.std.specs.Prelude.{◌≡◌, ◌<◌, ◌≤◌, ℕ, List, length, slice_get, nat_eq};
ghost use Rattle.std.specs.Option.{option_copied};
ghost use Rattle.std.specs.Cmp.{partial_equiv_from_equiv};
ghost use Rattle.std.specs.Cmp.Lexicographic.{pointwise, nat_list_eq_equiv};
ghost use Rattle.std.proofs.lemmas.Cmp.{lists_equiv};
ghost use Rattle.cluster_types.specs.Groups.{AreGroups, apart, group_of};

use crate::node_id::NodeId;
use crate::node_list::{LIST_LIMIT, NodeList};
use std::fmt;
use std::marker::Model;

/// 1 to 16 lists of nodes in the order in which they were written. No list is empty, and no node
/// stands twice.
#[derive(Clone, Copy)]
pub struct Groups {
    places: [NodeList; 16],
    len: usize,
}

impl Model for Groups {
    ghost use Rattle.std.specs.Prelude.{[], List, ℕ, length, take};
    ghost use Rattle.cluster_types.specs.Filled.{IsFilled, padded, padded-take, length-taken};
    ghost use Rattle.cluster_types.specs.Groups.{AreGroups};

    ghost Value = { List (List ℕ) };

    ghost view = { λ g. take g.len g.places };

    ghost invariant = { λ g. IsFilled g.places g.len [] × AreGroups (take g.len g.places) };

    ghost inverse = { λ xs. record { places = padded xs []; len = length xs } };

    ghost inverse_ok = { λ a h i.
        record {
          places = padded-take a.places a.len [] h.0 i;
          len = length-taken a.places a.len [] h.0 i;
        } };
}

impl Groups {
    /// These groups: 1 to 16 lists with at most 16 ids in all, none empty and no id twice.
    pub fn from_lists(lists: &[NodeList]) -> Groups
        requires { AreGroups lists.now }
        ensures { result ≡ lists.now }
    {
        let mut places = [NodeList::new(); LIST_LIMIT];
        places[..lists.len()].copy_from_slice(lists);
        Groups {
            places,
            len: lists.len(),
        }
    }

    /// How many groups there are: 1 to 16.
    pub fn len(&self) -> usize
        ensures value { result ≡ length self.now }
        ensures range { (0 < result) × (result ≤ 16) }
    {
        self.len
    }

    /// The groups in their order.
    pub fn as_slice(&self) -> &[NodeList]
        ensures same { result.now ≡ self.now }
        ensures valid { AreGroups self.now }
    {
        &self.places[..self.len]
    }

    /// The group at that place, and `None` from the length on.
    pub fn get(&self, i: usize) -> Option<&NodeList>
        ensures { option_copied result ≡ slice_get self.now i }
    {
        self.as_slice().get(i)
    }

    /// Whether the two nodes stand in different groups. A node that stands in none is apart from
    /// no other.
    pub fn apart(&self, a: NodeId, b: NodeId) -> bool
        ensures { result ≡ apart self.now a b }
    {
        match (self.group_of(a), self.group_of(b)) {
            (Some(i), Some(j)) => i != j,
            _ => false,
        }
    }

    /// The place of the group in which the node stands.
    fn group_of(&self, n: NodeId) -> Option<usize>
        ensures { result ≡ group_of self.now n }
    {
        self.as_slice().iter().position(|group| group.contains(n))
    }
}

impl PartialEq for Groups {
    ghost eq = { pointwise (pointwise nat_eq) };

    ghost laws = { partial_equiv_from_equiv (lists_equiv nat_list_eq_equiv) };

    fn eq(&self, other: &Groups) -> bool {
        self.as_slice() == other.as_slice()
    }
}

impl Eq for Groups {
    ghost laws = { lists_equiv nat_list_eq_equiv };
}

impl fmt::Debug for Groups {
    fn fmt<W: fmt::Write>(&self, f: &mut fmt::Formatter<W>) -> fmt::Result {
        fmt::Debug::fmt(self.as_slice(), f)
    }
}
