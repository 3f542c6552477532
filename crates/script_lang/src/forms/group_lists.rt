//! Room for groups.
ghost use Rattle.std.specs.Prelude.{◌≡◌, ◌<◌, ◌++◌, ◌∷◌, [], length};

use cluster_types::NodeList;
use std::marker::Model;

/// At most sixteen lists of nodes: no more nodes are declared, and no group is empty.
#[derive(Drop)]
pub(super) struct GroupLists {
    places: [NodeList; 16],
    len: usize,
}

impl Model for GroupLists {
    ghost use Rattle.std.specs.Prelude.{List, ℕ, ◌≡◌, ◌≤◌, length, take};

    ghost Value = { List (List ℕ) };

    ghost view = { λ g. take g.len g.places };

    ghost invariant = { λ g. (g.len ≤ 16) × (length g.places ≡ 16) };
}

impl GroupLists {
    pub fn new() -> GroupLists
        ensures { result ≡ [] }
    {
        GroupLists {
            places: [NodeList::new(); 16],
            len: 0,
        }
    }

    pub fn as_slice(&self) -> &[NodeList]
        ensures { result.now ≡ self.now }
    {
        &self.places[..self.len]
    }

    pub fn push(&mut self, group: NodeList)
        requires { length self.old < 16 }
        ensures { self.new ≡ self.old ++ group ∷ [] }
    {
        self.places[self.len] = group;
        self.len += 1;
    }
}
