//! A walk along a chain.
ghost use Rattle.std.specs.Iterator.{YieldsFirstBy, item_count};
ghost use Rattle.sorted_chain.specs.Chain.{shown};

use crate::boxes::Place;
use crate::linked_list::LinkedList;
use std::marker::Model;

/// The entries of a chain that are still to come, in the order of their keys.
#[derive(Drop)]
pub struct Iter<'a, V> {
    pub(crate) records: &'a LinkedList<V>,
    pub(crate) index: usize,
    pub(crate) at: Option<Place>,
}

impl<'a, V> Model for Iter<'a, V> {
    ghost use Rattle.std.specs.Prelude.{ℕ, List, ◌≡◌, drop, slice_get};
    ghost use Rattle.sorted_chain.specs.Nodes.{pays, entries, IsFull};

    ghost Value = { List (List ℕ × V) };

    ghost view = { λ it. drop it.index (entries (pays it.records.now.boxes.items)) };

    ghost invariant = { λ it. IsFull (pays it.records.now.boxes.items)
        × (it.at ≡ slice_get it.records.now.boxes.places it.index) };
}

impl<'a, V> Iterator for Iter<'a, V> {
    type Item = (&'a [u8; 20], &'a V);

    ghost next_gives = { YieldsFirstBy shown (λ rest. rest) };

    ghost remaining = { item_count (λ rest. rest) };

    fn next(&mut self) -> Option<(&'a [u8; 20], &'a V)> {
        let records = self.records;
        let Some(place) = self.at else {
            return None;
        };
        let node = records.node(self.index, place);
        let Some(value) = &node.value else {
            return None;
        };
        self.index += 1;
        self.at = node.next;
        Some((&node.key, value))
    }
}
