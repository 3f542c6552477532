//! The states of one partition's copies.
ghost use Rattle.std.specs.Prelude.{◌≡◌, ◌<◌, ◌≤◌, ◌++◌, ◌∷◌, [], length};
ghost use Rattle.cluster_types.specs.StateRows.{state_of};
ghost use Rattle.partition_lists.specs.Acting.{acting_by};
ghost use Rattle.partition_lists.specs.Classes.{asked_among, class_first_by, same_class_by, sends_by};
ghost use Rattle.partition_state.specs.Copies.{copies_at, row_limit};

use crate::copies;
use cluster_types::{CopyState, NodeId, NodeList, PartitionId};
use node_rules::MemberRow;
use std::marker::Model;

/// How many copies a partition may have.
const LIMIT: usize = 16;

/// The states of the copies of one partition, each with its node.
#[derive(Drop)]
pub struct States {
    copies: [(NodeId, CopyState); 16],
    len: usize,
}

impl Model for States {
    ghost use Rattle.std.specs.Prelude.{List, ℕ, ◌≡◌, ◌≤◌, length, take};
    ghost use Rattle.cluster_types.specs.declared.copy_state.CopyState.{CopyState};
    ghost use Rattle.partition_state.specs.Copies.{row_limit};

    ghost Value = { List (ℕ × CopyState) };

    ghost view = { λ s. take s.len s.copies };

    ghost invariant = { λ s. (s.len ≤ row_limit) × (length s.copies ≡ row_limit) };
}

impl States {
    /// No copies.
    pub fn new() -> States
        ensures { result ≡ [] }
    {
        States {
            copies: [(NodeId::MIN, CopyState::Empty); LIMIT],
            len: 0,
        }
    }

    /// The copies of the rows' nodes, at most sixteen.
    pub fn of(rows: &[MemberRow], p: PartitionId) -> States
        requires { length rows.now ≤ row_limit }
        ensures { result ≡ copies_at rows.now p }
    {
        let mut states = States::new();
        for row in rows {
            states.push(row.node, row.row.get(p));
        }
        states
    }

    /// Adds the copy of a node.
    pub fn push(&mut self, node: NodeId, state: CopyState)
        requires { length self.old < row_limit }
        ensures { self.new ≡ self.old ++ (node, state) ∷ [] }
    {
        self.copies[self.len] = (node, state);
        self.len += 1;
    }

    /// The copies with their nodes.
    pub fn as_slice(&self) -> &[(NodeId, CopyState)]
        ensures same { result.now ≡ self.now }
        ensures limit { length self.now ≤ row_limit }
    {
        &self.copies[..self.len]
    }

    /// The state of the node's copy; `Empty` where there is none.
    pub fn state(&self, n: NodeId) -> CopyState
        ensures { result ≡ state_of self.now n }
    {
        copies::state_in(self.as_slice(), n)
    }

    /// The first node of the list, which isn't empty, whose copy was whole under the greatest key, and
    /// the first of the list where none was whole.
    pub fn acting(&self, l: &NodeList) -> NodeId
        requires { 0 < length l.now }
        ensures { result ≡ acting_by l.now (state_of self.now) }
    {
        copies::acting(self.as_slice(), l.as_slice())
    }

    /// Whether `b`'s copy is in the class of `a`'s. A copy that was empty is in no class; one that
    /// was a part, or whole after unknown writes, is alone in its class.
    pub fn same_class(&self, a: NodeId, b: NodeId) -> bool
        ensures { result ≡ same_class_by (state_of self.now) a b }
    {
        copies::same_class(self.as_slice(), a, b)
    }

    /// The first node of the list whose copy is in the class of `n`'s.
    pub fn class_first(&self, l: &NodeList, n: NodeId) -> Option<NodeId>
        ensures { result ≡ class_first_by l.now (state_of self.now) n }
    {
        copies::class_first(self.as_slice(), l.as_slice(), n)
    }

    /// Whether `from` would send its records to `to`: its copy wasn't empty, it is the first of its
    /// class in the list, and `to` isn't in that class.
    pub fn sends(&self, l: &NodeList, from: NodeId, to: NodeId) -> bool
        ensures { result ≡ sends_by l.now (state_of self.now) from to }
    {
        let copies = self.as_slice();
        !copies::is_empty(copies::state_in(copies, from))
            && copies::is_first(copies, l.as_slice(), from)
            && !copies::same_class(copies, from, to)
    }

    /// The nodes that `by` asks for their versions: the first of each class but its own, in list
    /// order.
    pub fn asked_by(&self, l: &NodeList, by: NodeId) -> NodeList
        ensures { result ≡ asked_among l.now (state_of self.now) by }
    {
        copies::asked_by(self.as_slice(), l.as_slice(), by)
    }
}
