//! The rows that a node has of its view's members.
ghost use Rattle.std.specs.Prelude.{◌≡◌, ◌<◌, ◌≤◌, ◌==◌, ◌++◌, ◌∷◌, [], not, Some, Contains, filter, length, slice_get, vec_capacity, vec_len};
ghost use Rattle.std.specs.List.{list_all, position};
ghost use Rattle.cluster_types.specs.Distinct.{AreDistinct};
ghost use Rattle.partition_lists.specs.Lists.{is_replica_of};
ghost use Rattle.node_rules.specs.Exchange.{first_missing};
ghost use Rattle.node_rules.specs.Map.{row_of_member};
ghost use Rattle.node_rules.specs.Map as rules;
ghost use Rattle.exchange.specs.Rows.{row_nodes};

use cluster_types::{ClusterKey, Members, NodeId, PartitionId, StateRow};
use node_rules::MemberRow;
use partition_lists::Lists;

/// A view, its lists, and the rows that are there of its members.
#[derive(Drop)]
pub(crate) struct ViewRows {
    pub key: ClusterKey,
    pub me: NodeId,
    pub factor: u8,
    pub lists: Lists,
    /// The own row, and those that came, in the order in which they came. There is room for all.
    pub rows: Vec<MemberRow>,
}

impl ViewRows {
    pub fn members(&self) -> &Members
        ensures { result.now ≡ self.now.lists }
    {
        self.lists.members()
    }

    /// The first member, in member order, whose row isn't there.
    pub fn first_missing(&self) -> Option<NodeId>
        ensures { result ≡ first_missing self.now.rows.items self.now.lists }
    {
        first_missing(self.rows.as_slice(), self.members())
    }

    pub fn own_row(&self) -> &StateRow
        requires { slice_get (row_nodes self.now.rows.items) 0 ≡ Some self.now.me }
        ensures { row_of_member self.now.rows.items self.now.me ≡ Some result.now }
    {
        match self.rows.as_slice() {
            [own, ..] => &own.row,
            [] => unreachable!(),
        }
    }

    /// Whether the node is among the first nodes, as many as the factor says, of the list.
    pub fn is_replica(&self, n: NodeId, p: PartitionId) -> bool
        ensures { result ≡ is_replica_of n self.now.lists p self.now.factor }
    {
        self.lists.is_replica(n, p, self.factor)
    }
}

/// The first member, in member order, whose row isn't there.
fn first_missing(rows: &[MemberRow], members: &Members) -> Option<NodeId>
    ensures { result ≡ first_missing rows.now members.now }
{
    for member in members.as_slice() {
        if lacks(rows, member.id) {
            return Some(member.id);
        }
    }
    None
}

/// Whether the node's row isn't there.
pub(crate) fn lacks(rows: &[MemberRow], n: NodeId) -> bool
    ensures { result ≡ rules.lacks rows.now n }
{
    are_of_others(rows, n)
}

fn are_of_others(rows: &[MemberRow], n: NodeId) -> bool
    ensures { result ≡ list_all (λ r. not (r.node == n)) rows.now }
{
    rows.iter().all(|r| r.node != n)
}

/// Adds a row for which there is room.
pub(crate) fn add_row(rows: &mut Vec<MemberRow>, node: NodeId, row: StateRow)
    requires { vec_len rows.old < vec_capacity rows.old }
    ensures rows { rows.new.items ≡ rows.old.items ++ record { node = node; row = row } ∷ [] }
    ensures room { vec_capacity rows.old ≤ vec_capacity rows.new }
{
    let _ = rows.push(MemberRow { node, row });
}

/// Takes the row of the member, which is there, out of the rows.
pub(crate) fn take_row(rows: &mut Vec<MemberRow>, from: NodeId) -> StateRow
    requires listed { Contains (row_nodes rows.old.items) from }
    requires distinct { AreDistinct (row_nodes rows.old.items) }
    ensures rows { rows.new.items ≡ filter (λ r. not (r.node == from)) rows.old.items }
    ensures row { row_of_member rows.old.items from ≡ Some result }
    ensures room { vec_capacity rows.old ≤ vec_capacity rows.new }
{
    match place_of(rows, from) {
        Some(place) => {
            let MemberRow { row, .. } = rows.remove(place);
            row
        }
        None => unreachable!(),
    }
}

/// The place of the member's row.
fn place_of(rows: &[MemberRow], n: NodeId) -> Option<usize>
    ensures { result ≡ position (λ r. r.node == n) rows.now }
{
    rows.iter().position(|r| r.node == n)
}
