//! What rows say of one partition.
ghost use Rattle.std.specs.Prelude.{◌≡◌, ◌<◌, ◌≤◌, length};
ghost use Rattle.std.specs.List.{list_all};
ghost use Rattle.cluster_types.specs.StateRows.{state_of};
ghost use Rattle.partition_lists.specs.Acting.{is_empty};
ghost use Rattle.node_rules.specs.Map.{acting_by_rows};
ghost use Rattle.node_rules.specs.Classes.{class_first, same_class};
ghost use Rattle.partition_state.specs.Copies.{are_all_empty, row_limit};

use crate::copies::is_empty;
use crate::states::States;
use cluster_types::{NodeId, NodeList, PartitionId};
use node_rules::MemberRow;

/// The acting master: the first node of the list, which isn't empty, whose copy was whole under the
/// greatest key, and the first of the list where none was whole. The rows are those of at most
/// sixteen members.
pub fn acting(l: &NodeList, rows: &[MemberRow], p: PartitionId) -> NodeId
    requires some { 0 < length l.now }
    requires rows { length rows.now ≤ row_limit }
    ensures { result ≡ acting_by_rows l.now rows.now p }
{
    States::of(rows, p).acting(l)
}

/// Whether none of the rows' copies had a record.
pub fn all_empty(rows: &[MemberRow], p: PartitionId) -> bool
    ensures { result ≡ are_all_empty rows.now p }
{
    rows.iter().all(|r| is_empty_at(r, p))
}

/// The first node of the list whose copy is in the class of `n`'s. `None` exactly where `n`'s copy
/// was empty, which is in no class, or `n` isn't in the list. The rows are those of at most sixteen
/// members.
pub fn class_first(l: &NodeList, rows: &[MemberRow], p: PartitionId, n: NodeId) -> Option<NodeId>
    requires { length rows.now ≤ row_limit }
    ensures { result ≡ class_first l.now rows.now p n }
{
    States::of(rows, p).class_first(l, n)
}

/// Whether `b`'s copy is in the class of `a`'s. The rows are those of at most sixteen members.
pub fn same_class(rows: &[MemberRow], p: PartitionId, a: NodeId, b: NodeId) -> bool
    requires { length rows.now ≤ row_limit }
    ensures { result ≡ same_class rows.now p a b }
{
    States::of(rows, p).same_class(a, b)
}

fn is_empty_at(row: &MemberRow, p: PartitionId) -> bool
    ensures { result ≡ is_empty (state_of row.now.row p) }
{
    is_empty(row.row.get(p))
}
