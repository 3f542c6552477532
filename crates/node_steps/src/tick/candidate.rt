//! Whether a node proposes a view.
ghost use Rattle.std.specs.Prelude.{◌≡◌, Contains};
ghost use Rattle.cluster_types.specs.Members.{ids_of};
ghost use Rattle.node_rules.specs.Hearing.{is_greatest};
ghost use Rattle.node_rules.specs.Notes.{neighbours};
ghost use Rattle.node_rules.specs.Tick as tick;

use crate::ground::Ground;
use cluster_types::{Members, NodeId};

/// For how many ticks the neighbours of a candidate have been the same.
const QUIET_TICKS: u8 = 2;

/// Whether the node is a candidate: the greatest of its neighbours, who are these, have been the
/// same for long enough and are to agree on a view.
pub fn is_candidate(f: &Ground<'_>, set: &Members) -> bool
    requires { set.now ≡ neighbours f.now }
    ensures { result ≡ tick.is_candidate f.now }
{
    if !is_greatest(set, f.me) {
        return false;
    }
    if f.hearing.quiet() != QUIET_TICKS {
        return false;
    }
    wants_view(f, set)
}

/// Whether none of the members has a greater id.
fn is_greatest(members: &Members, me: NodeId) -> bool
    requires { Contains (ids_of members.now) me }
    ensures { result ≡ is_greatest me members.now }
{
    match members.as_slice() {
        [first, ..] => first.id == me,
        [] => false,
    }
}

/// Whether the neighbours are to agree on a view: the node has none, they aren't its members, or
/// another neighbour shows another view than the node's own.
fn wants_view(f: &Ground<'_>, set: &Members) -> bool
    requires { set.now ≡ neighbours f.now }
    ensures { result ≡ tick.wants_view f.now }
{
    match f.view {
        None => true,
        Some(view) => set != view.members() || !f.hearing.all_show(view.key()),
    }
}
