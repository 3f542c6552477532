//! Nodes and members are fields of messages: their types keep the ranges.
ghost use Rattle.std.specs.Prelude.{All};
ghost use Rattle.wire_messages.specs.Nodes.{AreMembersField, FitsMember, IsId};

use cluster_types::{Member, Members, NodeId};

/// Each of the nodes has an id that has a spelling.
pub fn ids_fit(nodes: &[NodeId])
    ensures { All IsId nodes.now }
{
    for node in nodes {
        id_fits(*node);
    }
}

/// The id has a spelling.
pub fn id_fits(node: NodeId)
    ensures { IsId node }
{
    let _number = node.number();
}

/// The members have a spelling.
pub(crate) fn members_fit(members: &Members)
    ensures { AreMembersField members.now }
{
    for member in members.as_slice() {
        member_fits(*member);
    }
}

/// The member has a spelling.
fn member_fits(member: Member)
    ensures { FitsMember member }
{
    id_fits(member.id);
}
