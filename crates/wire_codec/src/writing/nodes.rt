//! Ids and roles are written.
ghost use Rattle.std.specs.Prelude.{◌≡◌, ◌++◌, OnOk};
ghost use Rattle.std.specs.List.{flat_map};
ghost use Rattle.wire_messages.specs.Nodes.{id_field, ids_field, role_field};

use crate::writing::numbers::{put_byte, put_flag, put_u16};
use cluster_types::{NoMemory, NodeId, NodeList, Role};

/// The id of a node.
#[tactic(auto, unfolding(wire_messages::specs::Nodes::id_field))]
pub(crate) fn put_id(out: &mut Vec<u8>, id: NodeId) -> Result<(), NoMemory>
    ensures { OnOk result (out.new.items ≡ out.old.items ++ id_field id) }
{
    put_u16(out, id.number())
}

/// Ids, one after another.
pub(crate) fn put_each_id(out: &mut Vec<u8>, ids: &[NodeId]) -> Result<(), NoMemory>
    ensures { OnOk result (out.new.items ≡ out.old.items ++ flat_map id_field ids.now) }
{
    for id in ids {
        put_id(out, *id)?;
    }
    Ok(())
}

/// Ids behind their number.
#[tactic(auto, unfolding(wire_messages::specs::Nodes::ids_field))]
pub(crate) fn put_ids(out: &mut Vec<u8>, ids: &NodeList) -> Result<(), NoMemory>
    ensures { OnOk result (out.new.items ≡ out.old.items ++ ids_field ids.now) }
{
    put_byte(out, ids.len() as u8)?;
    put_each_id(out, ids.as_slice())
}

/// A rack, and 1 where the node is quiesced.
#[tactic(auto, unfolding(wire_messages::specs::Numbers::byte_field, wire_messages::specs::Numbers::flag_field, wire_messages::specs::Nodes::role_field))]
pub(crate) fn put_role(out: &mut Vec<u8>, role: Role) -> Result<(), NoMemory>
    ensures { OnOk result (out.new.items ≡ out.old.items ++ role_field role) }
{
    put_byte(out, role.rack)?;
    put_flag(out, role.quiesced)
}
