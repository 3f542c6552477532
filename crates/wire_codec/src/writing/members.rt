//! Members are written.
ghost use Rattle.std.specs.Prelude.{◌≡◌, ◌++◌, OnOk};
ghost use Rattle.std.specs.List.{flat_map};
ghost use Rattle.wire_messages.specs.Nodes.{id_field, plain_members_field, member_field, members_field};

use crate::writing::nodes::{put_id, put_role};
use crate::writing::numbers::put_byte;
use cluster_types::{Member, Members, NoMemory};

/// The ids of members, one after another.
fn put_each_id(out: &mut Vec<u8>, members: &[Member]) -> Result<(), NoMemory>
    ensures { OnOk result
        (out.new.items ≡ out.old.items ++ flat_map (λ m. id_field m.id) members.now) }
{
    for member in members {
        put_id(out, member.id)?;
    }
    Ok(())
}

/// The ids of members, behind their number.
#[tactic(auto, unfolding(wire_messages::specs::Nodes::plain_members_field))]
pub(crate) fn put_plain_members(out: &mut Vec<u8>, members: &Members) -> Result<(), NoMemory>
    ensures { OnOk result (out.new.items ≡ out.old.items ++ plain_members_field members.now) }
{
    put_byte(out, members.len() as u8)?;
    put_each_id(out, members.as_slice())
}

/// A member with its role.
#[tactic(auto, unfolding(wire_messages::specs::Nodes::member_field))]
fn put_member(out: &mut Vec<u8>, member: &Member) -> Result<(), NoMemory>
    ensures { OnOk result (out.new.items ≡ out.old.items ++ member_field member.now) }
{
    put_id(out, member.id)?;
    put_role(out, member.role)
}

/// Members with their roles, one after another.
fn put_each_member(out: &mut Vec<u8>, members: &[Member]) -> Result<(), NoMemory>
    ensures { OnOk result (out.new.items ≡ out.old.items ++ flat_map member_field members.now) }
{
    for member in members {
        put_member(out, member)?;
    }
    Ok(())
}

/// Members with their roles, behind their number.
#[tactic(auto, unfolding(wire_messages::specs::Nodes::members_field))]
pub(crate) fn put_members(out: &mut Vec<u8>, members: &Members) -> Result<(), NoMemory>
    ensures { OnOk result (out.new.items ≡ out.old.items ++ members_field members.now) }
{
    put_byte(out, members.len() as u8)?;
    put_each_member(out, members.as_slice())
}
