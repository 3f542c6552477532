//! Wants, replies and refusals are written.
ghost use Rattle.std.specs.Prelude.{◌≡◌, ◌++◌, ◌∷◌, OnOk};
ghost use Rattle.std.specs.Int.{w32};
ghost use Rattle.wire_messages.specs.Nodes.{id_field};
ghost use Rattle.wire_messages.specs.Numbers.{number_field};
ghost use Rattle.wire_messages.specs.Versions.{version_field};
ghost use Rattle.wire_messages.specs.Requests.{want_field, reply_field, refusal_field};

use crate::writing::nodes::put_id;
use crate::writing::numbers::{put_byte, put_u32};
use crate::writing::versions::{put_value, put_version};
use cluster_types::{NoMemory, NodeId};
use conflict_order::{Version, Want};
use wire_messages::{ReplyBody, ScanRefusal};

/// 0 get, 1 put and the value, 2 del.
#[tactic(auto, unfolding(wire_messages::specs::Numbers::byte_field, wire_messages::specs::Requests::want_field))]
pub(crate) fn put_want(out: &mut Vec<u8>, want: &Want) -> Result<(), NoMemory>
    ensures { OnOk result (out.new.items ≡ out.old.items ++ want_field want.now) }
{
    match want {
        Want::Get => put_byte(out, 0),
        Want::Put(value) => {
            put_byte(out, 1)?;
            put_value(out, value)
        }
        Want::Del => put_byte(out, 2),
    }
}

/// A tag and an id.
#[tactic(auto, unfolding(wire_messages::specs::Numbers::byte_field))]
fn put_tagged_id(out: &mut Vec<u8>, tag: u8, id: NodeId) -> Result<(), NoMemory>
    ensures { OnOk result (out.new.items ≡ out.old.items ++ tag ∷ id_field id) }
{
    put_byte(out, tag)?;
    put_id(out, id)
}

/// A tag and a number of 32 bits.
#[tactic(auto, unfolding(wire_messages::specs::Numbers::byte_field))]
fn put_tagged_number(out: &mut Vec<u8>, tag: u8, number: u32) -> Result<(), NoMemory>
    ensures { OnOk result (out.new.items ≡ out.old.items ++ tag ∷ number_field w32 number) }
{
    put_byte(out, tag)?;
    put_u32(out, number)
}

/// A tag and a version.
#[tactic(auto, unfolding(wire_messages::specs::Numbers::byte_field))]
fn put_tagged_version(out: &mut Vec<u8>, tag: u8, version: &Version) -> Result<(), NoMemory>
    ensures { OnOk result (out.new.items ≡ out.old.items ++ tag ∷ version_field version.now) }
{
    put_byte(out, tag)?;
    put_version(out, version)
}

/// A reply behind its tag.
#[tactic(auto, unfolding(wire_messages::specs::Numbers::byte_field, wire_messages::specs::Requests::reply_field))]
pub(crate) fn put_reply(out: &mut Vec<u8>, reply: &ReplyBody) -> Result<(), NoMemory>
    ensures { OnOk result (out.new.items ≡ out.old.items ++ reply_field reply.now) }
{
    match reply {
        ReplyBody::Nothing => put_byte(out, 0),
        ReplyBody::Found(version) => put_tagged_version(out, 1, version),
        ReplyBody::Done => put_byte(out, 2),
        ReplyBody::Exchanging(member) => put_tagged_id(out, 3, *member),
        ReplyBody::NotMaster(acting) => put_tagged_id(out, 4, *acting),
        ReplyBody::Busy(transaction) => put_tagged_number(out, 5, *transaction),
        ReplyBody::NoView => put_byte(out, 6),
    }
}

/// Why there is no page.
#[tactic(auto, unfolding(wire_messages::specs::Numbers::byte_field, wire_messages::specs::Requests::refusal_field))]
pub(crate) fn put_refusal(out: &mut Vec<u8>, refusal: &ScanRefusal) -> Result<(), NoMemory>
    ensures { OnOk result (out.new.items ≡ out.old.items ++ refusal_field refusal.now) }
{
    match refusal {
        ScanRefusal::NoView => put_byte(out, 1),
        ScanRefusal::Exchanging(member) => put_tagged_id(out, 2, *member),
        ScanRefusal::NotMaster(acting) => put_tagged_id(out, 3, *acting),
        ScanRefusal::NotSettled => put_byte(out, 4),
        ScanRefusal::Open(transaction) => put_tagged_number(out, 5, *transaction),
    }
}
