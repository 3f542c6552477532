//! Digests, values, versions and records are written.
ghost use Rattle.std.specs.Prelude.{◌≡◌, ◌++◌, ◌≤◌, length, take, OnOk};
ghost use Rattle.std.specs.Option.{option_copied};
ghost use Rattle.std.specs.List.{flat_map};
ghost use Rattle.wire_messages.specs.Versions.{option_digest_field, value_field, body_field, version_field, option_version_field, record_field, records_field};

use crate::writing::numbers::{put_byte, put_u32, put_u64};
use cluster_types::{Digest, NoMemory};
use conflict_order::{Body, ValueBytes, Version};
use wire_messages::Records;

/// A digest.
pub(crate) fn put_digest(out: &mut Vec<u8>, digest: &Digest) -> Result<(), NoMemory>
    ensures { OnOk result (out.new.items ≡ out.old.items ++ digest.now) }
{
    out.extend_from_slice(digest.as_slice())
}

/// 0, or 1 and a digest.
#[tactic(auto, unfolding(wire_messages::specs::Numbers::byte_field, wire_messages::specs::Versions::option_digest_field))]
pub(crate) fn put_option_digest(out: &mut Vec<u8>, digest: &Option<Digest>) -> Result<(), NoMemory>
    ensures { OnOk result (out.new.items ≡ out.old.items ++ option_digest_field digest.now) }
{
    match digest {
        None => put_byte(out, 0),
        Some(digest) => {
            put_byte(out, 1)?;
            put_digest(out, digest)
        }
    }
}

/// A value behind the number of its bytes.
#[tactic(auto, unfolding(wire_messages::specs::Versions::value_field))]
pub(crate) fn put_value(out: &mut Vec<u8>, value: &ValueBytes) -> Result<(), NoMemory>
    ensures { OnOk result (out.new.items ≡ out.old.items ++ value_field value.now) }
{
    let bytes = value.as_slice();
    put_byte(out, bytes.len() as u8)?;
    out.extend_from_slice(bytes)
}

/// 0 for a tombstone, or 1 and the value.
#[tactic(auto, unfolding(wire_messages::specs::Numbers::byte_field, wire_messages::specs::Versions::body_field))]
fn put_body(out: &mut Vec<u8>, body: &Body) -> Result<(), NoMemory>
    ensures { OnOk result (out.new.items ≡ out.old.items ++ body_field body.now) }
{
    match body {
        Body::Tombstone => put_byte(out, 0),
        Body::Value(value) => {
            put_byte(out, 1)?;
            put_value(out, value)
        }
    }
}

/// A version.
#[tactic(auto, unfolding(wire_messages::specs::Versions::version_field))]
pub(crate) fn put_version(out: &mut Vec<u8>, version: &Version) -> Result<(), NoMemory>
    ensures { OnOk result (out.new.items ≡ out.old.items ++ version_field version.now) }
{
    put_u64(out, version.lut)?;
    put_u32(out, version.generation)?;
    put_body(out, &version.body)
}

/// 0, or 1 and a version.
#[tactic(auto, unfolding(wire_messages::specs::Numbers::byte_field, wire_messages::specs::Versions::option_version_field))]
pub(crate) fn put_option_version(
    out: &mut Vec<u8>,
    version: &Option<Version>,
) -> Result<(), NoMemory>
    ensures { OnOk result (out.new.items ≡ out.old.items ++ option_version_field version.now) }
{
    match version {
        None => put_byte(out, 0),
        Some(version) => {
            put_byte(out, 1)?;
            put_version(out, version)
        }
    }
}

/// A digest and its version.
#[tactic(auto, unfolding(wire_messages::specs::Versions::record_field))]
fn put_record(out: &mut Vec<u8>, item: &(Digest, Version)) -> Result<(), NoMemory>
    ensures { OnOk result (out.new.items ≡ out.old.items ++ record_field item.now) }
{
    put_digest(out, &item.0)?;
    put_version(out, &item.1)
}

/// Records, one after another.
fn put_each_record(out: &mut Vec<u8>, records: &Records) -> Result<(), NoMemory>
    ensures { OnOk result (out.new.items ≡ out.old.items ++ flat_map record_field records.now) }
{
    for record in records {
        put_record(out, record)?;
    }
    Ok(())
}

/// Records behind their number.
#[tactic(auto, unfolding(wire_messages::specs::Versions::records_field))]
pub(crate) fn put_records(out: &mut Vec<u8>, records: &Records) -> Result<(), NoMemory>
    requires { length records.now ≤ 64 }
    ensures { OnOk result (out.new.items ≡ out.old.items ++ records_field records.now) }
{
    put_byte(out, records.len() as u8)?;
    put_each_record(out, records)
}
