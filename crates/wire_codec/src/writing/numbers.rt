//! Numbers and flags are written.
ghost use Rattle.std.specs.Prelude.{◌≡◌, ◌++◌, OnOk};
ghost use Rattle.std.specs.Int.{w16, w32, w64};
ghost use Rattle.wire_messages.specs.Numbers.{number_field, byte_field, flag_field};

use cluster_types::NoMemory;

/// A number of 16 bits.
#[tactic(auto, unfolding(wire_messages::specs::Numbers::number_field))]
pub(crate) fn put_u16(out: &mut Vec<u8>, number: u16) -> Result<(), NoMemory>
    ensures { OnOk result (out.new.items ≡ out.old.items ++ number_field w16 number) }
{
    out.extend_from_slice(&number.to_be_bytes())
}

/// A number of 32 bits.
#[tactic(auto, unfolding(wire_messages::specs::Numbers::number_field))]
pub(crate) fn put_u32(out: &mut Vec<u8>, number: u32) -> Result<(), NoMemory>
    ensures { OnOk result (out.new.items ≡ out.old.items ++ number_field w32 number) }
{
    out.extend_from_slice(&number.to_be_bytes())
}

/// A number of 64 bits.
#[tactic(auto, unfolding(wire_messages::specs::Numbers::number_field))]
pub(crate) fn put_u64(out: &mut Vec<u8>, number: u64) -> Result<(), NoMemory>
    ensures { OnOk result (out.new.items ≡ out.old.items ++ number_field w64 number) }
{
    out.extend_from_slice(&number.to_be_bytes())
}

/// A count, a tag or a length.
#[tactic(auto, unfolding(wire_messages::specs::Numbers::byte_field))]
pub(crate) fn put_byte(out: &mut Vec<u8>, byte: u8) -> Result<(), NoMemory>
    ensures { OnOk result (out.new.items ≡ out.old.items ++ byte_field byte) }
{
    out.push(byte)?;
    Ok(())
}

/// 1 where it holds, and otherwise 0.
#[tactic(auto, unfolding(wire_messages::specs::Numbers::byte_field, wire_messages::specs::Numbers::flag_field))]
pub(crate) fn put_flag(out: &mut Vec<u8>, holds: bool) -> Result<(), NoMemory>
    ensures { OnOk result (out.new.items ≡ out.old.items ++ flag_field holds) }
{
    put_byte(out, u8::from(holds))
}
