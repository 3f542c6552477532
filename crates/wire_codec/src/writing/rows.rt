//! Bit rows, rows of copy states and the table of ids are written.
ghost use Rattle.std.specs.Prelude.{◌≡◌, ◌≢◌, ◌++◌, ◌+◌, ◌*◌, ◌<◌, ◌≤◌, ◌^◌, All, length, map, OnOk};
ghost use Rattle.std.specs.List.{flat_map, range_with_len};
ghost use Rattle.cluster_types.specs.declared.copy_state.CopyState.TheVariants.{Empty};
ghost use Rattle.cluster_types.specs.RowBytes.{bytes_of};
ghost use Rattle.wire_messages.specs.Rows.{state_field, entry_field, state_row_field, FitsState};

use crate::writing::keys::put_key;
use crate::writing::numbers::{put_byte, put_u16, put_u32};
use cluster_types::{CopyState, NoMemory, PartitionId, Row4096, StateRow};

/// A bit row.
pub(crate) fn put_row(out: &mut Vec<u8>, row: &Row4096) -> Result<(), NoMemory>
    ensures { OnOk result (out.new.items ≡ out.old.items ++ bytes_of row.now) }
{
    out.extend_from_slice(row.as_bytes())?;
    Ok(())
}

/// The state of a copy that isn't empty.
#[tactic(auto, unfolding(wire_messages::specs::Numbers::byte_field, wire_messages::specs::Rows::state_field))]
fn put_state(out: &mut Vec<u8>, state: &CopyState) -> Result<(), NoMemory>
    requires { FitsState state.now }
    ensures { OnOk result (out.new.items ≡ out.old.items ++ state_field state.now) }
{
    match state {
        CopyState::Empty => put_byte(out, 0),
        CopyState::Part => put_byte(out, 1),
        CopyState::Whole { key, writes } => {
            put_byte(out, 2)?;
            put_key(out, *key)?;
            put_u32(out, *writes)
        }
    }
}

/// A partition and the state of its copy.
#[tactic(auto, unfolding(wire_messages::specs::Rows::entry_field))]
fn put_entry(out: &mut Vec<u8>, entry: &(PartitionId, CopyState)) -> Result<(), NoMemory>
    requires { FitsState entry.now.1 }
    ensures { OnOk result (out.new.items ≡ out.old.items ++ entry_field entry.now) }
{
    put_u16(out, entry.0.number())?;
    put_state(out, &entry.1)
}

/// Entries, one after another.
fn put_each_entry(out: &mut Vec<u8>, entries: &[(PartitionId, CopyState)]) -> Result<(), NoMemory>
    requires { All (λ e. FitsState e.1) entries.now }
    ensures { OnOk result (out.new.items ≡ out.old.items ++ flat_map entry_field entries.now) }
{
    for entry in entries {
        put_entry(out, entry)?;
    }
    Ok(())
}

/// Entries behind their number.
#[tactic(auto, unfolding(wire_messages::specs::Rows::state_row_field))]
pub(crate) fn put_state_row(out: &mut Vec<u8>, row: &StateRow) -> Result<(), NoMemory>
    requires states { All (λ e. FitsState e.1) row.now }
    requires limit { length row.now ≤ 4096 }
    ensures { OnOk result (out.new.items ≡ out.old.items ++ state_row_field row.now) }
{
    let entries = row.entries();
    put_u16(out, entries.len() as u16)?;
    put_each_entry(out, entries)
}
