//! Bit rows, rows of copy states and the table of ids are read.
ghost use Rattle.std.specs.Prelude.{◌≡◌, ◌≢◌, ◌<◌, ◌+◌, ◌*◌, ◌==◌, ◌&&◌, ◌||◌, ℕ, length, nat_lt, Some, None, IfOk};
ghost use Rattle.std.specs.Int.{w16};
ghost use Rattle.cluster_types.specs.declared.copy_state.CopyState.TheVariants.{Empty};
ghost use Rattle.cluster_types.specs.Partitions.{partition_count};
ghost use Rattle.cluster_types.specs.RowBytes.{bits_of};
ghost use Rattle.wire_messages.specs.Fields.{items_at};
ghost use Rattle.wire_messages.specs.Nodes.{any_id_at, with_any_id, table_at};
ghost use Rattle.wire_messages.specs.Numbers.{between, number_at};
ghost use Rattle.wire_codec.specs.Reading.{Reads, ReadsUnlessRefused, Fills};
ghost use Rattle.wire_messages.specs.Rows.{is_above, row_at, state_at, entry_at, with_entry, state_row_at};

use crate::reading::{ReadFault, Reader, bad};
use cluster_types::{Boxed, CopyState, NodeId, PARTITIONS, PartitionId, Row4096, StateRow};
use std::alloc::Global;
use wire_messages::{BoxedIds, FieldFault};

/// The bytes of a bit row.
const ROW_BYTES: usize = 512;

/// The least id for each partition.
fn least_ids() -> [NodeId; 4096]
    ensures { length result ≡ 4096 }
{
    [NodeId::MIN; 4096]
}

/// The row of which these are the bytes.
fn row_of(bytes: &[u8]) -> Row4096
    requires { length bytes.now ≡ 512 }
    ensures { result ≡ bits_of bytes.now }
{
    Row4096::from_bytes(bytes)
}

impl<'a> Reader<'a> {
    /// A bit row.
    #[tactic(auto, unfolding(wire_messages::specs::Fields::field, wire_messages::specs::Rows::row_at))]
    pub(crate) fn row(&mut self, alloc: Global) -> Result<Boxed<Row4096>, ReadFault>
        ensures { ReadsUnlessRefused result (row_at self.old.rest.now) self.new.rest.now }
    {
        let row = row_of(self.take(ROW_BYTES)?);
        Ok(Boxed::new(alloc, row)?)
    }

    /// A partition.
    #[tactic(auto, unfolding(wire_messages::specs::Fields::field, wire_messages::specs::Numbers::number_at))]
    pub(crate) fn partition(&mut self) -> Result<PartitionId, FieldFault>
        ensures { Reads result (number_at w16 (λ p. nat_lt p partition_count) self.old.rest.now)
            self.new.rest.now }
    {
        let bytes = self.rest;
        let number = self.u16()?;
        match PartitionId::new(number) {
            Some(partition) => Ok(partition),
            None => Err(bad(bytes)),
        }
    }

    /// A partition above the one before it, if there is one.
    #[tactic(auto, unfolding(wire_messages::specs::Fields::field, wire_messages::specs::Numbers::number_at))]
    fn partition_above(&mut self, before: Option<PartitionId>) -> Result<PartitionId, FieldFault>
        ensures reads { Reads result
            (number_at w16 (λ p. nat_lt p partition_count && is_above before p) self.old.rest.now)
            self.new.rest.now }
        ensures above { IfOk result (λ p. (b : ℕ) → before ≡ Some b → b < p) }
    {
        let bytes = self.rest;
        let partition = self.partition()?;
        if let Some(before) = before {
            if partition <= before {
                return Err(bad(bytes));
            }
        }
        Ok(partition)
    }

    /// The state of a copy that isn't empty.
    #[tactic(auto, unfolding(wire_messages::specs::Rows::state_at))]
    fn state(&mut self) -> Result<CopyState, FieldFault>
        ensures reads { Reads result (state_at self.old.rest.now) self.new.rest.now }
        ensures some { IfOk result (λ s. s ≢ Empty) }
    {
        let tag = self.byte(1, 2)?;
        if tag == 1 {
            return Ok(CopyState::Part);
        }
        let key = self.key()?;
        let writes = self.u32()?;
        Ok(CopyState::Whole { key, writes })
    }

    /// A partition above the one before it, and the state of its copy.
    #[tactic(auto, unfolding(wire_messages::specs::Rows::entry_at))]
    fn entry(&mut self, before: Option<PartitionId>) -> Result<(PartitionId, CopyState), FieldFault>
        ensures reads { Reads result (entry_at before 0 self.old.rest.now) self.new.rest.now }
        ensures above { IfOk result (λ e. (b : ℕ) → before ≡ Some b → b < e.0) }
        ensures some { IfOk result (λ e. e.1 ≢ Empty) }
    {
        let partition = self.partition_above(before)?;
        let state = self.state()?;
        Ok((partition, state))
    }

    /// The number of entries.
    #[tactic(auto, unfolding(wire_messages::specs::Fields::field, wire_messages::specs::Numbers::number_at))]
    fn entry_count(&mut self) -> Result<u16, FieldFault>
        ensures { Reads result (number_at w16 (between 0 4096) self.old.rest.now)
            self.new.rest.now }
    {
        let bytes = self.rest;
        let count = self.u16()?;
        if count > PARTITIONS {
            return Err(bad(bytes));
        }
        Ok(count)
    }

    /// So many entries.
    fn entries(&mut self, alloc: Global, count: u16) -> Result<StateRow, ReadFault>
        ensures { ReadsUnlessRefused result (items_at entry_at with_entry count None self.old.rest.now)
            self.new.rest.now }
    {
        let mut row = StateRow::new(alloc);
        let mut before = None;
        for _ in 0..count {
            let (partition, state) = self.entry(before)?;
            row.add(partition, state)?;
            before = Some(partition);
        }
        Ok(row)
    }

    /// The entries behind their number.
    #[tactic(auto, unfolding(wire_messages::specs::Rows::state_row_at))]
    pub(crate) fn state_row(&mut self, alloc: Global) -> Result<StateRow, ReadFault>
        ensures { ReadsUnlessRefused result (state_row_at self.old.rest.now) self.new.rest.now }
    {
        let count = self.entry_count()?;
        self.entries(alloc, count)
    }

    /// An id for each place.
    fn fill_ids(&mut self, ids: &mut [NodeId]) -> Result<(), FieldFault>
        ensures { Fills result ids.new
            (items_at any_id_at with_any_id (length ids.old) None self.old.rest.now)
            self.new.rest.now }
    {
        for i in 0..ids.len() {
            let id = self.id()?;
            ids[i] = id;
        }
        Ok(())
    }

    /// An id for each partition.
    #[tactic(auto, unfolding(wire_messages::specs::Nodes::table_at))]
    pub(crate) fn table(&mut self, alloc: Global) -> Result<BoxedIds, ReadFault>
        ensures { ReadsUnlessRefused result (table_at self.old.rest.now) self.new.rest.now }
    {
        let mut ids = least_ids();
        self.fill_ids(&mut ids)?;
        Ok(BoxedIds::new(alloc, ids)?)
    }
}
