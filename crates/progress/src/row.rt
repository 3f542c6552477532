//! Bits of every partition on the heap.
ghost use Rattle.std.specs.Prelude.{◌≡◌, IfOk, length};
ghost use Rattle.cluster_types.specs.Partitions.{partition_count};
ghost use Rattle.cluster_types.specs.Rows.{bit};
ghost use Rattle.node_rules.specs.Bits.{clear_row, or_rows, with_bit};

use cluster_types::{NoMemory, PartitionId, Row4096};
use std::alloc::Global;
use std::marker::Model;

/// A row of bits on the heap.
#[derive(Drop)]
pub(crate) struct HeapRow {
    row: Box<Row4096>,
}

impl Model for HeapRow {
    ghost use Rattle.std.specs.Prelude.{◌≡◌, List, Bool, length};
    ghost use Rattle.cluster_types.specs.Partitions.{partition_count};

    ghost Value = { List Bool };

    ghost view = { λ r. r.row.value };

    ghost invariant = { λ r. length r.row.value ≡ partition_count };
}

impl HeapRow {
    /// A row in which no bit is set.
    pub fn new(alloc: Global) -> Result<HeapRow, NoMemory>
        ensures { IfOk result (λ r. r ≡ clear_row) }
    {
        let row = Box::new(alloc, Row4096::new())?;
        Ok(HeapRow { row })
    }

    pub fn get(&self, p: PartitionId) -> bool
        ensures { result ≡ bit self.now p }
    {
        self.row.get(p)
    }

    pub fn put(&mut self, p: PartitionId)
        ensures { self.new ≡ with_bit self.old p }
    {
        self.row.put(p);
    }

    /// Sets besides each bit that the other row has.
    pub fn or(&mut self, other: &Row4096)
        ensures { self.new ≡ or_rows self.old other.now }
    {
        read(other);
        self.row.or(other);
    }

    /// Takes over the bits of the other row.
    pub fn set(&mut self, other: &Row4096)
        ensures { self.new ≡ other.now }
    {
        read(other);
        *self.row = *other;
    }

    pub fn as_row(&self) -> &Row4096
        ensures same { result.now ≡ self.now }
        ensures size { length self.now ≡ partition_count }
    {
        &self.row
    }
}

/// Reads one bit of the row, which tells that it has one for each partition.
fn read(row: &Row4096)
    ensures { length row.now ≡ partition_count }
{
    if let Some(first) = PartitionId::new(0) {
        let _ = row.get(first);
    }
}
