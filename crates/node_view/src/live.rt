//! The partitions that a tick looks at.
ghost use Rattle.std.specs.Prelude.{◌≡◌, ◌↔◌, ℕ, false, IsTrue, IfOk, MatchOption, length, slice_set};
ghost use Rattle.cluster_types.specs.Partitions.{partition_count};
ghost use Rattle.cluster_types.specs.Rows.{bit, IsClearFrom, IsNextSet};
ghost use Rattle.node_rules.specs.Bits.{clear_row};

use cluster_types::{NoMemory, PartitionId, Row4096};
use std::alloc::Global;
use std::marker::Model;

/// The partitions where a line may still come of hand-over, settling, learning or dropping. A tick
/// looks at these alone.
#[derive(Debug, Drop)]
pub(crate) struct Live {
    marks: Box<Row4096>,
    count: usize,
}

impl Model for Live {
    ghost use Rattle.std.specs.Prelude.{◌≡◌, List, Bool, length};
    ghost use Rattle.std.specs.List.{count_by};
    ghost use Rattle.cluster_types.specs.Partitions.{partition_count};

    ghost Value = { List Bool };

    ghost view = { λ l. l.marks.value };

    ghost invariant = { λ l.
        (length l.marks.value ≡ partition_count) × (l.count ≡ count_by (λ b. b) l.marks.value) };
}

impl Live {
    /// No partitions.
    pub fn new(alloc: Global) -> Result<Live, NoMemory>
        ensures { IfOk result (λ l. l ≡ clear_row) }
    {
        let marks = Box::new(alloc, Row4096::new())?;
        Ok(Live { marks, count: 0 })
    }

    /// Whether there are none.
    pub fn is_empty(&self) -> bool
        ensures { IsTrue result ↔ ((p : ℕ) → bit self.now p ≡ false) }
    {
        self.count == 0
    }

    /// The first of them from that number on.
    pub fn next(&self, from: u16) -> Option<PartitionId>
        ensures { MatchOption result (IsClearFrom self.now from) (λ p. IsNextSet self.now from p) }
    {
        self.marks.next_set(from)
    }

    /// The partition is one of them from now on, or isn't.
    pub fn set(&mut self, p: PartitionId, is_live: bool)
        ensures row { self.new ≡ slice_set self.old p is_live }
        ensures set { bit self.new p ≡ is_live }
    {
        let was_live = self.marks.get(p);
        if was_live && !is_live {
            self.count -= 1;
            *self.marks = without(&self.marks, p);
        }
        if !was_live && is_live {
            self.count += 1;
            self.marks.put(p);
        }
    }
}

/// The row without the partition's bit.
fn without(row: &Row4096, p: PartitionId) -> Row4096
    requires { length row.now ≡ partition_count }
    ensures row { result ≡ slice_set row.now p false }
    ensures size { length result ≡ partition_count }
{
    let mut taken = Row4096::new();
    taken.put(p);
    row.difference(&taken)
}
