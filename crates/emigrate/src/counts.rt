//! Digests that are pending are counted by partition.
ghost use Rattle.std.specs.Prelude.{◌≡◌, ◌<◌, ◌≤◌, ◌+◌, ℕ, IfOk, OnOk, OnErr, length, slice_index, slice_set};
ghost use Rattle.std.specs.List.{count_by};
ghost use Rattle.cluster_types.specs.Partitions.{partition_count, partition_of};
ghost use Rattle.node_rules.specs.Copies.{is_of};

use cluster_types::{Digest, NoMemory, PARTITIONS, PartitionId, partition_of};
use std::alloc::Global;
use std::collections::VecDeque;
use std::marker::Model;

/// How many digests of each partition are pending, at the targets of which they are counted so far.
#[derive(Debug, Drop)]
pub(crate) struct Counts {
    numbers: Vec<u32>,
}

impl Model for Counts {
    ghost use Rattle.std.specs.Prelude.{◌≡◌, List, ℕ, vec_len};
    ghost use Rattle.cluster_types.specs.Partitions.{partition_count};

    ghost Value = { List ℕ };

    ghost view = { λ c. c.numbers.items };

    ghost invariant = { λ c. vec_len c.numbers ≡ partition_count };
}

impl Counts {
    /// Nothing is pending.
    pub(crate) fn new(alloc: Global) -> Result<Counts, NoMemory>
        ensures { IfOk result (λ c. (p : ℕ) → slice_index c p ≡ 0) }
    {
        let mut numbers = Vec::new(alloc);
        numbers.resize(usize::from(PARTITIONS), 0)?;
        Ok(Counts { numbers })
    }

    /// One more digest is pending. More than 2^32 - 1 of a partition are too many for memory.
    fn add(&mut self, digest: &Digest) -> Result<(), NoMemory>
        ensures ok { OnOk result
            (self.new ≡ slice_set self.old (partition_of digest.now)
            (slice_index self.old (partition_of digest.now) + 1)) }
        ensures err { OnErr result (self.new ≡ self.old) }
        ensures size { length self.old ≡ partition_count }
    {
        let place = place_of(partition_of(digest));
        self.numbers[place] = self.numbers[place].checked_add(1).ok_or(NoMemory)?;
        Ok(())
    }

    /// These digests are pending besides.
    pub(crate) fn add_all(&mut self, digests: &VecDeque<Digest>) -> Result<(), NoMemory>
        ensures { OnOk result
            ((p : ℕ) → p < partition_count
            → slice_index self.new p
            ≡ slice_index self.old p + count_by (is_of p) digests.now.items) }
    {
        for i in 0..digests.len() {
            self.add(&digests[i])?;
        }
        Ok(())
    }

    /// The numbers, by partition.
    pub(crate) fn into_numbers(self) -> Vec<u32>
        ensures numbers { result.items ≡ self }
        ensures size { length self ≡ partition_count }
    {
        self.numbers
    }
}

/// The place of the partition in a list with one for each.
pub(crate) fn place_of(p: PartitionId) -> usize
    ensures place { result ≡ p }
    ensures within { result < partition_count }
{
    usize::from(p.number())
}
