//! How many digests of each partition are pending.
ghost use Rattle.std.specs.Prelude.{◌≡◌, ◌==◌, ◌<◌, ◌≤◌, ◌+◌, ◌-◌, ℕ, IfOk, length, slice_index, slice_set};
ghost use Rattle.std.specs.List.{count_by};
ghost use Rattle.cluster_types.specs.Partitions.{partition_count, partition_of};
ghost use Rattle.cluster_types.specs.Rows.{bit};
ghost use Rattle.node_rules.specs.Copies.{is_of};
ghost use Rattle.emigrate.specs.Going.{IsDoneRow, batch_digests};

use crate::counts::{Counts, place_of};
use cluster_types::{Digest, NoMemory, PARTITIONS, PartitionId, Row4096, partition_of};
use std::alloc::Global;
use std::marker::Model;
use wire_messages::Batch;

/// How many digests of each partition are pending, at all targets together, and the partitions of
/// which none is.
#[derive(Debug, Drop)]
pub(crate) struct Pending {
    numbers: Vec<u32>,
    done: Box<Row4096>,
}

impl Model for Pending {
    ghost use Rattle.std.specs.Prelude.{◌≡◌, List, ℕ, vec_len};
    ghost use Rattle.cluster_types.specs.Partitions.{partition_count};
    ghost use Rattle.emigrate.specs.Going.{IsDoneRow};

    ghost Value = { List ℕ };

    ghost view = { λ c. c.numbers.items };

    ghost invariant = { λ c.
        (vec_len c.numbers ≡ partition_count) × IsDoneRow c.numbers.items c.done.value };
}

impl Pending {
    /// What is counted is pending, and nothing else.
    pub(crate) fn of(alloc: Global, counts: Counts) -> Result<Pending, NoMemory>
        ensures { IfOk result (λ c. c ≡ counts) }
    {
        let numbers = counts.into_numbers();
        let done = Box::new(alloc, done_in(&numbers))?;
        Ok(Pending { numbers, done })
    }

    /// A digest that was pending isn't any more.
    fn remove(&mut self, digest: &Digest)
        requires { 0 < slice_index self.old (partition_of digest.now) }
        ensures less { self.new ≡ slice_set self.old (partition_of digest.now)
            (slice_index self.old (partition_of digest.now) - 1) }
        ensures size { length self.old ≡ partition_count }
    {
        let p = partition_of(digest);
        let number = self.numbers[place_of(p)] - 1;
        self.numbers[place_of(p)] = number;
        if number == 0 {
            self.done.put(p);
        }
    }

    /// The batch's digests, which were pending, aren't any more.
    pub(crate) fn remove_all(&mut self, batch: &Batch)
        requires { (p : ℕ) → p < partition_count
            → count_by (is_of p) (batch_digests batch.now) ≤ slice_index self.old p }
        ensures { (p : ℕ) → p < partition_count
            → slice_index self.new p + count_by (is_of p) (batch_digests batch.now)
            ≡ slice_index self.old p }
    {
        for i in 0..batch.records.len() {
            if let Some((digest, _)) = batch.records.get(i) {
                self.remove(digest);
            }
        }
    }

    /// Whether nothing of the partition is pending.
    pub(crate) fn is_done(&self, p: PartitionId) -> bool
        ensures done { result ≡ (slice_index self.now p == 0) }
        ensures within { p < partition_count }
    {
        self.numbers[place_of(p)] == 0
    }

    /// The partitions of which nothing is pending.
    pub(crate) fn done(&self) -> &Row4096
        ensures { (p : ℕ) → p < partition_count → bit result.now p ≡ (slice_index self.now p == 0) }
    {
        &self.done
    }
}

/// The partitions whose number is 0.
fn done_in(numbers: &[u32]) -> Row4096
    requires { length numbers.now ≡ partition_count }
    ensures { IsDoneRow numbers.now result }
{
    let mut done = Row4096::new();
    for number in 0..PARTITIONS {
        if let Some(p) = PartitionId::new(number)
            && numbers[place_of(p)] == 0
        {
            done.put(p);
        }
    }
    done
}
