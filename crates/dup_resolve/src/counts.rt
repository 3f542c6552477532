//! How many transactions are open on each partition.
ghost use Rattle.std.specs.Prelude.{◌≡◌, ◌<◌, ◌≤◌, ◌+◌, ◌-◌, ◌^◌, ℕ, [], IsOk, OnOk, length, slice_index, slice_set};
ghost use Rattle.cluster_types.specs.Partitions.{partition_count};

use cluster_types::{NoMemory, PARTITIONS, PartitionId};
use std::alloc::Global;
use std::marker::Model;

/// A number for each partition, 0 at first. It takes memory with the first `reserve` alone.
#[derive(Debug, Drop)]
pub(crate) struct Counts {
    numbers: Vec<u32>,
}

impl Model for Counts {
    ghost use Rattle.std.specs.Prelude.{List, ℕ};

    ghost Value = { List ℕ };

    ghost view = { λ c. c.numbers.items };
}

impl Counts {
    /// All are 0.
    pub(crate) fn new(alloc: Global) -> Counts
        ensures { result ≡ [] }
    {
        Counts {
            numbers: Vec::new(alloc),
        }
    }

    /// Makes room for all partitions.
    pub(crate) fn reserve(&mut self) -> Result<(), NoMemory>
        ensures same { (p : ℕ) → slice_index self.new p ≡ slice_index self.old p }
        ensures kept { length self.old ≤ length self.new }
        ensures enough { OnOk result (partition_count ≤ length self.new) }
        ensures reserved { partition_count ≤ length self.old → IsOk result }
    {
        add_zeros(&mut self.numbers)
    }

    /// The partition's number.
    pub(crate) fn at(&self, p: PartitionId) -> u32
        ensures value { result ≡ slice_index self.now p }
        ensures within { p < partition_count }
    {
        match self.numbers.get(usize::from(p.number())) {
            Some(count) => *count,
            None => 0,
        }
    }

    /// One more, where there is room.
    pub(crate) fn add(&mut self, p: PartitionId)
        requires room { partition_count ≤ length self.old }
        requires limit { slice_index self.old p < 2 ^ 32 - 1 }
        ensures { self.new ≡ slice_set self.old p (slice_index self.old p + 1) }
    {
        self.numbers[usize::from(p.number())] += 1;
    }

    /// One less, where there is one at least.
    pub(crate) fn remove(&mut self, p: PartitionId)
        requires { 0 < slice_index self.old p }
        ensures { self.new ≡ slice_set self.old p (slice_index self.old p - 1) }
    {
        self.numbers[usize::from(p.number())] -= 1;
    }

    /// All are 0 again.
    pub(crate) fn clear(&mut self)
        ensures none { (p : ℕ) → slice_index self.new p ≡ 0 }
        ensures len { length self.new ≡ length self.old }
    {
        self.numbers.fill(0);
    }
}

/// Adds zeros at the end until there is a number for each partition.
fn add_zeros(numbers: &mut Vec<u32>) -> Result<(), NoMemory>
    ensures same { (p : ℕ) → slice_index numbers.new.items p ≡ slice_index numbers.old.items p }
    ensures kept { length numbers.old.items ≤ length numbers.new.items }
    ensures enough { OnOk result (partition_count ≤ length numbers.new.items) }
    ensures reserved { partition_count ≤ length numbers.old.items → IsOk result }
{
    while numbers.len() < usize::from(PARTITIONS) {
        numbers.push(0)?;
    }
    Ok(())
}
