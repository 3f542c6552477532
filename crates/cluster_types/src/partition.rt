//! The parts of the digest space.
ghost use Rattle.std.specs.Prelude.{◌≡◌, ◌<◌, ℕ, Some, SomeIff};
ghost use Rattle.cluster_types.specs.Partitions.{partition_count, partition_of};
ghost use Rattle.cluster_types.specs.Texts.{partition_text};

use crate::digest::Digest;
use std::fmt;
use std::marker::Model;

/// How many partitions there are.
pub const PARTITIONS: u16 = 4096;

/// The number of a partition: 0 to 4,095.
#[derive(Clone, Copy, Debug, PartialEq, Eq, PartialOrd, Ord)]
pub struct PartitionId {
    number: u16,
}

impl Model for PartitionId {
    ghost Value = { ℕ };

    ghost view = { λ p. p.number };

    ghost invariant = { λ p. p.number < 4096 };

    ghost inverse = { λ n. record { number = n } };
}

impl PartitionId {
    /// The partition of that number, and `None` from 4,096 on.
    pub fn new(n: u16) -> Option<PartitionId>
        ensures { SomeIff result (n < partition_count) n }
    {
        if n >= PARTITIONS {
            return None;
        }
        Some(PartitionId { number: n })
    }

    /// The number that the partition was made of.
    pub fn number(self) -> u16
        ensures same { result ≡ self }
        ensures range { result < partition_count }
    {
        self.number
    }
}

/// Writes the number in decimal.
impl fmt::Display for PartitionId {
    ghost output = { λ p. Some (partition_text p) };

    fn fmt<W: fmt::Write>(&self, f: &mut fmt::Formatter<W>) -> fmt::Result {
        let number = self.number;
        write!(f, "{number}")
    }
}

/// The partition in which a record of this digest lives: the digest's first two bytes, read with
/// the low byte first, modulo 4,096.
pub fn partition_of(d: &Digest) -> PartitionId
    ensures { result ≡ partition_of d.now }
{
    let bytes = d.bytes();
    PartitionId {
        number: u16::from_le_bytes([bytes[0], bytes[1]]) % PARTITIONS,
    }
}
