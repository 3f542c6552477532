//! The records that lines applied or merged.
ghost use Rattle.std.specs.Prelude.{◌≡◌, ℕ, List, ◌<◌, ◌^◌, ◌-◌, true, Some, None, cond, nat_eq, bytes_eq, IsSome, IfOk, OnOk, OnErr, option_map};
ghost use Rattle.cluster_types.specs.Partitions.{partition_of};
ghost use Rattle.audit_state.specs.Records.{record_number, record_digest, newest_of, holders_of, numbered_record, AreNone, AreNumberedRecords, Opens, KeepsNumbers, SameRecords, raised, raised_holders, holder_count};

use crate::versions::Versions;
use cluster_types::{Digest, NoMemory, PartitionId, partition_of};
use std::alloc::Global;
use std::collections::HashMap;

/// What is known of a record.
#[derive(Clone, Copy, Debug)]
pub struct Record {
    pub digest: Digest,
    /// The place of the newest version that was applied.
    pub newest: Option<usize>,
    /// How many nodes hold it.
    pub holders: usize,
}

/// The records, each with a number.
#[derive(Drop)]
pub struct Records {
    /// By their digests.
    numbers: HashMap<[u8; 20], usize>,
    /// By their numbers.
    known: Vec<Record>,
}

impl Records {
    pub fn new(alloc: Global) -> Records
        ensures { AreNone result }
    {
        Records {
            numbers: HashMap::new(alloc),
            known: Vec::new(alloc),
        }
    }

    /// The number of the record, if some line applied or merged it.
    pub fn number(&self, digest: &Digest) -> Option<usize>
        ensures { result ≡ record_number self.now digest.now }
    {
        self.numbers.get(digest.bytes()).copied()
    }

    /// The number of the record, which is new where no line applied or merged it before. Where memory is refused, all
    /// records are as they were.
    pub fn open(&mut self, digest: &Digest) -> Result<usize, NoMemory>
        requires { AreNumberedRecords self.old }
        ensures opens { IfOk result (λ r. Opens self.old self.new digest.now r) }
        ensures numbered { OnOk result (AreNumberedRecords self.new) }
        ensures refused { OnErr result (SameRecords self.old self.new) }
    {
        match self.number(digest) {
            Some(number) => Ok(number),
            None => self.add(digest),
        }
    }

    /// A new record.
    fn add(&mut self, digest: &Digest) -> Result<usize, NoMemory>
        requires numbered { AreNumberedRecords self.old }
        requires fresh { record_number self.old digest.now ≡ None }
        ensures opens { IfOk result (λ r. Opens self.old self.new digest.now r) }
        ensures numbered { OnOk result (AreNumberedRecords self.new) }
        ensures refused { OnErr result (SameRecords self.old self.new) }
    {
        let number = self.known.len();
        self.known.reserve(1)?;
        self.numbers.insert(*digest.bytes(), number)?;
        // There is room for it.
        let _ = self.known.push(Record {
            digest: *digest,
            newest: None,
            holders: 0,
        });
        Ok(number)
    }

    /// The partition of the record of that number.
    pub fn partition(&self, number: usize) -> Option<PartitionId>
        ensures { result ≡ option_map partition_of (record_digest self.now number) }
    {
        match self.known.get(number) {
            None => None,
            Some(known) => Some(partition_of(&known.digest)),
        }
    }

    /// The place of the newest version of the record that was applied.
    pub fn newest(&self, number: usize) -> Option<usize>
        ensures { result ≡ newest_of self.now number }
    {
        match self.known.get(number) {
            None => None,
            Some(known) => known.newest,
        }
    }

    /// How many nodes hold it.
    pub fn holders(&self, number: usize) -> usize
        ensures { result ≡ holders_of self.now number }
    {
        match self.known.get(number) {
            None => 0,
            Some(known) => known.holders,
        }
    }

    /// A version is applied: it is the newest of the record where none is above it, and where it is above all before,
    /// nobody holds the newest yet.
    pub fn raise(&mut self, versions: Versions<'_>, number: usize, place: usize)
        requires { IsSome (numbered_record self.old number) }
        ensures numbers { KeepsNumbers self.old self.new }
        ensures newest { (q : ℕ)
            → newest_of self.new q ≡ cond (nat_eq number q)
            (raised versions.entry.by versions.entry.lines.now place (newest_of self.old number))
            (newest_of self.old q) }
        ensures holders { (q : ℕ)
            → holders_of self.new q ≡ cond (nat_eq number q)
            (raised_holders versions.entry.by versions.entry.lines.now place
            (newest_of self.old number) (holders_of self.old number)) (holders_of self.old q) }
    {
        if let Some(known) = self.known.get_mut(number) {
            *known = raise(versions, *known, place);
        }
    }

    /// One node more, or one less, holds the newest version of the record.
    pub fn count(&mut self, number: usize, held: bool, holds: bool)
        requires there { IsSome (numbered_record self.old number) }
        requires held { held ≡ true → 0 < holders_of self.old number }
        requires room { holders_of self.old number < 2 ^ 64 - 1 }
        ensures numbers { KeepsNumbers self.old self.new }
        ensures newest { (q : ℕ) → newest_of self.new q ≡ newest_of self.old q }
        ensures holders { (q : ℕ)
            → holders_of self.new q ≡ cond (nat_eq number q)
            (holder_count held holds (holders_of self.old number)) (holders_of self.old q) }
    {
        if let Some(known) = self.known.get_mut(number) {
            known.holders = count(known.holders, held, holds);
        }
    }
}

/// What is known of the record as the version at the place is applied.
fn raise(versions: Versions<'_>, known: Record, place: usize) -> Record
    ensures digest { result.digest ≡ known.digest }
    ensures newest { result.newest
        ≡ raised versions.entry.by versions.entry.lines.now place known.newest }
    ensures holders { result.holders ≡ raised_holders versions.entry.by versions.entry.lines.now
        place known.newest known.holders }
{
    if versions.at_most(Some(place), known.newest) {
        known
    } else {
        Record {
            digest: known.digest,
            newest: Some(place),
            holders: 0,
        }
    }
}

/// So many with one more, or one less.
fn count(holders: usize, held: bool, holds: bool) -> usize
    requires held { held ≡ true → 0 < holders }
    requires room { holders < 2 ^ 64 - 1 }
    ensures { result ≡ holder_count held holds holders }
{
    match (held, holds) {
        (false, true) => holders + 1,
        (true, false) => holders - 1,
        _ => holders,
    }
}
