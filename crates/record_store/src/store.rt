//! The store of a node.
ghost use Rattle.std.specs.Prelude.{◌≡◌, ◌==◌, if◌then◌else◌, ℕ, ◌+◌, ◌∷◌, ◌<◌, ◌≤◌, [], take, map, None, All, IsOk, IsSome, IfOk, OnOk, OnErr, length, slice_index};
ghost use Rattle.std.specs.Option.{option_copied};
ghost use Rattle.std.specs.FinMap as finite;
ghost use Rattle.cluster_types.specs.Copies.{digests_of, state_of_copy, state_with, without_copy};
ghost use Rattle.cluster_types.specs.Partitions.{partition_count, partition_of};
ghost use Rattle.cluster_types.specs.StateRows.{state_of};
ghost use Rattle.conflict_order.specs.declared.policy.Policy.TheVariants.{Time};
ghost use Rattle.conflict_order.specs.Contents.{joined};
ghost use Rattle.record_store.specs.Copies.{copies_of, rooms_of};
ghost use Rattle.record_store.specs.StampList.{shown_stamp};
ghost use Rattle.record_store.specs.Store.{IsNewStore, HoldsTheSame, HasRoom, KeepsRoom, UsesRoom, room_at, digests_above, answer};

use crate::joined::Joined;
use crate::stamp::Stamp;
use cluster_types::{
    ClusterKey, CopyState, Digest, DigestList, NoMemory, PARTITIONS, PartitionId, StateRow,
    partition_of,
};
use conflict_order::{Policy, Version};
use sorted_chain::{Iter, SortedChain};
use std::alloc::Global;
use std::marker::Model;

/// The versions that a node holds, at most one for each digest, and the stamps of its copies.
#[derive(Debug, Drop)]
pub struct RecordStore {
    copies: Vec<SortedChain<Version>>,
    stamps: Vec<Option<Stamp>>,
    by: Policy,
}

impl Model for RecordStore {
    ghost use Rattle.std.specs.Prelude.{◌≡◌, length};
    ghost use Rattle.std.specs.Coded.{codes};
    ghost use Rattle.conflict_order.specs.contracts.policy.Policy as policy;
    ghost use Rattle.cluster_types.specs.Partitions.{partition_count};
    ghost use Rattle.conflict_order.specs.Contents.{content_code};
    ghost use Rattle.cluster_types.specs.Copies.{stamps_code};
    ghost use Rattle.record_store.specs.Store.{StoreWithRoom};
    ghost use Rattle.record_store.specs.Copies.{copies_of, rooms_of, versions_of, AreCopies};
    ghost use Rattle.record_store.specs.StampList.{stamps_of};

    ghost Value = { StoreWithRoom };

    ghost coded = { Prim.hlevel (codes, content_code, stamps_code, policy.the_row.coded) };

    ghost view = { λ s.
        record {
          versions = versions_of (copies_of s.copies.items);
          stamps = stamps_of s.stamps.items;
          by = s.by;
          spare = rooms_of s.copies.items;
        } };

    ghost invariant = { λ s.
        AreCopies (copies_of s.copies.items) × (length s.stamps.items ≡ partition_count) };
}

impl RecordStore {
    /// A store without records and stamps, in which versions compare by time first.
    pub fn new(alloc: Global) -> Result<RecordStore, NoMemory>
        ensures { IfOk result (IsNewStore Time) }
    {
        RecordStore::with_policy(alloc, Policy::Time)
    }

    /// A store without records and stamps, in which versions compare by that policy.
    pub fn with_policy(alloc: Global, by: Policy) -> Result<RecordStore, NoMemory>
        ensures { IfOk result (IsNewStore by) }
    {
        Ok(RecordStore {
            copies: empty_copies(alloc)?,
            stamps: no_stamps(alloc)?,
            by,
        })
    }

    /// The version that is held of the digest.
    pub fn get(&self, d: &Digest) -> Option<&Version>
        ensures { option_copied result ≡ finite.get self.now.versions d.now }
    {
        self.copies[place_of(partition_of(d))].find(d.bytes())
    }

    /// The state of the partition's copy: empty while it has no record, also where it has a stamp.
    pub fn state(&self, p: PartitionId) -> CopyState
        ensures { result ≡ state_of_copy self.now.versions self.now.stamps p }
    {
        let place = place_of(p);
        copy_state(&self.copies[place], self.stamps[place])
    }

    /// The stamp of the partition's copy, which also stays while the copy has no record.
    pub fn stamp_at(&self, p: PartitionId) -> Option<Stamp>
        ensures { shown_stamp result ≡ finite.get self.now.stamps p }
    {
        self.stamps[place_of(p)]
    }

    /// The states of all copies.
    pub fn row(&self, alloc: Global) -> Result<StateRow, NoMemory>
        ensures { IfOk result
            (λ row. (p : ℕ) → p < partition_count
            → state_of row p ≡ state_of_copy self.now.versions self.now.stamps p) }
    {
        let mut row = StateRow::new(alloc);
        for number in 0..PARTITIONS {
            if let Some(p) = PartitionId::new(number) {
                add_state(&mut row, p, self.state(p))?;
            }
        }
        Ok(row)
    }

    /// Makes room for the digests: `join_in` then doesn't want memory for any of them.
    pub fn reserve(&mut self, ds: &DigestList) -> Result<(), NoMemory>
        ensures room { OnOk result (HasRoom ds.now self.new.spare) }
        ensures kept { KeepsRoom self.old.spare self.new.spare }
        ensures same { HoldsTheSame self.old self.new }
    {
        match ds.as_slice() {
            [d] => reserve_one(&mut self.copies, d),
            ds => reserve_each(&mut self.copies, ds),
        }
    }

    /// Makes room for one digest.
    pub fn reserve_one(&mut self, d: &Digest) -> Result<(), NoMemory>
        ensures room { OnOk result (HasRoom (d.now ∷ []) self.new.spare) }
        ensures kept { KeepsRoom self.old.spare self.new.spare }
        ensures same { HoldsTheSame self.old self.new }
    {
        reserve_one(&mut self.copies, d)
    }

    /// Whether the version is newer than the one that is held.
    pub fn would_join(&self, d: &Digest, v: &Version) -> Joined
        ensures { result ≡ answer self.now.by v.now (finite.get self.now.versions d.now) }
    {
        if v.is_newer(self.get(d), self.by) {
            Joined::Newer
        } else {
            Joined::Kept
        }
    }

    /// Keeps the greater of the version and the one that is held. A new digest uses up room for
    /// one, if there is any.
    pub fn join_in(&mut self, d: Digest, v: Version) -> Result<Joined, NoMemory>
        ensures joined { OnOk result
            (self.new.versions ≡ joined self.old.by self.old.versions d v) }
        ensures answer { IfOk result
            (λ became. became ≡ answer self.old.by v (finite.get self.old.versions d)) }
        ensures stamps { self.new.stamps ≡ self.old.stamps }
        ensures policy { self.new.by ≡ self.old.by }
        ensures room { UsesRoom (partition_of d) self.old.spare self.new.spare }
        ensures err { OnErr result (self.new ≡ self.old) }

        // It fails only for a new digest for which there was no room.
        ensures held { IsSome (finite.get self.old.versions d) → IsOk result }
        ensures reserved { 0 < room_at self.old.spare (partition_of d) → IsOk result }
    {
        match self.would_join(&d, &v) {
            Joined::Newer => {
                self.copies[place_of(partition_of(&d))].put(*d.bytes(), v)?;
                Ok(Joined::Newer)
            }
            Joined::Kept => Ok(Joined::Kept),
        }
    }

    /// Sets the stamp of the partition's copy.
    pub fn stamp(&mut self, p: PartitionId, key: ClusterKey, writes: u32)
        ensures { self.new
            ≡ record self.old { stamps = finite.insert self.old.stamps p (key, writes) } }
    {
        self.stamps[place_of(p)] = Some(Stamp { key, writes });
    }

    /// Removes the partition's records and its stamp.
    pub fn clear_copy(&mut self, p: PartitionId)
        ensures { self.new ≡ record self.old {
          versions = without_copy self.old.versions p;
          stamps = finite.remove self.old.stamps p;
        } }
    {
        let place = place_of(p);
        self.copies[place].take_all();
        self.stamps[place] = None;
    }

    /// The least `max` digests that are held of the partition, or of those above `after`, in rising
    /// order.
    pub fn walk(
        &self,
        alloc: Global,
        p: PartitionId,
        after: Option<&Digest>,
        max: usize,
    ) -> Result<DigestList, NoMemory>
        ensures { IfOk result (λ ds. ds ≡ take max
            (digests_above (option_copied after.entry) (digests_of self.now.versions p))) }
    {
        let records = &self.copies[place_of(p)];
        match after {
            None => first_digests(alloc, records.iter_after(None), max),
            Some(d) => first_digests(alloc, records.iter_after(Some(d.bytes())), max),
        }
    }
}

/// The place of the partition in a list with one for each.
fn place_of(p: PartitionId) -> usize
    ensures same { result ≡ p }
    ensures within { result < partition_count }
{
    usize::from(p.number())
}

/// The state of a copy with these records and that stamp.
fn copy_state(records: &SortedChain<Version>, stamp: Option<Stamp>) -> CopyState
    ensures { result ≡ state_with (map (λ e. e.0) records.now.items) (shown_stamp stamp) }
{
    if records.is_empty() {
        return CopyState::Empty;
    }
    match stamp {
        None => CopyState::Part,
        Some(stamp) => CopyState::Whole {
            key: stamp.key,
            writes: stamp.writes,
        },
    }
}

/// The first `max` digests that the entries have.
fn first_digests(
    alloc: Global,
    mut entries: Iter<'_, Version>,
    max: usize,
) -> Result<DigestList, NoMemory>
    ensures { IfOk result (λ ds. ds ≡ take max (map (λ e. e.0) entries.entry)) }
{
    let mut digests = DigestList::new(alloc);
    for _ in 0..max {
        let Some((key, _)) = entries.next() else {
            return Ok(digests);
        };
        digests.push(Digest::new(*key))?;
    }
    Ok(digests)
}

/// A copy without records for each partition.
fn empty_copies(alloc: Global) -> Result<Vec<SortedChain<Version>>, NoMemory>
    ensures { IfOk result (λ copies.
        record {
          count : length copies.items ≡ partition_count;
          empty : All (λ c. c.items ≡ []) copies.items;
        }) }
{
    let mut copies = Vec::with_capacity(alloc, PARTITIONS as usize)?;
    for _ in 0..PARTITIONS {
        copies.push(SortedChain::new(alloc))?;
    }
    Ok(copies)
}

/// No stamp for each partition.
fn no_stamps(alloc: Global) -> Result<Vec<Option<Stamp>>, NoMemory>
    ensures { IfOk result (λ stamps.
        record {
          count : length stamps.items ≡ partition_count;
          none : All (λ s. s ≡ None) stamps.items;
        }) }
{
    let mut stamps = Vec::with_capacity(alloc, PARTITIONS as usize)?;
    for _ in 0..PARTITIONS {
        stamps.push(None)?;
    }
    Ok(stamps)
}

/// Adds the state of a partition above all that the row has.
fn add_state(row: &mut StateRow, p: PartitionId, state: CopyState) -> Result<(), NoMemory>
    requires { All (λ e. e.0 < p) row.old }
    ensures below { All (λ e. e.0 < p + 1) row.new }
    ensures states { OnOk result
        ((q : ℕ) → state_of row.new q ≡ (if p == q then state else state_of row.old q)) }
{
    match state {
        CopyState::Empty => Ok(()),
        state => row.add(p, state),
    }
}

/// Makes room for `n` new digests at that place.
fn reserve_at(copies: &mut [SortedChain<Version>], place: usize, n: usize) -> Result<(), NoMemory>
    requires { place < length copies.old }
    ensures same { copies_of copies.new ≡ copies_of copies.old }
    ensures kept { KeepsRoom (rooms_of copies.old) (rooms_of copies.new) }
    ensures enough { OnOk result (n ≤ room_at (rooms_of copies.new) place) }
{
    copies[place].reserve(n)
}

/// Makes room for one digest.
fn reserve_one(copies: &mut [SortedChain<Version>], d: &Digest) -> Result<(), NoMemory>
    requires { length copies.old ≡ partition_count }
    ensures same { copies_of copies.new ≡ copies_of copies.old }
    ensures kept { KeepsRoom (rooms_of copies.old) (rooms_of copies.new) }
    ensures room { OnOk result (HasRoom (d.now ∷ []) (rooms_of copies.new)) }
{
    reserve_at(copies, place_of(partition_of(d)), 1)
}

/// Makes room for each of the digests.
fn reserve_each(copies: &mut [SortedChain<Version>], ds: &[Digest]) -> Result<(), NoMemory>
    requires { length copies.old ≡ partition_count }
    ensures same { copies_of copies.new ≡ copies_of copies.old }
    ensures kept { KeepsRoom (rooms_of copies.old) (rooms_of copies.new) }
    ensures room { OnOk result (HasRoom ds.now (rooms_of copies.new)) }
{
    let mut wanted = no_counts();
    for d in ds {
        let place = place_of(partition_of(d));
        wanted[place] += 1;
        reserve_at(copies, place, wanted[place])?;
    }
    Ok(())
}

/// No digest counted for any partition.
fn no_counts() -> [usize; 4096]
    ensures size { length result ≡ partition_count }
    ensures none { (p : ℕ) → slice_index result p ≡ 0 }
{
    [0; 4096]
}
