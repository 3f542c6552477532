//! The writes of a view, by partition.
ghost use Rattle.std.specs.Prelude.{◌≡◌, ◌<◌, ◌≤◌, ◌+◌, ◌-◌, [], IfOk, MatchResult, OnOk, unwrap_or, vec_capacity, vec_len};
ghost use Rattle.std.specs.List.{insert};
ghost use Rattle.std.specs.Option.{option_copied};
ghost use Rattle.node_rules.specs.Stamps as rules;
ghost use Rattle.node_rules.specs.Stamps.{no_writes, applying, hearing_write, with_number};
ghost use Rattle.node_rules.specs.Tables.{at, table_with};
ghost use Rattle.node_view.specs.Counts.{greatest_count};
ghost use Rattle.node_view.specs.Writes.{heard_in, rooms_in, writes_of, HasRoomToApply, HasRoomToHear, IsAscendingTable, IsGapFor, IsTablePlaceOf};

use cluster_types::{NoMemory, PartitionId};
use std::alloc::Global;
use std::marker::Model;
use write_path::Seen;

/// What a node knows in its view of the writes on each partition, in rising order of partitions.
#[derive(Drop)]
pub(crate) struct Writes {
    /// How many writes it applied itself.
    applies: Vec<(PartitionId, u32)>,
    /// The numbers of the list master's writes that reached it.
    numbers: Vec<(PartitionId, Seen)>,
}

impl Model for Writes {
    ghost use Rattle.std.specs.Prelude.{◌-◌, vec_capacity, vec_len};
    ghost use Rattle.node_view.specs.Writes.{heard_in, rooms_in, IsAscendingTable, Written};

    ghost Value = { Written };

    ghost view = { λ w.
        record {
          writes = record { applies = w.applies.items; numbers = heard_in w.numbers.items };
          applies = vec_capacity w.applies - vec_len w.applies;
          numbers = vec_capacity w.numbers - vec_len w.numbers;
          further = rooms_in w.numbers.items;
        } };

    ghost invariant = { λ w. IsAscendingTable w.applies.items × IsAscendingTable w.numbers.items };
}

impl Writes {
    /// No write was applied and none came; without memory.
    pub fn new(alloc: Global) -> Writes
        ensures { writes_of result ≡ no_writes }
    {
        Writes {
            applies: Vec::new(alloc),
            numbers: Vec::new(alloc),
        }
    }

    /// How many writes of the partition the node applied.
    pub fn applies_at(&self, p: PartitionId) -> u32
        ensures { result ≡ rules.applies_at (writes_of self.now) p }
    {
        match entry(&self.applies, p) {
            Some(applies) => *applies,
            None => 0,
        }
    }

    /// How many of the list master's writes the copy has had, where the node is the list master or
    /// isn't. `CopyState::NO_CLASS` where one is missing.
    pub fn count_at(&self, p: PartitionId, is_master: bool) -> u32
        ensures { result ≡ rules.count_at (writes_of self.now) is_master p }
    {
        if is_master {
            return self.applies_at(p);
        }
        match entry(&self.numbers, p) {
            Some(seen) => seen.writes(),
            None => 0,
        }
    }

    /// Makes room for one write of the node's own.
    pub fn reserve_apply(&mut self) -> Result<(), NoMemory>
        ensures same { writes_of self.new ≡ writes_of self.old }
        ensures room { OnOk result (HasRoomToApply self.new) }
    {
        self.applies.reserve(1)
    }

    /// The node applied a write, for which there is room, and fewer than 2^32 - 1 of the partition
    /// before.
    pub fn apply(&mut self, p: PartitionId)
        requires room { HasRoomToApply self.old }
        requires count { rules.applies_at (writes_of self.old) p < greatest_count }
        ensures { writes_of self.new ≡ applying (writes_of self.old) p }
    {
        apply_at(&mut self.applies, p);
    }

    /// Makes room for one write of the list master. The answer is the set of its numbers if it is
    /// the partition's first.
    pub fn reserve_number(&mut self, alloc: Global, p: PartitionId) -> Result<Seen, NoMemory>
        ensures same { writes_of self.new ≡ writes_of self.old }
        ensures room { IfOk result (HasRoomToHear self.new.further self.new.numbers p) }
    {
        reserve_at(&mut self.numbers, alloc, p)
    }

    /// The list master's write of that number came, for which `reserve_number` made room.
    pub fn hear(&mut self, p: PartitionId, nth: u32, first: Seen)
        requires room { HasRoomToHear self.old.further self.old.numbers p first }
        requires number { 0 < nth }
        ensures { writes_of self.new ≡ hearing_write (writes_of self.old) p nth }
    {
        hear_at(&mut self.numbers, p, nth, first);
    }
}

/// One more write of the partition.
fn apply_at(applies: &mut Vec<(PartitionId, u32)>, p: PartitionId)
    requires ascending { IsAscendingTable applies.old.items }
    requires room { vec_len applies.old < vec_capacity applies.old }
    requires count { unwrap_or (at applies.old.items p) 0 < greatest_count }
    ensures ascending { IsAscendingTable applies.new.items }
    ensures applies { applies.new.items
        ≡ table_with applies.old.items p (unwrap_or (at applies.old.items p) 0 + 1) }
{
    match place_of(applies, p) {
        Ok(place) => applies[place].1 += 1,
        Err(place) => put_at(applies, place, p, 1),
    }
}

/// Makes room for one number of the partition, and for its set of numbers where it has none.
fn reserve_at(
    numbers: &mut Vec<(PartitionId, Seen)>,
    alloc: Global,
    p: PartitionId,
) -> Result<Seen, NoMemory>
    requires { IsAscendingTable numbers.old.items }
    ensures ascending { IsAscendingTable numbers.new.items }
    ensures same { heard_in numbers.new.items ≡ heard_in numbers.old.items }
    ensures room { IfOk result (HasRoomToHear (rooms_in numbers.new.items)
        (vec_capacity numbers.new - vec_len numbers.new) p) }
{
    match place_of(numbers, p) {
        Ok(place) => {
            numbers[place].1.reserve()?;
            Ok(Seen::new(alloc))
        }
        Err(_) => {
            numbers.reserve(1)?;
            seen_with_room(alloc)
        }
    }
}

/// No numbers, with room for one.
fn seen_with_room(alloc: Global) -> Result<Seen, NoMemory>
    ensures none { IfOk result (λ seen. seen.numbers ≡ []) }
    ensures room { IfOk result (λ seen. 0 < seen.spare) }
{
    let mut seen = Seen::new(alloc);
    seen.reserve()?;
    Ok(seen)
}

/// One more number of the partition.
fn hear_at(numbers: &mut Vec<(PartitionId, Seen)>, p: PartitionId, nth: u32, mut first: Seen)
    requires ascending { IsAscendingTable numbers.old.items }
    requires room { HasRoomToHear (rooms_in numbers.old.items)
        (vec_capacity numbers.old - vec_len numbers.old) p first }
    requires number { 0 < nth }
    ensures ascending { IsAscendingTable numbers.new.items }
    ensures numbers { heard_in numbers.new.items ≡ table_with (heard_in numbers.old.items) p
        (with_number (unwrap_or (at (heard_in numbers.old.items) p) []) nth) }
{
    match place_of(numbers, p) {
        Ok(place) => {
            let _ = numbers[place].1.take(nth);
        }
        Err(place) => {
            let _ = first.take(nth);
            put_at(numbers, place, p, first);
        }
    }
}

/// What the partition has, if it has an entry.
fn entry<X>(entries: &[(PartitionId, X)], p: PartitionId) -> Option<&X>
    requires { IsAscendingTable entries.now }
    ensures { option_copied result ≡ at entries.now p }
{
    match place_of(entries, p) {
        Ok(place) => Some(&entries[place].1),
        Err(_) => None,
    }
}

/// Puts an entry in its place, for which there is room.
fn put_at<X: Drop>(entries: &mut Vec<(PartitionId, X)>, place: usize, p: PartitionId, x: X)
    requires within { place ≤ vec_len entries.old }
    requires room { vec_len entries.old < vec_capacity entries.old }
    ensures { entries.new.items ≡ insert entries.old.items place (p, x) }
{
    let _ = entries.insert(place, (p, x));
}

/// The place of the partition's entry, or the place where it would stand.
fn place_of<X>(entries: &[(PartitionId, X)], p: PartitionId) -> Result<usize, usize>
    requires { IsAscendingTable entries.now }
    ensures { MatchResult result (IsTablePlaceOf p entries.now) (IsGapFor p entries.now) }
{
    entries.binary_search_by_key(&p, |entry| entry.0)
}
