//! A node's copy of a partition: which records it has, and when they changed.
ghost use Rattle.std.specs.Prelude.{◌≡◌, ◌≤◌, ◌++◌, ◌∷◌, [], true, false, nat_lt, length, IfOk, OnOk, OnErr, slice_get, option_map};
ghost use Rattle.std.specs.List.Sorted.{IsNonDecreasingBy, IsPartitionPoint};
ghost use Rattle.audit_state.specs.Histories.{AreUpTo};
ghost use Rattle.audit_state.specs.Copies.{StandUpTo, IsNewCopy, held_since, holding_since};

use crate::history::History;
use cluster_types::NoMemory;
use std::alloc::Global;
use std::marker::Model;

/// A record changed at a line.
#[derive(Clone, Copy, Debug)]
pub struct RecordChange {
    /// The line's place, from 0.
    pub line: usize,
    /// The record's number.
    pub number: usize,
}

/// The changes of a copy's records, line by line.
#[derive(Drop)]
pub struct RecordChanges {
    changes: Vec<RecordChange>,
}

impl Model for RecordChanges {
    ghost use Rattle.std.specs.Prelude.{List};
    ghost use Rattle.std.specs.List.Sorted.{IsNonDecreasingBy};
    ghost use Rattle.audit_state.specs.declared.copies.RecordChange.{RecordChange};

    ghost Value = { List RecordChange };

    ghost view = { λ c. c.changes.items };

    ghost invariant = { λ c. IsNonDecreasingBy (λ x. x.line) c.changes.items };
}

impl RecordChanges {
    pub fn new(alloc: Global) -> RecordChanges
        ensures { result ≡ [] }
    {
        RecordChanges {
            changes: Vec::new(alloc),
        }
    }

    pub fn len(&self) -> usize
        ensures { result ≡ length self.now }
    {
        self.changes.len()
    }

    /// The record of the change at that place.
    pub fn record_at(&self, place: usize) -> Option<usize>
        ensures { result ≡ option_map (λ x. x.number) (slice_get self.now place) }
    {
        match self.changes.get(place) {
            None => None,
            Some(change) => Some(change.number),
        }
    }

    /// The place, from 0, of the first change behind so many lines.
    pub fn first_behind(&self, lines: usize) -> usize
        ensures bound { result ≤ length self.now }
        ensures point { IsPartitionPoint (λ x. nat_lt x.line lines ≡ true)
            (λ x. nat_lt x.line lines ≡ false) self.now result }
    {
        stand_before(&self.changes, lines)
    }

    /// The record changes at a line, which stands behind all that changed one so far.
    pub fn put(&mut self, line: usize, number: usize) -> Result<(), NoMemory>
        requires { StandUpTo line self.old }
        ensures ok { OnOk result
            (self.new ≡ self.old ++ record { line = line; number = number } ∷ []) }
        ensures err { OnErr result (self.new ≡ self.old) }
    {
        self.changes.push(RecordChange { line, number })?;
        Ok(())
    }
}

/// How many changes stand in so many lines.
fn stand_before(changes: &[RecordChange], lines: usize) -> usize
    requires { IsNonDecreasingBy (λ x. x.line) changes.now }
    ensures bound { result ≤ length changes.now }
    ensures point { IsPartitionPoint (λ x. nat_lt x.line lines ≡ true)
        (λ x. nat_lt x.line lines ≡ false) changes.now result }
{
    changes.partition_point(|x| x.line < lines)
}

/// What a node held of a member's records: after `held` lines it held at least what the member held after `of` lines.
#[derive(Clone, Copy, Debug)]
pub struct Cover {
    pub held: usize,
    pub of: usize,
}

/// Whether a node holds a record now, and whether it ever did.
#[derive(Clone, Copy, Debug)]
pub struct Known {
    pub now: bool,
    pub ever: bool,
}

/// A node's copy of a partition, as it is now and as it was.
#[derive(Drop)]
pub struct PartitionCopy {
    /// The records that it has now.
    pub held: Vec<usize>,
    /// Something while it has a record.
    pub holding: History,
    /// The records that it ever had.
    pub touched: Vec<usize>,
    /// Each change of a record.
    pub changes: RecordChanges,
}

impl PartitionCopy {
    pub fn new(alloc: Global) -> PartitionCopy
        ensures { IsNewCopy result }
    {
        PartitionCopy {
            held: Vec::new(alloc),
            holding: History::new(alloc),
            touched: Vec::new(alloc),
            changes: RecordChanges::new(alloc),
        }
    }

    /// A version of a record comes, of which the node held something or nothing, and maybe ever.
    pub fn add(&mut self, line: usize, number: usize, known: Known) -> Result<(), NoMemory>
        requires holding { AreUpTo line self.old.holding }
        requires changes { StandUpTo line self.old.changes }
        ensures held { OnOk result
            (self.new.held.items ≡ held_since known.now number self.old.held.items) }
        ensures touched { OnOk result
            (self.new.touched.items ≡ held_since known.ever number self.old.touched.items) }
        ensures holding { OnOk result (self.new.holding ≡ holding_since line self.old.holding) }
        ensures changes { OnOk result
            (self.new.changes ≡ self.old.changes ++ record { line = line; number = number } ∷ []) }
    {
        list_unless(&mut self.held, number, known.now)?;
        list_unless(&mut self.touched, number, known.ever)?;
        self.changes.put(line, number)?;
        begin(&mut self.holding, line)
    }

    /// A record of it changes.
    pub fn change(&mut self, line: usize, number: usize) -> Result<(), NoMemory>
        requires { StandUpTo line self.old.changes }
        ensures held { OnOk result (self.new.held.items ≡ self.old.held.items) }
        ensures touched { OnOk result (self.new.touched.items ≡ self.old.touched.items) }
        ensures holding { OnOk result (self.new.holding ≡ self.old.holding) }
        ensures changes { OnOk result
            (self.new.changes ≡ self.old.changes ++ record { line = line; number = number } ∷ []) }
    {
        self.changes.put(line, number)
    }

    /// The copy has no record any longer.
    pub fn clear(&mut self, alloc: Global, line: usize) -> Result<Vec<usize>, NoMemory>
        requires { AreUpTo line self.old.holding }
        ensures dropped { IfOk result (λ dropped. dropped.items ≡ self.old.held.items) }
        ensures held { OnOk result (self.new.held.items ≡ []) }
        ensures touched { OnOk result (self.new.touched.items ≡ self.old.touched.items) }
        ensures holding { OnOk result
            (self.new.holding ≡ self.old.holding ++ record { line = line; value = None } ∷ []) }
        ensures changes { OnOk result (self.new.changes ≡ self.old.changes) }
    {
        self.holding.put(line, None)?;
        Ok(std::mem::replace(&mut self.held, Vec::new(alloc)))
    }
}

/// Lists the record, unless it is there.
fn list_unless(records: &mut Vec<usize>, number: usize, is_there: bool) -> Result<(), NoMemory>
    ensures { OnOk result (records.new.items ≡ held_since is_there number records.old.items) }
{
    if !is_there {
        records.push(number)?;
    }
    Ok(())
}

/// From the line on there is something.
fn begin(holding: &mut History, line: usize) -> Result<(), NoMemory>
    requires { AreUpTo line holding.old }
    ensures { OnOk result (holding.new ≡ holding_since line holding.old) }
{
    if holding.now().is_none() {
        holding.put(line, Some(line))?;
    }
    Ok(())
}
