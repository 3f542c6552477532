//! How something changed along the journal.
ghost use Rattle.std.specs.Prelude.{◌≡◌, ◌==◌, ◌≤◌, ◌-◌, ◌++◌, ◌∷◌, [], true, false, nat_lt, length, OnOk, OnErr, slice_get};
ghost use Rattle.std.specs.List.Sorted.{IsNonDecreasingBy, IsPartitionPoint};
ghost use Rattle.audit_state.specs.Histories.{AreUpTo, last_before, value_after, value_now};

use cluster_types::NoMemory;
use std::alloc::Global;
use std::marker::Model;

/// What a line made of something.
#[derive(Clone, Copy, Debug)]
pub struct Change {
    /// The line's place, from 0.
    pub line: usize,
    /// What it is behind that line.
    pub value: Option<usize>,
}

/// How something changed, line by line; it is nothing at first.
#[derive(Drop)]
pub struct History {
    changes: Vec<Change>,
}

impl Model for History {
    ghost use Rattle.std.specs.Prelude.{List};
    ghost use Rattle.std.specs.List.Sorted.{IsNonDecreasingBy};
    ghost use Rattle.audit_state.specs.declared.history.Change.{Change};

    ghost Value = { List Change };

    ghost view = { λ h. h.changes.items };

    ghost invariant = { λ h. IsNonDecreasingBy (λ c. c.line) h.changes.items };
}

impl History {
    pub fn new(alloc: Global) -> History
        ensures { result ≡ [] }
    {
        History {
            changes: Vec::new(alloc),
        }
    }

    /// What it was after so many lines.
    pub fn at(&self, lines: usize) -> Option<usize>
        ensures { result ≡ value_after self.now lines }
    {
        match self.last_before(lines) {
            None => None,
            Some(change) => change.value,
        }
    }

    /// The last change in so many lines.
    pub fn last_before(&self, lines: usize) -> Option<Change>
        ensures { result ≡ last_before self.now lines }
    {
        last_in(&self.changes, lines)
    }

    /// What it is now: what its last change made of it.
    pub fn now(&self) -> Option<usize>
        ensures { result ≡ value_now self.now }
    {
        last_value(&self.changes)
    }

    /// Whether it never changed.
    pub fn is_empty(&self) -> bool
        ensures { result ≡ (length self.now == 0) }
    {
        self.changes.len() == 0
    }

    /// A line, behind all that changed it so far, makes it this.
    pub fn put(&mut self, line: usize, value: Option<usize>) -> Result<(), NoMemory>
        requires { AreUpTo line self.old }
        ensures ok { OnOk result
            (self.new ≡ self.old ++ record { line = line; value = value } ∷ []) }
        ensures err { OnErr result (self.new ≡ self.old) }
    {
        self.changes.push(Change { line, value })?;
        Ok(())
    }
}

/// The last of the changes in so many lines.
fn last_in(changes: &[Change], lines: usize) -> Option<Change>
    requires { IsNonDecreasingBy (λ c. c.line) changes.now }
    ensures { result ≡ last_before changes.now lines }
{
    let count = changes_before(changes, lines);
    last_change(&changes[..count])
}

/// How many changes stand in so many lines.
fn changes_before(changes: &[Change], lines: usize) -> usize
    requires { IsNonDecreasingBy (λ c. c.line) changes.now }
    ensures bound { result ≤ length changes.now }
    ensures point { IsPartitionPoint (λ c. nat_lt c.line lines ≡ true)
        (λ c. nat_lt c.line lines ≡ false) changes.now result }
{
    changes.partition_point(|c| c.line < lines)
}

fn last_change(changes: &[Change]) -> Option<Change>
    ensures { result ≡ slice_get changes.now (length changes.now - 1) }
{
    changes.last().copied()
}

fn last_value(changes: &[Change]) -> Option<usize>
    ensures { result ≡ value_now changes.now }
{
    match last_change(changes) {
        None => None,
        Some(change) => change.value,
    }
}
