//! By which lines a node's copy of a partition is known to be whole.
ghost use Rattle.std.specs.Prelude.{◌≡◌, ◌<◌, ◌^◌, ◌+◌, ◌++◌, OnOk};
ghost use Rattle.audit_state.specs.Histories.{AreUpTo};
ghost use Rattle.audit_state.specs.Stamps.{IsFreshStamps, later, stamp_place, stamping_key, stamping_key_at, whole_changes};

use crate::history::{Change, History};
use cluster_types::{ClusterKey, NoMemory};
use journal_lines::Line;
use std::alloc::Global;

/// What stamps a node's copy of a partition.
#[derive(Drop)]
pub struct Stamps {
    /// At each `learn` line of the copy the line's place, and nothing at each `drop` line.
    pub marks: History,
    /// How many of the node's `exchanged` lines were judged.
    pub judged: usize,
    /// At each of these that makes the copy whole the line's place.
    pub wholes: History,
}

impl Stamps {
    pub fn new(alloc: Global) -> Stamps
        ensures { IsFreshStamps result }
    {
        Stamps {
            marks: History::new(alloc),
            judged: 0,
            wholes: History::new(alloc),
        }
    }

    /// One `exchanged` line more is judged: it makes the copy whole, or doesn't.
    pub fn judge(&mut self, line: usize, whole: bool) -> Result<(), NoMemory>
        requires behind { AreUpTo line self.old.wholes }
        requires room { self.old.judged + 1 < 2 ^ 64 }
        ensures marks { OnOk result (self.new.marks ≡ self.old.marks) }
        ensures judged { OnOk result (self.new.judged ≡ self.old.judged + 1) }
        ensures wholes { OnOk result
            (self.new.wholes ≡ self.old.wholes ++ whole_changes whole line) }
    {
        self.judged += 1;
        if whole {
            self.wholes.put(line, Some(line))?;
        }
        Ok(())
    }

    /// The place of the line that stamped the copy last in so many lines, of which all `exchanged` lines are judged.
    pub fn stamp_at(&self, lines: usize) -> Option<usize>
        ensures { result ≡ stamp_place self.now lines }
    {
        later(
            self.marks.last_before(lines),
            self.wholes.last_before(lines),
        )
    }
}

/// What the later of the two changes made of it.
fn later(mark: Option<Change>, whole: Option<Change>) -> Option<usize>
    ensures { result ≡ later mark whole }
{
    match (mark, whole) {
        (None, None) => None,
        (Some(mark), None) => mark.value,
        (None, Some(whole)) => whole.value,
        (Some(mark), Some(whole)) => {
            if mark.line < whole.line {
                whole.value
            } else {
                mark.value
            }
        }
    }
}

/// The key of the view that the line names, if it is one by which a copy becomes whole.
fn stamping_key(line: &Line) -> Option<ClusterKey>
    ensures { result ≡ stamping_key line.now }
{
    match line {
        Line::Learn { key, .. } => Some(*key),
        Line::Exchanged { key, .. } => Some(*key),
        _ => None,
    }
}

/// The key of the view by which the line at that place stamps.
pub fn key_at(lines: &[Line], place: usize) -> Option<ClusterKey>
    ensures { result ≡ stamping_key_at lines.now place }
{
    match lines.get(place) {
        None => None,
        Some(line) => stamping_key(line),
    }
}
