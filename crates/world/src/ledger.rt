//! What is written of a world's steps.
ghost use Rattle.std.specs.Prelude.{◌≡◌, ◌++◌, ◌∷◌, [], ◌≤◌, length, OnOk, OnErr, IsErrOf};
ghost use Rattle.journal_text.specs.Journals.{IsWithin};
ghost use Rattle.world.specs.Ledgers.{IsSameLedger, Wrote};

use crate::fault::StepFault;
use crate::history::History;
use cluster_rules::Event;
use journal_text::{Journal, Line, LineList, PushFault};
use std::alloc::Global;
use std::snapshot::Snapshot;

/// The journal, and of each step its event, which takes no memory.
#[derive(Drop)]
pub(crate) struct Ledger {
    pub journal: Journal,
    pub events: History,
}

impl Ledger {
    /// Nothing yet.
    pub fn new(alloc: Global) -> Ledger
        ensures lines { result.journal.lines ≡ [] }
        ensures events { result.events.items ≡ [] }
    {
        Ledger {
            journal: Journal::new(alloc),
            events: History::new(),
        }
    }

    /// The journal, which is all that is left.
    pub fn into_journal(self) -> Journal
        ensures { result ≡ self.journal }
    {
        let Ledger { journal, .. } = self;
        journal
    }

    /// Makes room for the lines, where the journal has a place for them.
    pub fn make_room(&mut self, lines: &LineList) -> Result<(), StepFault>
        ensures same { IsSameLedger self.old self.new }
        ensures within { OnOk result (IsWithin (self.old.journal.lines ++ lines.now)) }
        ensures room { OnOk result (length lines.now ≤ self.new.journal.spare) }
        ensures too_long { IsErrOf result StepFault.RunTooLong
            → ¬ IsWithin (self.old.journal.lines ++ lines.now) }
    {
        if !self.journal.fits(lines) {
            return Err(StepFault::RunTooLong);
        }
        self.journal.reserve(lines.len())?;
        Ok(())
    }

    /// Writes the lines. They fit, and there is room for them.
    pub fn append(&mut self, mut lines: LineList)
        requires within { IsWithin (self.old.journal.lines ++ lines) }
        requires room { length lines ≤ self.old.journal.spare }
        ensures lines { self.new.journal.lines ≡ self.old.journal.lines ++ lines }
        ensures events { self.new.events ≡ self.old.events }
    {
        self.journal.append(&mut lines);
    }

    /// Writes the lines of a step and keeps its event. They fit, and there is room for them.
    pub fn write(&mut self, lines: LineList, event: Snapshot<Event>)
        requires within { IsWithin (self.old.journal.lines ++ lines) }
        requires room { length lines ≤ self.old.journal.spare }
        ensures { Wrote self.old self.new lines event.value }
    {
        self.append(lines);
        self.keep(&event);
    }

    /// Writes the lines of a step and keeps its event, where the journal has a place for them.
    pub fn tell_all(&mut self, lines: LineList, event: Snapshot<Event>) -> Result<(), StepFault>
        ensures ok { OnOk result (Wrote self.old self.new lines event.value) }
        ensures within { OnOk result (IsWithin (self.old.journal.lines ++ lines)) }
        ensures too_long { IsErrOf result StepFault.RunTooLong
            → ¬ IsWithin (self.old.journal.lines ++ lines) }
        ensures err { OnErr result (IsSameLedger self.old self.new) }
    {
        self.make_room(&lines)?;
        self.write(lines, event);
        Ok(())
    }

    /// The same of a step of one line, which goes straight into the journal.
    pub fn tell(&mut self, line: Line, event: Snapshot<Event>) -> Result<(), StepFault>
        ensures ok { OnOk result (Wrote self.old self.new (line ∷ []) event.value) }
        ensures within { OnOk result (IsWithin (self.old.journal.lines ++ line ∷ [])) }
        ensures too_long { IsErrOf result StepFault.RunTooLong
            → ¬ IsWithin (self.old.journal.lines ++ line ∷ []) }
        ensures err { OnErr result (IsSameLedger self.old self.new) }
    {
        self.push(line)?;
        self.keep(&event);
        Ok(())
    }

    /// Keeps the event of a step.
    fn keep(&mut self, event: &Snapshot<Event>)
        ensures journal { self.new.journal ≡ self.old.journal }
        ensures events { self.new.events.items ≡ self.old.events.items ++ event.now.value ∷ [] }
    {
        self.events = self.events.and(event);
    }

    /// Writes the line, where the journal has a place for it.
    fn push(&mut self, line: Line) -> Result<(), StepFault>
        ensures ok { OnOk result (self.new.journal.lines ≡ self.old.journal.lines ++ line ∷ []) }
        ensures within { OnOk result (IsWithin (self.old.journal.lines ++ line ∷ [])) }
        ensures too_long { IsErrOf result StepFault.RunTooLong
            → ¬ IsWithin (self.old.journal.lines ++ line ∷ []) }
        ensures err { OnErr result (self.new.journal.lines ≡ self.old.journal.lines) }
        ensures events { self.new.events ≡ self.old.events }
    {
        match self.journal.push(line) {
            Ok(()) => Ok(()),
            Err(PushFault::Full) => Err(StepFault::RunTooLong),
            Err(PushFault::NoMemory) => Err(StepFault::NoMemory),
        }
    }
}
