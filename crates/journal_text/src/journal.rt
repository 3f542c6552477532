//! The journal.
ghost use Rattle.std.specs.Prelude.{◌≡◌, ◌≢◌, ◌+◌, ◌<◌, ◌≤◌, ◌↔◌, ◌++◌, ◌∷◌, [], length, IsTrue, OnOk, OnErr, IsErrOf, slice_get};
ghost use Rattle.std.specs.Option.{option_copied};
ghost use Rattle.journal_text.specs.Journals.{IsWithin};

use crate::line_length::text_len;
use crate::line_list::LineList;
use cluster_types::NoMemory;
use journal_lines::Line;
use std::alloc::{AllocFailed, Global};
use std::error::Error;
use std::fmt;
use std::marker::Model;

/// The most lines that a journal has.
pub const LINE_LIMIT: usize = 2_000_000;

/// The most bytes that the text of a journal has, with its line feeds.
pub const TEXT_LIMIT: usize = 536_870_912;

/// Why a line wasn't added.
#[derive(Clone, Copy, Debug, PartialEq, Eq)]
pub enum PushFault {
    /// The journal would pass one of its limits.
    Full,
    /// Memory was refused.
    NoMemory,
}

impl fmt::Display for PushFault {
    ghost use Rattle.std.specs.Prelude.{Some};
    ghost use Rattle.journal_text.specs.PushFaults.{fault_text};

    ghost output = { λ f. Some (fault_text f) };

    fn fmt<W: fmt::Write>(&self, f: &mut fmt::Formatter<W>) -> fmt::Result {
        match self {
            PushFault::Full => write!(f, "the journal is full"),
            PushFault::NoMemory => write!(f, "out of memory"),
        }
    }
}

impl Error for PushFault {}

impl From<NoMemory> for PushFault {
    ghost use Rattle.std.specs.Prelude.{◌≡◌};
    ghost use Rattle.journal_text.specs.declared.journal.PushFault.TheVariants as fault;

    ghost from_gives = { λ _ answer. answer ≡ fault.NoMemory };

    fn from(_refused: NoMemory) -> PushFault {
        PushFault::NoMemory
    }
}

impl From<AllocFailed<Line>> for PushFault {
    ghost use Rattle.std.specs.Prelude.{◌≡◌};
    ghost use Rattle.journal_text.specs.declared.journal.PushFault.TheVariants as fault;

    ghost from_gives = { λ _ answer. answer ≡ fault.NoMemory };

    fn from(_refused: AllocFailed<Line>) -> PushFault {
        PushFault::NoMemory
    }
}

/// What happened in a run, line by line: at most 2,000,000 lines, whose text has at most
/// 536,870,912 bytes.
#[derive(Drop)]
pub struct Journal {
    lines: Vec<Line>,
    bytes: usize,
    spare: usize,
}

impl Model for Journal {
    ghost use Rattle.std.specs.Prelude.{◌≡◌, ◌+◌, ◌≤◌, length, vec_len, vec_capacity};
    ghost use Rattle.journal_lines.specs.contracts.line.Line as line;
    ghost use Rattle.journal_text.specs.Journals.{Contents, IsWithin, contents_code};
    ghost use Rattle.journal_text.specs.Text.{text};

    ghost Value = { Contents };

    ghost coded = { contents_code line.the_row.coded };

    ghost view = { λ j. record { lines = j.lines.items; spare = j.spare } };

    ghost invariant = { λ j. IsWithin j.lines.items × (j.bytes ≡ length (text j.lines.items))
        × (vec_len j.lines + j.spare ≤ vec_capacity j.lines) };
}

impl Journal {
    /// A journal without lines, and without room.
    pub fn new(alloc: Global) -> Journal
        ensures lines { result.lines ≡ [] }
        ensures spare { result.spare ≡ 0 }
    {
        Journal {
            lines: Vec::new(alloc),
            bytes: 0,
            spare: 0,
        }
    }

    /// Makes room for `n` lines: that many can then be added without memory.
    pub fn reserve(&mut self, n: usize) -> Result<(), NoMemory>
        ensures lines { self.new.lines ≡ self.old.lines }
        ensures enough { OnOk result (n ≤ self.new.spare) }
        ensures kept { self.old.spare ≤ self.new.spare }
    {
        self.lines.reserve(n)?;
        self.spare = self.spare.max(n);
        Ok(())
    }

    /// Adds a line at the end, exactly where no limit is passed and memory suffices. Otherwise the
    /// lines are as they were. The line uses up room for one, if there is any.
    pub fn push(&mut self, line: Line) -> Result<(), PushFault>
        ensures ok { OnOk result (self.new.lines ≡ self.old.lines ++ line ∷ []) }
        ensures within { OnOk result (IsWithin (self.old.lines ++ line ∷ [])) }
        ensures full { IsErrOf result PushFault.Full ↔ ¬ IsWithin (self.old.lines ++ line ∷ []) }
        ensures err { OnErr result (self.new.lines ≡ self.old.lines) }
        ensures spare { self.old.spare ≤ self.new.spare + 1 }

        // Memory suffices where there is room.
        ensures spared { 0 < self.old.spare → ¬ IsErrOf result PushFault.NoMemory }
    {
        let bytes = self.bytes.saturating_add(text_len(&line));
        if self.lines.len() == LINE_LIMIT || bytes > TEXT_LIMIT {
            return Err(PushFault::Full);
        }
        self.lines.push(line)?;
        self.bytes = bytes;
        self.spare = self.spare.saturating_sub(1);
        Ok(())
    }

    /// Moves the lines to the end. They pass no limit, and there is room for them. None is measured
    /// again.
    pub fn append(&mut self, lines: &mut LineList)
        requires within { IsWithin (self.old.lines ++ lines.old) }
        requires room { length lines.old ≤ self.old.spare }
        ensures lines { self.new.lines ≡ self.old.lines ++ lines.old }
        ensures none_left { lines.new ≡ [] }
        ensures spare { self.new.spare + length lines.old ≡ self.old.spare }
    {
        let bytes = self.bytes.saturating_add(lines.text_len());
        let count = lines.len();
        lines.move_to(&mut self.lines);
        self.bytes = bytes;
        self.spare -= count;
    }

    /// Whether all of the lines can be added without passing a limit.
    pub fn fits(&self, lines: &LineList) -> bool
        ensures { IsTrue result ↔ IsWithin (self.now.lines ++ lines.now) }
    {
        self.lines.len().saturating_add(lines.len()) <= LINE_LIMIT
            && self.bytes.saturating_add(lines.text_len()) <= TEXT_LIMIT
    }

    /// The number of lines.
    pub fn lines(&self) -> usize
        ensures number { result ≡ length self.now.lines }
        ensures within { IsWithin self.now.lines }
    {
        self.lines.len()
    }

    /// The line at that place, counted from 0, and `None` from the number of lines on.
    pub fn get(&self, i: usize) -> Option<&Line>
        ensures { option_copied result ≡ slice_get self.now.lines i }
    {
        self.lines.get(i)
    }

    /// All lines in their order.
    pub fn as_slice(&self) -> &[Line]
        ensures lines { result.now ≡ self.now.lines }
        ensures within { IsWithin self.now.lines }
    {
        self.lines.as_slice()
    }
}
