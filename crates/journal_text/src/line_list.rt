//! Lists of lines.
ghost use Rattle.std.specs.Prelude.{◌≡◌, ◌↔◌, ◌^◌, ◌+◌, ◌-◌, ◌<◌, ◌≤◌, ◌++◌, ◌∷◌, [], ℕ, length, drop, min, vec_len, vec_capacity, IsTrue, IfOk, OnOk, OnErr, slice_get};
ghost use Rattle.std.specs.Option.{option_copied};
ghost use Rattle.journal_text.specs.Text.{text};

use crate::line_copy::copy_line;
use crate::line_length::text_len;
use cluster_types::NoMemory;
use journal_lines::Line;
use std::alloc::Global;
use std::marker::Model;

/// Lines in the order in which they were pushed. The first ones can be taken out again.
#[derive(Drop)]
pub struct LineList {
    lines: Vec<Line>,
    /// How many bytes the text of the lines has, or the greatest number where it has more.
    bytes: usize,
}

impl Model for LineList {
    ghost use Rattle.std.specs.Prelude.{◌≡◌, ◌^◌, ◌-◌, List, length, min};
    ghost use Rattle.journal_lines.specs.declared.line.Line.{Line};
    ghost use Rattle.journal_text.specs.Text.{text};

    ghost Value = { List Line };

    ghost view = { λ l. l.lines.items };

    ghost invariant = { λ l. l.bytes ≡ min (length (text l.lines.items)) (2 ^ 64 - 1) };
}

impl LineList {
    /// No lines, without memory.
    pub fn new(alloc: Global) -> LineList
        ensures { result ≡ [] }
    {
        LineList {
            lines: Vec::new(alloc),
            bytes: 0,
        }
    }

    /// Adds a line at the end.
    pub fn push(&mut self, line: Line) -> Result<(), NoMemory>
        ensures ok { OnOk result (self.new ≡ self.old ++ line ∷ []) }
        ensures err { OnErr result (self.new ≡ self.old) }
    {
        let bytes = self.bytes.saturating_add(text_len(&line));
        self.lines.push(line)?;
        self.bytes = bytes;
        Ok(())
    }

    /// Adds a line before the others, none of which is measured again.
    pub fn push_first(&mut self, line: Line) -> Result<(), NoMemory>
        ensures ok { OnOk result (self.new ≡ line ∷ self.old) }
        ensures err { OnErr result (self.new ≡ self.old) }
    {
        let bytes = self.bytes.saturating_add(text_len(&line));
        self.lines.insert(0, line)?;
        self.bytes = bytes;
        Ok(())
    }

    /// An equal list of its own.
    pub fn copy(&self, alloc: Global) -> Result<LineList, NoMemory>
        ensures { IfOk result (λ l. l ≡ self.now) }
    {
        let mut lines = Vec::with_capacity(alloc, self.lines.len())?;
        for line in &self.lines {
            lines.push(copy_line(alloc, line)?)?;
        }
        let bytes = self.bytes;
        Ok(LineList { lines, bytes })
    }

    /// Takes the first line out, and `None` where there are none.
    pub fn take_first(&mut self) -> Option<Line>
        ensures first { result ≡ slice_get self.old 0 }
        ensures rest { self.new ≡ drop 1 self.old }
    {
        if self.lines.is_empty() {
            return None;
        }
        let line = self.lines.remove(0);
        self.bytes = if self.bytes < usize::MAX {
            self.bytes - text_len(&line)
        } else {
            measured(&self.lines)
        };
        Some(line)
    }

    /// Moves the lines to the end of others, which have room for them.
    pub(crate) fn move_to(&mut self, into: &mut Vec<Line>)
        requires { vec_len into.old + length self.old ≤ vec_capacity into.old }
        ensures lines { into.new.items ≡ into.old.items ++ self.old }
        ensures room { vec_capacity into.old ≤ vec_capacity into.new }
        ensures none_left { self.new ≡ [] }
    {
        let _ = into.append(&mut self.lines);
        self.bytes = 0;
    }

    /// How many lines there are.
    pub fn len(&self) -> usize
        ensures { result ≡ length self.now }
    {
        self.lines.len()
    }

    /// How many bytes the text of the lines has, or the greatest number where it has more.
    pub fn text_len(&self) -> usize
        ensures { result ≡ min (length (text self.now)) (2 ^ 64 - 1) }
    {
        self.bytes
    }

    /// Whether there are none.
    pub fn is_empty(&self) -> bool
        ensures { IsTrue result ↔ (self.now ≡ []) }
    {
        self.lines.is_empty()
    }

    /// The line at that place, and `None` from the length on.
    pub fn get(&self, i: usize) -> Option<&Line>
        ensures { option_copied result ≡ slice_get self.now i }
    {
        self.lines.get(i)
    }
}

/// How many bytes the text of the lines has, or the greatest number where it has more.
fn measured(lines: &[Line]) -> usize
    ensures { result ≡ min (length (text lines.now)) (2 ^ 64 - 1) }
{
    let mut bytes = 0usize;
    for line in lines {
        bytes = bytes.saturating_add(text_len(line));
    }
    bytes
}
