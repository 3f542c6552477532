//! The text of lines, as bytes.
ghost use Rattle.std.specs.Prelude.{◌≡◌, ◌++◌, [], length, take, OnErr, OnOk};
ghost use Rattle.journal_text.specs.Text.{line_text, words};

use crate::fields::fields_of;
use crate::pieces::{push_digits, push_fields, push_message};
use cluster_types::NoMemory;
use journal_lines::Line;
use std::alloc::Global;
use std::marker::Model;

/// The text of lines, one behind another, each with its line feed.
#[derive(Drop)]
pub struct TextBuffer {
    text: Vec<u8>,
    /// Where a field is written that takes a formatter.
    words: String,
}

impl Model for TextBuffer {
    ghost use Rattle.std.specs.Prelude.{List, ℕ};

    ghost Value = { List ℕ };

    ghost view = { λ b. b.text.items };
}

impl TextBuffer {
    /// No text, without memory.
    pub fn new(alloc: Global) -> TextBuffer
        ensures { result ≡ [] }
    {
        TextBuffer {
            text: Vec::new(alloc),
            words: String::new(alloc),
        }
    }

    /// Adds the text of a line. Where memory is refused, the text stays as it was.
    pub fn push(&mut self, line: &Line) -> Result<(), NoMemory>
        ensures text { OnOk result (self.new ≡ self.old ++ line_text line.now) }
        ensures refused { OnErr result (self.new ≡ self.old) }
    {
        let len = self.text.len();
        let added = self.add(line);
        if added.is_err() {
            self.text.truncate(len);
        }
        added
    }

    /// Adds the text of a line, or, where memory is refused, a part of it.
    fn add(&mut self, line: &Line) -> Result<(), NoMemory>
        ensures text { OnOk result (self.new ≡ self.old ++ line_text line.now) }
        ensures refused { OnErr result (take (length self.old) self.new ≡ self.old) }
    {
        self.add_words(line)?;
        self.text.push(b'\n')?;
        Ok(())
    }

    /// Adds the words of a line, or, where memory is refused, a part of them.
    #[tactic(auto, using(crate::proofs::Joins::words_written))]
    fn add_words(&mut self, line: &Line) -> Result<(), NoMemory>
        ensures text { OnOk result (self.new ≡ self.old ++ words line.now) }
        ensures refused { OnErr result (take (length self.old) self.new ≡ self.old) }
    {
        // Most lines of a long run are of messages. Their fields need no list.
        match line {
            Line::Sent {
                message,
                from,
                to,
                bytes,
            } => {
                push_message(&mut self.text, b"sent", *message, *from, *to)?;
                push_digits(&mut self.text, b' ', bytes.as_slice())
            }
            Line::Deliver { message, from, to } => {
                push_message(&mut self.text, b"deliver", *message, *from, *to)
            }
            _ => {
                let fields = fields_of(line);
                push_fields(&mut self.text, &mut self.words, &fields)
            }
        }
    }

    /// All of the text.
    pub fn as_slice(&self) -> &[u8]
        ensures { result.now ≡ self.now }
    {
        self.text.as_slice()
    }

    /// How many bytes there are.
    pub fn len(&self) -> usize
        ensures { result ≡ length self.now }
    {
        self.text.len()
    }

    /// Takes all of the text away. Its memory stays for what is added next.
    pub fn clear(&mut self)
        ensures { self.new ≡ [] }
    {
        self.text.clear();
    }
}
