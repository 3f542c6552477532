//! The text of a field, and of a line.
ghost use Rattle.std.specs.Prelude.{◌≡◌, IfOk, Some, codes};
ghost use Rattle.std.specs.Fmt.{DisplaysOnOk, option_append};
ghost use Rattle.std.specs.List.{flat_map};
ghost use Rattle.journal_text.specs.FieldTexts.{spaced_text};
ghost use Rattle.journal_text.specs.Text.{words, line_text};

use crate::digits::Digits;
use crate::fields::{Field, fields_of};
use crate::groups::GroupsText;
use crate::words::{
    ActionWord, MembersText, OptionalVersionText, PolicyWord, RefusalText, ReplyText,
    ScanRefusalText, VersionText,
};
use cluster_types::{Bytes, NoMemory};
use journal_lines::Line;
use std::alloc::Global;
use std::fmt;

impl fmt::Display for Field<'_> {
    ghost output = { λ f. Some (spaced_text f) };

    fn fmt<W: fmt::Write>(&self, f: &mut fmt::Formatter<W>) -> fmt::Result {
        match *self {
            Field::Absent => Ok(()),
            Field::Word(word) => f.write_str(word),
            Field::Byte(n) => write_spaced(f, &n),
            Field::Endpoint(n) => write_spaced(f, &n),
            Field::Count(n) => write_spaced(f, &n),
            Field::Number(n) => write_spaced(f, &n),
            Field::Node(node) => write_spaced(f, &node),
            Field::Key(key) => write_spaced(f, &key),
            Field::Partition(partition) => write_spaced(f, &partition),
            Field::Digest(digest) => write_spaced(f, digest),
            Field::Version(version) => write_spaced(f, &VersionText(version)),
            Field::Found(version) => write_spaced(f, &OptionalVersionText(version)),
            Field::Members(members) => write_spaced(f, &MembersText(members)),
            Field::Groups(groups) => GroupsText(groups).fmt(f),
            Field::Hex(bytes) => write_spaced(f, &Digits(bytes)),
            Field::Rack(None) => Ok(()),
            Field::Rack(Some(rack)) => write_spaced(f, &rack),
            Field::Cause(cause) => write_spaced(f, &RefusalText(cause)),
            Field::Reply(reply) => write_spaced(f, &ReplyText(reply)),
            Field::ScanCause(cause) => write_spaced(f, &ScanRefusalText(cause)),
            Field::Action(action) => write_spaced(f, &ActionWord(action)),
            Field::Policy(policy) => write_spaced(f, &PolicyWord(policy)),
        }
    }
}

/// Writes a space and the value behind it. A formatter's options are as they were set by the caller
/// that writes the line: for each `write!` they would be put aside and taken back.
fn write_spaced<W: fmt::Write, D: fmt::Display>(f: &mut fmt::Formatter<W>, value: &D) -> fmt::Result
    ensures { DisplaysOnOk W.write_str_gives f.old result
        (option_append (Some (codes " ")) (D.output value.now)) f.new }
{
    f.write_str(" ")?;
    value.fmt(f)
}

/// Fields, one after another.
#[derive(Clone, Copy)]
struct FieldsText<'a>(&'a [Field<'a>]);

impl fmt::Display for FieldsText<'_> {
    ghost output = { λ l. Some (flat_map spaced_text l.0.now) };

    fn fmt<W: fmt::Write>(&self, f: &mut fmt::Formatter<W>) -> fmt::Result {
        for field in self.0 {
            field.fmt(f)?;
        }
        Ok(())
    }
}

/// A line, to be displayed as its words with one space between two of them, without its line feed.
#[derive(Clone, Copy)]
pub struct LineText<'a>(pub &'a Line);

impl fmt::Display for LineText<'_> {
    ghost output = { λ l. Some (words l.0.now) };

    #[tactic(auto, using(crate::proofs::Joins::words_written))]
    fn fmt<W: fmt::Write>(&self, f: &mut fmt::Formatter<W>) -> fmt::Result {
        let fields = fields_of(self.0);
        FieldsText(&fields).fmt(f)
    }
}

/// The words of the line with one space between them, and its line feed.
pub fn text(alloc: Global, line: &Line) -> Result<Bytes, NoMemory>
    ensures { IfOk result (λ text. text ≡ line_text line.now) }
{
    let words = LineText(line).to_string(alloc)?;
    let mut bytes = Bytes::from_slice(alloc, words.as_bytes())?;
    bytes.push(b'\n')?;
    Ok(bytes)
}
