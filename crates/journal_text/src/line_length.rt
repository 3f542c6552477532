//! How many bytes a line's text has.
ghost use Rattle.std.specs.Prelude.{◌≡◌, ◌^◌, ◌-◌, ◌+◌, ◌≤◌, length, min};
ghost use Rattle.std.specs.Fmt.{decimal};
ghost use Rattle.std.specs.List.{flat_map};
ghost use Rattle.journal_text.specs.FieldTexts.{spaced_text};
ghost use Rattle.journal_text.specs.Text.{line_text};

use crate::fields::{Field, fields_of};
use crate::lengths;
use journal_lines::Line;

/// How many bytes the line's text has, with its line feed, or the greatest number where it has
/// more. Nothing is written for it.
#[tactic(auto, using(crate::proofs::Joins::length_written))]
pub fn text_len(line: &Line) -> usize
    ensures { result ≡ min (length (line_text line.now)) (2 ^ 64 - 1) }
{
    // Most lines of a long run are of messages. Their fields need no list.
    match line {
        Line::Sent {
            message,
            from,
            to,
            bytes,
        } => message_len("sent".len(), *message, *from, *to)
            .saturating_add(1)
            .saturating_add(bytes.len().saturating_mul(2)),
        Line::Deliver { message, from, to } => message_len("deliver".len(), *message, *from, *to),
        _ => {
            let fields = fields_of(line);
            fields_len(&fields).saturating_add(1)
        }
    }
}

/// How many bytes a word of so many bytes, the number of a message and its two ends have, each with
/// the space or the line feed behind it.
fn message_len(word: usize, message: u64, from: u16, to: u16) -> usize
    requires { word ≤ 10 }
    ensures { result
        ≡ word + length (decimal message) + length (decimal from) + length (decimal to) + 4 }
{
    let ends = lengths::decimal(u64::from(from)) + lengths::decimal(u64::from(to));
    word + lengths::decimal(message) + ends + 4
}

/// How many bytes fields have, with the spaces before them.
fn fields_len(fields: &[Field]) -> usize
    ensures { result ≡ min (length (flat_map spaced_text fields.now)) (2 ^ 64 - 1) }
{
    let mut bytes: usize = 0;
    for field in fields {
        bytes = bytes.saturating_add(field_len(field));
    }
    bytes
}

/// How many bytes a field has, with the space before it.
fn field_len(field: &Field) -> usize
    ensures { result ≡ min (length (spaced_text field.now)) (2 ^ 64 - 1) }
{
    match *field {
        Field::Absent => 0,
        Field::Word(word) => lengths::word(word),
        Field::Byte(n) => " ".len() + lengths::decimal(u64::from(n)),
        Field::Endpoint(n) => " ".len() + lengths::decimal(u64::from(n)),
        Field::Count(n) => " ".len() + lengths::decimal(u64::from(n)),
        Field::Number(n) => " ".len() + lengths::decimal(n),
        Field::Node(node) => " ".len() + lengths::node(node),
        Field::Key(key) => " ".len() + lengths::key(key),
        Field::Partition(partition) => " ".len() + lengths::partition(partition),
        Field::Digest(digest) => " ".len() + lengths::digest(digest),
        Field::Version(version) => " ".len() + lengths::version(version),
        Field::Found(version) => " ".len() + lengths::optional_version(version),
        Field::Members(members) => " ".len().saturating_add(lengths::members(members)),
        Field::Groups(groups) => lengths::groups(groups),
        Field::Hex(bytes) => bytes.len().saturating_mul(2).saturating_add(1),
        Field::Rack(None) => 0,
        Field::Rack(Some(rack)) => " ".len() + lengths::decimal(u64::from(rack)),
        Field::Cause(cause) => " ".len() + lengths::refusal(cause),
        Field::Reply(reply) => " ".len() + lengths::reply(reply),
        Field::ScanCause(cause) => " ".len() + lengths::scan_refusal(cause),
        Field::Action(action) => " ".len() + lengths::action(action),
        Field::Policy(policy) => " ".len() + lengths::policy(policy),
    }
}
