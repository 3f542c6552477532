//! The pieces of a line's text are added to bytes, without a formatter where they are of a kind that
//! many lines have. Where memory is refused, a part of a piece may stand behind what there was.
ghost use Rattle.std.specs.Prelude.{◌≡◌, ◌+◌, ◌≤◌, ◌++◌, ◌∷◌, length, drop, take, codes, OnErr, OnOk};
ghost use Rattle.std.specs.Fmt.{decimal};
ghost use Rattle.std.specs.List.{flat_map};
ghost use Rattle.hex.specs.Hex.{encode_lower};
ghost use Rattle.cluster_types.specs.Texts.{key_text};
ghost use Rattle.journal_text.specs.FieldTexts.{spaced_text};
ghost use Rattle.journal_text.specs.Text.{message_text};
ghost use Rattle.journal_text.specs.Values.{version_text};

use crate::fields::Field;
use cluster_types::{ClusterKey, NoMemory};
use conflict_order::{Body, Version};
use std::fmt::Write;

/// How many bytes a number has in decimal at most, with a byte before it.
const NUMBER: usize = 21;

/// How many bytes three numbers have in decimal at most, each with a byte before it.
const NUMBERS: usize = 3 * NUMBER;

/// Adds a word, the number of a message and its two ends.
pub fn push_message(
    text: &mut Vec<u8>,
    word: &[u8],
    message: u64,
    from: u16,
    to: u16,
) -> Result<(), NoMemory>
    ensures text { OnOk result
        (text.new.items ≡ text.old.items ++ message_text word.now message from to) }
    ensures refused { OnErr result (take (length text.old.items) text.new.items ≡ text.old.items) }
{
    let mut numbers = [0; NUMBERS];
    let at = write_behind(b' ', u64::from(to), &mut numbers, NUMBERS);
    let at = write_behind(b' ', u64::from(from), &mut numbers, at);
    let at = write_behind(b' ', message, &mut numbers, at);
    text.extend_from_slice(word)?;
    text.extend_from_slice(&numbers[at..])?;
    Ok(())
}

/// Adds the texts of fields.
pub fn push_fields(text: &mut Vec<u8>, words: &mut String, fields: &[Field]) -> Result<(), NoMemory>
    ensures text { OnOk result
        (text.new.items ≡ text.old.items ++ flat_map spaced_text fields.now) }
    ensures refused { OnErr result (take (length text.old.items) text.new.items ≡ text.old.items) }
{
    for field in fields {
        push_field(text, words, field)?;
    }
    Ok(())
}

/// Adds the text of a field. `words` is where one is written that takes a formatter.
fn push_field(text: &mut Vec<u8>, words: &mut String, field: &Field) -> Result<(), NoMemory>
    ensures text { OnOk result (text.new.items ≡ text.old.items ++ spaced_text field.now) }
    ensures refused { OnErr result (take (length text.old.items) text.new.items ≡ text.old.items) }
{
    match *field {
        Field::Absent => Ok(()),
        Field::Word(word) => push_bytes(text, word.as_bytes()),
        Field::Endpoint(n) => push_number(text, b' ', u64::from(n)),
        Field::Count(n) => push_number(text, b' ', u64::from(n)),
        Field::Number(n) => push_number(text, b' ', n),
        Field::Node(node) => push_number(text, b' ', u64::from(node.number())),
        Field::Key(key) => push_key(text, key),
        Field::Partition(p) => push_number(text, b' ', u64::from(p.number())),
        Field::Digest(digest) => push_digits(text, b' ', digest.as_slice()),
        Field::Version(version) => push_version(text, version),
        Field::Hex(bytes) => push_digits(text, b' ', bytes),
        _ => push_displayed(text, words, field),
    }
}

/// Adds bytes.
fn push_bytes(text: &mut Vec<u8>, bytes: &[u8]) -> Result<(), NoMemory>
    ensures text { OnOk result (text.new.items ≡ text.old.items ++ bytes.now) }
    ensures refused { OnErr result (take (length text.old.items) text.new.items ≡ text.old.items) }
{
    text.extend_from_slice(bytes)?;
    Ok(())
}

/// Adds a byte and the number in decimal behind it.
fn push_number(text: &mut Vec<u8>, before: u8, n: u64) -> Result<(), NoMemory>
    ensures text { OnOk result (text.new.items ≡ text.old.items ++ before ∷ decimal n) }
    ensures refused { OnErr result (take (length text.old.items) text.new.items ≡ text.old.items) }
{
    let mut number = [0; NUMBER];
    let at = write_behind(before, n, &mut number, NUMBER);
    push_bytes(text, &number[at..])
}

/// Adds a space and the key of a view.
fn push_key(text: &mut Vec<u8>, key: ClusterKey) -> Result<(), NoMemory>
    ensures text { OnOk result (text.new.items ≡ text.old.items ++ codes " " ++ key_text key) }
    ensures refused { OnErr result (take (length text.old.items) text.new.items ≡ text.old.items) }
{
    push_number(text, b' ', key.round)?;
    push_number(text, b'.', u64::from(key.principal))
}

/// Adds a space and the version.
fn push_version(text: &mut Vec<u8>, version: &Version) -> Result<(), NoMemory>
    ensures text { OnOk result
        (text.new.items ≡ text.old.items ++ codes " " ++ version_text version.now) }
    ensures refused { OnErr result (take (length text.old.items) text.new.items ≡ text.old.items) }
{
    push_number(text, b' ', version.lut)?;
    push_number(text, b'.', u64::from(version.generation))?;
    match &version.body {
        Body::Tombstone => push_bytes(text, b"-"),
        Body::Value(bytes) => push_digits(text, b'=', bytes.as_slice()),
    }
}

/// Adds a byte and bytes behind it as hex digits in lower case.
pub fn push_digits(text: &mut Vec<u8>, before: u8, bytes: &[u8]) -> Result<(), NoMemory>
    ensures text { OnOk result
        (text.new.items ≡ text.old.items ++ before ∷ encode_lower bytes.now) }
    ensures refused { OnErr result (take (length text.old.items) text.new.items ≡ text.old.items) }
{
    text.push(before)?;
    let at = text.len();
    let end = at.checked_add(2 * bytes.len()).ok_or(NoMemory)?;
    text.resize(end, b'0')?;
    hex::encode_to_slice(bytes, &mut text[at..]).map_err(|_| NoMemory)?;
    Ok(())
}

/// Adds the text of a field by a formatter.
fn push_displayed(text: &mut Vec<u8>, words: &mut String, field: &Field) -> Result<(), NoMemory>
    ensures text { OnOk result (text.new.items ≡ text.old.items ++ spaced_text field.now) }
    ensures refused { OnErr result (take (length text.old.items) text.new.items ≡ text.old.items) }
{
    words.clear();
    write!(words, "{field}")?;
    push_bytes(text, words.as_bytes())
}

/// Writes a byte and the number in decimal before that end, and answers where they begin.
fn write_behind(before: u8, n: u64, room: &mut [u8], end: usize) -> usize
    requires room { 21 ≤ end }
    requires end { end ≤ length room.old }
    ensures begin { result + length (decimal n) + 1 ≡ end }
    ensures bound { end ≤ result + 21 }
    ensures written { drop result room.new ≡ before ∷ decimal n ++ drop end room.old }
    ensures size { length room.new ≡ length room.old }
{
    let at = itoa::write_digits(n, room, end) - 1;
    room[at] = before;
    at
}
