//! Reads a transcript.
ghost use Rattle.std.specs.Prelude.{◌≡◌, ◌+◌, ◌==◌, ◌≤◌, ℕ, List, false, length, position, IfOk, IfSome, IfNone, IsErrOf, IsOkUnless};
ghost use Rattle.std.specs.List.{position_or_len};
ghost use Rattle.journal_lines.specs.declared.line.Line.{Line};
ghost use Rattle.audit_core.specs.Transcripts.{IsTranscript, IsFirstFault, IsUnreadable, IsCutAtFeed, IsCutAtFirst, ReadsLine, has_feed};

use cluster_types::NoMemory;
use journal_reader::read;
use journal_text::{Journal, PushFault};
use std::alloc::Global;

/// Why bytes are no transcript.
#[derive(Clone, Copy, Debug, PartialEq, Eq)]
pub enum TextFault {
    /// The number, from 1, of the first line that is no line's text, lacks its line feed, or passes
    /// a limit of journals.
    At { line: u64 },
    /// Memory was refused.
    NoMemory,
}

impl From<NoMemory> for TextFault {
    ghost use Rattle.std.specs.Prelude.{◌≡◌};
    ghost use Rattle.audit_core.specs.declared.lines.TextFault.TheVariants as fault;

    ghost from_gives = { λ _ answer. answer ≡ fault.NoMemory };

    fn from(_refused: NoMemory) -> TextFault {
        TextFault::NoMemory
    }
}

/// The lines whose text the bytes are: exactly where they are a transcript, and memory suffices.
/// Otherwise the first line at which they cease to be one.
pub fn lines_of(alloc: Global, bytes: &[u8]) -> Result<Journal, TextFault>
    ensures found { IfOk result (λ j. IsTranscript bytes.now j.lines) }
    ensures only { (lines : List Line) → IsTranscript bytes.now lines
        → IfOk result (λ j. j.lines ≡ lines) }
    ensures taken { (lines : List Line) → IsTranscript bytes.now lines
        → IsOkUnless result TextFault.NoMemory }
    ensures at { (n : ℕ) → IsErrOf result (TextFault.At n) → IsFirstFault bytes.now n }
{
    let mut journal = Journal::new(alloc);
    let mut rest = bytes;
    while !rest.is_empty() {
        rest = read_next(alloc, &mut journal, rest)?;
    }
    Ok(journal)
}

/// Reads the first line of the bytes, adds it to the journal, and gives what stands behind it.
fn read_next<'a>(
    alloc: Global,
    journal: &mut Journal,
    bytes: &'a [u8],
) -> Result<&'a [u8], TextFault>
    ensures ok { IfOk result
        (λ rest. ReadsLine journal.old.lines journal.new.lines bytes.now rest.now) }
    ensures at { (n : ℕ) → IsErrOf result (TextFault.At n)
        → (n ≡ length journal.old.lines + 1) × IsUnreadable journal.old.lines bytes.now }
{
    let next = journal.lines() as u64 + 1;
    let Some((piece, rest)) = cut(bytes) else {
        return Err(TextFault::At { line: next });
    };
    let Some(line) = read(alloc, piece)? else {
        return Err(TextFault::At { line: next });
    };
    match journal.push(line) {
        Ok(()) => Ok(rest),
        Err(PushFault::Full) => Err(TextFault::At { line: next }),
        Err(PushFault::NoMemory) => Err(TextFault::NoMemory),
    }
}

/// The bytes up to the first line feed, with it, and those behind it.
fn cut(bytes: &[u8]) -> Option<(&[u8], &[u8])>
    ensures some { IfSome result (λ parts. IsCutAtFeed bytes.now parts.0.now parts.1.now) }
    ensures none { IfNone result (has_feed bytes.now ≡ false) }
{
    cut_at_first(bytes)
}

fn cut_at_first(bytes: &[u8]) -> Option<(&[u8], &[u8])>
    ensures some { IfSome result (λ parts. IsCutAtFirst bytes.now parts.0.now parts.1.now) }
    ensures none { IfNone result (length bytes.now ≤ position_or_len (λ b. b == 10) bytes.now) }
{
    let end = first_feed(bytes)?;
    Some((&bytes[..end + 1], &bytes[end + 1..]))
}

fn first_feed(bytes: &[u8]) -> Option<usize>
    ensures { result ≡ position (λ b. b == 10) bytes.now }
{
    bytes.iter().position(|b| *b == b'\n')
}
