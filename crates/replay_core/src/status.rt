//! How a run ended.
ghost use Rattle.std.specs.Prelude.{◌≡◌, IfOk, Some};
ghost use Rattle.replay_core.specs.Endings.{code_of, fault_of};

use audit_laws::Law;
use cluster_types::{Bytes, NoMemory};
use script_lang::Cause;
use std::alloc::Global;
use std::fmt;

/// How a run ended.
#[derive(Clone, Copy, Debug, PartialEq, Eq)]
pub enum Status {
    /// All was played and written, or the audited transcript keeps every law and the verdict was
    /// written.
    Done,
    /// Memory was refused.
    NoMemory,
    /// The words after the program's name aren't those that it takes.
    BadWords,
    /// The script has a bad line: the first one, counted from 1, and its cause.
    BadScript { line: u64, cause: Cause },
    /// The source had a fault.
    ReadFault,
    /// The sink had a fault.
    WriteFault,
    /// The script has more than 16,777,216 bytes.
    ScriptTooLong,
    /// The journal would have more than 2,000,000 lines, or more than 536,870,912 bytes of text.
    RunTooLong,
    /// The transcript that is to be audited has more than 134,217,728 bytes.
    TranscriptTooLong,
    /// The bytes that are to be audited are no transcript: the first line, counted from 1, at which
    /// they cease to be one.
    BadTranscript { line: u64 },
    /// The transcript's first `line` lines break the law, and none before it in the laws' order;
    /// fewer lines break none.
    Refuted { law: Law, line: u64 },
}

/// What main writes on standard error, without the line feed.
impl fmt::Display for Status {
    ghost output = { λ s. Some (fault_of s) };

    fn fmt<W: fmt::Write>(&self, f: &mut fmt::Formatter<W>) -> fmt::Result {
        match self {
            Status::Done => Ok(()),
            Status::NoMemory => write!(f, "no memory"),
            Status::BadWords => write!(f, "bad words"),
            Status::BadScript { line, cause } => write!(f, "line {line}: {cause}"),
            Status::ReadFault => write!(f, "read fault"),
            Status::WriteFault => write!(f, "write fault"),
            Status::ScriptTooLong => write!(f, "script too long"),
            Status::RunTooLong => write!(f, "run too long"),
            Status::TranscriptTooLong => write!(f, "transcript too long"),
            Status::BadTranscript { line } => write!(f, "line {line}: not a transcript"),
            Status::Refuted { .. } => write!(f, "refuted"),
        }
    }
}

/// The code with which the process ends: 0 to 10.
pub fn code(status: &Status) -> u8
    ensures { result ≡ code_of status.now }
{
    match status {
        Status::Done => 0,
        Status::NoMemory => 1,
        Status::BadWords => 2,
        Status::BadScript { .. } => 3,
        Status::ReadFault => 4,
        Status::WriteFault => 5,
        Status::ScriptTooLong => 6,
        Status::RunTooLong => 7,
        Status::TranscriptTooLong => 8,
        Status::BadTranscript { .. } => 9,
        Status::Refuted { .. } => 10,
    }
}

/// What main writes on standard error, without the line feed; nothing for a run that is done.
pub fn fault_text(alloc: Global, status: &Status) -> Result<Bytes, NoMemory>
    ensures { IfOk result (λ text. text ≡ fault_of status.now) }
{
    let text = format!(in alloc; "{status}")?;
    Bytes::from_slice(alloc, text.as_bytes())
}
