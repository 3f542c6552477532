//! Judges the transcript that its source has left, without replaying anything.
ghost use Rattle.std.specs.Prelude.{◌≡◌, ◌≢◌, ℕ, List, [], Err, Option, OnOk, OnErr, IsErrOf, IfOk, IfErr};
ghost use Rattle.byte_ends.specs.Faults.{Rose};
ghost use Rattle.audit_core.specs.Transcripts.{IsTranscript};
ghost use Rattle.replay_core.specs.Outcome.{PushesNothing};
ghost use Rattle.replay_core.specs.Streams.{WroteBytes, WroteFront};
ghost use Rattle.cluster_top.specs.Auditing.{AuditEnded, IsUnread, IsUnreadBytes, Judged, Transcribed, status_of, verdict_line};

use audit_core::{TextFault, Verdict, audit, lines_of};
use byte_ends::{Sink, Source};
use cluster_types::NoMemory;
use journal_text::Journal;
use replay_core::{ReadFault, Status, WriteFault, read_all, write_all};
use std::alloc::Global;

/// The most bytes of a transcript that is audited.
const TRANSCRIPT_LIMIT: usize = 134_217_728;

/// How an audit ended, and the journal whose transcript was read: it is that on which the verdict was
/// written, and empty where none was.
#[derive(Drop)]
pub struct AuditOutcome {
    pub status: Status,
    pub journal: Journal,
}

impl AuditOutcome {
    /// Where no verdict was written.
    fn untold(alloc: Global, status: Status) -> AuditOutcome
        ensures status { result.status ≡ status }
        ensures empty { result.journal.lines ≡ [] }
    {
        AuditOutcome {
            status,
            journal: Journal::new(alloc),
        }
    }
}

/// Audits the transcript that the source has left, and writes the verdict.
pub fn audit_source<S: Source, K: Sink>(alloc: Global, source: &mut S, out: &mut K) -> AuditOutcome
    ensures ended { AuditEnded result.status result.journal.lines (S.left source.old)
        (S.left source.new) (K.taken out.old) (K.taken out.new) }
    ensures read_fault { result.status ≡ Status.ReadFault
        → Rose (S.faults source.old) (S.faults source.new) }
    ensures read_told { result.status ≢ Status.ReadFault
        → S.faults source.new ≡ S.faults source.old }
    ensures write_fault { result.status ≡ Status.WriteFault
        → Rose (K.faults out.old) (K.faults out.new) }
    ensures write_told { result.status ≢ Status.WriteFault
        → K.faults out.new ≡ K.faults out.old }
    ensures unpushed { PushesNothing result.status → out.new ≡ out.old }
{
    match read_journal(alloc, source) {
        Err(status) => AuditOutcome::untold(alloc, status),
        Ok(journal) => audit_journal(alloc, journal, out),
    }
}

/// The journal whose transcript the source has left, or how the run ends without one. The bytes
/// are let go before the journal is judged.
fn read_journal<S: Source>(alloc: Global, source: &mut S) -> Result<Journal, Status>
    ensures ok { IfOk result
        (λ journal. Transcribed (S.left source.old) (S.left source.new) journal.lines) }
    ensures err { IfErr result
        (λ status. IsUnread status (S.left source.old) (S.left source.new)) }
    ensures fault { IsErrOf result Status.ReadFault
        → Rose (S.faults source.old) (S.faults source.new) }
    ensures told { result ≢ Err Status.ReadFault → S.faults source.new ≡ S.faults source.old }
{
    match read_all(alloc, source, TRANSCRIPT_LIMIT) {
        Err(ReadFault::NoMemory) => Err(Status::NoMemory),
        Err(ReadFault::Source) => Err(Status::ReadFault),
        Err(ReadFault::TooLong) => Err(Status::TranscriptTooLong),
        Ok(bytes) => journal_of(alloc, bytes.as_slice()),
    }
}

/// The journal whose transcript the bytes are.
fn journal_of(alloc: Global, bytes: &[u8]) -> Result<Journal, Status>
    ensures ok { IfOk result (λ journal. IsTranscript bytes.now journal.lines) }
    ensures err { IfErr result (IsUnreadBytes bytes.now) }
{
    match lines_of(alloc, bytes) {
        Ok(journal) => Ok(journal),
        Err(TextFault::At { line }) => Err(Status::BadTranscript { line }),
        Err(TextFault::NoMemory) => Err(Status::NoMemory),
    }
}

fn audit_journal<K: Sink>(alloc: Global, journal: Journal, out: &mut K) -> AuditOutcome
    ensures ended { (had left : Option (List ℕ)) → Transcribed had left journal.lines
        → AuditEnded result.status result.journal.lines had left (K.taken out.old)
        (K.taken out.new) }
    ensures read_fault { result.status ≢ Status.ReadFault }
    ensures write_fault { result.status ≡ Status.WriteFault
        → Rose (K.faults out.old) (K.faults out.new) }
    ensures write_told { result.status ≢ Status.WriteFault
        → K.faults out.new ≡ K.faults out.old }
    ensures unpushed { PushesNothing result.status → out.new ≡ out.old }
{
    match audit(alloc, &journal) {
        Err(NoMemory) => AuditOutcome::untold(alloc, Status::NoMemory),
        Ok(verdict) => tell(alloc, verdict, journal, out),
    }
}

/// Writes the verdict on the journal.
fn tell<K: Sink>(alloc: Global, verdict: Verdict, journal: Journal, out: &mut K) -> AuditOutcome
    ensures ended { (had left : Option (List ℕ)) → Judged had left journal.lines verdict
        → AuditEnded result.status result.journal.lines had left (K.taken out.old)
        (K.taken out.new) }
    ensures read_fault { result.status ≢ Status.ReadFault }
    ensures write_fault { result.status ≡ Status.WriteFault
        → Rose (K.faults out.old) (K.faults out.new) }
    ensures write_told { result.status ≢ Status.WriteFault
        → K.faults out.new ≡ K.faults out.old }
    ensures unpushed { PushesNothing result.status → out.new ≡ out.old }
{
    match write_verdict(alloc, verdict, out) {
        Ok(()) => AuditOutcome {
            status: ending_of(verdict),
            journal,
        },
        Err(WriteFault::Sink) => AuditOutcome::untold(alloc, Status::WriteFault),
        Err(WriteFault::NoMemory) => AuditOutcome::untold(alloc, Status::NoMemory),
    }
}

/// How a run ends whose verdict was written.
fn ending_of(verdict: Verdict) -> Status
    ensures { result ≡ status_of verdict }
{
    match verdict {
        Verdict::Holds => Status::Done,
        Verdict::Fails { law, line } => Status::Refuted { law, line },
    }
}

/// Writes the verdict and a line feed. Memory is refused before anything is written.
fn write_verdict<K: Sink>(alloc: Global, verdict: Verdict, out: &mut K) -> Result<(), WriteFault>
    ensures ok { OnOk result
        (WroteBytes (K.taken out.old) (K.taken out.new) (verdict_line verdict)) }
    ensures front { OnErr result
        (WroteFront (K.taken out.old) (K.taken out.new) (verdict_line verdict)) }
    ensures refused { IsErrOf result WriteFault.NoMemory → out.new ≡ out.old }
    ensures fault { IsErrOf result WriteFault.Sink → Rose (K.faults out.old) (K.faults out.new) }
    ensures told { result ≢ Err WriteFault.Sink → K.faults out.new ≡ K.faults out.old }
{
    let line = format!(in alloc; "{verdict}\n")?;
    write_all(out, line.as_bytes())
}
