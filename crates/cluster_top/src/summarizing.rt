//! Writes the summary of what was played.
ghost use Rattle.std.specs.Prelude.{◌≡◌, ◌≢◌, [], Err, OnOk, OnErr, IsErrOf};
ghost use Rattle.byte_ends.specs.Faults.{Rose};
ghost use Rattle.replay_core.specs.Outcome.{WritingEnded};
ghost use Rattle.replay_core.specs.Streams.{WroteBytes, WroteFront};
ghost use Rattle.cluster_top.specs.Transcripts as transcripts;

use crate::counting::summary;
use byte_ends::Sink;
use journal_text::Journal;
use replay_core::{ReplayOutcome, Status, WriteFault, write_all};
use std::alloc::Global;

/// Writes the summary of the journal that was played, and ends as that does.
pub fn summarize<K: Sink>(alloc: Global, played: ReplayOutcome, out: &mut K) -> ReplayOutcome
    ensures written { WritingEnded result.status (K.taken out.old) (K.taken out.new)
        (transcripts.summary played.lines) }
    ensures kept { result.status ≢ Status.NoMemory → result.lines ≡ played.lines }
    ensures empty { result.status ≡ Status.NoMemory → result.lines ≡ [] }
    ensures write_fault { result.status ≡ Status.WriteFault
        → Rose (K.faults out.old) (K.faults out.new) }
    ensures write_told { result.status ≢ Status.WriteFault
        → K.faults out.new ≡ K.faults out.old }
{
    let writing = write_summary(alloc, played.journal(), out);
    played.after_writing(alloc, writing)
}

fn write_summary<K: Sink>(alloc: Global, journal: &Journal, out: &mut K) -> Result<(), WriteFault>
    ensures ok { OnOk result
        (WroteBytes (K.taken out.old) (K.taken out.new) (transcripts.summary journal.now.lines)) }
    ensures front { OnErr result
        (WroteFront (K.taken out.old) (K.taken out.new) (transcripts.summary journal.now.lines)) }

    ensures fault { IsErrOf result WriteFault.Sink → Rose (K.faults out.old) (K.faults out.new) }
    ensures told { result ≢ Err WriteFault.Sink → K.faults out.new ≡ K.faults out.old }
{
    let summary = summary(alloc, journal)?;
    write_all(out, summary.as_slice())
}
