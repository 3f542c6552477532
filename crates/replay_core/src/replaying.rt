//! The replay of a script, from the source to the sink.
ghost use Rattle.std.specs.Prelude.{◌≡◌, ◌≢◌, ◌<◌, ◌≤◌, ◌^◌, [], ℕ, List, Option, length};
ghost use Rattle.byte_ends.specs.Faults.{Rose};
ghost use Rattle.journal_text.specs.Text as texts;
ghost use Rattle.replay_core.specs.Outcome.{HadScript, IsSourceDecided, PlayEnded, PushesNothing, SourceEnded, WritingEnded};

use crate::outcome::ReplayOutcome;
use crate::play::play_script;
use crate::reading::{ReadFault, read_all};
use crate::status::Status;
use crate::writing::write_lines;
use byte_ends::{Sink, Source};
use script_lang::{ScriptFault, parse};
use std::alloc::Global;

/// The most bytes that a script has.
const SCRIPT_LIMIT: usize = 16_777_216;

/// Replays the script that the source has left, and writes the journal's text to the sink. The
/// status is never `BadWords`, nor one of an audit. What holds of the journal, however the replay
/// ended, is what `ReplayOutcome` says of every one.
pub fn replay<S: Source, K: Sink>(alloc: Global, source: &mut S, out: &mut K) -> ReplayOutcome
    // What each status says of the journal, the source and the sink.
    ensures ended { SourceEnded result.status result.lines (S.left source.old)
        (S.left source.new) (K.taken out.old) (K.taken out.new) }

    // The cause of each fault of an end; and each fault that is counted is told.
    ensures read_fault { result.status ≡ Status.ReadFault
        → Rose (S.faults source.old) (S.faults source.new) }
    ensures write_fault { result.status ≡ Status.WriteFault
        → Rose (K.faults out.old) (K.faults out.new) }
    ensures read_told { result.status ≢ Status.ReadFault
        → S.faults source.new ≡ S.faults source.old }
    ensures write_told { result.status ≢ Status.WriteFault
        → K.faults out.new ≡ K.faults out.old }
    ensures never_falls { K.faults out.old ≤ K.faults out.new }

    // Nothing is pushed where there is nothing to write.
    ensures unpushed { PushesNothing result.status → out.new ≡ out.old }

    // Without a fault of either end, the bytes decide how the run ends, unless memory is refused.
    ensures decided { ¬ Rose (S.faults source.old) (S.faults source.new)
        → ¬ Rose (K.faults out.old) (K.faults out.new)
        → IsSourceDecided (S.left source.old) result.status }
{
    match read_all(alloc, source, SCRIPT_LIMIT) {
        Err(ReadFault::NoMemory) => ReplayOutcome::unplayed(alloc, Status::NoMemory),
        Err(ReadFault::Source) => ReplayOutcome::unplayed(alloc, Status::ReadFault),
        Err(ReadFault::TooLong) => ReplayOutcome::unplayed(alloc, Status::ScriptTooLong),
        Ok(bytes) => replay_bytes(alloc, bytes.as_slice(), out),
    }
}

/// Replays the script that the bytes are.
fn replay_bytes<K: Sink>(alloc: Global, bytes: &[u8], out: &mut K) -> ReplayOutcome
    requires { length bytes.now < 2 ^ 60 }
    ensures ended { (had left : Option (List ℕ)) → HadScript had left bytes.now
        → SourceEnded result.status result.lines had left (K.taken out.old) (K.taken out.new) }
    ensures read_fault { result.status ≢ Status.ReadFault }
    ensures write_fault { result.status ≡ Status.WriteFault
        → Rose (K.faults out.old) (K.faults out.new) }
    ensures write_told { result.status ≢ Status.WriteFault
        → K.faults out.new ≡ K.faults out.old }
    ensures never_falls { K.faults out.old ≤ K.faults out.new }
    ensures unpushed { PushesNothing result.status → out.new ≡ out.old }
{
    let played = play_bytes(alloc, bytes);
    match played.status() {
        Status::Done => transcribe(alloc, played, out),
        _ => played,
    }
}

/// Plays the script that the bytes are, and writes nothing. The status is `Done` where all was
/// played, `BadScript` where the bytes are no script, `RunTooLong` or `NoMemory`.
pub fn play_bytes(alloc: Global, bytes: &[u8]) -> ReplayOutcome
    requires { length bytes.now < 2 ^ 60 }
    ensures { PlayEnded bytes.now result.status result.lines }
{
    match parse(alloc, bytes) {
        Err(ScriptFault::NoMemory) => ReplayOutcome::unplayed(alloc, Status::NoMemory),
        Err(ScriptFault::At { line, cause }) => {
            ReplayOutcome::unplayed(alloc, Status::BadScript { line, cause })
        }
        Ok(script) => play_script(alloc, &script),
    }
}

/// Writes the text of the journal that was played.
fn transcribe<K: Sink>(alloc: Global, played: ReplayOutcome, out: &mut K) -> ReplayOutcome
    ensures written { WritingEnded result.status (K.taken out.old) (K.taken out.new)
        (texts.text played.lines) }
    ensures kept { result.status ≢ Status.NoMemory → result.lines ≡ played.lines }
    ensures empty { result.status ≡ Status.NoMemory → result.lines ≡ [] }
    ensures write_fault { result.status ≡ Status.WriteFault
        → Rose (K.faults out.old) (K.faults out.new) }
    ensures write_told { result.status ≢ Status.WriteFault
        → K.faults out.new ≡ K.faults out.old }
    ensures never_falls { K.faults out.old ≤ K.faults out.new }
{
    let writing = write_lines(alloc, played.journal().as_slice(), out);
    played.after_writing(alloc, writing)
}
