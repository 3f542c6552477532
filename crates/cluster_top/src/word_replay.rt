//! Replays what the words ask for.
ghost use Rattle.std.specs.Prelude.{◌≡◌, ◌≢◌, ◌<◌, ◌^◌, ℕ, List, Option, None, Some, IsSome, length, true};
ghost use Rattle.byte_ends.specs.Faults.{Rose};
ghost use Rattle.replay_core.specs.Outcome.{PushesNothing};
ghost use Rattle.cluster_top.specs.Generating as script_text;
ghost use Rattle.cluster_top.specs.Replays.{IsDecided, ReplayEnded};

use crate::generating::generated;
use crate::summarizing::summarize;
use crate::words::Words;
use byte_ends::{Sink, Source};
use replay_core::{ReplayOutcome, Status, play_bytes, replay};
use std::alloc::Global;

/// Replays the script that the source has left, and writes the transcript to the sink, or the
/// summary behind it where the words ask for that. Where they have a number, the script is the
/// generated one of that number, nothing is pulled, and the summary alone is written. The status is
/// never `BadWords`, nor one of an audit.
pub fn replay_by<S: Source, K: Sink>(
    alloc: Global,
    words: Words,
    source: &mut S,
    out: &mut K,
) -> ReplayOutcome
    ensures ended { ReplayEnded words result.status result.lines (S.left source.old)
        (S.left source.new) (K.taken out.old) (K.taken out.new) }
    ensures read_fault { result.status ≡ Status.ReadFault
        → Rose (S.faults source.old) (S.faults source.new) }
    ensures read_told { result.status ≢ Status.ReadFault
        → S.faults source.new ≡ S.faults source.old }
    ensures write_fault { result.status ≡ Status.WriteFault
        → Rose (K.faults out.old) (K.faults out.new) }
    ensures write_told { result.status ≢ Status.WriteFault
        → K.faults out.new ≡ K.faults out.old }
    ensures unpushed { PushesNothing result.status → out.new ≡ out.old }
    ensures unread { IsSome words.generate
        → (source.new ≡ source.old) × (result.status ≢ Status.ReadFault) }
    ensures decided { ¬ Rose (S.faults source.old) (S.faults source.new)
        → ¬ Rose (K.faults out.old) (K.faults out.new)
        → IsDecided words (S.left source.old) result.status }
{
    match words.generate {
        Some(number) => replay_number(alloc, number, out),
        None if words.summary => replay_and_summarize(alloc, source, out),
        None => replay(alloc, source, out),
    }
}

/// Replays the script that the source has left, and writes the summary behind its transcript.
fn replay_and_summarize<S: Source, K: Sink>(
    alloc: Global,
    source: &mut S,
    out: &mut K,
) -> ReplayOutcome
    ensures ended { (words : Words) → words.summary ≡ true → words.generate ≡ None
        → ReplayEnded words result.status result.lines (S.left source.old)
        (S.left source.new) (K.taken out.old) (K.taken out.new) }
    ensures read_fault { result.status ≡ Status.ReadFault
        → Rose (S.faults source.old) (S.faults source.new) }
    ensures read_told { result.status ≢ Status.ReadFault
        → S.faults source.new ≡ S.faults source.old }
    ensures write_fault { result.status ≡ Status.WriteFault
        → Rose (K.faults out.old) (K.faults out.new) }
    ensures write_told { result.status ≢ Status.WriteFault
        → K.faults out.new ≡ K.faults out.old }
    ensures unpushed { PushesNothing result.status → out.new ≡ out.old }
{
    let replayed = replay(alloc, source, out);
    match replayed.status() {
        Status::Done => summarize(alloc, replayed, out),
        _ => replayed,
    }
}

/// Replays the script that the number stands for, and writes its summary.
fn replay_number<K: Sink>(alloc: Global, number: u64, out: &mut K) -> ReplayOutcome
    ensures ended { (words : Words) (had : Option (List ℕ)) → words.generate ≡ Some number
        → ReplayEnded words result.status result.lines had had (K.taken out.old)
        (K.taken out.new) }
    ensures read_fault { result.status ≢ Status.ReadFault }
    ensures write_fault { result.status ≡ Status.WriteFault
        → Rose (K.faults out.old) (K.faults out.new) }
    ensures write_told { result.status ≢ Status.WriteFault
        → K.faults out.new ≡ K.faults out.old }
    ensures unpushed { PushesNothing result.status → out.new ≡ out.old }
{
    match generated(alloc, number) {
        Err(_) => ReplayOutcome::unplayed(alloc, Status::NoMemory),
        Ok(script) => play_and_summarize(alloc, script.as_slice(), out),
    }
}

/// Plays the script that the bytes are, and writes its summary.
fn play_and_summarize<K: Sink>(alloc: Global, bytes: &[u8], out: &mut K) -> ReplayOutcome
    requires { length bytes.now < 2 ^ 60 }
    ensures ended { (words : Words) (had : Option (List ℕ)) (number : ℕ)
        → words.generate ≡ Some number → bytes.now ≡ script_text.generated number
        → ReplayEnded words result.status result.lines had had (K.taken out.old)
        (K.taken out.new) }
    ensures read_fault { result.status ≢ Status.ReadFault }
    ensures write_fault { result.status ≡ Status.WriteFault
        → Rose (K.faults out.old) (K.faults out.new) }
    ensures write_told { result.status ≢ Status.WriteFault
        → K.faults out.new ≡ K.faults out.old }
    ensures unpushed { PushesNothing result.status → out.new ≡ out.old }
{
    let played = play_bytes(alloc, bytes);
    match played.status() {
        Status::Done => summarize(alloc, played, out),
        _ => played,
    }
}
