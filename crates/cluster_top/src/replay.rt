//! The whole program, over the ends that it is given.
ghost use Rattle.std.specs.Prelude.{◌≡◌, ◌≢◌, ◌↔◌, [], map, string_bytes, IsSome};
ghost use Rattle.byte_ends.specs.Faults.{Rose};
ghost use Rattle.journal_readings.specs.CalmEnd.{CalmEnd};
ghost use Rattle.journal_readings.specs.Claims.{NoLoss, ReadJoin, SettledJoin, EqualClasses, OneMap, KeysRise};
ghost use Rattle.replay_core.specs.Outcome.{CalmsAreInTime, PushesNothing};
ghost use Rattle.cluster_top.specs.Auditing.{AuditEnded, IsAuditDecided};
ghost use Rattle.cluster_top.specs.Outcomes.{IfAudit, IfReplay, IsAudit, lines_in, status_in};
ghost use Rattle.cluster_top.specs.Replays.{IsDecided, ReplayEnded};
ghost use Rattle.cluster_top.specs.Words.{AreBad, AskAudit, AskNoReplay, Asks, EndsBadWords};

use crate::auditing::audit_source;
use crate::outcome::Outcome;
use crate::word_replay::replay_by;
use crate::words::{Words, WordsFault, ask_for_audit, read_words};
use byte_ends::{Sink, Source};
use replay_core::{ReplayOutcome, Status};
use std::alloc::Global;

/// Replays the script that the source has left, and writes the transcript to the sink; or audits
/// the transcript that it has left, and writes the verdict.
///
/// `words` are those after the program's name. With `--summary` the transcript's summary follows
/// it. With `--generate NUMBER` the script is the generated one of that number, nothing is pulled
/// from the source, and the summary alone is written. With `--audit`, and no word beside it, the
/// verdict is `holds`, or `fails` with the law and the line.
pub fn run<S: Source, K: Sink>(
    alloc: Global,
    words: &[String],
    source: &mut S,
    out: &mut K,
) -> Outcome
    // The outcome of an audit exactly where the words ask for one, and otherwise that of a replay.
    ensures kind { IsAudit result ↔ AskAudit (map string_bytes words.now) }

    // What each status of a replay says of the journal, the source and the sink, and what each
    // status of an audit.
    ensures ended { (asked : Words) → Asks (map string_bytes words.now) asked
        → IfReplay result (λ replay. ReplayEnded asked replay.status replay.lines
        (S.left source.old) (S.left source.new) (K.taken out.old) (K.taken out.new)) }
    ensures audited { IfAudit result (λ audit. AuditEnded audit.status audit.journal.lines
        (S.left source.old) (S.left source.new) (K.taken out.old) (K.taken out.new)) }

    // What holds of a replay's journal, however the run ended.
    ensures no_loss { IfReplay result (λ replay. NoLoss replay.lines) }
    ensures read_join { IfReplay result (λ replay. ReadJoin replay.lines) }
    ensures settled_join { IfReplay result (λ replay. SettledJoin replay.lines) }
    ensures one_map { IfReplay result (λ replay. OneMap replay.lines) }
    ensures equal_classes { IfReplay result (λ replay. EqualClasses replay.lines) }
    ensures keys_rise { IfReplay result (λ replay. KeysRise replay.lines) }
    ensures calm_end { IfReplay result (λ replay. CalmEnd replay.lines) }
    ensures calms { IfReplay result (λ replay. CalmsAreInTime replay.lines) }

    // The cause of each status, and each fault that an end counts is told. Bad words are refused before
    // anything is pulled or written, also for want of memory.
    ensures bad_words { status_in result ≡ Status.BadWords
        → AreBad (map string_bytes words.now) }
    ensures refused { AreBad (map string_bytes words.now)
        → EndsBadWords (status_in result) × (lines_in result ≡ []) }
    ensures untouched { AreBad (map string_bytes words.now)
        → (source.new ≡ source.old) × (out.new ≡ out.old) }
    ensures read_fault { status_in result ≡ Status.ReadFault
        → Rose (S.faults source.old) (S.faults source.new) }
    ensures read_told { status_in result ≢ Status.ReadFault
        → S.faults source.new ≡ S.faults source.old }
    ensures write_fault { status_in result ≡ Status.WriteFault
        → Rose (K.faults out.old) (K.faults out.new) }
    ensures write_told { status_in result ≢ Status.WriteFault
        → K.faults out.new ≡ K.faults out.old }

    // Nothing is pushed where there is nothing to write, and nothing pulled where a number stands for
    // the script: then no reading fails.
    ensures unpushed { PushesNothing (status_in result) → out.new ≡ out.old }
    ensures unread { (asked : Words) → Asks (map string_bytes words.now) asked
        → IsSome asked.generate
        → (source.new ≡ source.old) × (status_in result ≢ Status.ReadFault) }

    // Without a fault of either end, the words and the bytes decide how the run ends, unless memory
    // is refused.
    ensures decided { (asked : Words) → Asks (map string_bytes words.now) asked
        → ¬ Rose (S.faults source.old) (S.faults source.new)
        → ¬ Rose (K.faults out.old) (K.faults out.new)
        → IsDecided asked (S.left source.old) (status_in result) }
    ensures audit_decided { ¬ Rose (S.faults source.old) (S.faults source.new)
        → ¬ Rose (K.faults out.old) (K.faults out.new)
        → IfAudit result (λ audit. IsAuditDecided (S.left source.old) audit.status) }
{
    if ask_for_audit(words) {
        Outcome::Audit(audit_source(alloc, source, out))
    } else {
        let replayed = replay_asked(alloc, words, source, out);
        // What the outcome ensures of its journal.
        let _ = replayed.journal();
        Outcome::Replay(replayed)
    }
}

/// Reads the words that ask for a replay, and does what they ask for.
fn replay_asked<S: Source, K: Sink>(
    alloc: Global,
    words: &[String],
    source: &mut S,
    out: &mut K,
) -> ReplayOutcome
    ensures ended { (asked : Words) → Asks (map string_bytes words.now) asked
        → ReplayEnded asked result.status result.lines (S.left source.old)
        (S.left source.new) (K.taken out.old) (K.taken out.new) }
    ensures bad_words { result.status ≡ Status.BadWords
        → AskNoReplay (map string_bytes words.now) }
    ensures refused { AskNoReplay (map string_bytes words.now)
        → EndsBadWords result.status × (result.lines ≡ []) }
    ensures untouched { AskNoReplay (map string_bytes words.now)
        → (source.new ≡ source.old) × (out.new ≡ out.old) }
    ensures read_fault { result.status ≡ Status.ReadFault
        → Rose (S.faults source.old) (S.faults source.new) }
    ensures read_told { result.status ≢ Status.ReadFault
        → S.faults source.new ≡ S.faults source.old }
    ensures write_fault { result.status ≡ Status.WriteFault
        → Rose (K.faults out.old) (K.faults out.new) }
    ensures write_told { result.status ≢ Status.WriteFault
        → K.faults out.new ≡ K.faults out.old }
    ensures unpushed { PushesNothing result.status → out.new ≡ out.old }
    ensures unread { (asked : Words) → Asks (map string_bytes words.now) asked
        → IsSome asked.generate
        → (source.new ≡ source.old) × (result.status ≢ Status.ReadFault) }
    ensures decided { (asked : Words) → Asks (map string_bytes words.now) asked
        → ¬ Rose (S.faults source.old) (S.faults source.new)
        → ¬ Rose (K.faults out.old) (K.faults out.new)
        → IsDecided asked (S.left source.old) result.status }
{
    match read_words(alloc, words) {
        Err(WordsFault::Bad) => ReplayOutcome::unplayed(alloc, Status::BadWords),
        Err(WordsFault::NoMemory) => ReplayOutcome::unplayed(alloc, Status::NoMemory),
        Ok(words) => replay_by(alloc, words, source, out),
    }
}
