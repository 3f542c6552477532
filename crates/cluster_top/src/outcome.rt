//! What a run answers.
ghost use Rattle.std.specs.Prelude.{◌≡◌};
ghost use Rattle.cluster_top.specs.Outcomes.{lines_in, status_in};

use crate::auditing::AuditOutcome;
use journal_text::Journal;
use replay_core::{ReplayOutcome, Status};

/// How a run ended, by what it did, and its journal.
#[derive(Drop)]
pub enum Outcome {
    /// That of a replay. A run whose words the program doesn't take replays nothing.
    Replay(ReplayOutcome),
    /// That of an audit.
    Audit(AuditOutcome),
}

impl Outcome {
    /// How the run ended.
    pub fn status(&self) -> Status
        ensures { result ≡ status_in self.now }
    {
        match self {
            Outcome::Replay(replay) => replay.status(),
            Outcome::Audit(audit) => audit.status,
        }
    }

    /// The journal that was replayed or audited.
    pub fn journal(&self) -> &Journal
        ensures { result.now.lines ≡ lines_in self.now }
    {
        match self {
            Outcome::Replay(replay) => replay.journal(),
            Outcome::Audit(audit) => &audit.journal,
        }
    }
}
