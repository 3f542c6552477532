//! What a replay leaves.
ghost use Rattle.std.specs.Prelude.{◌≡◌, ◌≢◌, []};
ghost use Rattle.journal_text.specs.Journals.{IsWithin};
ghost use Rattle.world.specs.Claims.{HasClaims};
ghost use Rattle.world.specs.Steps.{run_lines};
ghost use Rattle.replay_core.specs.Outcome.{CalmsAreInTime, status_after_writing};

use crate::status::Status;
use crate::writing::WriteFault;
use journal_text::Journal;
use std::alloc::Global;
use std::marker::Model;
use world::{Parts, Remains, World};

/// How a replay ended, and its journal: the run's where all was played, that before the first event
/// that doesn't fit where the run is too long, and empty otherwise. The claims hold of it, however
/// the replay ended.
///
/// It also keeps what else the run left, which is memory alone. A process that is about to end may
/// forget the outcome, since giving that back takes long where many records are held.
#[derive(Drop)]
pub struct ReplayOutcome {
    status: Status,
    journal: Journal,
    remains: Option<Remains>,
}

impl Model for ReplayOutcome {
    ghost use Rattle.replay_core.specs.Outcome.{HasAllClaims, ReplayEnd};

    ghost Value = { ReplayEnd };

    ghost view = { λ o. record { status = o.status; lines = o.journal.lines } };

    ghost invariant = { λ o. HasAllClaims o.journal.lines };
}

impl ReplayOutcome {
    /// Where nothing was played: there is no line.
    pub fn unplayed(alloc: Global, status: Status) -> ReplayOutcome
        ensures status { result.status ≡ status }
        ensures empty { result.lines ≡ [] }
    {
        ReplayOutcome {
            status,
            journal: Journal::new(alloc),
            remains: None,
        }
    }

    /// Where this was played in the world.
    pub(crate) fn played(world: World, status: Status) -> ReplayOutcome
        ensures status { result.status ≡ status }
        ensures lines { result.lines ≡ run_lines world }
        ensures within { IsWithin result.lines }
    {
        let Parts { journal, remains } = world.into_parts();
        ReplayOutcome {
            status,
            journal,
            remains: Some(remains),
        }
    }

    /// How it ended.
    pub fn status(&self) -> Status
        ensures { result ≡ self.now.status }
    {
        self.status
    }

    /// The journal, of which every claim holds.
    pub fn journal(&self) -> &Journal
        ensures lines { result.now.lines ≡ self.now.lines }
        ensures claims { HasClaims self.now.lines }
        ensures calms { CalmsAreInTime self.now.lines }
    {
        &self.journal
    }

    /// How a replay ends of which all was played, and whose writing ended so. For want of memory its
    /// journal is given up.
    pub fn after_writing(self, alloc: Global, writing: Result<(), WriteFault>) -> ReplayOutcome
        ensures status { result.status ≡ status_after_writing writing }
        ensures kept { result.status ≢ Status.NoMemory → result.lines ≡ self.lines }
        ensures empty { result.status ≡ Status.NoMemory → result.lines ≡ [] }
    {
        match writing {
            Ok(()) => self.ended(Status::Done),
            Err(WriteFault::Sink) => self.ended(Status::WriteFault),
            Err(WriteFault::NoMemory) => ReplayOutcome::unplayed(alloc, Status::NoMemory),
        }
    }

    /// The same of the run, with another end.
    fn ended(self, status: Status) -> ReplayOutcome
        ensures status { result.status ≡ status }
        ensures lines { result.lines ≡ self.lines }
    {
        let ReplayOutcome {
            journal,
            remains,
            ..
        } = self;
        ReplayOutcome {
            status,
            journal,
            remains,
        }
    }
}
