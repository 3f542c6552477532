//! Goes over the lines of a journal.
ghost use Rattle.std.specs.Prelude.{◌<◌, ◌^◌, IfOk};
ghost use Rattle.audit_core.specs.Verdicts.{IsVerdict, IsAnswer};

use crate::judge::Judge;
use crate::verdict::{Stop, Verdict};
use cluster_types::NoMemory;
use journal_text::Journal;
use std::alloc::Global;

/// Whether the journal keeps the laws, and otherwise the first place at which it breaks one.
pub fn audit(alloc: Global, journal: &Journal) -> Result<Verdict, NoMemory>
    ensures { IfOk result (λ verdict. IsVerdict journal.now.lines verdict) }
{
    let lines = journal.as_slice();
    let mut judge = Judge::new(alloc, lines);
    for i in 0..lines.len() {
        match judge.judge(i, &lines[i]) {
            Ok(()) => {}
            Err(stop) => return answer(stop, i),
        }
    }
    Ok(Verdict::Holds)
}

/// What an audit answers that stops at the line of this place, from 0.
fn answer(stop: Stop, place: usize) -> Result<Verdict, NoMemory>
    requires { place < 2 ^ 63 }
    ensures { IfOk result (λ verdict. IsAnswer stop place verdict) }
{
    match stop {
        Stop::NoMemory => Err(NoMemory),
        Stop::Breaks(law) => {
            let line = place as u64 + 1;
            Ok(Verdict::Fails { law, line })
        }
    }
}
