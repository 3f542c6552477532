//! The run of a script.
ghost use Rattle.std.specs.Prelude.{◌≡◌, ℕ, List, Ok, OnOk, OnErr, IsErrOf};
ghost use Rattle.script_lang.specs.Grammar.{script_of};
ghost use Rattle.script_lang.specs.Proper.{IsProper};
ghost use Rattle.world.specs.Steps.{run_begun};
ghost use Rattle.replay_core.specs.Outcome.{PlayEnded};
ghost use Rattle.replay_core.specs.Playing.{ArePlayable, PlaysAllOn, StandsAmong, StopsAmong};

use crate::outcome::ReplayOutcome;
use crate::status::Status;
use script_lang::{Command, Script};
use std::alloc::Global;
use world::{StepFault, World};

/// Plays the script in a new world, and writes nothing. `RunTooLong` where its lines don't fit; the
/// journal then has those of the events before the first that doesn't fit. Want of memory leaves no
/// line.
pub fn play_script(alloc: Global, script: &Script) -> ReplayOutcome
    requires { IsProper script.now }
    ensures { (bytes : List ℕ) → script_of bytes ≡ Ok script.now
        → PlayEnded bytes result.status result.lines }
{
    match World::new(alloc, &script.header) {
        Ok(world) => play_in(alloc, world, script),
        Err(StepFault::RunTooLong) => ReplayOutcome::unplayed(alloc, Status::RunTooLong),
        Err(StepFault::NoMemory) => ReplayOutcome::unplayed(alloc, Status::NoMemory),
    }
}

/// Plays the script in the world that its header declares.
fn play_in(alloc: Global, mut world: World, script: &Script) -> ReplayOutcome
    requires begun { world ≡ run_begun script.now.header }
    requires proper { IsProper script.now }
    ensures { (bytes : List ℕ) → script_of bytes ≡ Ok script.now
        → PlayEnded bytes result.status result.lines }
{
    match play_all(alloc, &mut world, script.commands.as_slice()) {
        Ok(()) => ReplayOutcome::played(world, Status::Done),
        Err(StepFault::RunTooLong) => ReplayOutcome::played(world, Status::RunTooLong),
        Err(StepFault::NoMemory) => ReplayOutcome::unplayed(alloc, Status::NoMemory),
    }
}

/// Plays the commands, one after another. After a fault the events before it stand.
fn play_all(alloc: Global, world: &mut World, commands: &[Command]) -> Result<(), StepFault>
    requires { ArePlayable world.old.header commands.now }
    ensures played { OnOk result (PlaysAllOn world.old world.new commands.now) }
    ensures too_long { IsErrOf result StepFault.RunTooLong
        → StopsAmong world.old world.new commands.now }
    ensures err { OnErr result (StandsAmong world.old world.new commands.now) }
{
    for command in commands {
        calm_run::play(alloc, world, command)?;
    }
    Ok(())
}
