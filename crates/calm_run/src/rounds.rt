//! Flows, rounds, and rounds until the world is calm.
ghost use Rattle.std.specs.Prelude.{◌≡◌, false, OnOk, OnErr, IfOk, IsErrOf, IsSome, IsTrue};
ghost use Rattle.script_lang.specs.declared.script.Command.TheVariants as command_of;
ghost use Rattle.cluster_rules.specs.Allowed as allowed;
ghost use Rattle.cluster_rules.specs.Allowed.{is_playable};
ghost use Rattle.cluster_rules.specs.Calm.{is_calm};
ghost use Rattle.cluster_rules.specs.Opening.{declared_nodes};
ghost use Rattle.calm_laws.specs.Claims.{AreInTime};
ghost use Rattle.calm_run.specs.Playing.{PlaysOn, ComesToRest, GivesUp, RestsInTime, StandsIn, StopsIn, WritesMore};
ghost use Rattle.world.specs.Claims.{HasClaims};
ghost use Rattle.world.specs.Steps.{standing, run_lines};

use crate::event_of::event_of;
use script_lang::Command;
use std::alloc::Global;
use world::{Event, StepFault, World};

/// How many flows there are in a round.
const FLOWS: usize = 4;

/// Plays a command: as one event, or as those of a flow, a round or calm. Each node that it names is
/// declared, and groups name every declared node. After a fault the events before it stand: of a
/// command that is one event none, and of calm none but those of its rounds.
pub fn play(alloc: Global, world: &mut World, command: &Command) -> Result<(), StepFault>
    requires { IsTrue (is_playable (declared_nodes world.old.header) command.now) }
    ensures played { OnOk result (PlaysOn world.old world.new command.now) }
    ensures rests { command.now ≡ command_of.Calm → OnOk result (RestsInTime world.old world.new) }
    ensures too_long { IsErrOf result StepFault.RunTooLong
        → StopsIn world.old world.new command.now }
    ensures err { OnErr result (StandsIn world.old world.new command.now) }
    ensures unmoved { IsSome (allowed.event_of command.now) → OnErr result (world.new ≡ world.old) }
    ensures gives_up { command.now ≡ command_of.Calm → OnErr result (GivesUp world.old world.new) }
    ensures claims { HasClaims (run_lines world.new) }
{
    let answer = play_command(alloc, world, command);
    // What the journal ensures of its lines.
    let _ = world.journal();
    answer
}

/// The same, but for what holds of the journal.
fn play_command(alloc: Global, world: &mut World, command: &Command) -> Result<(), StepFault>
    requires { IsTrue (is_playable (declared_nodes world.old.header) command.now) }
    ensures played { OnOk result (PlaysOn world.old world.new command.now) }
    ensures too_long { IsErrOf result StepFault.RunTooLong
        → StopsIn world.old world.new command.now }
    ensures err { OnErr result (StandsIn world.old world.new command.now) }
    ensures unmoved { IsSome (allowed.event_of command.now) → OnErr result (world.new ≡ world.old) }
    ensures gives_up { command.now ≡ command_of.Calm → OnErr result (GivesUp world.old world.new) }
{
    if let Some(event) = event_of(alloc, command)? {
        return world.step(alloc, &event);
    }
    match command {
        Command::Flow => flow(alloc, world),
        Command::Round => round(alloc, world),
        _ => {
            come_to_rest(alloc, world)?;
            Ok(())
        }
    }
}

/// Does rounds until the world is calm, and then the event that tells their number, which it
/// answers. They are at most 21, the records held and the transactions open as it begins, where none
/// of them loses a message for want of a place; otherwise at most 256 and these, counted behind the
/// last that does. After a fault the events before it stand, and their number isn't told.
pub fn calm(alloc: Global, world: &mut World) -> Result<u64, StepFault>
    ensures calm { IfOk result (ComesToRest world.old world.new) }
    ensures in_time { IfOk result (AreInTime (standing world.old)) }
    ensures too_long { IsErrOf result StepFault.RunTooLong
        → StopsIn world.old world.new command_of.Calm }
    ensures err { OnErr result (StandsIn world.old world.new command_of.Calm) }
    ensures gives_up { OnErr result (GivesUp world.old world.new) }
    ensures claims { HasClaims (run_lines world.new) }
{
    let rounds = come_to_rest(alloc, world);
    // What the journal ensures of its lines.
    let _ = world.journal();
    rounds
}

/// The same, but for what holds of the journal.
fn come_to_rest(alloc: Global, world: &mut World) -> Result<u64, StepFault>
    ensures calm { IfOk result (ComesToRest world.old world.new) }
    ensures too_long { IsErrOf result StepFault.RunTooLong
        → StopsIn world.old world.new command_of.Calm }
    ensures err { OnErr result (StandsIn world.old world.new command_of.Calm) }
    ensures gives_up { OnErr result (GivesUp world.old world.new) }
{
    let mut rounds = 0u64;
    while !world.is_calm() {
        round(alloc, world)?;
        rounds += 1;
    }
    world.step(alloc, &Event::Calmed { rounds })?;
    Ok(rounds)
}

/// Ticks each node that is up as it begins, in rising order, and then flows four times.
fn round(alloc: Global, world: &mut World) -> Result<(), StepFault>
    ensures played { OnOk result (PlaysOn world.old world.new command_of.Round) }

    // Where the world isn't calm, a node is up, whose tick has a line, or a message is in flight, whose delivery has one.
    ensures more { is_calm (standing world.old) ≡ false
        → OnOk result (WritesMore world.old world.new) }
    ensures too_long { IsErrOf result StepFault.RunTooLong
        → StopsIn world.old world.new command_of.Round }
    ensures err { OnErr result (StandsIn world.old world.new command_of.Round) }
{
    // What the journal ensures of its world: only declared nodes are up.
    let _ = world.journal();
    for node in world.up_nodes().as_slice() {
        world.step(alloc, &Event::Tick { node: *node })?;
    }
    for _ in 0..FLOWS {
        flow(alloc, world)?;
    }
    // And of its lines: they pass no limit.
    let _ = world.journal();
    Ok(())
}

/// Delivers each message that is in flight as it begins, in rising order of the numbers.
fn flow(alloc: Global, world: &mut World) -> Result<(), StepFault>
    ensures played { OnOk result (PlaysOn world.old world.new command_of.Flow) }
    ensures too_long { IsErrOf result StepFault.RunTooLong
        → StopsIn world.old world.new command_of.Flow }
    ensures err { OnErr result (StandsIn world.old world.new command_of.Flow) }
{
    let in_flight = world.in_flight(alloc)?;
    for message in in_flight.as_slice() {
        world.step(alloc, &Event::Deliver { message: *message })?;
    }
    Ok(())
}
