//! Steps that show something of the world, or set something in it.
ghost use Rattle.std.specs.Prelude.{◌≡◌};
ghost use Rattle.cluster_rules.specs.declared.event.Event.TheVariants as events;
ghost use Rattle.world.specs.Steps.{MayCome, TakesStep, mark_line, marking};

use crate::fault::StepFault;
use crate::showing::{holds_line, map_lines};
use crate::world::World;
use cluster_rules::Event;
use cluster_types::{Boxed, Digest, Groups, NodeId, PartitionId, Role, partition_of};
use journal_text::Line;
use std::alloc::Global;
use std::snapshot::Snapshot;

impl World {
    // ---- what is shown

    pub(crate) fn show_map(
        &mut self,
        alloc: Global,
        node: NodeId,
        from: PartitionId,
        to: PartitionId,
        event: Snapshot<Event>,
    ) -> Result<(), StepFault>
        requires is { event.value ≡ events.Map node from to }
        requires comes { MayCome self.old event.value }
        ensures { TakesStep self.old self.new event.value result }
    {
        let lines = map_lines(alloc, node, self.node(node), from, to)?;
        self.ledger.tell_all(lines, event)
    }

    pub(crate) fn show_place(
        &mut self,
        alloc: Global,
        partition: PartitionId,
        event: Snapshot<Event>,
    ) -> Result<(), StepFault>
        requires is { event.value ≡ events.Place partition }
        requires comes { MayCome self.old event.value }
        ensures { TakesStep self.old self.new event.value result }
    {
        let line = self.place_line(alloc, partition)?;
        self.ledger.tell(line, event)
    }

    pub(crate) fn show_hash(
        &mut self,
        digest: Digest,
        event: Snapshot<Event>,
    ) -> Result<(), StepFault>
        requires is { event.value ≡ events.Hash digest }
        requires comes { MayCome self.old event.value }
        ensures { TakesStep self.old self.new event.value result }
    {
        let partition = partition_of(&digest);
        self.ledger.tell(Line::Hash { digest, partition }, event)
    }

    pub(crate) fn show_store(
        &mut self,
        alloc: Global,
        node: NodeId,
        digest: Digest,
        event: Snapshot<Event>,
    ) -> Result<(), StepFault>
        requires is { event.value ≡ events.Show node digest }
        requires comes { MayCome self.old event.value }
        ensures { TakesStep self.old self.new event.value result }
    {
        let line = holds_line(alloc, node, self.node(node), &digest)?;
        self.ledger.tell(line, event)
    }

    pub(crate) fn tell_calm(&mut self, rounds: u64, event: Snapshot<Event>) -> Result<(), StepFault>
        requires is { event.value ≡ events.Calmed rounds }
        requires comes { MayCome self.old event.value }
        ensures { TakesStep self.old self.new event.value result }
    {
        self.ledger.tell(Line::Calm { rounds }, event)
    }

    // ---- what is set

    pub(crate) fn set_clock(
        &mut self,
        node: NodeId,
        time: u64,
        event: Snapshot<Event>,
    ) -> Result<(), StepFault>
        requires is { event.value ≡ events.Clock node time }
        requires comes { MayCome self.old event.value }
        ensures { TakesStep self.old self.new event.value result }
    {
        let place = self.place_of(node);
        self.ledger.tell(Line::Clock { node, time }, event)?;
        self.clocks[place] = time;
        Ok(())
    }

    pub(crate) fn set_groups(
        &mut self,
        alloc: Global,
        groups: &Boxed<Groups>,
        event: Snapshot<Event>,
    ) -> Result<(), StepFault>
        requires is { event.value ≡ events.Groups groups.now }
        requires comes { MayCome self.old event.value }
        ensures { TakesStep self.old self.new event.value result }
    {
        let parts = *groups.get();
        // What the type ensures of groups: no node is in two.
        let _ = parts.as_slice();
        let groups = Boxed::new(alloc, parts)?;
        self.ledger.tell(Line::Groups { groups }, event)?;
        self.net.set_groups(parts);
        Ok(())
    }

    /// Marks the node as one that is about to leave, or takes the mark away.
    pub(crate) fn set_mark(
        &mut self,
        node: NodeId,
        quiesced: bool,
        event: Snapshot<Event>,
    ) -> Result<(), StepFault>
        requires is { event.value ≡ marking node quiesced }
        requires comes { MayCome self.old event.value }
        ensures { TakesStep self.old self.new event.value result }
    {
        let place = self.place_of(node);
        self.ledger.tell(mark_line(node, quiesced), event)?;
        let role = Role {
            quiesced,
            ..self.nodes[place].role()
        };
        self.nodes[place].set_role(role);
        Ok(())
    }
}

/// The line of a mark that is set or taken away.
fn mark_line(node: NodeId, quiesced: bool) -> Line
    ensures { result ≡ mark_line node quiesced }
{
    if quiesced {
        Line::Quiesce { node }
    } else {
        Line::Unquiesce { node }
    }
}
