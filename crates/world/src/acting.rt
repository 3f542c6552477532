//! Steps of a node, and of the client.
ghost use Rattle.std.specs.Prelude.{◌≡◌, Contains, IfSome};
ghost use Rattle.node_rules.specs.Client.{node_for};
ghost use Rattle.cluster_rules.specs.declared.event.Event.TheVariants as events;
ghost use Rattle.cluster_rules.specs.Opening.{declared_nodes};
ghost use Rattle.run_laws.specs.Taken.{IsProperEvent};
ghost use Rattle.world.specs.Steps.{MayCome, TakesStep, client_requesting, requesting, standing};

use crate::fault::StepFault;
use crate::lines::line_before;
use crate::sending::CLIENT;
use crate::taking::EndStep;
use crate::world::World;
use cluster_rules::Event;
use cluster_types::{Digest, NodeId, PartitionId, partition_of};
use conflict_order::Want;
use journal_text::{Line, LineList};
use node_core::{Effects, SendList};
use std::alloc::Global;
use std::snapshot::Snapshot;
use wire_codec::{Message, encode};

impl World {
    // ---- a node

    pub(crate) fn tick(
        &mut self,
        alloc: Global,
        node: NodeId,
        event: Snapshot<Event>,
    ) -> Result<(), StepFault>
        requires is { event.value ≡ events.Tick node }
        requires comes { MayCome self.old event.value }
        ensures { TakesStep self.old self.new event.value result }
    {
        let number = node.number();
        let place = self.place_of(node);
        if !self.nodes[place].is_up() {
            return self.ledger.tell(Line::Down { node }, event);
        }
        let effects = self.nodes[place].tick(alloc, self.clocks[place])?;
        let step = EndStep::of(event, number, effects);
        step.take_of(
            alloc,
            &mut self.nodes[place],
            &mut self.net,
            &mut self.ledger,
        )
    }

    pub(crate) fn stop(
        &mut self,
        alloc: Global,
        node: NodeId,
        event: Snapshot<Event>,
    ) -> Result<(), StepFault>
        requires is { event.value ≡ events.Stop node }
        requires comes { MayCome self.old event.value }
        ensures { TakesStep self.old self.new event.value result }
    {
        let place = self.place_of(node);
        if !self.nodes[place].is_up() {
            return self.ledger.tell(Line::Down { node }, event);
        }
        let effects = self.nodes[place].stop(alloc)?;
        let step = EndStep::of(event, node.number(), effects);
        step.take_of(
            alloc,
            &mut self.nodes[place],
            &mut self.net,
            &mut self.ledger,
        )
    }

    pub(crate) fn start(&mut self, node: NodeId, event: Snapshot<Event>) -> Result<(), StepFault>
        requires is { event.value ≡ events.Start node }
        requires comes { MayCome self.old event.value }
        ensures { TakesStep self.old self.new event.value result }
    {
        let place = self.place_of(node);
        if self.nodes[place].is_up() {
            return self.ledger.tell(Line::Up { node }, event);
        }
        self.ledger.tell(Line::Start { node }, event)?;
        self.nodes[place].start();
        Ok(())
    }

    /// A request at the node.
    pub(crate) fn request(
        &mut self,
        alloc: Global,
        node: NodeId,
        digest: Digest,
        want: Want,
        event: Snapshot<Event>,
    ) -> Result<(), StepFault>
        requires is { event.value ≡ requesting node digest want }
        requires comes { MayCome self.old event.value }
        requires proper { IsProperEvent event.value }
        ensures { TakesStep self.old self.new event.value result }
    {
        let place = self.place_of(node);
        let (_, effects) = self.nodes[place].request(alloc, digest, want, self.clocks[place])?;
        let step = EndStep::of(event, node.number(), effects);
        step.take_of(
            alloc,
            &mut self.nodes[place],
            &mut self.net,
            &mut self.ledger,
        )
    }

    // ---- the client

    /// A request of the client, at the node that its table names.
    pub(crate) fn client_request(
        &mut self,
        alloc: Global,
        digest: Digest,
        want: Want,
        event: Snapshot<Event>,
    ) -> Result<(), StepFault>
        requires is { event.value ≡ client_requesting digest want }
        requires comes { MayCome self.old event.value }
        requires proper { IsProperEvent event.value }
        ensures { TakesStep self.old self.new event.value result }
    {
        let partition = partition_of(&digest);
        let Some(node) = self.asked_node(partition) else {
            return self.ledger.tell(Line::NoMap { partition }, event);
        };
        let place = self.place_of(node);
        let (_, effects) = self.nodes[place].request(alloc, digest, want, self.clocks[place])?;
        let Effects { lines, sends } = effects;
        let lines = line_before(Line::Client { node, digest }, lines)?;
        let step = EndStep::of(event, node.number(), Effects { lines, sends });
        step.take_of(
            alloc,
            &mut self.nodes[place],
            &mut self.net,
            &mut self.ledger,
        )
    }

    /// The node that the client asks for the partition, and `None` where it has no table.
    fn asked_node(&self, partition: PartitionId) -> Option<NodeId>
        ensures value { result ≡ node_for (standing self.now).tables partition }
        ensures declared { IfSome result (Contains (declared_nodes self.now.header)) }
    {
        let _ = partition.number();
        self.client.node_of(partition)
    }

    /// The client asks the node for its table.
    pub(crate) fn ask(
        &mut self,
        alloc: Global,
        node: NodeId,
        event: Snapshot<Event>,
    ) -> Result<(), StepFault>
        requires is { event.value ≡ events.Ask node }
        requires comes { MayCome self.old event.value }
        ensures { TakesStep self.old self.new event.value result }
    {
        let lines = LineList::new(alloc);
        let mut sends = SendList::new(alloc);
        sends.push((node.number(), encode(alloc, &Message::MapAsk)?))?;
        let step = EndStep::of(event, CLIENT, Effects { lines, sends });
        step.take(alloc, &mut self.net, &mut self.ledger)
    }
}
