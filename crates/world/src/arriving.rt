//! Messages that are lost, or arrive.
ghost use Rattle.std.specs.Prelude.{◌≡◌, ◌≢◌, ◌∷◌, [], ◌&&◌, ◌||◌, ◌⊎◌, ◌==◌, not, Contains, IsTrue, IfNone, IfOk, IfSome, OnErr, OnOk};
ghost use Rattle.std.specs.Option.{option_copied, option_map};
ghost use Rattle.cluster_rules.specs.DueEvents.{losing};
ghost use Rattle.cluster_rules.specs.declared.event.Event.TheVariants as events;
ghost use Rattle.cluster_rules.specs.Network.{are_apart, flying_at};
ghost use Rattle.cluster_rules.specs.Opening.{declared_nodes};
ghost use Rattle.cluster_rules.specs.World.{is_up};
ghost use Rattle.run_laws.specs.Taken.{IsProperEvent};
ghost use Rattle.wire_messages.specs.declared.message.MapTable.{MapTable};
ghost use Rattle.wire_messages.specs.declared.message.Message.TheVariants as messages;
ghost use Rattle.wire_messages.specs.Proper.{IsProper};
ghost use Rattle.node_rules.specs.Messages.{client, due_message};
ghost use Rattle.node_rules.specs.Senders.{ComesFrom};
ghost use Rattle.node_rules.specs.Steps.{after_message, planning, unplanned};
ghost use Rattle.node_steps.specs.Counts.{HaveNumbers};
ghost use Rattle.node_steps.specs.Spelled.{spelled};
ghost use Rattle.world.specs.Arriving.{Arrives, OnlyLands, delivering};
ghost use Rattle.world.specs.Stands.{flying_posting};
ghost use Rattle.world.specs.Steps.{MayCome, StandsAt, TakesStep, next_lines, standing};

use crate::delivery::{Arrival, Delivery};
use crate::fault::StepFault;
use crate::lines::{line_before, one_line, two_lines};
use crate::sending::{CLIENT, land};
use crate::taking::{EndStep, LineStep};
use crate::world::World;
use cluster_rules::Event;
use cluster_types::NoMemory;
use journal_text::{Line, LineList};
use net_script::Flying;
use node_core::{Effects, Node};
use std::alloc::Global;
use std::snapshot::Snapshot;
use wire_codec::Message;
use wire_messages::MapTable;

/// A message that arrives.
#[derive(Drop)]
struct Arriving {
    event: Snapshot<Event>,
    /// The line of the delivery.
    line: Line,
    /// The number of the message, where it leaves the network.
    landing: Option<u64>,
    from: u16,
    to: u16,
    message: Message,
}

impl World {
    pub(crate) fn lose(
        &mut self,
        alloc: Global,
        message: u64,
        event: Snapshot<Event>,
    ) -> Result<(), StepFault>
        requires is { event.value ≡ events.Lose message }
        requires comes { MayCome self.old event.value }
        ensures { TakesStep self.old self.new event.value result }
    {
        let lines = one_line(alloc, self.loss_line(message))?;
        self.pass_over(lines, Some(message), event)
    }

    /// The line of a loss of the message.
    fn loss_line(&self, message: u64) -> Line
        ensures { result ∷ [] ≡ losing message (flying_at (standing self.now).network message) }
    {
        match self.net.get(message) {
            Some(_) => Line::Lost { message },
            None => Line::NoMessage { message },
        }
    }

    /// The message of that number, if it is in flight.
    fn flying(&self, message: u64) -> Option<&Flying>
        ensures value { option_map flying_posting (option_copied result)
            ≡ flying_at (standing self.now).network message }
        ensures receiver { IfSome result
            (λ m. (m.now.to ≡ client) ⊎ Contains (declared_nodes self.now.header) m.now.to) }
    {
        self.net.get(message)
    }

    /// The message is delivered, repeated or cut.
    pub(crate) fn deliver(
        &mut self,
        alloc: Global,
        message: u64,
        delivery: Delivery,
        event: Snapshot<Event>,
    ) -> Result<(), StepFault>
        requires is { event.value ≡ delivering message delivery }
        requires comes { MayCome self.old event.value }
        ensures { TakesStep self.old self.new event.value result }
    {
        let landing = delivery.landing(message);
        let Some(flying) = self.flying(message) else {
            let lines = one_line(alloc, Line::NoMessage { message })?;
            return self.pass_over(lines, landing, event);
        };
        let (from, to) = (flying.from, flying.to);
        if self.is_blocked(from, to) {
            let lines = one_line(alloc, Line::Blocked { message })?;
            return self.pass_over(lines, landing, event);
        }
        let arrival = delivery.arrival(alloc, flying)?;
        let line = delivery.line(message, from, to);
        match arrival {
            Arrival::Unread => {
                let lines = one_line(alloc, line)?;
                self.pass_over(lines, landing, event)
            }
            Arrival::Short => {
                let lines = two_lines(alloc, line, Line::Short { endpoint: to })?;
                self.pass_over(lines, landing, event)
            }
            Arrival::Message(message) => {
                let arriving = Arriving {
                    event,
                    line,
                    landing,
                    from,
                    to,
                    message,
                };
                match self.find(to) {
                    None => self.arrive_at_client(alloc, arriving),
                    Some(place) => self.arrive_at_node(alloc, place, arriving),
                }
            }
        }
    }

    /// Whether no message gets from one end to the other: they are nodes of different groups, or the
    /// receiver is a stopped node.
    fn is_blocked(&self, from: u16, to: u16) -> bool
        ensures { result
            ≡ (are_apart (standing self.now).network from to
            || (not (to == client) && not (is_up (standing self.now) to))) }
    {
        self.net.apart(from, to) || (to != CLIENT && !self.is_up(to))
    }

    /// Ends a delivery that makes nobody do anything.
    fn pass_over(
        &mut self,
        lines: LineList,
        landing: Option<u64>,
        event: Snapshot<Event>,
    ) -> Result<(), StepFault>
        requires comes { MayCome self.old event.value }
        requires proper { IsProperEvent event.value }
        requires due { lines ≡ next_lines self.old event.value }
        requires lands { OnlyLands self.old event.value landing }
        ensures { TakesStep self.old self.new event.value result }
    {
        self.ledger.tell_all(lines, event)?;
        land(&mut self.net, landing);
        Ok(())
    }

    /// The client takes tables and nothing else.
    fn arrive_at_client(&mut self, alloc: Global, arriving: Arriving) -> Result<(), StepFault>
        requires comes { MayCome self.old arriving.event.value }
        requires arrives { Arrives self.old arriving }
        requires end { arriving.to ≡ client }
        ensures { TakesStep self.old self.new arriving.event.value result }
    {
        let Arriving {
            event,
            line,
            landing,
            message,
            ..
        } = arriving;
        let Some(table) = table_of(message) else {
            let lines = two_lines(alloc, line, Line::Stale { endpoint: CLIENT })?;
            return self.pass_over(lines, landing, event);
        };
        let lines = two_lines(alloc, line, Line::Table { key: table.key })?;
        self.ledger.tell_all(lines, event)?;
        land(&mut self.net, landing);
        self.client.refresh(&table);
        Ok(())
    }

    fn arrive_at_node(
        &mut self,
        alloc: Global,
        place: usize,
        arriving: Arriving,
    ) -> Result<(), StepFault>
        requires comes { MayCome self.old arriving.event.value }
        requires arrives { Arrives self.old arriving }
        requires end { StandsAt self.old place arriving.to }
        ensures { TakesStep self.old self.new arriving.event.value result }
    {
        let Arriving {
            event,
            line,
            landing,
            from,
            to,
            message,
        } = arriving;
        let effects = receive(
            alloc,
            &mut self.nodes[place],
            from,
            message,
            self.clocks[place],
        )?;
        let Effects { lines, sends } = effects;
        if lines.is_empty() && sends.is_empty() {
            let step = LineStep {
                event,
                landing,
                line,
            };
            return step.take_of(&mut self.nodes[place], &mut self.net, &mut self.ledger);
        }
        let lines = line_before(line, lines)?;
        let step = EndStep {
            event,
            from: to,
            landing,
            effects: Effects { lines, sends },
        };
        step.take_of(
            alloc,
            &mut self.nodes[place],
            &mut self.net,
            &mut self.ledger,
        )
    }
}

/// The table that the message tells, if it tells one.
fn table_of(message: Message) -> Option<MapTable>
    ensures some { IfSome result (λ t. message ≡ messages.MapTable t) }
    ensures none { IfNone result ((t : MapTable) → message ≢ messages.MapTable t) }
{
    match message {
        Message::MapTable(table) => Some(table),
        _ => None,
    }
}

/// Plans what the message makes the node do, and lets the message go.
fn receive(
    alloc: Global,
    node: &mut Node,
    from: u16,
    message: Message,
    clock: u64,
) -> Result<Effects, NoMemory>
    requires up { IsTrue node.old.now.up }
    requires proper { IsProper message }
    requires sender { ComesFrom node.old.now from message }
    requires counts { HaveNumbers node.old.now }
    ensures effects { IfOk result
        (λ e. e ≡ spelled (due_message node.old.now clock from message)) }
    ensures planned { OnOk result
        (node.new ≡ planning node.old.now (after_message node.old.now clock from message)) }
    ensures err { OnErr result (node.new ≡ unplanned node.old.now) }
{
    node.receive(alloc, from, &message, clock)
}
