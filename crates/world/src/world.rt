//! The world.
ghost use Rattle.std.specs.Prelude.{◌≡◌, ◌++◌, Contains, OnOk, OnErr, IfOk, IsErrOf};
ghost use Rattle.journal_text.specs.Journals.{IsWithin};
ghost use Rattle.cluster_rules.specs.Opening as opening;
ghost use Rattle.cluster_rules.specs.World as worlds;
ghost use Rattle.run_laws.specs.Taken.{Taken};
ghost use Rattle.world.specs.Claims.{HasClaims};
ghost use Rattle.world.specs.Idle.{DoesNothing};
ghost use Rattle.world.specs.Steps.{MayCome, TakesStep, run_begun, standing, run_lines, next_lines, stepped};

use crate::delivery::Delivery;
use crate::fault::StepFault;
use crate::ledger::Ledger;
use crate::opening::{clocks_at_0, declared_ids, declared_nodes, header_lines, undivided_net};
use crate::order::rising;
use crate::parts::{Parts, Remains};
use crate::requested::{same_digest, same_value};
use client_map::ClientMap;
use cluster_rules::Event;
use cluster_types::{IdList, NoMemory, NodeId, NodeList};
use conflict_order::Want;
use journal_text::{Journal, LineList};
use net_script::Net;
use node_core::Node;
use script_lang::{Header, HeaderLine};
use std::alloc::Global;
use std::marker::Model;
use std::snapshot::Snapshot;

/// The nodes that a header declares, the network between them, the client and the journal.
///
/// Ids, nodes and clocks stand in the rising order of the ids.
#[derive(Drop)]
pub struct World {
    pub(crate) header: Vec<HeaderLine>,
    pub(crate) ids: NodeList,
    pub(crate) nodes: Vec<Node>,
    pub(crate) clocks: Vec<u64>,
    pub(crate) net: Net,
    pub(crate) client: ClientMap,
    pub(crate) ledger: Ledger,
}

impl Model for World {
    ghost use Rattle.world.specs.Steps.{RunSoFar};

    ghost Value = { RunSoFar };

    ghost use Rattle.world.specs.Kept.{run_of, Keeps};

    ghost view = { run_of };

    ghost invariant = { Keeps };
}

impl World {
    /// The world that a header declares, with its lines in the journal: all nodes run with empty
    /// stores, all clocks stand at 0, and nothing was sent. `RunTooLong` exactly where its lines
    /// alone pass a limit of a journal, unless memory is refused.
    pub fn new(alloc: Global, header: &Header) -> Result<World, StepFault>
        ensures ok { IfOk result (λ w. w ≡ run_begun header.now) }
        ensures within { OnOk result (IsWithin (opening.header_lines header.now)) }
        ensures too_long { IsErrOf result StepFault.RunTooLong
            → ¬ IsWithin (opening.header_lines header.now) }
    {
        let header = header.as_slice();
        let lines = header_lines(alloc, header)?;
        let all = declared_ids(header);
        let ids = rising(&all);
        let nodes = declared_nodes(alloc, header, &all, ids.as_slice())?;
        let clocks = clocks_at_0(alloc, ids.len())?;
        let client = ClientMap::new(alloc)?;
        let header = Vec::from_slice(alloc, header)?;
        let mut ledger = Ledger::new(alloc);
        ledger.make_room(&lines)?;
        ledger.append(lines);
        Ok(World {
            header,
            ids,
            nodes,
            clocks,
            net: undivided_net(alloc, &all),
            client,
            ledger,
        })
    }

    /// One step: the event, with just the lines that are due of it. Each node that the event names
    /// is declared, groups name every declared node, and `Calmed` comes only where the world is
    /// calm. `RunTooLong` exactly where the journal with these lines would pass one of its limits,
    /// unless memory is refused; the world is as it was after both faults.
    ///
    /// Events of proxies, calls and scans do nothing, since no script has them yet.
    pub fn step(&mut self, alloc: Global, event: &Event) -> Result<(), StepFault>
        requires { MayCome self.old event.now }
        ensures ok { OnOk result (self.new ≡ stepped self.old event.now) }
        ensures within { OnOk result
            (IsWithin (run_lines self.old ++ next_lines self.old event.now)) }
        ensures too_long { IsErrOf result StepFault.RunTooLong
            → ¬ IsWithin (run_lines self.old ++ next_lines self.old event.now) }
        ensures err { OnErr result (self.new ≡ self.old) }
        ensures claims { HasClaims (run_lines self.new) }
    {
        let answer = self.take(alloc, event, Snapshot::of(event));
        // What the journal ensures of its lines.
        let _ = self.journal();
        answer
    }

    /// One step of the event, which proofs keep.
    fn take(&mut self, alloc: Global, event: &Event, kept: Snapshot<Event>) -> Result<(), StepFault>
        requires same { kept.value ≡ event.now }
        requires comes { MayCome self.old kept.value }
        ensures { TakesStep self.old self.new kept.value result }
    {
        match event {
            Event::Clock { node, time } => self.set_clock(*node, *time, kept),
            Event::Groups { groups } => self.set_groups(alloc, groups, kept),
            Event::Tick { node } => self.tick(alloc, *node, kept),
            Event::Stop { node } => self.stop(alloc, *node, kept),
            Event::Start { node } => self.start(*node, kept),
            Event::Put {
                node,
                digest,
                value,
            } => {
                let want = Want::Put(same_value(alloc, value)?);
                self.request(alloc, *node, same_digest(digest), want, kept)
            }
            Event::Get { node, digest } => {
                self.request(alloc, *node, same_digest(digest), Want::Get, kept)
            }
            Event::Del { node, digest } => {
                self.request(alloc, *node, same_digest(digest), Want::Del, kept)
            }
            Event::ClientPut { digest, value } => {
                let want = Want::Put(same_value(alloc, value)?);
                self.client_request(alloc, same_digest(digest), want, kept)
            }
            Event::ClientGet { digest } => {
                self.client_request(alloc, same_digest(digest), Want::Get, kept)
            }
            Event::ClientDel { digest } => {
                self.client_request(alloc, same_digest(digest), Want::Del, kept)
            }
            Event::Ask { node } => self.ask(alloc, *node, kept),
            Event::Deliver { message } => self.deliver(alloc, *message, Delivery::Whole, kept),
            Event::Repeat { message } => self.deliver(alloc, *message, Delivery::Repeated, kept),
            Event::Lose { message } => self.lose(alloc, *message, kept),
            Event::Cut { message, length } => {
                self.deliver(alloc, *message, Delivery::Cut(*length), kept)
            }
            Event::Map { node, from, to } => self.show_map(alloc, *node, *from, *to, kept),
            Event::Place { partition } => self.show_place(alloc, *partition, kept),
            Event::Hash { digest } => self.show_hash(*digest, kept),
            Event::Show { node, digest } => self.show_store(alloc, *node, *digest, kept),
            Event::Quiesce { node } => self.set_mark(*node, true, kept),
            Event::Unquiesce { node } => self.set_mark(*node, false, kept),
            Event::Calmed { rounds } => self.tell_calm(*rounds, kept),
            // Proxies, calls and scans do nothing yet.
            Event::ProxyGet { .. } => self.do_nothing(alloc, kept),
            Event::ProxyPut { .. } => self.do_nothing(alloc, kept),
            Event::ProxyDel { .. } => self.do_nothing(alloc, kept),
            Event::ProxyAgain { .. } => self.do_nothing(alloc, kept),
            Event::CallGet { .. } => self.do_nothing(alloc, kept),
            Event::CallPut { .. } => self.do_nothing(alloc, kept),
            Event::CallDel { .. } => self.do_nothing(alloc, kept),
            Event::CallAgain { .. } => self.do_nothing(alloc, kept),
            Event::Scan { .. } => self.do_nothing(alloc, kept),
            Event::ScanNext { .. } => self.do_nothing(alloc, kept),
        }
    }

    /// The step of an event that does nothing.
    fn do_nothing(&mut self, alloc: Global, event: Snapshot<Event>) -> Result<(), StepFault>
        requires nothing { DoesNothing event.value }
        requires comes { MayCome self.old event.value }
        ensures { TakesStep self.old self.new event.value result }
    {
        self.ledger.tell_all(LineList::new(alloc), event)
    }

    /// The journal: the header's lines, and then those of the steps, of which each event was
    /// allowed and has just its due lines.
    pub fn journal(&self) -> &Journal
        ensures lines { result.now.lines ≡ run_lines self.now }
        ensures within { IsWithin result.now.lines }
        ensures taken { Taken self.now.header self.now.steps }
        ensures claims { HasClaims result.now.lines }
    {
        &self.ledger.journal
    }

    /// The journal, which is all that is left of the world.
    pub fn into_journal(self) -> Journal
        ensures lines { result.lines ≡ run_lines self }
        ensures within { IsWithin result.lines }
        ensures taken { Taken self.header self.steps }
        ensures claims { HasClaims result.lines }
    {
        let World { ledger, .. } = self;
        ledger.into_journal()
    }

    /// The journal, and all else that is left of the world.
    pub fn into_parts(self) -> Parts
        ensures lines { result.journal.lines ≡ run_lines self }
        ensures within { IsWithin result.journal.lines }
        ensures taken { Taken self.header self.steps }
        ensures claims { HasClaims result.journal.lines }
    {
        let World {
            nodes,
            net,
            client,
            ledger,
            ..
        } = self;
        let journal = ledger.into_journal();
        let remains = Remains { nodes, net, client };
        Parts { journal, remains }
    }

    /// The declared node of that id.
    pub fn node(&self, id: NodeId) -> &Node
        requires { Contains (opening.declared_nodes self.now.header) id }
        ensures facts { result.now.now ≡ (standing self.now).facts id }
        ensures own { result.now.now.me ≡ id }
    {
        &self.nodes[self.place_of(id)]
    }

    /// The nodes that are up, in rising order.
    pub fn up_nodes(&self) -> NodeList
        ensures { result ≡ worlds.up_nodes (standing self.now) }
    {
        self.up_among(&self.ids)
    }

    /// The numbers of the messages in flight, in rising order.
    pub fn in_flight(&self, alloc: Global) -> Result<IdList, NoMemory>
        ensures { IfOk result (λ ids. ids ≡ (standing self.now).network.flying) }
    {
        self.net.ids(alloc)
    }
}
