//! A node.
ghost use Rattle.std.specs.Prelude.{◌≡◌, nat_lt, IfOk, OnErr, OnOk};
ghost use Rattle.conflict_order.specs.declared.policy.Policy.TheVariants.{Time};
ghost use Rattle.cluster_types.specs.Members.{plain_role};
ghost use Rattle.partition_lists.specs.Lists.{in_order};
ghost use Rattle.node_rules.specs.Facts.{fresh};
ghost use Rattle.node_rules.specs.Notes.{with_role};
ghost use Rattle.node_rules.specs.Steps.{planning, unplanned};
ghost use Rattle.node_steps.specs.Fits.{FitsPlanned, FitsView};
ghost use Rattle.node_core.specs.Peers.{ArePeers, IsFactor};
ghost use Rattle.node_steps.specs.Plans.{taken};
ghost use Rattle.node_steps.specs.Ranges.{HasRanges};
ghost use Rattle.node_steps.specs.Rooms.{NeedsNoRoom};
ghost use Rattle.node_steps.specs.Viewing as viewing;
ghost use Rattle.node_view.specs.Plans.{view_taken};

use cluster_types::{ClusterKey, NoMemory, NodeId, NodeList, Role};
use clustering::Agree;
use conflict_order::Policy;
use heartbeat::Adjacency;
use node_steps::{Effects, Planned, id_fits, ids_fit};
use node_view::{ListCache, View, ViewStep};
use record_store::RecordStore;
use std::alloc::Global;
use std::marker::Model;

/// A node and all that it knows.
#[derive(Drop)]
pub struct Node {
    pub(crate) me: NodeId,
    /// The other declared nodes, in rising order.
    pub(crate) peers: NodeList,
    pub(crate) factor: u8,
    pub(crate) role: Role,
    pub(crate) by: Policy,
    pub(crate) up: bool,
    pub(crate) hearing: Adjacency,
    pub(crate) agree: Agree,
    pub(crate) store: RecordStore,
    pub(crate) view: Option<Box<View>>,
    pub(crate) lists: ListCache,
    /// The step that the last call planned.
    pub(crate) planned: Option<Planned>,
}

impl Model for Node {
    ghost use Rattle.node_rules.specs.Codes.{facts_codes};
    ghost use Rattle.node_rules.specs.Steps.{Planning};

    ghost Value = { Planning };

    ghost coded = { Prim.hlevel facts_codes };

    ghost use Rattle.node_core.specs.Nodes.{PartsAgree, FitsPlan, planning_of};
    ghost use Rattle.node_core.specs.Rooms.{HasRoomForPlan};

    ghost view = { planning_of };

    ghost invariant = { λ n. PartsAgree n × FitsPlan n × HasRoomForPlan n };
}

impl Node {
    /// A running node of the plain role to which nothing has happened, where versions compare by
    /// time first. At most 15 peers, in any order and the node not among them; a factor of 1 to 4.
    pub fn new(alloc: Global, me: NodeId, peers: NodeList, factor: u8) -> Result<Node, NoMemory>
        requires peers { ArePeers me peers }
        requires factor { IsFactor factor }
        ensures { IfOk result (λ n. n ≡ unplanned (fresh me plain_role peers factor Time)) }
    {
        Node::with_role(alloc, me, Role::PLAIN, peers, factor, Policy::Time)
    }

    /// A running node of that role to which nothing has happened, where versions compare by that
    /// policy. At most 15 peers, in any order and the node not among them; a factor of 1 to 4.
    pub fn with_role(
        alloc: Global,
        me: NodeId,
        role: Role,
        peers: NodeList,
        factor: u8,
        by: Policy,
    ) -> Result<Node, NoMemory>
        requires peers { ArePeers me peers }
        requires factor { IsFactor factor }
        ensures { IfOk result (λ n. n ≡ unplanned (fresh me role peers factor by)) }
    {
        id_fits(me);
        ids_fit(peers.as_slice());
        Ok(Node {
            me,
            peers: in_order(&peers),
            factor,
            role,
            by,
            up: true,
            hearing: Adjacency::new(me, role),
            agree: Agree::restart(me, ClusterKey::NONE, ClusterKey::NONE),
            store: RecordStore::with_policy(alloc, by)?,
            view: None,
            lists: ListCache::new(alloc),
            planned: None,
        })
    }

    /// The node has this role from now on, also while it is stopped.
    pub fn set_role(&mut self, role: Role)
        ensures { self.new ≡ unplanned (with_role self.old.now role) }
    {
        self.give_up();
        self.role = role;
        self.hearing.set_role(role);
    }

    /// Gives up what was planned.
    pub(crate) fn give_up(&mut self)
        ensures { self.new ≡ unplanned self.old.now }
    {
        self.planned = None;
    }

    /// Plans the step that has these effects, and needs no room.
    pub(crate) fn plan(&mut self, effects: Effects, planned: Planned) -> Effects
        requires fits { FitsPlanned self.old.now planned }
        requires ranges { HasRanges (taken self.old.now planned) }
        requires room { NeedsNoRoom planned }
        ensures same { result ≡ effects }
        ensures planned { self.new ≡ planning self.old.now (taken self.old.now planned) }
    {
        self.planned = Some(planned);
        effects
    }

    /// Plans the step of the view that has these effects, and needs no room.
    pub(crate) fn plan_step(
        &mut self,
        alloc: Global,
        effects: Effects,
        step: ViewStep,
    ) -> Result<Effects, NoMemory>
        requires fits { FitsView self.old.now step }
        requires ranges { HasRanges (view_taken self.old.now step) }
        requires room { viewing.NeedsNoRoom step }
        ensures same { IfOk result (λ e. e ≡ effects) }
        ensures planned { OnOk result
            (self.new ≡ planning self.old.now (view_taken self.old.now step)) }
        ensures err { OnErr result (self.new ≡ self.old) }
    {
        let step = Box::new(alloc, step)?;
        Ok(self.plan(effects, Planned::View(step)))
    }
}

/// The nodes in rising order.
fn in_order(nodes: &NodeList) -> NodeList
    ensures { result ≡ in_order nat_lt nodes.now }
{
    let mut ids = [NodeId::MIN; 16];
    let ids = &mut ids[..nodes.len()];
    ids.copy_from_slice(nodes.as_slice());
    ids.sort_unstable();
    match NodeList::from_slice(ids) {
        Ok(nodes) => nodes,
        Err(_) => unreachable!(),
    }
}
