//! What lasts for a view.
ghost use Rattle.std.specs.Prelude.{◌≡◌, ◌↔◌, ◌==◌, ◌&&◌, [], Some, None, true, false, not, is_none, is_some, IsSome, IsTrue, IfNone, IfOk, IfSome, slice_set};
ghost use Rattle.cluster_types.specs.Members.{AreMembers};
ghost use Rattle.cluster_types.specs.Partitions.{partition_count};
ghost use Rattle.cluster_types.specs.Rows.{bit};
ghost use Rattle.std.specs.Bool.{beq};
ghost use Rattle.std.specs.List.{list_all};
ghost use Rattle.emigrate.specs.Going.{IsNext};
ghost use Rattle.exchange.specs.Met.{Met};
ghost use Rattle.exchange.specs.Served.{AreServed};
ghost use Rattle.exchange.specs.Steps.{step_of};
ghost use Rattle.partition_lists.specs.Lists.{is_replica_of, list};
ghost use Rattle.node_rules.specs.Agreement.{others_among};
ghost use Rattle.node_rules.specs.Batches.{acking, done_row, sending, target};
ghost use Rattle.node_rules.specs.Exchange.{begun, finished, first_missing, is_member, members_of, with_row};
ghost use Rattle.node_rules.specs.Facts.{Facts, list_at};
ghost use Rattle.node_rules.specs.Map.{lacks, list_master, row_of_member};
ghost use Rattle.node_rules.specs.Standing.{is_all_empty, knows_all_settled, knows_settled, other_replicas};
ghost use Rattle.node_view.specs.declared.view.Stage.TheVariants as stage;
ghost use Rattle.node_view.specs.Views.{AreTargeted, IsEntered, IsFirstStage, IsHandedOn, IsInView, IsLike, IsMet, IsMoving, IsOtherMember, IsViewOf, IsWithStore, KeepsWatch, count_seen, facts_seen, viewed_key, own_done, store_row, with_live};

use crate::live::Live;
use crate::notes::TxnNotes;
use crate::view_step::LastRow;
use crate::writes::Writes;
use cluster_types::{
    ClusterKey, Members, NoMemory, NodeId, NodeList, PARTITIONS, PartitionId, Row4096, StateRow,
};
use conflict_order::Policy;
use dup_resolve::Txns;
use emigrate::Emigration;
use exchange::{ExchangeStep, Exchanged, Exchanging, begin_with};
use partition_lists::{Lists, replicas};
use progress::Progress;
use record_store::RecordStore;
use std::alloc::Global;
use std::marker::Model;
use std::mem;
use wire_messages::Batch;

/// What lasts for a view. It is made whole as the view is entered, and gone with it.
#[derive(Drop)]
pub struct View {
    pub(crate) me: NodeId,
    pub(crate) factor: u8,
    pub(crate) key: ClusterKey,
    pub(crate) members: Members,
    /// The other members, in member order.
    pub(crate) others: NodeList,
    stage: Stage,
    pub(crate) progress: Progress,
    /// The partitions that the node learnt.
    pub(crate) learnt: Box<Row4096>,
    /// How many partitions the node doesn't know settled.
    pub(crate) unsettled: u16,
    pub(crate) txns: Txns,
    pub(crate) notes: TxnNotes,
    pub(crate) writes: Writes,
}

impl Model for View {
    ghost use Rattle.node_rules.specs.Codes.{facts_codes};
    ghost use Rattle.node_view.specs.Views.{FieldsAgree, Viewed, view_of};

    ghost Value = { Viewed };

    ghost coded = { Prim.hlevel facts_codes };

    ghost view = { view_of };

    ghost invariant = { FieldsAgree };
}

/// How far the exchange of rows has come.
#[derive(Drop)]
enum Stage {
    Exchanging(Exchanging),
    Exchanged(Moving),
    /// Within a call that takes the stage out and puts another one in.
    Taken,
}

impl Stage {
    /// Takes out the exchange of rows that goes on.
    fn take_waiting(&mut self) -> Exchanging
        requires { (x : Met) × (self.old ≡ stage.Exchanging x) }
        ensures { self.old ≡ stage.Exchanging result }
    {
        let Stage::Exchanging(waiting) = mem::replace(self, Stage::Taken) else {
            unreachable!()
        };
        waiting
    }

    /// Becomes that stage.
    fn put(&mut self, stage: Stage)
        ensures { self.new ≡ stage }
    {
        *self = stage;
    }
}

/// What a view has besides once its exchange is finished.
#[derive(Drop)]
pub(crate) struct Moving {
    pub map: Exchanged,
    pub emigration: Emigration,
    pub live: Live,
}

/// What a node enters: its own id, the factor, and how versions compare.
#[derive(Clone, Copy)]
pub struct Entrant {
    pub me: NodeId,
    pub factor: u8,
    pub by: Policy,
}

impl View {
    /// A view as it is entered by a node with that store. Its exchange is finished where it has one
    /// member.
    pub fn enter(
        alloc: Global,
        entrant: Entrant,
        key: ClusterKey,
        lists: Lists,
        store: &RecordStore,
    ) -> Result<View, NoMemory>
        requires member { is_member lists entrant.me ≡ true }
        requires policy { store.now.by ≡ entrant.by }
        ensures { (f : Facts) → f.me ≡ entrant.me → f.factor ≡ entrant.factor
            → IsWithStore f store.now → IfOk result (IsEntered f key lists) }
    {
        let members = *lists.members();
        let me = entrant.me;
        let learnt = Box::new(alloc, Row4096::new())?;
        let mut progress = Progress::new(alloc, &members, me)?;
        let stage = stage_at_entry(alloc, &entrant, key, lists, store)?;
        note_done(&mut progress, &stage);
        let mut view = View {
            me,
            factor: entrant.factor,
            key,
            members,
            others: others_of(&members, me),
            stage,
            progress,
            learnt,
            unsettled: PARTITIONS,
            txns: Txns::with_policy(alloc, entrant.by),
            notes: TxnNotes::new(alloc),
            writes: Writes::new(alloc),
        };
        view.count_unsettled();
        view.wake_all(store);
        Ok(view)
    }

    /// The node itself.
    pub fn me(&self) -> NodeId
        ensures { result ≡ self.now.me }
    {
        self.me
    }

    /// The key of the view.
    pub fn key(&self) -> ClusterKey
        ensures { result ≡ viewed_key self.now }
    {
        self.key
    }

    /// The members.
    pub fn members(&self) -> &Members
        ensures { result.now ≡ members_of self.now.exchange.view }
    {
        &self.members
    }

    /// The other members, in member order.
    pub fn others(&self) -> &NodeList
        ensures { result.now ≡ others_among self.now.me (members_of self.now.exchange.view) }
    {
        &self.others
    }

    /// Whether the exchange is finished.
    pub fn has_exchanged(&self) -> bool
        ensures { result ≡ self.now.exchange.exchanged }
    {
        self.moving().is_some()
    }

    /// The exchange that waits for rows.
    pub fn exchanging(&self) -> Option<&Exchanging>
        ensures some { is_some result ≡ not self.now.exchange.exchanged }
        ensures met { IfSome result (λ x. IsMet x.now self.now.me self.now.factor) }
        ensures exchange { IfSome result (λ x. x.now.exchange ≡ self.now.exchange) }
        ensures missing { IfSome result
            (λ x. IsSome (first_missing x.now.exchange.rows (members_of x.now.exchange.view))) }

        // Otherwise no member's row is missing.
        ensures whole { IfNone result
            (first_missing self.now.exchange.rows (members_of self.now.exchange.view) ≡ None) }
    {
        match &self.stage {
            Stage::Exchanging(waiting) => Some(waiting),
            Stage::Exchanged(_) => None,
            Stage::Taken => None,
        }
    }

    /// What the view has once its exchange is finished.
    pub(crate) fn moving(&self) -> Option<&Moving>
        ensures some { is_some result ≡ self.now.exchange.exchanged }
        ensures moving { IfSome result (λ m. IsMoving self.now m.now) }

        // Before that nothing is handed on.
        ensures none { IfNone result (self.now.batches ≡ []) }
    {
        match &self.stage {
            Stage::Exchanged(moving) => Some(moving),
            Stage::Exchanging(_) => None,
            Stage::Taken => None,
        }
    }

    /// Ticks look at the partition from now on, or don't. Before the exchange is finished they look
    /// at none.
    pub(crate) fn set_live(&mut self, p: PartitionId, is_live: bool)
        ensures row { self.new ≡ with_live self.old (slice_set self.old.watch.live p is_live) }
        ensures set { self.old.exchange.exchanged ≡ true → bit self.new.watch.live p ≡ is_live }
    {
        if let Stage::Exchanged(moving) = &mut self.stage {
            moving.live.set(p, is_live);
        }
    }

    /// The batch, which is the one that goes to the member next, is out.
    pub(crate) fn send_batch(&mut self, to: NodeId, batch: Batch)
        requires exchanged { self.old.exchange.exchanged ≡ true }
        requires member { IsSome (target self.old.batches to) }
        requires next { IfSome (target self.old.batches to)
            (λ t. IsNext (viewed_key self.old) t batch) }
        ensures { self.new ≡ record self.old { batches = sending self.old.batches to batch } }
    {
        if let Stage::Exchanged(moving) = &mut self.stage {
            moving.emigration.sent(to, batch);
        }
    }

    /// The member acknowledged its batch, if the one that is out has that number.
    pub(crate) fn take_batch_ack(&mut self, from: NodeId, number: u32)
        ensures { self.new ≡ record self.old { batches = acking self.old.batches from number } }
    {
        if let Stage::Exchanged(moving) = &mut self.stage {
            moving.emigration.on_ack(from, number);
            self.progress.own_done(&done_of(&moving.emigration));
        }
    }

    /// The row that the node made as it entered.
    pub(crate) fn own_row(&self) -> &StateRow
        ensures { Some result.now ≡ row_of_member self.now.exchange.rows self.now.me }
    {
        match &self.stage {
            Stage::Exchanging(waiting) => waiting.own_row(),
            Stage::Exchanged(moving) => moving.map.own_row(),
            Stage::Taken => unreachable!(),
        }
    }

    /// Whether the node is another member.
    pub fn is_other(&self, n: NodeId) -> bool
        ensures { IsTrue result ↔ IsOtherMember self.now n }
    {
        self.others.contains(n)
    }

    /// Whether all rows are there but that member's.
    pub fn is_last_missing(&self, from: NodeId) -> bool
        requires { IsOtherMember self.now from }
        ensures { result
            ≡ (lacks self.now.exchange.rows from
            && is_none (first_missing (with_row self.now.exchange.rows from [])
            (members_of self.now.exchange.view))) }
    {
        match self.exchanging() {
            None => false,
            Some(waiting) => {
                // That one isn't missing.
                let _ = self.own_row();
                lacks_alone(waiting, &self.others, from)
            }
        }
    }

    /// Plans that the last row comes: who serves each partition then, and what is handed on. The
    /// view is as before afterwards.
    pub fn plan_last_row(
        &mut self,
        alloc: Global,
        store: &RecordStore,
        from: NodeId,
        row: StateRow,
    ) -> Result<LastRow, NoMemory>
        requires member { IsOtherMember self.old from }
        requires lacking { lacks self.old.exchange.rows from ≡ true }
        requires last { is_none (first_missing (with_row self.old.exchange.rows from row)
            (members_of self.old.exchange.view))
            ≡ true }
        ensures key { IfOk result (λ l. l.emigration.key ≡ viewed_key self.old) }
        ensures row { IfOk result (λ l. (l.from ≡ from) × (l.row ≡ row)) }
        ensures served { IfOk result (λ l.
            AreServed (members_of self.old.exchange.view) (with_row self.old.exchange.rows from row)
            l.served) }
        ensures targets { IfOk result
            (λ l. IsHandedOn self.old store.now from row l.emigration.targets) }
        ensures same { self.new ≡ self.old }
    {
        let live = Live::new(alloc)?;
        let waiting = self.stage.take_waiting();
        let ExchangeStep::Complete(map) = waiting.on_state(from, row) else {
            unreachable!()
        };
        let served = map.served(alloc);
        let begun = Emigration::begin(alloc, store, &map, &self.members, self.key, self.me);
        let (waiting, row) = map.without_last(from);
        self.stage.put(Stage::Exchanging(waiting));
        Ok(LastRow {
            from,
            row,
            served: served?,
            emigration: begun?,
            live,
        })
    }

    /// A row came that isn't the last one.
    pub(crate) fn take_row(&mut self, from: NodeId, row: StateRow)
        requires member { IsOtherMember self.old from }
        requires waiting { is_none (first_missing (with_row self.old.exchange.rows from row)
            (members_of self.old.exchange.view))
            ≡ false }
        ensures { self.new ≡ record self.old {
          exchange = record self.old.exchange
              { rows = with_row self.old.exchange.rows from row };
        } }
    {
        let waiting = self.stage.take_waiting();
        let ExchangeStep::Waiting(waiting) = waiting.on_state(from, row) else {
            unreachable!()
        };
        self.stage.put(Stage::Exchanging(waiting));
    }

    /// The last row came.
    pub(crate) fn take_last_row(&mut self, last: LastRow, store: &RecordStore)
        requires member { IsOtherMember self.old last.from }
        requires lacking { lacks self.old.exchange.rows last.from ≡ true }
        requires last { is_none (first_missing (with_row self.old.exchange.rows last.from last.row)
            (members_of self.old.exchange.view))
            ≡ true }
        requires served { AreServed (members_of self.old.exchange.view)
            (with_row self.old.exchange.rows last.from last.row) last.served }
        requires key { last.emigration.key ≡ viewed_key self.old }
        requires targets { IsHandedOn self.old store.now last.from last.row
            last.emigration.targets }
        ensures alike { IsLike (record self.old {
          exchange = finished
              (record self.old.exchange
              { rows = with_row self.old.exchange.rows last.from last.row });
          batches = last.emigration.targets;
        }) self.new }
        ensures watch { (f : Facts) → IsInView f self.new → f.store.content ≡ store.now.versions
            → KeepsWatch f self.new.watch }
    {
        self.finish(last);
        self.count_unsettled();
        self.wake_all(store);
    }

    /// The exchange is finished.
    fn finish(&mut self, last: LastRow)
        requires member { IsOtherMember self.old last.from }
        requires lacking { lacks self.old.exchange.rows last.from ≡ true }
        requires last { is_none (first_missing (with_row self.old.exchange.rows last.from last.row)
            (members_of self.old.exchange.view))
            ≡ true }
        requires served { AreServed (members_of self.old.exchange.view)
            (with_row self.old.exchange.rows last.from last.row) last.served }
        requires key { last.emigration.key ≡ viewed_key self.old }
        requires targeted { AreTargeted last.emigration.targets self.old.me
            (members_of self.old.exchange.view) }
        ensures { self.new ≡ record self.old {
          exchange = finished
              (record self.old.exchange
              { rows = with_row self.old.exchange.rows last.from last.row });
          batches = last.emigration.targets;
          watch = record self.old.watch { live = last.live };
        } }
    {
        let waiting = self.stage.take_waiting();
        self.progress.own_done(&done_of(&last.emigration));
        self.stage.put(Stage::Exchanged(Moving {
            map: waiting.finish(last.from, last.row, last.served),
            emigration: last.emigration,
            live: last.live,
        }));
    }

    /// Whether the node knows that no member's copy of the partition had a record.
    pub(crate) fn is_all_empty(&self, p: PartitionId) -> bool
        ensures { result ≡ (self.now.exchange.exchanged && is_all_empty (facts_seen self.now) p) }
    {
        match self.moving() {
            None => false,
            Some(moving) => moving.map.is_all_empty(p),
        }
    }

    /// Whether the partition's settled bit is set.
    pub(crate) fn has_settled_bit(&self, p: PartitionId) -> bool
        ensures { result ≡ bit self.now.bits.settled p }
    {
        self.progress.settled_row().get(p)
    }

    /// Whether the node knows the partition settled: by its bit, or since all copies were empty.
    pub fn knows_settled(&self, p: PartitionId) -> bool
        ensures { result ≡ knows_settled (facts_seen self.now) p }
    {
        self.has_settled_bit(p) || self.is_all_empty(p)
    }

    /// Whether the node knows each partition settled.
    pub fn knows_all_settled(&self) -> bool
        ensures { (f : Facts) → IsViewOf f self.now
            → result ≡ knows_all_settled f partition_count 0 }
    {
        self.unsettled == 0
    }

    /// Whether the node is among the partition's replicas.
    pub(crate) fn is_replica(&self, n: NodeId, p: PartitionId) -> bool
        ensures { result ≡ is_replica_of n (members_of self.now.exchange.view) p self.now.factor }
    {
        self.lists().is_replica(n, p, self.factor)
    }

    /// Whether the node itself is the partition's list master.
    pub(crate) fn is_master(&self, p: PartitionId) -> bool
        ensures { result ≡
            (list_master (list (members_of self.now.exchange.view) p) == self.now.me) }
    {
        self.lists().master(p) == self.me
    }

    /// The lists over the members.
    pub fn lists(&self) -> &Lists
        ensures { result.now ≡ members_of self.now.exchange.view }
    {
        match &self.stage {
            Stage::Exchanging(waiting) => waiting.lists(),
            Stage::Exchanged(moving) => moving.map.lists(),
            Stage::Taken => unreachable!(),
        }
    }

    /// The other replicas of the partition, in list order.
    pub fn other_replicas(&self, p: PartitionId) -> NodeList
        ensures { (f : Facts) → IsInView f self.now → result ≡ other_replicas f (list_at f p) }
    {
        replicas(&self.lists().list(p), self.factor).without(self.me)
    }

    /// How many of the list master's writes the node's copy of the partition has had in the view.
    pub(crate) fn count_at(&self, p: PartitionId) -> u32
        ensures { result ≡ count_seen self.now p }
    {
        self.writes.count_at(p, self.is_master(p))
    }
}

/// The row that a node with that store makes as it enters a view.
fn own_row(alloc: Global, store: &RecordStore) -> Result<StateRow, NoMemory>
    ensures { IfOk result (λ row. row ≡ store_row store.now) }
{
    let row = store.row(alloc)?;
    // They are those of a row.
    let _ = row.entries();
    Ok(row)
}

/// The other members, in member order.
fn others_of(members: &Members, me: NodeId) -> NodeList
    ensures others { result ≡ others_among me members.now }
    ensures valid { AreMembers members.now }
{
    // They fall strictly.
    let _ = members.as_slice();
    members.ids().without(me)
}

/// Whether of these nodes' rows that one alone isn't there.
fn lacks_alone(waiting: &Exchanging, ns: &NodeList, from: NodeId) -> bool
    ensures { result ≡ list_all (λ n. beq (n == from) (lacks waiting.now.exchange.rows n)) ns.now }
{
    ns.as_slice()
        .iter()
        .all(|n| (*n == from) == waiting.lacks(*n))
}

/// The stage of a view as a node with that store enters it.
fn stage_at_entry(
    alloc: Global,
    entrant: &Entrant,
    key: ClusterKey,
    lists: Lists,
    store: &RecordStore,
) -> Result<Stage, NoMemory>
    requires { is_member lists entrant.now.me ≡ true }
    ensures { IfOk result (IsFirstStage
        (step_of (record {
          me = entrant.now.me;
          factor = entrant.now.factor;
          exchange = begun entrant.now.me key lists (store_row store.now);
        }))
        store.now.versions lists key entrant.now.me) }
{
    let members = *lists.members();
    let row = own_row(alloc, store)?;
    let step = begin_with(alloc, key, lists, entrant.me, entrant.factor, row)?;
    first_stage(alloc, step, store, &members, key, entrant.me)
}

/// The stage of a view as it is entered: what is handed on is known at once where no row is
/// missing.
fn first_stage(
    alloc: Global,
    step: ExchangeStep,
    store: &RecordStore,
    members: &Members,
    key: ClusterKey,
    me: NodeId,
) -> Result<Stage, NoMemory>
    ensures { IfOk result (IsFirstStage step store.now.versions members.now key me) }
{
    match step {
        ExchangeStep::Waiting(waiting) => Ok(Stage::Exchanging(waiting)),
        ExchangeStep::Complete(map) => {
            let emigration = Emigration::begin(alloc, store, &map, members, key, me)?;
            let live = Live::new(alloc)?;
            Ok(Stage::Exchanged(Moving {
                map,
                emigration,
                live,
            }))
        }
    }
}

/// The partitions of which nothing is pending.
fn done_of(emigration: &Emigration) -> Row4096
    ensures { result ≡ done_row true emigration.now.targets partition_count 0 }
{
    // So it is known to have a bit for each partition.
    let mut row = Row4096::new();
    row.or(emigration.done());
    row
}

/// The node is done where nothing is pending, once the exchange is finished.
fn note_done(progress: &mut Progress, stage: &Stage)
    ensures { progress.new ≡ record progress.old { own = own_done progress.old.own stage.now } }
{
    if let Stage::Exchanged(moving) = stage {
        progress.own_done(&done_of(&moving.emigration));
    }
}
