//! What a node hands on in a view.
ghost use Rattle.std.specs.Prelude.{◌≡◌, ◌↔◌, ◌==◌, ◌&&◌, ◌<◌, ◌-◌, ◌^◌, ℕ, not, if◌then◌else◌, IfOk, IfSome, IsSome, IsTrue, option_map, position};
ghost use Rattle.std.specs.Option.{option_copied};
ghost use Rattle.cluster_types.specs.Partitions.{partition_count, partition_of};
ghost use Rattle.cluster_types.specs.Rows.{bit};
ghost use Rattle.node_rules.specs.Agreement.{others_among};
ghost use Rattle.node_rules.specs.Batches.{acking, has_number, is_pending, next_batch_to, out_to, sending, target, targets_of};
ghost use Rattle.emigrate.specs.Going.{AreHeld, IsNext};
ghost use Rattle.emigrate.specs.Stages.{out_in, pending_in};

use crate::collect::outgoing_to;
use crate::counts::Counts;
use crate::outgoing::Outgoing;
use crate::pending::Pending;
use crate::permit::DropPermit;
use crate::target::TargetStage;
use cluster_types::{ClusterKey, MapView, Members, NoMemory, NodeId, PartitionId, Row4096};
use progress::SettledBit;
use record_store::RecordStore;
use std::alloc::Global;
use std::marker::Model;
use wire_messages::Batch;

/// What became of an acknowledgement of a batch.
#[derive(Clone, Copy, Debug, PartialEq, Eq)]
pub enum AckStep {
    /// The batch's digests are no longer pending.
    Taken,
    /// That number isn't out to that node.
    Spent,
}

/// What a node hands on in a view: for each other member, in member order, the digests that are
/// pending, and the batch that is out.
#[derive(Debug, Drop)]
pub struct Emigration {
    key: ClusterKey,
    targets: Vec<Outgoing>,
    pending: Pending,
}

impl Model for Emigration {
    ghost use Rattle.emigrate.specs.Going.{AreApart, AreCounts, Going};

    ghost Value = { Going };

    ghost view = { λ e. record { key = e.key; targets = e.targets.items } };

    ghost invariant = { λ e. AreApart e.targets.items × AreCounts e.targets.items e.pending };
}

impl Emigration {
    /// What the node `me` hands on in the view of that key and those members: all that the store
    /// holds, to each other member to which the view sends it.
    pub fn begin<X: MapView>(
        alloc: Global,
        store: &RecordStore,
        x: &X,
        members: &Members,
        key: ClusterKey,
        me: NodeId,
    ) -> Result<Emigration, NoMemory>
        ensures key { IfOk result (λ e. e.key ≡ key) }
        ensures targets { IfOk result (λ e. e.targets ≡ targets_of
            (λ to d. X.sends_to x.now (partition_of d) me to) store.now.versions
            (others_among me members.now)) }

        // So a next batch can be taken.
        ensures held { IfOk result (λ e. AreHeld store.now.versions e.targets) }
        ensures limit { IfOk result
            (λ e. (n : ℕ) → IfSome (target e.targets n) (λ t. t.batches < 2 ^ 32 - 1)) }
    {
        let mut targets = Vec::with_capacity(alloc, members.len())?;
        let mut pending = Counts::new(alloc)?;
        for member in members.as_slice() {
            if member.id != me {
                let outgoing = outgoing_to(alloc, store, x, me, member.id, &mut pending)?;
                targets.push(outgoing)?;
            }
        }
        let pending = Pending::of(alloc, pending)?;
        Ok(Emigration {
            key,
            targets,
            pending,
        })
    }

    /// The batch that goes to the member next: the one that is out, or a new one with the least
    /// digests that are pending. `None` exactly where nothing is. The store holds each digest that
    /// is pending, and fewer than 2^32 - 1 batches were sent to the member.
    pub fn next_batch(
        &self,
        alloc: Global,
        to: NodeId,
        store: &RecordStore,
    ) -> Result<Option<Batch>, NoMemory>
        requires member { IsSome (target self.now.targets to) }
        requires held { AreHeld store.now.versions self.now.targets }
        requires limit { IfSome (target self.now.targets to) (λ t. t.batches < 2 ^ 32 - 1) }
        ensures batch { IfOk result
            (λ b. b ≡ next_batch_to self.now.key store.now.versions self.now.targets to) }

        // It is one that may then be sent.
        ensures next { IfOk result (λ b. IfSome b
            (λ out. IfSome (target self.now.targets to) (λ t. IsNext self.now.key t out))) }
    {
        let Some(outgoing) = self.outgoing(to) else {
            return Ok(None);
        };
        outgoing.next_batch(alloc, self.key, store)
    }

    /// The batch, which is the one that goes to the member next, is out.
    pub fn sent(&mut self, to: NodeId, batch: Batch)
        requires member { IsSome (target self.old.targets to) }
        requires next { IfSome (target self.old.targets to) (λ t. IsNext self.old.key t batch) }
        ensures { self.new ≡ record self.old { targets = sending self.old.targets to batch } }
    {
        let Some(place) = self.place_of(to) else {
            return;
        };
        self.targets[place].sent(batch);
    }

    /// Takes the acknowledgement of a batch. `Spent` exactly where that number isn't out to that
    /// node.
    pub fn on_ack(&mut self, from: NodeId, number: u32) -> AckStep
        ensures step { result
            ≡ (if has_number (out_to self.old.targets from) number then AckStep.Taken
            else AckStep.Spent) }
        ensures after { self.new
            ≡ record self.old { targets = acking self.old.targets from number } }
    {
        let Some(place) = self.place_of(from) else {
            return AckStep::Spent;
        };
        self.targets[place].acked(number, &mut self.pending)
    }

    /// The number of the batch that is out to the member.
    pub fn out(&self, to: NodeId) -> Option<u32>
        ensures { result ≡ option_map (λ b. b.number) (out_to self.now.targets to) }
    {
        let batch = self.outgoing(to)?.out()?;
        Some(batch.number)
    }

    /// How far it is with the member; `None` where the node is no other member.
    pub fn target(&self, to: NodeId) -> Option<&TargetStage>
        ensures pending { option_map (λ t. pending_in t.now) result
            ≡ option_map (λ t. t.pending) (target self.now.targets to) }
        ensures out { option_map (λ t. out_in t.now) result
            ≡ option_map (λ t. t.out) (target self.now.targets to) }
    {
        Some(self.outgoing(to)?.target())
    }

    /// The partitions of which nothing is pending.
    pub fn done(&self) -> &Row4096
        ensures { (p : ℕ) → p < partition_count
            → bit result.now p ≡ not (is_pending self.now.targets p) }
    {
        self.pending.done()
    }

    /// Whether nothing of the partition is pending.
    pub fn is_done(&self, p: PartitionId) -> bool
        ensures { result ≡ not (is_pending self.now.targets p) }
    {
        self.pending.is_done(p)
    }

    /// The leave to drop the partition's copy: exactly where the bit is the partition's and
    /// nothing of it is pending.
    pub fn permit(&self, p: PartitionId, bit: SettledBit) -> Option<DropPermit>
        ensures some { IsSome result
            ↔ IsTrue ((bit.partition == p) && not (is_pending self.now.targets p)) }
        ensures partition { IfSome result (λ permit. permit.partition ≡ p) }
    {
        if bit.partition() == p && self.is_done(p) {
            Some(DropPermit::new(p))
        } else {
            None
        }
    }

    /// What goes to the member.
    fn outgoing(&self, to: NodeId) -> Option<&Outgoing>
        ensures { option_copied result ≡ target self.now.targets to }
    {
        self.targets.iter().find(|t| t.node() == to)
    }

    /// The place of the member's target.
    fn place_of(&self, to: NodeId) -> Option<usize>
        ensures { result ≡ position (λ t. t.node == to) self.now.targets }
    {
        self.targets.iter().position(|t| t.node() == to)
    }
}
