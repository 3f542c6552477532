//! What is handed on to one member, and how many batches were sent to it.
ghost use Rattle.std.specs.Prelude.{◌≡◌, ◌≢◌, ◌==◌, ◌<◌, ◌≤◌, ◌+◌, ◌-◌, ◌^◌, [], ℕ, None, Some, All, IfOk, IfSome, IsSome, if◌then◌else◌, slice_index, take};
ghost use Rattle.std.specs.FinMap.{get};
ghost use Rattle.std.specs.Option.{option_copied};
ghost use Rattle.std.specs.List.{count_by};
ghost use Rattle.cluster_types.specs.Partitions.{partition_count};
ghost use Rattle.node_rules.specs.Batches.{acked_out, batch_limit, has_number, new_target, next_batch};
ghost use Rattle.node_rules.specs.Copies.{is_of};
ghost use Rattle.emigrate.specs.Going.{AreRising, IsNext, batch_digests};
ghost use Rattle.emigrate.specs.Stages.{out_in, pending_in, target_seen};
ghost use Rattle.emigrate.specs.declared.target.TargetStage.TheVariants as stage;

use crate::emigration::AckStep;
use crate::pending::Pending;
use crate::target::{Finished, Sent, TargetStage, copy_of, new_batch, target_of};
use cluster_types::{ClusterKey, Digest, NoMemory, NodeId};
use record_store::RecordStore;
use std::alloc::Global;
use std::collections::VecDeque;
use std::marker::Model;
use std::mem;
use wire_messages::Batch;

/// What is handed on to one member, and how many batches were sent to it.
#[derive(Debug, Drop)]
pub(crate) struct Outgoing {
    node: NodeId,
    batches: u32,
    target: TargetStage,
}

impl Model for Outgoing {
    ghost use Rattle.node_rules.specs.Batches.{Target};
    ghost use Rattle.emigrate.specs.Stages.{target_seen};

    ghost Value = { Target };

    ghost view = { λ o. target_seen o.node o.batches o.target };
}

impl Outgoing {
    /// These digests, in strictly rising order, are pending to the member, and no batch was sent.
    pub(crate) fn new(node: NodeId, pending: VecDeque<Digest>) -> Outgoing
        requires { AreRising pending.items }
        ensures { result ≡ new_target node pending.items }
    {
        Outgoing {
            node,
            batches: 0,
            target: target_of(pending),
        }
    }

    /// The member.
    pub(crate) fn node(&self) -> NodeId
        ensures { result ≡ self.now.node }
    {
        self.node
    }

    /// How far it is with the member.
    pub(crate) fn target(&self) -> &TargetStage
        ensures pending { pending_in result.now ≡ self.now.pending }
        ensures out { out_in result.now ≡ self.now.out }
    {
        &self.target
    }

    /// The batch that is out.
    pub(crate) fn out(&self) -> Option<&Batch>
        ensures { option_copied result ≡ self.now.out }
    {
        match &self.target {
            TargetStage::Sent(sent) => Some(sent.batch()),
            _ => None,
        }
    }

    /// The batch of that key that goes to the member next: the one that is out, or a new one with
    /// the least digests that are pending, which the store holds. `None` exactly where nothing is.
    pub(crate) fn next_batch(
        &self,
        alloc: Global,
        key: ClusterKey,
        store: &RecordStore,
    ) -> Result<Option<Batch>, NoMemory>
        requires held { All (λ d. IsSome (get store.now.versions d)) self.now.pending }
        requires limit { self.now.batches < 2 ^ 32 - 1 }
        ensures batch { IfOk result (λ b. b ≡ next_batch key store.now.versions self.now) }
        ensures next { IfOk result (λ b. IfSome b (IsNext key self.now)) }
    {
        match &self.target {
            TargetStage::Finished(_) => Ok(None),
            TargetStage::Sent(sent) => Ok(Some(copy_of(alloc, sent.batch())?)),
            TargetStage::Ready(ready) => {
                let number = self.batches + 1;
                Ok(Some(new_batch(alloc, store, key, number, ready.pending())?))
            }
        }
    }

    /// The batch, which is one that may go to the member next, is out.
    pub(crate) fn sent(&mut self, batch: Batch)
        requires out { (o : Batch) → self.old.out ≡ Some o → batch ≡ o }
        requires some { self.old.out ≡ None → self.old.pending ≢ [] }
        requires digests { self.old.out ≡ None
            → batch_digests batch ≡ take batch_limit self.old.pending }
        ensures { self.new ≡ record self.old { out = Some batch; batches = batch.number } }
    {
        self.batches = batch.number;
        self.target = sent(take_stage(&mut self.target), batch);
    }

    /// Takes the acknowledgement of the batch of that number. Its digests are then counted no more.
    pub(crate) fn acked(&mut self, number: u32, counts: &mut Pending) -> AckStep
        requires { (p : ℕ) → p < partition_count
            → count_by (is_of p) self.old.pending ≤ slice_index counts.old p }
        ensures step { result
            ≡ (if has_number self.old.out number then AckStep.Taken else AckStep.Spent) }
        ensures target { self.new ≡ acked_out self.old number self.old.out }
        ensures counts { (p : ℕ) → p < partition_count
            → slice_index counts.new p + count_by (is_of p) self.old.pending
            ≡ slice_index counts.old p + count_by (is_of p) self.new.pending }
    {
        match take_stage(&mut self.target) {
            TargetStage::Sent(sent) => {
                let (target, step) = acked(sent, number, counts);
                self.target = target;
                step
            }
            target => {
                self.target = target;
                AckStep::Spent
            }
        }
    }
}

/// The target, in whose place a finished one is left.
fn take_stage(target: &mut TargetStage) -> TargetStage
    ensures { result ≡ target.old }
{
    mem::replace(target, TargetStage::Finished(Finished))
}

/// The target after the batch, which is one that may go to it next, went to it.
fn sent(target: TargetStage, batch: Batch) -> TargetStage
    requires out { (o : Batch) → out_in target ≡ Some o → batch ≡ o }
    requires some { out_in target ≡ None → pending_in target ≢ [] }
    requires digests { out_in target ≡ None
        → batch_digests batch ≡ take batch_limit (pending_in target) }
    ensures pending { pending_in result ≡ pending_in target }
    ensures out { out_in result ≡ Some batch }
{
    match target {
        TargetStage::Ready(ready) => TargetStage::Sent(ready.sent(batch)),
        TargetStage::Sent(sent) => TargetStage::Sent(sent.sent(batch)),
        TargetStage::Finished(_) => unreachable!(),
    }
}

/// The target after the acknowledgement of the batch of that number, whose digests are then counted
/// no more, and what became of it.
fn acked(sent: Sent, number: u32, counts: &mut Pending) -> (TargetStage, AckStep)
    requires { (p : ℕ) → p < partition_count
        → count_by (is_of p) sent.pending ≤ slice_index counts.old p }
    ensures target { (n b : ℕ)
        → target_seen n b result.0
        ≡ acked_out (target_seen n b (stage.Sent sent)) number (Some sent.batch) }
    ensures step { result.1
        ≡ (if sent.batch.number == number then AckStep.Taken else AckStep.Spent) }
    ensures counts { (p : ℕ) → p < partition_count
        → slice_index counts.new p + count_by (is_of p) sent.pending
        ≡ slice_index counts.old p + count_by (is_of p) (pending_in result.0) }
{
    if sent.batch().number == number {
        counts.remove_all(sent.batch());
    }
    match sent.acked(number) {
        Ok(after) => (TargetStage::from(after), AckStep::Taken),
        Err(sent) => (TargetStage::Sent(sent), AckStep::Spent),
    }
}
