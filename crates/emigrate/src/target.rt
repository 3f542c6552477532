//! What is handed on to one member.
ghost use Rattle.std.specs.Prelude.{◌≡◌, ◌≢◌, ◌↔◌, ◌<◌, ◌≤◌, ◌++◌, ◌∷◌, [], None, not, filter, length, drop, take, IfOk, IfErr, IsErr, OnOk};
ghost use Rattle.std.specs.VecDeque.{deque_len};
ghost use Rattle.node_rules.specs.Batches.{batch_limit, is_among, records_of};
ghost use Rattle.emigrate.specs.Going.{AreRising, IsFirst, batch_digests};
ghost use Rattle.emigrate.specs.Stages.{out_in, pending_after, pending_in};

use cluster_types::{ClusterKey, Digest, NoMemory};
use record_store::RecordStore;
use std::alloc::Global;
use std::collections::VecDeque;
use std::marker::Model;
use wire_messages::{Batch, Records};

/// The most records of a batch.
pub const BATCH_LIMIT: usize = 64;

/// No batch is out, and something is pending.
#[derive(Debug, Drop)]
pub struct Ready {
    pending: VecDeque<Digest>,
}

impl Model for Ready {
    ghost use Rattle.std.specs.Prelude.{◌<◌, List, ℕ};
    ghost use Rattle.std.specs.VecDeque.{deque_len};
    ghost use Rattle.emigrate.specs.Going.{AreRising};

    ghost Value = { List (List ℕ) };

    ghost view = { λ r. r.pending.items };

    ghost invariant = { λ r. AreRising r.pending.items × (0 < deque_len r.pending) };
}

/// A batch is out. Its digests are the first of those that are pending.
#[derive(Debug, Drop)]
pub struct Sent {
    pending: VecDeque<Digest>,
    batch: Batch,
}

impl Model for Sent {
    ghost use Rattle.emigrate.specs.Going.{AreRising, Awaiting, IsFirst};

    ghost Value = { Awaiting };

    ghost view = { λ s. record { pending = s.pending.items; batch = s.batch } };

    ghost invariant = { λ s. AreRising s.pending.items × IsFirst s.pending.items s.batch };
}

/// Nothing is pending.
#[derive(Debug, Drop)]
pub struct Finished;

/// How far it is with the member.
#[derive(Debug, Drop)]
pub enum TargetStage {
    Ready(Ready),
    Sent(Sent),
    Finished(Finished),
}

/// How far it is after a batch was acknowledged.
#[derive(Debug, Drop)]
pub enum AfterAck {
    Ready(Ready),
    Finished(Finished),
}

impl From<AfterAck> for TargetStage {
    ghost use Rattle.std.specs.Prelude.{◌≡◌, None};
    ghost use Rattle.emigrate.specs.Stages.{out_in, pending_after, pending_in};

    ghost from_gives = { λ after target.
        (pending_in target ≡ pending_after after) × (out_in target ≡ None) };

    fn from(after: AfterAck) -> TargetStage {
        match after {
            AfterAck::Ready(ready) => TargetStage::Ready(ready),
            AfterAck::Finished(finished) => TargetStage::Finished(finished),
        }
    }
}

impl Ready {
    /// The digests that are pending, in strictly rising order; 1 at least.
    pub fn pending(&self) -> &VecDeque<Digest>
        ensures same { result.now.items ≡ self.now }
        ensures rising { AreRising self.now }
        ensures some { self.now ≢ [] }
    {
        &self.pending
    }

    /// The batch is out, whose digests are the first of those that are pending.
    pub(crate) fn sent(self, batch: Batch) -> Sent
        requires { IsFirst self batch }
        ensures pending { result.pending ≡ self }
        ensures batch { result.batch ≡ batch }
    {
        Sent {
            pending: self.pending,
            batch,
        }
    }
}

impl Sent {
    /// The digests that are pending, in strictly rising order.
    pub fn pending(&self) -> &VecDeque<Digest>
        ensures same { result.now.items ≡ self.now.pending }
        ensures rising { AreRising self.now.pending }
    {
        &self.pending
    }

    /// The batch that is out.
    pub fn batch(&self) -> &Batch
        ensures same { result.now ≡ self.now.batch }
        ensures first { IsFirst self.now.pending self.now.batch }
    {
        &self.batch
    }

    /// The batch of that number was acknowledged: its digests are no longer pending. Hands itself
    /// back exactly where the number isn't its own.
    pub fn acked(self, number: u32) -> Result<AfterAck, Sent>
        ensures ok { IfOk result (λ after.
            pending_after after ≡ filter (λ d. not (is_among self.batch.records d)) self.pending) }
        ensures first { IfOk result
            (λ after. self.pending ≡ batch_digests self.batch ++ pending_after after) }
        ensures refused { IsErr result ↔ (self.batch.number ≢ number) }
        ensures err { IfErr result (λ sent. sent ≡ self) }
    {
        if self.batch.number != number {
            return Err(self);
        }
        let mut pending = self.pending;
        drop_first(&mut pending, self.batch.records.len());
        Ok(after_ack(pending))
    }

    /// The batch, which is the one that is out, is out again.
    pub(crate) fn sent(self, batch: Batch) -> Sent
        requires { batch ≡ self.batch }
        ensures { result ≡ self }
    {
        Sent {
            pending: self.pending,
            batch,
        }
    }
}

/// The target to which these digests, in strictly rising order, are pending.
pub(crate) fn target_of(pending: VecDeque<Digest>) -> TargetStage
    requires { AreRising pending.items }
    ensures pending { pending_in result ≡ pending.items }
    ensures out { out_in result ≡ None }
{
    TargetStage::from(after_ack(pending))
}

/// The batch with the records of the least digests that are pending, as the store holds them.
pub(crate) fn new_batch(
    alloc: Global,
    store: &RecordStore,
    key: ClusterKey,
    number: u32,
    pending: &VecDeque<Digest>,
) -> Result<Batch, NoMemory>
    ensures { IfOk result (λ b. b ≡ record {
      key = key;
      number = number;
      records = records_of store.now.versions (take batch_limit pending.now.items);
    }) }
{
    let mut records = Records::new(alloc);
    for i in 0..pending.len().min(BATCH_LIMIT) {
        add_record(alloc, store, &pending[i], &mut records)?;
    }
    Ok(Batch {
        key,
        number,
        records,
    })
}

/// Adds the record of the digest, where the store holds one.
fn add_record(
    alloc: Global,
    store: &RecordStore,
    digest: &Digest,
    records: &mut Records,
) -> Result<(), NoMemory>
    ensures { OnOk result
        (records.new ≡ records.old ++ records_of store.now.versions (digest.now ∷ [])) }
{
    match store.get(digest) {
        Some(version) => records.push((*digest, version.copy(alloc)?)),
        None => Ok(()),
    }
}

/// An equal batch of its own.
pub(crate) fn copy_of(alloc: Global, batch: &Batch) -> Result<Batch, NoMemory>
    ensures { IfOk result (λ b. b ≡ batch.now) }
{
    Ok(Batch {
        key: batch.key,
        number: batch.number,
        records: batch.records.copy(alloc)?,
    })
}

/// How far it is where these digests, in strictly rising order, are still pending.
fn after_ack(pending: VecDeque<Digest>) -> AfterAck
    requires { AreRising pending.items }
    ensures { pending_after result ≡ pending.items }
{
    if pending.is_empty() {
        return AfterAck::Finished(Finished);
    }
    AfterAck::Ready(Ready { pending })
}

/// Takes the first n digests out.
fn drop_first(digests: &mut VecDeque<Digest>, n: usize)
    requires { n ≤ deque_len digests.old }
    ensures { digests.new.items ≡ drop n digests.old.items }
{
    digests.drain(..n);
}
