//! What is due of a view, and the room that steps need.
ghost use Rattle.std.specs.Prelude.{◌≡◌, ◌==◌, ◌<◌, ◌+◌, ◌++◌, None, true, option_map, All, IfOk, OnOk};
ghost use Rattle.std.specs.Option.{ForSome, option_to_list};
ghost use Rattle.cluster_types.specs.Partitions.{partition_count, partition_of};
ghost use Rattle.emigrate.specs.Going.{AreHeld};
ghost use Rattle.partition_lists.specs.Lists.{list};
ghost use Rattle.node_rules.specs.ByParts.{batches_due};
ghost use Rattle.node_rules.specs.Exchange.{members_of};
ghost use Rattle.node_rules.specs.Facts.{Facts, list_at, view_key};
ghost use Rattle.node_rules.specs.Here.{HasRows, here, part_lines};
ghost use Rattle.node_rules.specs.Map.{list_master};
ghost use Rattle.node_rules.specs.Notes.{noted};
ghost use Rattle.node_rules.specs.Requests.{acting_refusal};
ghost use Rattle.node_rules.specs.Settling.{settling_due};
ghost use Rattle.node_rules.specs.Standing.{acts, asked};
ghost use Rattle.node_view.specs.Counts.{greatest_count};
ghost use Rattle.node_view.specs.Fits.{AreSettlings, IsReadyToSend};
ghost use Rattle.node_view.specs.Plans.{settled_by, some_if};
ghost use Rattle.node_view.specs.Rooms.{HasRoomToCount};
ghost use Rattle.node_view.specs.Settlings.{settling_lines, settling_of};
ghost use Rattle.node_view.specs.Views.{IsInView, IsMoving, IsSame, IsViewOf, viewed_key};

use crate::here::Settling;
use crate::view::{Moving, View};
use crate::view_step::Counted;
use cluster_types::{Digest, NoMemory, NodeId, NodeList, PartitionId, partition_of};
use journal_lines::Refusal;
use record_store::RecordStore;
use std::alloc::Global;
use wire_messages::Batch;

impl View {
    /// Why a node whose exchange is finished refuses a request on the record: it doesn't act on
    /// the partition, or a transaction is open on the record.
    pub fn acting_refusal(&self, digest: &Digest) -> Option<Refusal>
        requires { self.now.exchange.exchanged ≡ true }
        ensures { (f : Facts) → IsInView f self.now
            → result ≡ acting_refusal f (list_at f (partition_of digest.now)) digest.now
            (acts f (list_at f (partition_of digest.now)) (partition_of digest.now)) }
    {
        let p = partition_of(digest);
        if !self.acts(p) {
            return Some(Refusal::NotMaster(self.named(p)));
        }
        match self.txns.open_on(digest) {
            Some(t) => Some(Refusal::Busy(t)),
            None => None,
        }
    }

    /// The number of the next transaction, for which room is made, and whom it asks. Fewer than
    /// 2^32 - 1 were opened.
    pub fn plan_opening(&mut self, digest: &Digest) -> Result<(u32, NodeList), NoMemory>
        requires exchanged { self.old.exchange.exchanged ≡ true }
        requires count { self.old.transactions.opened < greatest_count }
        ensures number { IfOk result (λ r. r.0 ≡ self.old.transactions.opened + 1) }
        ensures asked { IfOk result (λ r. (f : Facts) → IsInView f self.old
            → r.1 ≡ asked f (list_at f (partition_of digest.now)) (partition_of digest.now)) }
        ensures room { OnOk result (0 < self.new.room.transactions) }
        ensures same { IsSame self.old self.new }
    {
        self.txns.reserve()?;
        self.notes.reserve()?;
        Ok((self.txns.next_id(), self.asked(partition_of(digest))))
    }

    /// Makes room for a write of the node's own.
    pub fn reserve_apply(&mut self) -> Result<(), NoMemory>
        ensures room { OnOk result (0 < self.new.room.applies) }
        ensures other_room { self.new.room.transactions ≡ self.old.room.transactions }
        ensures same { IsSame self.old self.new }
    {
        self.writes.reserve_apply()
    }

    /// The write's number, where the list master sent it. There is room for it.
    pub fn plan_count(
        &mut self,
        alloc: Global,
        from: NodeId,
        p: PartitionId,
        nth: u32,
    ) -> Result<Option<Counted>, NoMemory>
        ensures counted { IfOk result (λ c. option_map (λ n. n.nth) c
            ≡ some_if (from == list_master (list (members_of self.old.exchange.view) p)) nth) }
        ensures room { IfOk result (λ c. ForSome c (λ n. HasRoomToCount self.new.room p n)) }
        ensures same { IsSame self.old self.new }
    {
        if self.lists().master(p) != from {
            return Ok(None);
        }
        let first = self.writes.reserve_number(alloc, p)?;
        Ok(Some(Counted { nth, first }))
    }

    /// For each other member, in member order, the batch that is out to it again, or a new one
    /// where something is pending. The store holds what is pending, and fewer than 2^32 - 1 batches
    /// were sent to each member.
    pub fn next_batches(
        &self,
        alloc: Global,
        store: &RecordStore,
    ) -> Result<Vec<(NodeId, Batch)>, NoMemory>
        requires held { AreHeld store.now.versions self.now.batches }
        requires counts { All (λ t. t.batches < greatest_count) self.now.batches }
        ensures due { IfOk result (λ bs.
            bs.items ≡ batches_due (viewed_key self.now) store.now.versions self.now.batches) }

        // They may then be sent.
        ensures next { IfOk result (λ bs. IsReadyToSend self.now bs.items) }
    {
        let mut due = Vec::new(alloc);
        let others = &self.others;
        let Some(moving) = self.moving() else {
            return Ok(due);
        };
        for n in others.as_slice() {
            let batch = moving.emigration.next_batch(alloc, *n, store)?;
            push_batch(&mut due, *n, batch)?;
        }
        Ok(due)
    }

    /// What is due of the live partitions, in rising order. It goes by the facts before it, since
    /// no line of a partition bears on another one.
    pub fn settlings(&self, alloc: Global, store: &RecordStore) -> Result<Vec<Settling>, NoMemory>
        ensures due { IfOk result (λ ss. (f : Facts) → IsViewOf f self.now
            → f.store.content ≡ store.now.versions → AreSettlings f ss.items) }
        ensures lines { IfOk result (λ ss. (f : Facts) → HasRows f → IsViewOf f self.now
            → f.store.content ≡ store.now.versions
            → settling_lines f.me (view_key f) ss.items ≡ settling_due partition_count f) }
        ensures settled { IfOk result (λ ss. (f : Facts) → HasRows f → IsViewOf f self.now
            → f.store.content ≡ store.now.versions
            → settled_by f ss.items ≡ noted None f (settling_due partition_count f)) }
    {
        let mut due = Vec::new(alloc);
        let Some(moving) = self.moving() else {
            return Ok(due);
        };
        if moving.live.is_empty() {
            return Ok(due);
        }
        let mut from = 0;
        while let Some(p) = moving.live.next(from) {
            push_settling(&mut due, self.settling_at(moving, store, p))?;
            from = p.number() + 1;
        }
        Ok(due)
    }

    /// What is due of the partition.
    fn settling_at(&self, moving: &Moving, store: &RecordStore, p: PartitionId) -> Option<Settling>
        requires { IsMoving self.now moving.now }
        ensures partition { ForSome result (λ s. s.partition ≡ p) }
        ensures settling { (f : Facts) → IsViewOf f self.now → f.store.content ≡ store.now.versions
            → ForSome result (λ s. s ≡ settling_of p (here f (list_at f p) p)) }
        ensures lines { (f : Facts) → IsViewOf f self.now → f.store.content ≡ store.now.versions
            → settling_lines f.me (view_key f) (option_to_list result) ≡ part_lines f p }
    {
        Settling::of(p, &self.here(moving, store, p))
    }
}

/// The batch for the member at the end, where there is one.
fn push_batch(
    due: &mut Vec<(NodeId, Batch)>,
    to: NodeId,
    batch: Option<Batch>,
) -> Result<(), NoMemory>
    ensures { OnOk result
        (due.new.items ≡ due.old.items ++ option_to_list (option_map (λ b. (to, b)) batch)) }
{
    if let Some(batch) = batch {
        due.push((to, batch))?;
    }
    Ok(())
}

/// What is due of a partition at the end, where there is something.
fn push_settling(due: &mut Vec<Settling>, settling: Option<Settling>) -> Result<(), NoMemory>
    ensures { OnOk result (due.new.items ≡ due.old.items ++ option_to_list settling) }
{
    if let Some(settling) = settling {
        due.push(settling)?;
    }
    Ok(())
}
