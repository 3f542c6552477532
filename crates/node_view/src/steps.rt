//! Planned steps of a view are taken, without memory.
ghost use Rattle.std.specs.Prelude.{◌≡◌, ◌<◌, ◌+◌, ◌∷◌, [], ℕ, None, Some, true, false, if◌then◌else◌, is_none, IsSome};
ghost use Rattle.std.specs.FinMap as finite;
ghost use Rattle.std.specs.Option.{ForSome};
ghost use Rattle.conflict_order.specs.Contents.{joined};
ghost use Rattle.cluster_types.specs.Partitions.{partition_count, partition_of};
ghost use Rattle.cluster_types.specs.Rows.{bit};
ghost use Rattle.record_store.specs.Store.{UsesRoom, room_at};
ghost use Rattle.node_rules.specs.ByParts.{sending_all};
ghost use Rattle.node_rules.specs.Bits.{handing, learning, progressing};
ghost use Rattle.node_rules.specs.Exchange.{first_missing, members_of, with_row};
ghost use Rattle.node_rules.specs.Facts.{Facts, list_at, view_key};
ghost use Rattle.node_rules.specs.Here.{hands, here, settles};
ghost use Rattle.node_rules.specs.Map.{lacks};
ghost use Rattle.node_rules.specs.Notes.{write_applied, merged, write_counted};
ghost use Rattle.node_rules.specs.Standing.{has_settled_bit, is_done};
ghost use Rattle.node_rules.specs.Stamps.{applies_at, applying, changed_stamps, recounted, spoiled};
ghost use Rattle.node_rules.specs.Transactions as rules;
ghost use Rattle.node_rules.specs.Transactions.{without_transaction};
ghost use Rattle.node_view.specs.Counts.{greatest_count};
ghost use Rattle.node_view.specs.declared.view_step.Outcome.TheVariants as outcome;
ghost use Rattle.node_view.specs.declared.view_step.ViewStep.TheVariants as step;
ghost use Rattle.node_view.specs.Fits.{IsReady, IsReadyToResolve, IsReadyToSend, IsReadyToSettle};
ghost use Rattle.node_view.specs.Plans.{settled_at, settled_by, view_taken, with_count, with_newer, with_outcome, with_stamps, wrote};
ghost use Rattle.node_view.specs.Rooms.{HasRoomToCount};
ghost use Rattle.node_view.specs.Views.{AreLive, BecomesNodeOf, IsInView, IsOtherMember, IsSeenTo, count_seen, digest_in, facts_seen, is_known_empty, viewed_key, learnt_copy, one_more_settled, unsettled_count, with_bits, with_copy_stamped, with_live, with_settled_row, with_watch, without_copy_of, without_unsettled};

use crate::here::Settling;
use crate::notes::Write;
use crate::settling::partition_at;
use crate::view::View;
use crate::view_step::{Counted, LastRow, Outcome, Progressed, Replicated, ViewStep, Writing};
use cluster_types::{
    ClusterKey, CopyState, Digest, NodeId, NodeList, PARTITIONS, PartitionId, Row4096, StateRow,
    partition_of,
};
use conflict_order::{Version, Want};
use emigrate::drop_copy;
use immigrate::Merged;
use record_store::RecordStore;
use wire_messages::Batch;
use write_path::apply_planned;

impl View {
    /// Takes the step, which was planned from what the node knows, and for which there is room.
    pub fn take_step(&mut self, store: &mut RecordStore, step: ViewStep)
        requires { IsReady self.old store.old step }
        ensures { (f : Facts)
            → BecomesNodeOf f self.old store.old (view_taken f step) self.new store.new }
    {
        match step {
            ViewStep::Row { from, row } => self.add_row(from, row),
            ViewStep::LastRow(last) => self.end_exchange(store, last),
            ViewStep::Merged(merged) => self.merge(store, merged),
            ViewStep::BatchAcked { from, number } => self.take_batch_ack(from, number),
            ViewStep::Progressed(progressed) => self.take_progress(store, &progressed),
            ViewStep::Replicated(write) => self.replicate(store, write),
            ViewStep::WriteAcked { from, transaction } => self.acknowledge(from, transaction),
            ViewStep::Done { transaction } => self.close(transaction),
            ViewStep::Answered {
                from,
                transaction,
                version,
            } => self.answer(from, transaction, version),
            ViewStep::Resolved {
                from,
                transaction,
                version,
                outcome,
            } => self.end_answers(store, from, transaction, version, outcome),
            ViewStep::Opened {
                digest,
                want,
                best,
                asked,
                outcome,
            } => self.open(store, digest, want, best, asked, outcome),
        }
    }

    /// A row comes that isn't the last one.
    fn add_row(&mut self, from: NodeId, row: StateRow)
        requires member { IsOtherMember self.old from }
        requires lacking { lacks self.old.exchange.rows from ≡ true }
        requires waiting { is_none (first_missing (with_row self.old.exchange.rows from row)
            (members_of self.old.exchange.view))
            ≡ false }
        ensures view { self.new ≡ record self.old {
          exchange = record self.old.exchange
              { rows = with_row self.old.exchange.rows from row };
        } }
        ensures waiting { self.old.exchange.exchanged ≡ false }
    {
        if self.moving().is_some() {
            // A row is missing.
            unreachable!();
        }
        self.take_row(from, row);
    }

    fn end_exchange(&mut self, store: &mut RecordStore, last: LastRow)
        requires { IsReady self.old store.old (step.LastRow last) }
        ensures { (f : Facts)
            → BecomesNodeOf f self.old store.old (view_taken f (step.LastRow last)) self.new
            store.new }
    {
        self.take_last_row(last, store);
        self.stamp_empty_copies(store);
    }

    fn merge(&mut self, store: &mut RecordStore, merged: Merged)
        requires { IsReady self.old store.old (step.Merged merged) }
        ensures { (f : Facts)
            → BecomesNodeOf f self.old store.old (view_taken f (step.Merged merged)) self.new
            store.new }
    {
        let mut newer = merged.newer;
        while let Some((digest, version)) = newer.take_first() {
            self.merge_one(store, digest, version);
        }
    }

    /// A newer version comes, for which there is room.
    fn merge_one(&mut self, store: &mut RecordStore, digest: Digest, version: Version)
        requires { 0 < room_at store.old.spare (partition_of digest) }
        ensures node { (f : Facts)
            → BecomesNodeOf f self.old store.old (merged f (view_key f) digest version) self.new
            store.new }
        ensures same { self.new ≡ with_live self.old self.new.watch.live }
        ensures room { UsesRoom (partition_of digest) store.old.spare store.new.spare }
    {
        // There is room for it.
        let _ = store.join_in(digest, version);
        spoil(store, partition_of(&digest), self.key);
        self.refresh(partition_of(&digest), store);
    }

    fn take_progress(&mut self, store: &RecordStore, progressed: &Progressed)
        requires { IsReady self.old store.now (step.Progressed progressed.now) }
        ensures { (f : Facts)
            → BecomesNodeOf f self.old store.now (view_taken f (step.Progressed progressed.now))
            self.new store.now }
    {
        let before = *self.settled_row();
        self.hear_progress(progressed);
        self.see_settled(store, &before);
    }

    fn hear_progress(&mut self, progressed: &Progressed)
        requires { IsOtherMember self.old progressed.now.from }
        ensures { self.new ≡ record self.old {
          bits = progressing self.old.bits progressed.now.from progressed.now.done
              progressed.now.handed progressed.now.settled;
        } }
    {
        self.progress.heard(
            progressed.from,
            progressed.done.get(),
            progressed.handed.get(),
            progressed.settled.get(),
        );
    }

    /// The partitions whose settled bits are new count as settled, and ticks look at those of which
    /// a line may come. Before, the settled bits were these.
    fn see_settled(&mut self, store: &RecordStore, before: &Row4096)
        requires kept { (p : ℕ) → p < partition_count → bit before.now p ≡ true
            → bit self.old.bits.settled p ≡ true }
        requires counted { self.old.watch.unsettled
            ≡ unsettled_count (with_settled_row (facts_seen self.old) before.now) }
        ensures same { self.new ≡ with_watch self.old self.new.watch }
        ensures count { self.new.watch.unsettled ≡ unsettled_count (facts_seen self.old) }
        ensures live { (f : Facts) → IsInView f self.old → f.store.content ≡ store.now.versions
            → AreLive (with_settled_row f before.now) self.old.watch.live
            → AreLive f self.new.watch.live }
    {
        let fresh = self.settled_row().difference(before);
        let mut from = 0;
        while let Some(p) = fresh.next_set(from) {
            from = p.number() + 1;
            self.see_settled_at(store, p);
        }
    }

    /// The partition's settled bit is new.
    fn see_settled_at(&mut self, store: &RecordStore, p: PartitionId)
        requires { is_known_empty self.old p ≡ false → 0 < self.old.watch.unsettled }
        ensures same { self.new ≡ with_live (without_unsettled self.old p) self.new.watch.live }
        ensures live { (f : Facts) → IsInView f self.old → f.store.content ≡ store.now.versions
            → IsSeenTo p f self.old.watch.live self.new.watch.live }
    {
        self.count_settled(p);
        self.refresh(p, store);
    }

    fn replicate(&mut self, store: &mut RecordStore, write: Replicated)
        requires { IsReady self.old store.old (step.Replicated write) }
        ensures { (f : Facts)
            → BecomesNodeOf f self.old store.old (view_taken f (step.Replicated write)) self.new
            store.new }
    {
        self.count(store, partition_of(&write.digest), write.counted);
        self.merge_newer(store, write.digest, write.newer);
    }

    /// A newer version comes, if there is one.
    fn merge_newer(&mut self, store: &mut RecordStore, digest: Digest, newer: Option<Version>)
        requires { ForSome newer (λ _. 0 < room_at store.old.spare (partition_of digest)) }
        ensures { (f : Facts)
            → BecomesNodeOf f self.old store.old (with_newer f digest newer) self.new store.new }
    {
        match newer {
            Some(version) => self.merge_one(store, digest, version),
            None => {}
        }
    }

    /// The write counts, where it has a number.
    fn count(&mut self, store: &mut RecordStore, p: PartitionId, counted: Option<Counted>)
        requires number { ForSome counted (λ c. 0 < c.nth) }
        requires room { ForSome counted (HasRoomToCount self.old.room p) }
        ensures node { (f : Facts)
            → BecomesNodeOf f self.old store.old (with_count f p counted) self.new store.new }
        ensures room { store.new.spare ≡ store.old.spare }
    {
        match counted {
            Some(counted) => self.count_write(store, p, counted),
            None => {}
        }
    }

    /// The list master's write of that number counts, for which there is room.
    fn count_write(&mut self, store: &mut RecordStore, p: PartitionId, counted: Counted)
        requires number { 0 < counted.nth }
        requires room { HasRoomToCount self.old.room p counted }
        ensures node { (f : Facts)
            → BecomesNodeOf f self.old store.old
            (write_counted f (view_key f) (list_at f p) p counted.nth) self.new store.new }
        ensures room { store.new.spare ≡ store.old.spare }
    {
        self.writes.hear(p, counted.nth, counted.first);
        recount(store, p, self.key, self.count_at(p));
    }

    fn open(
        &mut self,
        store: &mut RecordStore,
        digest: Digest,
        want: Want,
        best: Option<Version>,
        asked: NodeList,
        outcome: Option<Outcome>,
    )
        requires { IsReady self.old store.old (step.Opened digest want best asked outcome) }
        ensures { (f : Facts)
            → BecomesNodeOf f self.old store.old
            (view_taken f (step.Opened digest want best asked outcome)) self.new store.new }
    {
        let transaction = self.begin(digest, want, best, asked);
        match outcome {
            Some(outcome) => self.resolve(store, transaction, outcome),
            None => {}
        }
    }

    /// A transaction opens, for which there is room, where none is open on the digest. Answers its
    /// number.
    fn begin(&mut self, digest: Digest, want: Want, best: Option<Version>, asked: NodeList) -> u32
        requires free { rules.transaction_on self.old.transactions digest ≡ None }
        requires count { self.old.transactions.opened < greatest_count }
        requires room { 0 < self.old.room.transactions }
        ensures number { result ≡ self.old.transactions.opened + 1 }
        ensures view { self.new ≡ record self.old {
          transactions = rules.opening self.old.transactions
              (rules.new_transaction (self.old.transactions.opened + 1) digest want best asked);
          room = record self.old.room { transactions = self.new.room.transactions };
        } }
        ensures found { rules.transaction self.new.transactions result
            ≡ Some
            (rules.new_transaction (self.old.transactions.opened + 1) digest want best asked) }
    {
        self.notes.open(asked);
        match self.txns.begin(digest, want, best, asked) {
            Ok(transaction) => transaction,
            // There is room for it, and none is open on the digest.
            Err(_) => unreachable!(),
        }
    }

    /// An acknowledgement comes.
    fn acknowledge(&mut self, from: NodeId, transaction: u32)
        ensures { self.new ≡ record self.old
            { transactions = rules.acknowledging self.old.transactions from transaction } }
    {
        self.txns.acked(from, transaction);
    }

    /// An answer comes.
    fn answer(&mut self, from: NodeId, transaction: u32, version: Option<Version>)
        ensures { self.new ≡ record self.old {
          transactions = rules.answering self.old.by self.old.transactions from transaction
              version;
        } }
    {
        self.txns.on_answer(from, transaction, version);
    }

    /// The last answer comes.
    fn end_answers(
        &mut self,
        store: &mut RecordStore,
        from: NodeId,
        transaction: u32,
        version: Option<Version>,
        outcome: Outcome,
    )
        requires { IsReady self.old store.old (step.Resolved from transaction version outcome) }
        ensures { (f : Facts)
            → BecomesNodeOf f self.old store.old
            (view_taken f (step.Resolved from transaction version outcome)) self.new store.new }
    {
        self.answer(from, transaction, version);
        self.resolve(store, transaction, outcome);
    }

    /// A transaction is resolved.
    fn resolve(&mut self, store: &mut RecordStore, transaction: u32, outcome: Outcome)
        requires { IsReadyToResolve self.old store.old transaction outcome }
        ensures { (f : Facts)
            → BecomesNodeOf f self.old store.old
            (with_outcome f transaction (digest_in self.old transaction) outcome) self.new
            store.new }
    {
        match outcome {
            Outcome::Read => self.close(transaction),
            Outcome::Write(writing) => self.write(store, transaction, writing),
        }
    }

    /// A write is applied. With nobody to acknowledge it the transaction is closed.
    fn write(&mut self, store: &mut RecordStore, transaction: u32, writing: Writing)
        requires { IsReadyToResolve self.old store.old transaction (outcome.Write writing) }
        ensures { (f : Facts)
            → BecomesNodeOf f self.old store.old
            (wrote f transaction (digest_in self.old transaction) writing) self.new store.new }
    {
        let to = writing.to;
        self.apply(store, transaction, writing);
        if to.is_empty() {
            self.close(transaction);
        }
    }

    /// A write is applied, and its transaction is open still.
    fn apply(&mut self, store: &mut RecordStore, transaction: u32, writing: Writing)
        requires { IsReadyToResolve self.old store.old transaction (outcome.Write writing) }
        ensures node { (f : Facts)
            → BecomesNodeOf f self.old store.old (write_applied f (view_key f)
            (list_at f (partition_of (digest_in self.old transaction))) transaction
            (digest_in self.old transaction) writing.version) self.new store.new }
        ensures open { IsSome (rules.transaction self.new.transactions transaction) }
    {
        let key = self.key;
        let Some(txn) = self.txns.get(transaction) else {
            unreachable!()
        };
        let p = partition_of(&txn.digest);
        self.write_version(store, transaction, p, writing);
        count_own_write(store, p, key, self.count_at(p));
        self.refresh(p, store);
    }

    /// The version of a write on the partition comes into the store, and the write has its number.
    fn write_version(
        &mut self,
        store: &mut RecordStore,
        transaction: u32,
        p: PartitionId,
        writing: Writing,
    )
        requires ready { IsReadyToResolve self.old store.old transaction (outcome.Write writing) }
        requires partition { p ≡ partition_of (digest_in self.old transaction) }
        ensures view { self.new ≡ record self.old {
          writes = applying self.old.writes p;
          transactions = rules.changing self.old.transactions transaction
              (rules.with_write writing.kept (applies_at self.old.writes p + 1) writing.to);
          room = self.new.room;
        } }
        ensures versions { store.new.versions ≡ joined store.old.by store.old.versions
            (digest_in self.old transaction) writing.version }
        ensures stamps { store.new.stamps ≡ store.old.stamps }
        ensures policy { store.new.by ≡ store.old.by }
    {
        let nth = self.writes.applies_at(p) + 1;
        apply_planned(
            store,
            &mut self.txns,
            transaction,
            writing.clock,
            writing.version,
            writing.to,
        );
        self.writes.apply(p);
        let write = Write {
            version: writing.kept,
            nth,
        };
        self.notes.applied(transaction, write);
    }

    /// The open transaction is closed.
    fn close(&mut self, transaction: u32)
        requires { IsSome (rules.transaction self.old.transactions transaction) }
        ensures { self.new ≡ record self.old {
          transactions = without_transaction self.old.transactions transaction;
          room = self.new.room;
        } }
    {
        self.txns.finish(transaction);
        self.notes.close(transaction);
    }

    /// These batches are out.
    pub fn send_batches(&mut self, batches: Vec<(NodeId, Batch)>)
        requires { IsReadyToSend self.old batches.items }
        ensures { self.new
            ≡ record self.old { batches = sending_all self.old.batches batches.items } }
    {
        for (to, batch) in batches {
            self.send_batch(to, batch);
        }
    }

    /// What a tick does about partitions, in their order.
    pub fn settle_all(&mut self, store: &mut RecordStore, settlings: &[Settling])
        requires { IsReadyToSettle self.old store.old settlings.now }
        ensures { (f : Facts)
            → BecomesNodeOf f self.old store.old (settled_by f settlings.now) self.new store.new }
    {
        for settling in settlings {
            self.settle_at(store, *settling);
        }
    }

    fn settle_at(&mut self, store: &mut RecordStore, settling: Settling)
        requires { IsReadyToSettle self.old store.old (settling ∷ []) }
        ensures { (f : Facts)
            → BecomesNodeOf f self.old store.old (settled_at f settling) self.new store.new }
    {
        let p = settling.partition;
        // It is one of those that are counted.
        let _ = p.number();
        self.hand(p, settling.hands);
        self.settle(p, settling.settles);
        self.learn(store, p, settling.learns);
        self.drop_settled(store, p, settling.drops);
        self.refresh(p, store);
    }

    /// The partition is handed over, where that is due.
    fn hand(&mut self, p: PartitionId, is_due: bool)
        requires { is_due ≡ true
            → hands (here (facts_seen self.old) (list_at (facts_seen self.old) p) p) ≡ true }
        ensures { self.new
            ≡ with_bits self.old (if is_due then handing self.old.bits p else self.old.bits) }
    {
        if !is_due {
            return;
        }
        // The partition is one of those that the done row has.
        let _ = p.number();
        let busy = self.txns.busy_on(p);
        if let Some(moving) = self.moving() {
            let entry = moving.map.map(p);
            self.progress.hand(p, &entry, busy);
        }
    }

    /// The partition is settled, where that is due.
    fn settle(&mut self, p: PartitionId, is_due: bool)
        requires exchanged { is_due ≡ true → self.old.exchange.exchanged ≡ true }
        requires due { is_due ≡ true
            → settles (here (facts_seen self.old) (list_at (facts_seen self.old) p) p) ≡ true }
        requires counted { is_due ≡ true → 0 < self.old.watch.unsettled }
        ensures view { self.new ≡ (if is_due then one_more_settled self.old p else self.old) }
        ensures set { is_due ≡ true → has_settled_bit (facts_seen self.new) p ≡ true }
    {
        if !is_due {
            return;
        }
        // The partition is one of those that the rows have.
        let _ = p.number();
        let busy = self.txns.busy_on(p);
        if let Some(moving) = self.moving() {
            let entry = moving.map.map(p);
            self.progress.settle(p, &entry, busy);
            // The row has a bit for each partition, so this one's is set now.
            let _ = self.progress.settled_row().get(p);
            self.unsettled -= 1;
        }
    }

    /// The copy is whole under the view's key, where that is due.
    fn learn(&mut self, store: &mut RecordStore, p: PartitionId, is_due: bool)
        ensures view { self.new
            ≡ with_bits self.old (if is_due then learning self.old.bits p else self.old.bits) }
        ensures store { store.new
            ≡ (if is_due then learnt_copy store.old (viewed_key self.old) p (count_seen self.old p)
            else store.old) }
    {
        if is_due {
            store.stamp(p, self.key, self.count_at(p));
            self.learnt.put(p);
        }
    }

    /// The copy of a settled partition is dropped, where that is due and the node is done.
    fn drop_settled(&self, store: &mut RecordStore, p: PartitionId, is_due: bool)
        requires settled { is_due ≡ true → has_settled_bit (facts_seen self.now) p ≡ true }
        requires done { is_due ≡ true → is_done (facts_seen self.now) p ≡ true }
        ensures { store.new ≡ (if is_due then without_copy_of store.old p else store.old) }
    {
        if is_due
            && let Some(moving) = self.moving()
            && let Some(bit) = self.progress.knows_settled(p)
            && let Some(permit) = moving.emigration.permit(p, bit)
        {
            drop_copy(store, permit);
        }
    }

    /// Once the exchange is finished, the copy of each partition that is empty everywhere is
    /// stamped where the node is a replica.
    pub fn stamp_empty_copies(&self, store: &mut RecordStore)
        ensures { (f : Facts)
            → BecomesNodeOf f self.now store.old (with_stamps f f.exchange.exchanged) self.now
            store.new }
    {
        if !self.has_exchanged() {
            return;
        }
        for number in 0..PARTITIONS {
            self.stamp_empty_copy(store, partition_at(number));
        }
    }

    /// The partition's copy is stamped where it is empty everywhere and the node is a replica.
    fn stamp_empty_copy(&self, store: &mut RecordStore, p: PartitionId)
        ensures { store.new ≡ with_copy_stamped store.old self.now p }
    {
        if self.is_all_empty(p) && self.is_replica(self.me, p) {
            store.stamp(p, self.key, self.count_at(p));
        }
    }
}

/// A record came into the copy in the view of that key: under another key's stamp it equals no other
/// copy.
fn spoil(store: &mut RecordStore, p: PartitionId, of: ClusterKey)
    ensures stamps { store.new.stamps
        ≡ changed_stamps store.old.stamps p (spoiled of) (finite.get store.old.stamps p) }
    ensures versions { store.new.versions ≡ store.old.versions }
    ensures policy { store.new.by ≡ store.old.by }
    ensures room { store.new.spare ≡ store.old.spare }
{
    let Some(stamp) = store.stamp_at(p) else {
        return;
    };
    if stamp.key != of {
        store.stamp(p, stamp.key, CopyState::NO_CLASS);
    }
}

/// A stamp of that view's key has this count.
fn recount(store: &mut RecordStore, p: PartitionId, of: ClusterKey, writes: u32)
    ensures stamps { store.new.stamps
        ≡ changed_stamps store.old.stamps p (recounted of writes) (finite.get store.old.stamps p) }
    ensures versions { store.new.versions ≡ store.old.versions }
    ensures policy { store.new.by ≡ store.old.by }
    ensures room { store.new.spare ≡ store.old.spare }
{
    let Some(stamp) = store.stamp_at(p) else {
        return;
    };
    if stamp.key == of {
        store.stamp(p, of, writes);
    }
}

/// The node applied a write to the copy in the view of that key: a stamp of that key has this count,
/// and under another key's stamp the copy equals no other one.
fn count_own_write(store: &mut RecordStore, p: PartitionId, of: ClusterKey, writes: u32)
    ensures stamps { store.new.stamps ≡ changed_stamps store.old.stamps p
        (λ stamp. recounted of writes (spoiled of stamp)) (finite.get store.old.stamps p) }
    ensures versions { store.new.versions ≡ store.old.versions }
    ensures policy { store.new.by ≡ store.old.by }
    ensures room { store.new.spare ≡ store.old.spare }
{
    spoil(store, p, of);
    recount(store, p, of, writes);
}
