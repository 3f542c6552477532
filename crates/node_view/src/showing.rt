//! What a view shows of itself.
ghost use Rattle.std.specs.Prelude.{◌≡◌, ◌<◌, ℕ, true, false, not, map, option_and_then, option_map, IfOk, IsSome};
ghost use Rattle.std.specs.Option.{option_copied};
ghost use Rattle.cluster_types.specs.Partitions.{partition_count};
ghost use Rattle.cluster_types.specs.Rows.{bit};
ghost use Rattle.wire_messages.specs.declared.message.Message.TheVariants as message;
ghost use Rattle.partition_lists.specs.Lists.{list};
ghost use Rattle.node_rules.specs.Batches.{done_row, out_to};
ghost use Rattle.node_rules.specs.Exchange.{members_of};
ghost use Rattle.node_rules.specs.Facts.{Facts, list_at};
ghost use Rattle.node_rules.specs.Map.{entry_of, lacks};
ghost use Rattle.node_rules.specs.Stamps as stamps;
ghost use Rattle.node_rules.specs.Standing.{acts, asked, has_moved, has_nothing_to_learn_or_drop, knows_all_settled, named};
ghost use Rattle.node_rules.specs.Tick.{own_row_in};
ghost use Rattle.node_rules.specs.Transactions as rules;
ghost use Rattle.node_view.specs.Transactions.{kept_of, write_of};
ghost use Rattle.node_view.specs.Views.{IsInView, IsOtherMember, IsViewOf, facts_seen, is_known_empty, viewed_key, with_settled_bits};

use crate::notes::Write;
use crate::view::View;
use cluster_types::{MapEntry, MapView, NoMemory, NodeId, NodeList, PartitionId, Row4096};
use dup_resolve::{Txn, Txns};
use record_store::RecordStore;
use std::alloc::Global;
use wire_messages::Message;

impl View {
    /// Whether the other member's row is there.
    pub fn has_row(&self, n: NodeId) -> bool
        requires { IsOtherMember self.now n }
        ensures { result ≡ not (lacks self.now.exchange.rows n) }
    {
        match self.exchanging() {
            None => true,
            Some(waiting) => !waiting.lacks(n),
        }
    }

    /// The message that carries the node's own row.
    pub fn state(&self, alloc: Global, wants: bool) -> Result<Message, NoMemory>
        ensures { IfOk result (λ m.
            m ≡ message.State (viewed_key self.now) wants (own_row_in (facts_seen self.now))) }
    {
        Ok(Message::State {
            key: self.key,
            wants,
            row: self.own_row().copy(alloc)?,
        })
    }

    /// Who serves the partition, once the exchange is finished.
    pub fn map_entry(&self, p: PartitionId) -> MapEntry
        requires { self.now.exchange.exchanged ≡ true }
        ensures { result
            ≡ entry_of (list (members_of self.now.exchange.view) p) self.now.exchange.rows p }
    {
        match self.moving() {
            Some(moving) => moving.map.map(p),
            None => unreachable!(),
        }
    }

    /// The number of the batch that is out to the member.
    pub fn batch_out(&self, to: NodeId) -> Option<u32>
        ensures { result ≡ option_map (λ b. b.number) (out_to self.now.batches to) }
    {
        self.moving()?.emigration.out(to)
    }

    /// Whether the node takes requests on the partition: the acting master by the rows until it
    /// hands the partition over, and the list master, where that is another, from its settling on.
    pub fn acts(&self, p: PartitionId) -> bool
        ensures { (f : Facts) → IsInView f self.now → result ≡ acts f (list_at f p) p }
    {
        match self.moving() {
            None => false,
            Some(moving) => {
                let is_acting = moving.map.acting(p) == self.me;
                (is_acting && !self.progress.is_own_handed(p))
                    || (!is_acting && self.is_master(p) && self.progress.is_own_settled(p))
            }
        }
    }

    /// Whether the node knows the partition handed over or settled, so that its list master is to
    /// be asked.
    pub fn has_moved(&self, p: PartitionId) -> bool
        ensures { (f : Facts) → IsInView f self.now → result ≡ has_moved f p }
    {
        self.progress.is_handed(p) || self.knows_settled(p)
    }

    /// The node that is to be asked: the list master once the partition has moved, and before that
    /// the acting master by the rows.
    pub fn named(&self, p: PartitionId) -> NodeId
        requires { self.now.exchange.exchanged ≡ true }
        ensures { (f : Facts) → IsInView f self.now → result ≡ named f (list_at f p) p }
    {
        match self.moving() {
            Some(moving) if !self.has_moved(p) => moving.map.acting(p),
            _ => self.lists().master(p),
        }
    }

    /// Whom a transaction asks that opens now: nobody where the node knows the partition settled,
    /// and otherwise the firsts of all classes but its own.
    pub fn asked(&self, p: PartitionId) -> NodeList
        requires { self.now.exchange.exchanged ≡ true }
        ensures { (f : Facts) → IsInView f self.now → result ≡ asked f (list_at f p) p }
    {
        match self.moving() {
            Some(moving) if !self.knows_settled(p) => moving.map.asks(p, self.me),
            _ => NodeList::new(),
        }
    }

    /// How many partitions the node doesn't know settled.
    pub fn unsettled(&self) -> u16
        ensures { result ≡ self.now.watch.unsettled }
    {
        self.unsettled
    }

    /// The partitions of which nothing is pending to any member; none before the exchange is
    /// finished.
    pub fn done_row(&self) -> &Row4096
        ensures { result.now
            ≡ done_row self.now.exchange.exchanged self.now.batches partition_count 0 }
    {
        self.progress.done_row()
    }

    /// The partitions that the node knows handed over.
    pub fn handed_row(&self) -> &Row4096
        ensures { result.now ≡ self.now.bits.handed }
    {
        self.progress.handed_row()
    }

    /// The partitions that have the settled bit.
    pub fn settled_row(&self) -> &Row4096
        ensures { result.now ≡ self.now.bits.settled }
    {
        self.progress.settled_row()
    }

    /// Whether the node knows every partition settled once it has these bits.
    pub fn knows_all_settled_with(&self, settled: &Row4096) -> bool
        ensures { (f : Facts) → IsViewOf f self.now
            → result ≡ knows_all_settled (with_settled_bits f settled.now) partition_count 0 }
    {
        if self.knows_all_settled() {
            return true;
        }
        let mut known = *settled;
        known.or(self.settled_row());
        self.are_all_empty(&known.complement())
    }

    /// Whether each of these partitions is known empty.
    fn are_all_empty(&self, partitions: &Row4096) -> bool
        ensures all { result ≡ true → (p : ℕ) → bit partitions.now p ≡ true
            → is_known_empty self.now p ≡ true }
        ensures one { result ≡ false
            → (p : ℕ) × (p < partition_count) × (bit partitions.now p ≡ true)
            × (is_known_empty self.now p ≡ false) }
    {
        let mut from = 0;
        while let Some(p) = partitions.next_set(from) {
            from = p.number() + 1;
            if !self.is_all_empty(p) {
                return false;
            }
        }
        true
    }

    /// Whether something is to be learnt or dropped in some partition. Only live ones can have
    /// that.
    pub fn is_to_learn_or_drop(&self, store: &RecordStore) -> bool
        requires { self.now.exchange.exchanged ≡ true }
        ensures { (f : Facts) → IsViewOf f self.now → f.store.content ≡ store.now.versions
            → result ≡ not (has_nothing_to_learn_or_drop f partition_count 0) }
    {
        let Some(moving) = self.moving() else {
            return false;
        };
        if moving.live.is_empty() {
            return false;
        }
        let mut from = 0;
        while let Some(p) = moving.live.next(from) {
            from = p.number() + 1;
            if self.here(moving, store, p).is_to_learn_or_drop() {
                return true;
            }
        }
        false
    }

    /// The open transactions, but for whom they asked and what they wrote.
    pub fn txns(&self) -> &Txns
        ensures opened { result.now.opened ≡ self.now.transactions.opened }
        ensures running { result.now.running ≡ map kept_of self.now.transactions.running }
    {
        &self.txns
    }

    /// The open transaction of that number, but for whom it asked and what it wrote.
    pub fn transaction(&self, t: u32) -> Option<&Txn>
        ensures { option_copied result
            ≡ option_map kept_of (rules.transaction self.now.transactions t) }
    {
        self.txns.get(t)
    }

    /// The write that the open transaction of that number applied and others are to acknowledge.
    pub fn written(&self, t: u32) -> Option<&Write>
        requires { IsSome (rules.transaction self.now.transactions t) }
        ensures { option_map write_of (option_copied result)
            ≡ option_and_then (λ x. x.applied) (rules.transaction self.now.transactions t) }
    {
        self.notes.get(t)?.write.as_ref()
    }

    /// How many writes of the partition the node applied in the view.
    pub fn applies_at(&self, p: PartitionId) -> u32
        ensures { result ≡ stamps.applies_at self.now.writes p }
    {
        self.writes.applies_at(p)
    }
}
