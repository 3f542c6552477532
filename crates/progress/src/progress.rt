//! How far each partition has come.
ghost use Rattle.std.specs.Prelude.{◌≡◌, ◌==◌, IfOk, IsTrue, Contains, SomeIff};
ghost use Rattle.cluster_types.specs.Rows.{bit};
ghost use Rattle.node_rules.specs.Bits.{progressing, handing, settling, knows_each_done};
ghost use Rattle.node_rules.specs.Map.{list_master};
ghost use Rattle.progress.specs.Known.{all_done, hands_entry, settles_entry, nothing_known};

use crate::counts::no_counts;
use crate::row::HeapRow;
use crate::told::{Told, hear, silent_others};
use cluster_types::{MapEntry, Members, NoMemory, NodeId, NodeList, PartitionId, Row4096};
use std::alloc::Global;
use std::marker::Model;

/// What a node knows of how far each partition has come in its view.
#[derive(Drop)]
pub struct Progress {
    me: NodeId,
    others: NodeList,
    /// What each other member told, in member order.
    heard: Vec<Told>,
    /// The number of other members that are known done, by partition.
    known: Vec<u8>,
    own: HeapRow,
    handed: HeapRow,
    settled: HeapRow,
    own_handed: HeapRow,
    own_settled: HeapRow,
}

impl Model for Progress {
    ghost use Rattle.std.specs.Prelude.{◌≡◌};
    ghost use Rattle.node_rules.specs.Bits.{clear_row};
    ghost use Rattle.node_rules.specs.Codes.{facts_codes};
    ghost use Rattle.progress.specs.Known.{Known};
    ghost use Rattle.progress.specs.Told.{AreTold, told_nodes, told_table};

    ghost Value = { Known };

    ghost coded = { Prim.hlevel facts_codes };

    ghost view = { λ k.
        record {
          me = k.me;
          others = k.others;
          own = k.own;
          bits = record {
            done = told_table k.heard.items;
            handed = k.handed;
            settled = k.settled;
            own_handed = k.own_handed;
            own_settled = k.own_settled;
            learnt = clear_row;
          };
        } };

    ghost invariant = { λ k.
        (told_nodes k.heard.items ≡ k.others) × AreTold k.heard.items k.known.items };
}

/// The partition's settling was written. Only `Progress::knows_settled` makes one.
#[derive(Clone, Copy, Debug, PartialEq, Eq)]
pub struct SettledBit {
    partition: PartitionId,
}

impl SettledBit {
    /// The partition that is settled.
    pub fn partition(&self) -> PartitionId
        ensures { result ≡ self.now.partition }
    {
        self.partition
    }
}

impl Progress {
    /// Nothing is known. `me` is a member.
    pub fn new(alloc: Global, members: &Members, me: NodeId) -> Result<Progress, NoMemory>
        ensures { IfOk result (λ k. k ≡ nothing_known members.now me) }
    {
        let others = members.ids().without(me);
        let heard = silent_others(alloc, members, me)?;
        let known = no_counts(alloc)?;
        let own = HeapRow::new(alloc)?;
        let handed = HeapRow::new(alloc)?;
        let settled = HeapRow::new(alloc)?;
        let own_handed = HeapRow::new(alloc)?;
        let own_settled = HeapRow::new(alloc)?;
        Ok(Progress {
            me,
            others,
            heard,
            known,
            own,
            handed,
            settled,
            own_handed,
            own_settled,
        })
    }

    /// A Progress came from another member. Its done row takes the place of that member's last one;
    /// the bits of the other two are joined with those that are known.
    pub fn heard(&mut self, from: NodeId, done: &Row4096, handed: &Row4096, settled: &Row4096)
        requires { Contains self.old.others from }
        ensures { self.new ≡ record self.old
            { bits = progressing self.old.bits from done.now handed.now settled.now } }
    {
        hear(&mut self.heard, &mut self.known, from, done);
        self.handed.or(handed);
        self.settled.or(settled);
    }

    /// The node is done at these partitions: nothing of them is pending.
    pub fn own_done(&mut self, done: &Row4096)
        ensures { self.new ≡ record self.old { own = done.now } }
    {
        self.own.set(done);
    }

    /// Whether the node is done at the partition, and knows every other member done.
    pub fn all_done(&self, p: PartitionId) -> bool
        ensures { result ≡ all_done self.now p }
    {
        self.own.get(p) && self.knows_each_done(p)
    }

    /// Whether the node is to hand the partition over: it is the acting master and not the list
    /// master, hasn't handed it over, all members are known done, and no transaction is open on it.
    pub fn may_hand(&self, p: PartitionId, e: &MapEntry, busy: bool) -> bool
        ensures { result ≡ hands_entry self.now p e.now busy }
    {
        e.acting == self.me
            && !self.is_master(e)
            && !self.own_handed.get(p)
            && self.all_done(p)
            && !busy
    }

    /// Whether the node is to settle the partition: it is the list master, not all copies were
    /// empty, the settled bit isn't set, no transaction is open on it, and it was handed over, or
    /// the node is the acting master and all members are known done.
    pub fn may_settle(&self, p: PartitionId, e: &MapEntry, busy: bool) -> bool
        ensures { result ≡ settles_entry self.now p e.now busy }
    {
        self.is_master(e)
            && !e.all_empty
            && !self.settled.get(p)
            && !busy
            && (self.handed.get(p) || (e.acting == self.me && self.all_done(p)))
    }

    /// The node hands the partition over, which it may.
    pub fn hand(&mut self, p: PartitionId, e: &MapEntry, busy: bool)
        requires { IsTrue (hands_entry self.old p e.now busy) }
        ensures { self.new ≡ record self.old { bits = handing self.old.bits p } }
    {
        self.handed.put(p);
        self.own_handed.put(p);
    }

    /// The node settles the partition, which it may.
    pub fn settle(&mut self, p: PartitionId, e: &MapEntry, busy: bool)
        requires { IsTrue (settles_entry self.old p e.now busy) }
        ensures { self.new ≡ record self.old { bits = settling self.old.bits p } }
    {
        self.settled.put(p);
        self.own_settled.put(p);
    }

    /// Whether the node knows that the partition was handed over.
    pub fn is_handed(&self, p: PartitionId) -> bool
        ensures { result ≡ bit self.now.bits.handed p }
    {
        self.handed.get(p)
    }

    /// Whether the node has handed the partition over itself.
    pub fn is_own_handed(&self, p: PartitionId) -> bool
        ensures { result ≡ bit self.now.bits.own_handed p }
    {
        self.own_handed.get(p)
    }

    /// Whether the node has settled the partition itself.
    pub fn is_own_settled(&self, p: PartitionId) -> bool
        ensures { result ≡ bit self.now.bits.own_settled p }
    {
        self.own_settled.get(p)
    }

    /// Whether the node knows that the partition's settling was written, and then the proof of it.
    pub fn knows_settled(&self, p: PartitionId) -> Option<SettledBit>
        ensures { SomeIff result (IsTrue (bit self.now.bits.settled p)) (record { partition = p }) }
    {
        if self.settled.get(p) {
            return Some(SettledBit { partition: p });
        }
        None
    }

    /// The partitions at which the node is done.
    pub fn done_row(&self) -> &Row4096
        ensures { result.now ≡ self.now.own }
    {
        self.own.as_row()
    }

    /// The partitions that were handed over, as far as the node knows.
    pub fn handed_row(&self) -> &Row4096
        ensures { result.now ≡ self.now.bits.handed }
    {
        self.handed.as_row()
    }

    /// The partitions whose settling was written, as far as the node knows.
    pub fn settled_row(&self) -> &Row4096
        ensures { result.now ≡ self.now.bits.settled }
    {
        self.settled.as_row()
    }

    /// The other members of the view, in member order.
    pub fn others(&self) -> &NodeList
        ensures { result.now ≡ self.now.others }
    {
        &self.others
    }

    /// Whether every other member is known done at the partition.
    fn knows_each_done(&self, p: PartitionId) -> bool
        ensures { result ≡ knows_each_done self.now.bits self.now.others p }
    {
        usize::from(self.known[usize::from(p.number())]) == self.others.len()
    }

    /// Whether the node is the list master.
    fn is_master(&self, e: &MapEntry) -> bool
        ensures { result ≡ (list_master e.now.list == self.now.me) }
    {
        let me = self.me.number();
        match e.list.as_slice() {
            [] => false,
            [first, ..] => first.number() == me,
        }
    }
}
