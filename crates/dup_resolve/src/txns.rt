//! The table of a node's open transactions.
ghost use Rattle.std.specs.Prelude.{◌≡◌, ◌≢◌, ◌↔◌, ◌<◌, ◌≤◌, ◌+◌, ◌-◌, ◌^◌, ◌∷◌, ◌++◌, [], ℕ, Err, IsTrue, IsSome, IsOk, IfOk, OnOk, OnErr, None, Some};
ghost use Rattle.std.specs.Option.{option_copied};
ghost use Rattle.conflict_order.specs.declared.policy.Policy.TheVariants.{Time};
ghost use Rattle.dup_resolve.specs.Open.{HasOpen, IsNew, IsSameButRoom, acked_step, acknowledged_if, answer_step, answered_if, change_txn, without_txn, has_txn_on, new_txn, number_on, txn_at, txn_with_write};
ghost use Rattle.dup_resolve.specs.Open as table;
ghost use Rattle.dup_resolve.specs.Places.{AreRisingUpTo};

use crate::closed::Closed;
use crate::counts::Counts;
use crate::slots::Slots;
use crate::txn::Txn;
use crate::walk::OpenTxns;
use cluster_types::{Digest, NoMemory, NodeId, NodeList, PartitionId, partition_of};
use conflict_order::{Policy, Version, Want};
use std::alloc::Global;
use std::collections::HashMap;
use std::marker::Model;

/// Why no transaction begins.
#[derive(Clone, Copy, Debug, PartialEq, Eq)]
pub enum BeginFault {
    /// One is open on the digest: its number.
    Busy(u32),
    NoMemory,
}

impl From<NoMemory> for BeginFault {
    ghost use Rattle.std.specs.Prelude.{◌≡◌};
    ghost use Rattle.dup_resolve.specs.declared.txns.BeginFault.TheVariants as fault;

    ghost from_gives = { λ _ f. f ≡ fault.NoMemory };

    fn from(_: NoMemory) -> BeginFault {
        BeginFault::NoMemory
    }
}

/// What became of an answer.
#[derive(Clone, Copy, Debug, PartialEq, Eq)]
pub enum AnswerStep {
    /// The transaction doesn't await it, or isn't open.
    Spent,
    /// Other answers are missing still.
    Waiting,
    /// All answers are there.
    Resolved,
}

/// What became of an acknowledgement.
#[derive(Clone, Copy, Debug, PartialEq, Eq)]
pub enum AckedStep {
    /// The transaction doesn't await it, or isn't open.
    Spent,
    /// Other acknowledgements are missing still.
    Waiting,
    /// All acknowledgements are there.
    Done,
}

/// The transactions that are open at a node, numbered from 1 in its view, at most one on each
/// digest.
#[derive(Debug, Drop)]
pub struct Txns {
    slots: Slots,
    by_digest: HashMap<[u8; 20], u32>,
    by_partition: Counts,
    by: Policy,
}

impl Model for Txns {
    ghost use Rattle.std.specs.Prelude.{length, bytes_eq};
    ghost use Rattle.std.specs.HashMap.{get, spare};
    ghost use Rattle.dup_resolve.specs.Open.{Open};
    ghost use Rattle.dup_resolve.specs.Places.{AreOpenCounts, IsIndex, txn_entries, room_of};

    ghost Value = { Open };

    ghost view = { λ t.
        record {
          opened = t.slots.opened;
          running = t.slots.running;
          by = t.by;
          spare = room_of t.slots.spare (spare t.by_digest) (length t.by_partition);
        } };

    ghost invariant = { λ t. IsIndex (txn_entries t.slots.running) (λ q. get bytes_eq t.by_digest q)
        × AreOpenCounts (txn_entries t.slots.running) t.by_partition };
}

impl Txns {
    /// No transactions, and the next number is 1. Versions compare by time first.
    pub fn new(alloc: Global) -> Txns
        ensures { IsNew Time result }
    {
        Txns::with_policy(alloc, Policy::Time)
    }

    /// No transactions, and the next number is 1. Versions compare by that policy.
    pub fn with_policy(alloc: Global, by: Policy) -> Txns
        ensures { IsNew by result }
    {
        Txns {
            slots: Slots::new(alloc),
            by_digest: HashMap::new(alloc),
            by_partition: Counts::new(alloc),
            by,
        }
    }

    /// The number that the next transaction gets, where fewer than 2^32 - 1 were opened.
    pub fn next_id(&self) -> u32
        requires { self.now.opened < 2 ^ 32 - 1 }
        ensures { result ≡ self.now.opened + 1 }
    {
        self.slots.opened() + 1
    }

    /// How many were opened. The numbers of those that are open rise up to that.
    pub fn opened(&self) -> u32
        ensures value { result ≡ self.now.opened }
        ensures numbers { AreRisingUpTo self.now.opened self.now.running }
    {
        self.slots.opened()
    }

    /// Makes room: the next `begin` then doesn't want memory.
    pub fn reserve(&mut self) -> Result<(), NoMemory>
        ensures same { IsSameButRoom self.old self.new }
        ensures enough { OnOk result (0 < self.new.spare) }
        ensures kept { self.old.spare ≤ self.new.spare }
        ensures reserved { 0 < self.old.spare → IsOk result }
    {
        self.slots.reserve()?;
        self.by_digest.reserve(1)?;
        self.by_partition.reserve()
    }

    /// Opens a transaction with the next number, where fewer than 2^32 - 1 were opened. `Busy`
    /// exactly where one is open on the digest.
    pub fn begin(
        &mut self,
        d: Digest,
        want: Want,
        best: Option<Version>,
        awaiting: NodeList,
    ) -> Result<u32, BeginFault>
        requires { self.old.opened < 2 ^ 32 - 1 }
        ensures id { IfOk result (λ id. id ≡ self.old.opened + 1) }
        ensures opened { OnOk result (self.new.opened ≡ self.old.opened + 1) }
        ensures running { OnOk result
            (self.new.running
            ≡ self.old.running ++ new_txn (self.old.opened + 1) d want best awaiting ∷ []) }
        ensures policy { self.new.by ≡ self.old.by }
        ensures busy { (t : ℕ)
            → (result ≡ Err (BeginFault.Busy t)) ↔ (number_on self.old.running d ≡ Some t) }
        ensures err { OnErr result (IsSameButRoom self.old self.new) }
        ensures spare { self.old.spare ≤ self.new.spare + 1 }

        // With room to spare it doesn't want memory.
        ensures reserved { 0 < self.old.spare → result ≢ Err BeginFault.NoMemory }
    {
        if let Some(t) = self.open_on(&d) {
            return Err(BeginFault::Busy(t));
        }
        self.reserve()?;
        let id = self.next_id();
        self.open(Txn {
            id,
            want,
            digest: d,
            awaiting,
            best,
            applied: false,
        });
        Ok(id)
    }

    /// Opens the transaction, which has the next number, for which there is room, and on whose
    /// digest none is open.
    fn open(&mut self, txn: Txn)
        requires next { txn.id ≡ self.old.opened + 1 }
        requires limit { self.old.opened < 2 ^ 32 - 1 }
        requires free { number_on self.old.running txn.digest ≡ None }
        requires room { 0 < self.old.spare }
        ensures opened { self.new.opened ≡ self.old.opened + 1 }
        ensures running { self.new.running ≡ self.old.running ++ txn ∷ [] }
        ensures policy { self.new.by ≡ self.old.by }
        ensures spare { self.old.spare ≤ self.new.spare + 1 }
    {
        let (id, digest) = (txn.id, txn.digest);
        self.slots.push(txn);
        // There is room for it.
        let _ = self.by_digest.insert(*digest.bytes(), id);
        self.by_partition.add(partition_of(&digest));
    }

    /// The number of the transaction that is open on the digest.
    pub fn open_on(&self, d: &Digest) -> Option<u32>
        ensures { result ≡ number_on self.now.running d.now }
    {
        self.by_digest.get(d.bytes()).copied()
    }

    /// The open transaction of that number.
    pub fn get(&self, t: u32) -> Option<&Txn>
        ensures { option_copied result ≡ txn_at self.now.running t }
    {
        self.slots.get(t)
    }

    /// Whether a transaction is open on the partition.
    pub fn busy_on(&self, p: PartitionId) -> bool
        ensures { result ≡ has_txn_on self.now.running p }
    {
        self.by_partition.at(p) != 0
    }

    /// Whether none is open.
    pub fn is_empty(&self) -> bool
        ensures { IsTrue result ↔ (self.now.running ≡ []) }
    {
        self.slots.is_empty()
    }

    /// The open transactions in rising order of their numbers.
    pub fn iter(&self) -> OpenTxns<'_>
        ensures { result ≡ self.now.running }
    {
        self.slots.iter()
    }

    /// Takes an answer: the version that the node holds, or none. `Spent` exactly where no answer
    /// of the node to that transaction is awaited, and `Resolved` where it was the last.
    pub fn on_answer(&mut self, from: NodeId, t: u32, v: Option<Version>) -> AnswerStep
        ensures step { result ≡ answer_step (txn_at self.old.running t) from }
        ensures after { HasOpen (change_txn self.old.running t (answered_if self.old.by from v))
            self.old self.new }
    {
        self.slots.answer(from, t, v, self.by)
    }

    /// Takes an acknowledgement. `Spent` exactly where none of the node for that transaction is
    /// awaited, and `Done` where it was the last.
    pub fn acked(&mut self, from: NodeId, t: u32) -> AckedStep
        ensures step { result ≡ acked_step (txn_at self.old.running t) from }
        ensures after { HasOpen (change_txn self.old.running t (acknowledged_if from)) self.old
            self.new }
    {
        self.slots.acknowledge(from, t)
    }

    /// The write of the transaction, which is open, is applied, and these are to acknowledge it.
    pub fn write_applied(&mut self, t: u32, to: NodeList)
        ensures { HasOpen (change_txn self.old.running t (txn_with_write to)) self.old self.new }
    {
        self.slots.write_applied(t, to);
    }

    /// Closes the transaction, which is open.
    pub fn finish(&mut self, t: u32)
        requires { IsSome (txn_at self.old.running t) }
        ensures opened { self.new.opened ≡ self.old.opened }
        ensures running { self.new.running ≡ without_txn self.old.running t }
        ensures policy { self.new.by ≡ self.old.by }
        ensures spare { self.old.spare ≤ self.new.spare }
    {
        if let Some(digest) = self.slots.take(t) {
            self.by_digest.remove(digest.bytes());
            self.by_partition.remove(partition_of(&digest));
        }
    }

    /// The open transactions as pairs of the number and whether the write was applied, in rising
    /// number.
    pub fn closing(&self, alloc: Global) -> Result<Closed, NoMemory>
        ensures { IfOk result (λ closed. closed ≡ table.txn_ends self.now.running) }
    {
        self.slots.ends(alloc)
    }

    /// Closes all transactions, and the next number is 1. The room stays.
    pub fn clear(&mut self)
        ensures new { IsNew self.old.by self.new }
        ensures spare { self.old.spare ≤ self.new.spare }
    {
        self.slots.clear();
        self.by_digest.clear();
        self.by_partition.clear();
    }

    /// Closes all transactions and answers them as `closing` does. The next number is 1.
    pub fn close_all(&mut self, alloc: Global) -> Result<Closed, NoMemory>
        ensures closed { IfOk result (λ closed. closed ≡ table.txn_ends self.old.running) }
        ensures new { OnOk result (IsNew self.old.by self.new) }
        ensures err { OnErr result (self.new ≡ self.old) }
        ensures spare { self.old.spare ≤ self.new.spare }
    {
        let closed = self.closing(alloc)?;
        self.clear();
        Ok(closed)
    }
}
