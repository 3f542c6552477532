//! The open transactions by number: a slot for each number from the first open one on.
ghost use Rattle.std.specs.Prelude.{◌≡◌, ◌↔◌, ◌<◌, ◌≤◌, ◌+◌, ◌-◌, ◌^◌, ◌∷◌, ◌++◌, [], ◌⊎◌, ℕ, Some, None, IsTrue, IsOk, IfOk, OnOk, MatchOption, length, slice_index_or, slice_set};
ghost use Rattle.std.specs.Option.{option_copied, option_map};
ghost use Rattle.std.specs.VecDeque.{deque_len, deque_capacity};
ghost use Rattle.dup_resolve.specs.Open.{acked_step, txn_acknowledged, acknowledged_if, answer_step, txn_answered, answered_if, change_txn, without_txn, txn_digest_at, txn_digest, txn_at, txn_with_write};
ghost use Rattle.dup_resolve.specs.Open as table;
ghost use Rattle.dup_resolve.specs.Places.{AreNumbered, AreRisingUpTo, running_of, starts_with_txn};

use crate::closed::Closed;
use crate::txn::Txn;
use crate::txns::{AckedStep, AnswerStep};
use crate::walk::OpenTxns;
use cluster_types::{Digest, NoMemory, NodeId, NodeList};
use conflict_order::{Policy, Version, join};
use std::alloc::Global;
use std::collections::VecDeque;
use std::marker::Model;

/// The open transactions in slots, so that one is found at once by its number. A slot outlives its
/// transaction where an older one is still open.
#[derive(Debug, Drop)]
pub(crate) struct Slots {
    slots: VecDeque<Option<Txn>>,
    /// How many were opened.
    opened: u32,
}

impl Model for Slots {
    ghost use Rattle.std.specs.Prelude.{◌≤◌, ◌-◌, IsTrue};
    ghost use Rattle.std.specs.VecDeque.{deque_len, deque_capacity};
    ghost use Rattle.dup_resolve.specs.Places.{AreNumbered, Slotted, running_of, starts_with_txn};

    ghost Value = { Slotted };

    ghost view = { λ s.
        record {
          opened = s.opened;
          running = running_of s.slots.items;
          spare = deque_capacity s.slots - deque_len s.slots;
        } };

    ghost invariant = { λ s. (deque_len s.slots ≤ s.opened)
        × AreNumbered (s.opened - deque_len s.slots) s.slots.items
        × IsTrue (starts_with_txn s.slots.items) };
}

impl Slots {
    /// None is open, and none was opened.
    pub(crate) fn new(alloc: Global) -> Slots
        ensures opened { result.opened ≡ 0 }
        ensures running { result.running ≡ [] }
    {
        Slots {
            slots: VecDeque::new(alloc),
            opened: 0,
        }
    }

    /// How many were opened.
    pub(crate) fn opened(&self) -> u32
        ensures value { result ≡ self.now.opened }
        ensures limit { length self.now.running ≤ self.now.opened }
        ensures numbers { AreRisingUpTo self.now.opened self.now.running }
    {
        self.opened
    }

    /// Makes room: the next `push` then doesn't want memory.
    pub(crate) fn reserve(&mut self) -> Result<(), NoMemory>
        ensures opened { self.new.opened ≡ self.old.opened }
        ensures running { self.new.running ≡ self.old.running }
        ensures enough { OnOk result (0 < self.new.spare) }
        ensures kept { self.old.spare ≤ self.new.spare }
        ensures reserved { 0 < self.old.spare → IsOk result }
    {
        self.slots.reserve(1)
    }

    /// Opens the transaction, which has the next number, and for which there is room.
    pub(crate) fn push(&mut self, txn: Txn)
        requires room { 0 < self.old.spare }
        requires limit { self.old.opened < 2 ^ 32 - 1 }
        requires next { txn.id ≡ self.old.opened + 1 }
        ensures opened { self.new.opened ≡ self.old.opened + 1 }
        ensures running { self.new.running ≡ self.old.running ++ txn ∷ [] }
        ensures spare { self.old.spare ≡ self.new.spare + 1 }

        // No more are open than were opened.
        ensures bound { length self.old.running ≤ self.old.opened }
    {
        self.slots.push_back_reserved(Some(txn));
        self.opened += 1;
    }

    /// The open transaction of that number.
    pub(crate) fn get(&self, t: u32) -> Option<&Txn>
        ensures { option_copied result ≡ txn_at self.now.running t }
    {
        let place = place_of(t, self.opened, self.slots.len())?;
        self.slots[place].as_ref()
    }

    /// Takes the transaction of that number out, and answers its digest.
    pub(crate) fn take(&mut self, t: u32) -> Option<Digest>
        ensures digest { result ≡ txn_digest_at self.old.running t }
        ensures opened { self.new.opened ≡ self.old.opened }
        ensures running { self.new.running ≡ without_txn self.old.running t }
        ensures numbers { AreRisingUpTo self.old.opened self.old.running }
        ensures spare { self.old.spare ≤ self.new.spare }
    {
        let place = place_of(t, self.opened, self.slots.len())?;
        let txn = take_at(&mut self.slots, place);
        drop_taken(&mut self.slots);
        digest_of(txn)
    }

    /// Takes an answer of a node to the transaction of that number.
    pub(crate) fn answer(
        &mut self,
        from: NodeId,
        t: u32,
        v: Option<Version>,
        by: Policy,
    ) -> AnswerStep
        ensures step { result ≡ answer_step (txn_at self.old.running t) from }
        ensures opened { self.new.opened ≡ self.old.opened }
        ensures running { self.new.running ≡ change_txn self.old.running t (answered_if by from v) }
        ensures spare { self.new.spare ≡ self.old.spare }
    {
        match place_of(t, self.opened, self.slots.len()) {
            Some(place) => answer_in(&mut self.slots[place], from, v, by),
            None => AnswerStep::Spent,
        }
    }

    /// Takes an acknowledgement of a node for the transaction of that number.
    pub(crate) fn acknowledge(&mut self, from: NodeId, t: u32) -> AckedStep
        ensures step { result ≡ acked_step (txn_at self.old.running t) from }
        ensures opened { self.new.opened ≡ self.old.opened }
        ensures running { self.new.running ≡ change_txn self.old.running t (acknowledged_if from) }
        ensures spare { self.new.spare ≡ self.old.spare }
    {
        match place_of(t, self.opened, self.slots.len()) {
            Some(place) => acknowledge_in(&mut self.slots[place], from),
            None => AckedStep::Spent,
        }
    }

    /// The write of the transaction of that number is applied, and these are to acknowledge it.
    pub(crate) fn write_applied(&mut self, t: u32, to: NodeList)
        ensures opened { self.new.opened ≡ self.old.opened }
        ensures running { self.new.running ≡ change_txn self.old.running t (txn_with_write to) }
        ensures spare { self.new.spare ≡ self.old.spare }
    {
        if let Some(place) = place_of(t, self.opened, self.slots.len()) {
            apply_in(&mut self.slots[place], to);
        }
    }

    /// Whether none is open.
    pub(crate) fn is_empty(&self) -> bool
        ensures { IsTrue result ↔ (self.now.running ≡ []) }
    {
        self.slots.is_empty()
    }

    /// The open transactions in rising order of their numbers.
    pub(crate) fn iter(&self) -> OpenTxns<'_>
        ensures { result ≡ self.now.running }
    {
        OpenTxns {
            slots: self.slots.iter(),
        }
    }

    /// The number of each transaction, and whether its write was applied.
    pub(crate) fn ends(&self, alloc: Global) -> Result<Closed, NoMemory>
        ensures { IfOk result (λ closed. closed ≡ table.txn_ends self.now.running) }
    {
        let mut closed = Closed::new(alloc);
        for slot in &self.slots {
            if let Some(txn) = slot {
                closed.push((txn.id, txn.applied))?;
            }
        }
        Ok(closed)
    }

    /// None is open, and none was opened. The room stays.
    pub(crate) fn clear(&mut self)
        ensures opened { self.new.opened ≡ 0 }
        ensures running { self.new.running ≡ [] }
        ensures spare { self.old.spare ≤ self.new.spare }
    {
        self.slots.clear();
        self.opened = 0;
    }
}

/// The place of the slot of that number, of so many slots of the last numbers given.
fn place_of(id: u32, opened: u32, slots: usize) -> Option<usize>
    requires { slots ≤ opened }
    ensures { MatchOption result ((id ≤ opened - slots) ⊎ (opened < id))
        (λ i. (i < slots) × (id ≡ opened - slots + 1 + i)) }
{
    let id = id as usize;
    let opened = opened as usize;
    let before = opened - slots;
    if id <= before || opened < id {
        return None;
    }
    Some(id - before - 1)
}

/// Takes the transaction out of a slot.
fn take_at(slots: &mut VecDeque<Option<Txn>>, place: usize) -> Option<Txn>
    requires { place < deque_len slots.old }
    ensures txn { result ≡ slice_index_or slots.old.items place None }
    ensures items { slots.new.items ≡ slice_set slots.old.items place None }
    ensures len { deque_len slots.new ≡ deque_len slots.old }
    ensures capacity { deque_capacity slots.new ≡ deque_capacity slots.old }
{
    slots[place].take()
}

/// The digest of a transaction, which is let go.
fn digest_of(txn: Option<Txn>) -> Option<Digest>
    ensures { result ≡ txn_digest txn }
{
    let txn = txn?;
    Some(txn.digest)
}

/// Drops the slots before the first transaction.
fn drop_taken(slots: &mut VecDeque<Option<Txn>>)
    ensures running { running_of slots.new.items ≡ running_of slots.old.items }
    ensures numbers { (opened : ℕ) → deque_len slots.old ≤ opened
        → AreNumbered (opened - deque_len slots.old) slots.old.items
        → AreNumbered (opened - deque_len slots.new) slots.new.items }
    ensures first { IsTrue (starts_with_txn slots.new.items) }
    ensures len { deque_len slots.new ≤ deque_len slots.old }
    ensures capacity { deque_capacity slots.new ≡ deque_capacity slots.old }
{
    while let Some(None) = slots.front() {
        slots.pop_front();
    }
}

/// Takes an answer to the transaction in the slot, if it awaits it.
fn answer_in(slot: &mut Option<Txn>, from: NodeId, v: Option<Version>, by: Policy) -> AnswerStep
    ensures step { result ≡ answer_step slot.old from }
    ensures txn { slot.new ≡ option_map (answered_if by from v) slot.old }
{
    match slot {
        Some(txn) if txn.awaits_answer(from) => take_answer(txn, from, v, by),
        _ => AnswerStep::Spent,
    }
}

/// Takes an acknowledgement for the transaction in the slot, if it awaits it.
fn acknowledge_in(slot: &mut Option<Txn>, from: NodeId) -> AckedStep
    ensures step { result ≡ acked_step slot.old from }
    ensures txn { slot.new ≡ option_map (acknowledged_if from) slot.old }
{
    match slot {
        Some(txn) if txn.awaits_ack(from) => take_acknowledgement(txn, from),
        _ => AckedStep::Spent,
    }
}

/// The write of the transaction in the slot is applied.
fn apply_in(slot: &mut Option<Txn>, to: NodeList)
    ensures { slot.new ≡ option_map (txn_with_write to) slot.old }
{
    if let Some(txn) = slot {
        txn.applied = true;
        txn.awaiting = to;
    }
}

/// The answer of a node that is awaited is taken.
fn take_answer(txn: &mut Txn, from: NodeId, v: Option<Version>, by: Policy) -> AnswerStep
    requires { IsTrue (table.txn_awaits_answer txn.old from) }
    ensures step { result ≡ answer_step (Some txn.old) from }
    ensures txn { txn.new ≡ txn_answered by from v txn.old }
{
    txn.best = join(txn.best.take(), v, by);
    txn.awaiting = txn.awaiting.without(from);
    if txn.awaiting.is_empty() {
        AnswerStep::Resolved
    } else {
        AnswerStep::Waiting
    }
}

/// The acknowledgement of a node that is awaited is taken.
fn take_acknowledgement(txn: &mut Txn, from: NodeId) -> AckedStep
    requires { IsTrue (table.txn_awaits_ack txn.old from) }
    ensures step { result ≡ acked_step (Some txn.old) from }
    ensures txn { txn.new ≡ txn_acknowledged from txn.old }
{
    txn.awaiting = txn.awaiting.without(from);
    if txn.awaiting.is_empty() {
        AckedStep::Done
    } else {
        AckedStep::Waiting
    }
}
