//! What a node keeps of its transactions besides.
ghost use Rattle.std.specs.Prelude.{◌≡◌, ◌<◌, ◌≤◌, ◌+◌, ◌-◌, ◌++◌, ◌∷◌, [], ◌⊎◌, ℕ, Some, None, OnOk, MatchOption, slice_set};
ghost use Rattle.std.specs.VecDeque.{deque_capacity, deque_len};
ghost use Rattle.std.specs.Option.{option_copied, option_map};
ghost use Rattle.node_view.specs.Counts.{greatest_count};
ghost use Rattle.node_view.specs.Transactions as kept;
ghost use Rattle.node_view.specs.Transactions.{note_of, notes_after, with_note, without_note};

use cluster_types::{NoMemory, NodeList};
use conflict_order::Version;
use std::alloc::Global;
use std::collections::VecDeque;
use std::marker::Model;

/// The write that a transaction applied.
#[derive(Drop)]
pub struct Write {
    /// The version that it made.
    pub version: Version,
    /// Which of the node's writes in the view and partition it is, from 1.
    pub nth: u32,
}

/// What is kept of an open transaction.
#[derive(Drop)]
pub(crate) struct TxnNote {
    /// Whom it asked, in list order.
    pub asked: NodeList,
    /// The write, once it is applied and others are to acknowledge it.
    pub write: Option<Write>,
}

/// What is kept of the open transactions of a view, with a slot for each number from the first open
/// one on.
#[derive(Drop)]
pub(crate) struct TxnNotes {
    slots: VecDeque<Option<TxnNote>>,
    /// How many transactions the view has had.
    opened: u32,
}

impl Model for TxnNotes {
    ghost use Rattle.std.specs.Prelude.{◌≤◌, ◌-◌};
    ghost use Rattle.std.specs.VecDeque.{deque_capacity, deque_len};
    ghost use Rattle.node_view.specs.Transactions.{Noted, notes_after};

    ghost Value = { Noted };

    ghost view = { λ n.
        record {
          opened = n.opened;
          kept = notes_after (n.opened - deque_len n.slots) n.slots.items;
          spare = deque_capacity n.slots - deque_len n.slots;
        } };

    ghost invariant = { λ n. deque_len n.slots ≤ n.opened };
}

impl TxnNotes {
    /// Nothing, without memory.
    pub fn new(alloc: Global) -> TxnNotes
        ensures none { result.kept ≡ [] }
        ensures opened { result.opened ≡ 0 }
    {
        TxnNotes {
            slots: VecDeque::new(alloc),
            opened: 0,
        }
    }

    /// Makes room for one transaction.
    pub fn reserve(&mut self) -> Result<(), NoMemory>
        ensures same { self.new.kept ≡ self.old.kept }
        ensures opened { self.new.opened ≡ self.old.opened }
        ensures room { OnOk result (0 < self.new.spare) }
        ensures spare { self.old.spare ≤ self.new.spare }
    {
        self.slots.reserve(1)
    }

    /// A transaction opens, for which there is room, and asks these.
    pub fn open(&mut self, asked: NodeList)
        requires room { 0 < self.old.spare }
        requires count { self.old.opened < greatest_count }
        ensures fresh { note_of self.old.kept (self.old.opened + 1) ≡ None }
        ensures notes { self.new.kept
            ≡ self.old.kept ++ (self.old.opened + 1, record { asked = asked; write = None }) ∷ [] }
        ensures opened { self.new.opened ≡ self.old.opened + 1 }
        ensures spare { self.old.spare ≡ self.new.spare + 1 }
    {
        let note = TxnNote { asked, write: None };
        self.slots.push_back_reserved(Some(note));
        self.opened += 1;
    }

    /// What is kept of the open transaction.
    pub fn get(&self, t: u32) -> Option<&TxnNote>
        ensures { option_copied result ≡ note_of self.now.kept t }
    {
        let place = place_of(t, self.opened, self.slots.len())?;
        self.slots[place].as_ref()
    }

    /// The open transaction applied the write.
    pub fn applied(&mut self, t: u32, write: Write)
        ensures notes { self.new.kept ≡ with_note self.old.kept t (kept.note_with_write write) }
        ensures opened { self.new.opened ≡ self.old.opened }
        ensures spare { self.new.spare ≡ self.old.spare }
    {
        match place_of(t, self.opened, self.slots.len()) {
            Some(place) => put_write(&mut self.slots[place], write),
            None => {}
        }
    }

    /// The transaction is closed.
    pub fn close(&mut self, t: u32)
        ensures notes { self.new.kept ≡ without_note self.old.kept t }
        ensures opened { self.new.opened ≡ self.old.opened }
        ensures spare { self.old.spare ≤ self.new.spare }
    {
        match place_of(t, self.opened, self.slots.len()) {
            Some(place) => {
                empty(&mut self.slots, place);
                drop_closed(&mut self.slots);
            }
            None => {}
        }
    }
}

/// The place of the slot of that number, of so many slots of the last numbers given.
fn place_of(t: u32, opened: u32, slots: usize) -> Option<usize>
    requires { slots ≤ opened }
    ensures { MatchOption result ((t ≤ opened - slots) ⊎ (opened < t))
        (λ i. (i < slots) × (t ≡ opened - slots + 1 + i)) }
{
    let number = t as usize;
    let opened = opened as usize;
    let before = opened - slots;
    if number <= before || opened < number {
        return None;
    }
    Some(number - before - 1)
}

/// The transaction of the slot, if there is one, applied the write.
fn put_write(slot: &mut Option<TxnNote>, write: Write)
    ensures { slot.new ≡ option_map (kept.note_with_write write) slot.old }
{
    if let Some(note) = slot {
        note.write = Some(write);
    }
}

/// Empties the slot.
fn empty(slots: &mut VecDeque<Option<TxnNote>>, place: usize)
    requires { place < deque_len slots.old }
    ensures items { slots.new.items ≡ slice_set slots.old.items place None }
    ensures len { deque_len slots.new ≡ deque_len slots.old }
    ensures capacity { deque_capacity slots.new ≡ deque_capacity slots.old }
{
    slots[place] = None;
}

/// Drops the slots before the first open transaction.
fn drop_closed(slots: &mut VecDeque<Option<TxnNote>>)
    ensures notes { (opened : ℕ) → deque_len slots.old ≤ opened
        → notes_after (opened - deque_len slots.new) slots.new.items
        ≡ notes_after (opened - deque_len slots.old) slots.old.items }
    ensures len { deque_len slots.new ≤ deque_len slots.old }
    ensures capacity { deque_capacity slots.new ≡ deque_capacity slots.old }
{
    while let Some(None) = slots.front() {
        slots.pop_front();
    }
}
