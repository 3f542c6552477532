//! The slots in which messages are kept, one for each number from the first in flight on.
ghost use Rattle.std.specs.Prelude.{◌≡◌, ◌≢◌, ◌<◌, ◌≤◌, ◌+◌, ◌-◌, ◌^◌, ◌⊎◌, ℕ, length, None, IsTrue, IfOk, MatchOption, slice_index_or, slice_set};
ghost use Rattle.std.specs.VecDeque.{deque_len, deque_capacity};
ghost use Rattle.net_script.specs.Network.{flying_ids};
ghost use Rattle.net_script.specs.Flights.{numbered, starts_full};

use crate::net::Flying;
use cluster_types::{IdList, NoMemory};
use std::alloc::Global;
use std::collections::VecDeque;

/// The place of the slot of that number, of so many slots of the last numbers sent.
pub(crate) fn place_of(id: u64, sent: u64, slots: usize) -> Option<usize>
    requires { slots ≤ sent }
    ensures { MatchOption result ((id ≤ sent - slots) ⊎ (sent < id))
        (λ i. (i < slots) × (id ≡ sent - slots + 1 + i)) }
{
    let before = sent - slots as u64;
    if id <= before || sent < id {
        return None;
    }
    Some((id - before - 1) as usize)
}

/// Takes the message out of a slot.
pub(crate) fn take_at(slots: &mut VecDeque<Option<Flying>>, place: usize) -> Option<Flying>
    requires { place < deque_len slots.old }
    ensures message { result ≡ slice_index_or slots.old.items place None }
    ensures items { slots.new.items ≡ slice_set slots.old.items place None }
    ensures len { deque_len slots.new ≡ deque_len slots.old }
    ensures capacity { deque_capacity slots.new ≡ deque_capacity slots.old }
{
    slots[place].take()
}

/// Drops the slots before the first message.
pub(crate) fn drop_taken(slots: &mut VecDeque<Option<Flying>>)
    ensures same { (sent : ℕ) → deque_len slots.old ≤ sent
        → numbered (sent - deque_len slots.new) slots.new.items
        ≡ numbered (sent - deque_len slots.old) slots.old.items }
    ensures first { IsTrue (starts_full slots.new.items) }
    ensures len { deque_len slots.new ≤ deque_len slots.old }
    ensures capacity { deque_capacity slots.new ≡ deque_capacity slots.old }
{
    while let Some(None) = slots.front() {
        slots.pop_front();
    }
}

/// The numbers of the messages in the slots, where so many were sent before the first slot's.
pub(crate) fn numbers(
    alloc: Global,
    before: u64,
    slots: &VecDeque<Option<Flying>>,
) -> Result<IdList, NoMemory>
    requires { before + deque_len slots.now < 2 ^ 64 }
    ensures { IfOk result (λ ids. ids ≡ flying_ids (numbered before slots.now.items)) }
{
    let mut ids = IdList::new(alloc);
    let mut id = before;
    for slot in slots {
        id += 1;
        if slot.is_some() {
            ids.push(id)?;
        }
    }
    Ok(ids)
}
