//! A table of open items by their numbers: a slot for each number from the first open one on.
ghost use Rattle.std.specs.Prelude.{◌≡◌, ◌≢◌, ◌↔◌, ◌<◌, ◌≤◌, ◌+◌, ◌-◌, ◌^◌, ◌∷◌, ◌++◌, [], ◌⊎◌, ℕ, Some, None, IsTrue, IsOk, IfOk, OnOk, MatchOption, length, map, slice_index_or, slice_set};
ghost use Rattle.std.specs.Option.{option_copied};
ghost use Rattle.std.specs.VecDeque.{deque_len, deque_capacity};
ghost use Rattle.request_rules.specs.ByNumber.{changing_item, item_under, without_number};
ghost use Rattle.open_table.specs.Open.{HaveRisingNumbers, KeepsItems};
ghost use Rattle.open_table.specs.Slots.{items_from, starts_with_item};

use cluster_types::NoMemory;
use item_lists::CopyList;
use std::alloc::Global;
use std::collections::VecDeque;
use std::marker::Model;

/// Items that are open, each under a number of its own, so that one is found at once. The first
/// number is 1, and each next one is one greater. A slot outlives its item where an older one is
/// still open.
#[derive(Drop)]
pub struct OpenTable<T> {
    slots: VecDeque<Option<T>>,
    /// How many numbers were given.
    given: u32,
    /// How many items are open.
    count: usize,
}

impl<T> Model for OpenTable<T> {
    ghost use Rattle.std.specs.Prelude.{◌≡◌, ◌≤◌, ◌-◌, IsTrue, length};
    ghost use Rattle.std.specs.VecDeque.{deque_len, deque_capacity};
    ghost use Rattle.open_table.specs.Open.{OpenNumbers};
    ghost use Rattle.open_table.specs.Slots.{items_from, starts_with_item};

    ghost Value = { OpenNumbers T };

    ghost view = { λ s.
        record {
          given = s.given;
          items = items_from (s.given - deque_len s.slots) s.slots.items;
          spare = deque_capacity s.slots - deque_len s.slots;
        } };

    ghost invariant = { λ s. (deque_len s.slots ≤ s.given)
        × IsTrue (starts_with_item s.slots.items)
        × (s.count ≡ length (items_from (s.given - deque_len s.slots) s.slots.items)) };
}

impl<T: Drop> OpenTable<T> {
    /// Nothing is open, and no number was given.
    pub fn new(alloc: Global) -> Self
        ensures given { result.given ≡ 0 }
        ensures items { result.items ≡ [] }
    {
        OpenTable {
            slots: VecDeque::new(alloc),
            given: 0,
            count: 0,
        }
    }

    /// How many numbers were given: they are 1 to this one.
    pub fn given(&self) -> u32
        ensures value { result ≡ self.now.given }
        ensures numbers { HaveRisingNumbers self.now.given self.now.items }
    {
        self.given
    }

    /// How many items are open.
    pub fn len(&self) -> usize
        ensures { result ≡ length self.now.items }
    {
        self.count
    }

    /// Whether none is open.
    pub fn is_empty(&self) -> bool
        ensures { IsTrue result ↔ (self.now.items ≡ []) }
    {
        self.slots.is_empty()
    }

    /// Makes room: the next `push` then wants no memory.
    pub fn reserve(&mut self) -> Result<(), NoMemory>
        ensures same { KeepsItems self.old self.new }
        ensures enough { OnOk result (0 < self.new.spare) }
        ensures kept { self.old.spare ≤ self.new.spare }
        ensures reserved { 0 < self.old.spare → IsOk result }
    {
        self.slots.reserve(1)
    }

    /// Makes room for so many items: as many times `push` then wants no memory.
    pub fn reserve_for(&mut self, additional: usize) -> Result<(), NoMemory>
        ensures same { KeepsItems self.old self.new }
        ensures enough { OnOk result (additional ≤ self.new.spare) }
        ensures kept { self.old.spare ≤ self.new.spare }
        ensures reserved { additional ≤ self.old.spare → IsOk result }
    {
        self.slots.reserve(additional)
    }

    /// Opens an item under the next number, where there is room and fewer than 2^32 - 1 numbers
    /// were given. The answer is the number.
    pub fn push(&mut self, item: T) -> u32
        requires room { 0 < self.old.spare }
        requires limit { self.old.given < 2 ^ 32 - 1 }
        ensures number { result ≡ self.old.given + 1 }
        ensures given { self.new.given ≡ self.old.given + 1 }
        ensures items { self.new.items ≡ self.old.items ++ (self.old.given + 1, item) ∷ [] }
        ensures spare { self.old.spare ≡ self.new.spare + 1 }
    {
        self.slots.push_back_reserved(Some(item));
        self.given += 1;
        self.count += 1;
        self.given
    }

    /// The item of that number, if it is open.
    pub fn get(&self, n: u32) -> Option<&T>
        ensures { option_copied result ≡ item_under self.now.items n }
    {
        let place = place_of(n, self.given, self.slots.len())?;
        self.slots[place].as_ref()
    }

    /// Takes the item of that number out, if it is open. The room stays.
    pub fn take(&mut self, n: u32) -> Option<T>
        ensures item { result ≡ item_under self.old.items n }
        ensures given { self.new.given ≡ self.old.given }
        ensures items { self.new.items ≡ without_number self.old.items n }
        ensures spare { self.old.spare ≤ self.new.spare }
    {
        let place = place_of(n, self.given, self.slots.len())?;
        let item = take_at(&mut self.slots, place)?;
        drop_taken(&mut self.slots);
        self.count -= 1;
        Some(item)
    }

    /// Puts an item in the place of the one of that number, if that is open, and answers the one that
    /// was there. The number stays.
    pub fn replace(&mut self, n: u32, item: T) -> Option<T>
        ensures item { result ≡ item_under self.old.items n }
        ensures given { self.new.given ≡ self.old.given }
        ensures items { self.new.items ≡ changing_item self.old.items n (λ _. item) }
        ensures spare { self.new.spare ≡ self.old.spare }
        ensures numbers { HaveRisingNumbers self.old.given self.old.items }
    {
        let place = place_of(n, self.given, self.slots.len())?;
        let slot = &self.slots[place];
        slot.as_ref()?;
        replace_at(&mut self.slots, place, item)
    }

    /// The numbers of the open items, in rising order.
    pub fn numbers(&self, alloc: Global) -> Result<CopyList<u32>, NoMemory>
        ensures { IfOk result (λ ns. ns ≡ map (λ x. x.0) self.now.items) }
    {
        let mut numbers = CopyList::new(alloc);
        let mut number = self.given - self.slots.len() as u32;
        for slot in &self.slots {
            number += 1;
            if slot.is_some() {
                numbers.push(number)?;
            }
        }
        Ok(numbers)
    }

    /// Nothing is open, and no number was given. The room stays.
    pub fn clear(&mut self)
        ensures given { self.new.given ≡ 0 }
        ensures items { self.new.items ≡ [] }
        ensures spare { self.old.spare ≤ self.new.spare }
    {
        self.slots.clear();
        self.given = 0;
        self.count = 0;
    }
}

/// The place of the slot of that number, of so many slots of the last numbers given.
fn place_of(n: u32, given: u32, slots: usize) -> Option<usize>
    requires { slots ≤ given }
    ensures { MatchOption result ((n ≤ given - slots) ⊎ (given < n))
        (λ i. (i < slots) × (n ≡ given - slots + 1 + i)) }
{
    let n = n as usize;
    let given = given as usize;
    let before = given - slots;
    if n <= before || given < n {
        return None;
    }
    Some(n - before - 1)
}

/// Takes the item out of a slot, if it has one.
fn take_at<T: Drop>(slots: &mut VecDeque<Option<T>>, place: usize) -> Option<T>
    requires { place < deque_len slots.old }
    ensures item { result ≡ slice_index_or slots.old.items place None }
    ensures items { slots.new.items ≡ slice_set slots.old.items place None }
    ensures len { deque_len slots.new ≡ deque_len slots.old }
    ensures capacity { deque_capacity slots.new ≡ deque_capacity slots.old }
{
    slots[place].take()
}

/// Puts an item into a slot, and answers the one that was there.
fn replace_at<T: Drop>(slots: &mut VecDeque<Option<T>>, place: usize, item: T) -> Option<T>
    requires { place < deque_len slots.old }
    ensures item { result ≡ slice_index_or slots.old.items place None }
    ensures items { slots.new.items ≡ slice_set slots.old.items place (Some item) }
    ensures len { deque_len slots.new ≡ deque_len slots.old }
    ensures capacity { deque_capacity slots.new ≡ deque_capacity slots.old }
{
    slots[place].replace(item)
}

/// Drops the slots before the first item.
fn drop_taken<T: Drop>(slots: &mut VecDeque<Option<T>>)
    ensures items { (given : ℕ) → deque_len slots.old ≤ given
        → items_from (given - deque_len slots.new) slots.new.items
        ≡ items_from (given - deque_len slots.old) slots.old.items }
    ensures first { IsTrue (starts_with_item slots.new.items) }
    ensures len { deque_len slots.new ≤ deque_len slots.old }
    ensures capacity { deque_capacity slots.new ≡ deque_capacity slots.old }
{
    while let Some(None) = slots.front() {
        slots.pop_front();
    }
}
