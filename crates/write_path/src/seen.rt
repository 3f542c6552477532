//! Sets of the numbers of writes.
ghost use Rattle.std.specs.Prelude.{◌≡◌, ◌<◌, ◌≤◌, ◌+◌, ◌^◌, ◌-◌, [], ℕ, All, AllPairs, IsOk, IsTrue, OnOk, OnErr};
ghost use Rattle.std.specs.VecDeque.{deque_len, deque_capacity};
ghost use Rattle.node_rules.specs.Stamps.{count_of, with_number};
ghost use Rattle.write_path.specs.Numbered.{IsAboveGap, stands_first, numbers_of};

use cluster_types::{CopyState, NoMemory};
use std::alloc::Global;
use std::collections::VecDeque;
use std::marker::Model;

/// The numbers of the list master's writes that reached a copy: 1 to some number, and others above
/// a gap, strictly rising.
#[derive(Debug, Drop)]
pub struct Seen {
    upto: u32,
    above: VecDeque<u32>,
}

impl Model for Seen {
    ghost use Rattle.std.specs.Prelude.{◌-◌};
    ghost use Rattle.std.specs.VecDeque.{deque_len, deque_capacity};
    ghost use Rattle.write_path.specs.Numbered.{IsAboveGap, Numbered, numbers_of};

    ghost Value = { Numbered };

    ghost view = { λ s.
        record {
          numbers = numbers_of s.upto s.above.items;
          spare = deque_capacity s.above - deque_len s.above;
        } };

    ghost invariant = { λ s. IsAboveGap s.upto s.above.items };
}

impl Seen {
    /// No numbers, without memory.
    pub fn new(alloc: Global) -> Seen
        ensures { result.numbers ≡ [] }
    {
        Seen {
            upto: 0,
            above: VecDeque::new(alloc),
        }
    }

    /// Makes room: the next `take` then doesn't want memory.
    pub fn reserve(&mut self) -> Result<(), NoMemory>
        ensures same { self.new.numbers ≡ self.old.numbers }
        ensures enough { OnOk result (0 < self.new.spare) }
        ensures kept { self.old.spare ≤ self.new.spare }
        ensures reserved { 0 < self.old.spare → IsOk result }
    {
        self.above.reserve(1)
    }

    /// Adds a number, at least 1.
    pub fn take(&mut self, nth: u32) -> Result<(), NoMemory>
        requires { 0 < nth }
        ensures ok { OnOk result (self.new.numbers ≡ with_number self.old.numbers nth) }
        ensures err { OnErr result (self.new.numbers ≡ self.old.numbers) }
        ensures spare { self.old.spare ≤ self.new.spare + 1 }
        ensures reserved { 0 < self.old.spare → IsOk result }
    {
        if nth <= self.upto {
            return Ok(());
        }
        if nth == self.upto + 1 {
            self.upto = nth;
            close_gap(&mut self.upto, &mut self.above);
            return Ok(());
        }
        add_above(&mut self.above, nth)
    }

    /// n where the numbers are exactly 1 to n, and otherwise `CopyState::NO_CLASS`.
    pub fn writes(&self) -> u32
        ensures { result ≡ count_of self.now.numbers }
    {
        if self.above.is_empty() {
            return self.upto;
        }
        CopyState::NO_CLASS
    }
}

/// Adds the number to those above the gap, unless it is one of them.
fn add_above(above: &mut VecDeque<u32>, nth: u32) -> Result<(), NoMemory>
    requires { AllPairs (λ a b. a < b) above.old.items }
    ensures ok { OnOk result (above.new.items ≡ with_number above.old.items nth) }
    ensures err { OnErr result (above.new.items ≡ above.old.items) }
    ensures room { deque_capacity above.old ≤ deque_capacity above.new }
    ensures len { deque_len above.new ≤ deque_len above.old + 1 }
    ensures reserved { deque_len above.old < deque_capacity above.old → IsOk result }
{
    match above.binary_search(&nth) {
        Ok(_) => Ok(()),
        Err(place) => {
            above.insert(place, nth)?;
            Ok(())
        }
    }
}

/// Moves the numbers that follow on `upto` from `above` to below it.
fn close_gap(upto: &mut u32, above: &mut VecDeque<u32>)
    requires rising { AllPairs (λ a b. a < b) above.old.items }
    requires past { All (λ n. upto.old < n) above.old.items }
    ensures numbers { numbers_of upto.new above.new.items ≡ numbers_of upto.old above.old.items }
    ensures gap { IsAboveGap upto.new above.new.items }
    ensures room { deque_capacity above.new ≡ deque_capacity above.old }
    ensures len { deque_len above.new ≤ deque_len above.old }
{
    while has_next(*upto, above) {
        *upto += 1;
        above.pop_front();
    }
}

/// Whether the first number above is the one after `upto`.
fn has_next(upto: u32, above: &VecDeque<u32>) -> bool
    requires { All (λ n. upto < n) above.now.items }
    ensures first { result ≡ stands_first above.now.items (upto + 1) }
    ensures fits { IsTrue result → upto < 2 ^ 32 - 1 }
{
    let Some(first) = above.front() else {
        return false;
    };
    *first == upto + 1
}
