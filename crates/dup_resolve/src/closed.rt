//! The transactions that were open as a view ended.
ghost use Rattle.std.specs.Prelude.{◌≡◌, ◌↔◌, ◌++◌, ◌∷◌, [], ℕ, length, drop, IsTrue, IfOk, OnOk, OnErr, slice_get};
ghost use Rattle.std.specs.Option.{option_copied};

use cluster_types::NoMemory;
use std::alloc::Global;
use std::marker::Model;

/// Numbers of transactions, each with whether its write was applied, in the order in which they
/// were pushed. The first ones can be taken out again.
#[derive(Debug, Drop)]
pub struct Closed {
    items: Vec<(u32, bool)>,
    taken: usize,
}

impl Model for Closed {
    ghost use Rattle.std.specs.Prelude.{◌≤◌, List, ℕ, Bool, drop, vec_len};

    ghost Value = { List (ℕ × Bool) };

    ghost view = { λ l. drop l.taken l.items.items };

    ghost invariant = { λ l. l.taken ≤ vec_len l.items };
}

impl Closed {
    /// No transactions, without memory.
    pub fn new(alloc: Global) -> Closed
        ensures { result ≡ [] }
    {
        Closed {
            items: Vec::new(alloc),
            taken: 0,
        }
    }

    /// Adds a transaction at the end.
    pub fn push(&mut self, item: (u32, bool)) -> Result<(), NoMemory>
        ensures ok { OnOk result (self.new ≡ self.old ++ item ∷ []) }
        ensures err { OnErr result (self.new ≡ self.old) }
    {
        self.items.push(item)?;
        Ok(())
    }

    /// An equal list of its own.
    pub fn copy(&self, alloc: Global) -> Result<Closed, NoMemory>
        ensures { IfOk result (λ l. l ≡ self.now) }
    {
        let items = Vec::from_slice(alloc, self.as_slice())?;
        Ok(Closed { items, taken: 0 })
    }

    /// Takes the first transaction out, and `None` where the list is empty.
    pub fn take_first(&mut self) -> Option<(u32, bool)>
        ensures first { result ≡ slice_get self.old 0 }
        ensures rest { self.new ≡ drop 1 self.old }
    {
        let first = *self.items.get(self.taken)?;
        self.taken += 1;
        if self.taken == self.items.len() {
            self.items.clear();
            self.taken = 0;
        }
        Some(first)
    }

    /// How many transactions there are.
    pub fn len(&self) -> usize
        ensures { result ≡ length self.now }
    {
        self.items.len() - self.taken
    }

    /// Whether there are none.
    pub fn is_empty(&self) -> bool
        ensures { IsTrue result ↔ (self.now ≡ []) }
    {
        self.as_slice().is_empty()
    }

    /// The transactions in their order.
    pub fn as_slice(&self) -> &[(u32, bool)]
        ensures { result.now ≡ self.now }
    {
        &self.items[self.taken..]
    }

    /// The transaction at that place, and `None` from the length on.
    pub fn get(&self, i: usize) -> Option<&(u32, bool)>
        ensures { option_copied result ≡ slice_get self.now i }
    {
        self.as_slice().get(i)
    }
}
