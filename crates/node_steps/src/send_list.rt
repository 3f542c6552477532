//! Messages to be sent.
ghost use Rattle.std.specs.Prelude.{◌≡◌, ◌↔◌, ◌++◌, ◌∷◌, [], ℕ, length, drop, IsTrue, IfOk, OnOk, OnErr, slice_get};
ghost use Rattle.std.specs.Option.{option_copied};

use cluster_types::{Bytes, NoMemory};
use std::alloc::Global;
use std::collections::VecDeque;
use std::marker::Model;

/// Messages in the order of sending, each a receiver, with 0 for the client, and its bytes. The
/// first ones can be taken out again.
#[derive(Drop)]
pub struct SendList {
    items: VecDeque<(u16, Bytes)>,
}

impl Model for SendList {
    ghost use Rattle.std.specs.Prelude.{List, ℕ};

    ghost Value = { List (ℕ × List ℕ) };

    ghost view = { λ l. l.items.items };
}

impl SendList {
    /// No messages, without memory.
    pub fn new(alloc: Global) -> SendList
        ensures { result ≡ [] }
    {
        SendList {
            items: VecDeque::new(alloc),
        }
    }

    /// Adds a message at the end.
    pub fn push(&mut self, item: (u16, Bytes)) -> Result<(), NoMemory>
        ensures ok { OnOk result (self.new ≡ self.old ++ item ∷ []) }
        ensures err { OnErr result (self.new ≡ self.old) }
    {
        self.items.push_back(item)?;
        Ok(())
    }

    /// An equal list of its own.
    pub fn copy(&self, alloc: Global) -> Result<SendList, NoMemory>
        ensures { IfOk result (λ l. l ≡ self.now) }
    {
        let mut items = VecDeque::new(alloc);
        for i in 0..self.items.len() {
            let item = &self.items[i];
            items.push_back((item.0, item.1.copy(alloc)?))?;
        }
        Ok(SendList { items })
    }

    /// Takes the first message out, and `None` where there are none.
    pub fn take_first(&mut self) -> Option<(u16, Bytes)>
        ensures first { result ≡ slice_get self.old 0 }
        ensures rest { self.new ≡ drop 1 self.old }
    {
        self.items.pop_front()
    }

    /// How many messages there are.
    pub fn len(&self) -> usize
        ensures { result ≡ length self.now }
    {
        self.items.len()
    }

    /// Whether there are none.
    pub fn is_empty(&self) -> bool
        ensures { IsTrue result ↔ (self.now ≡ []) }
    {
        self.items.is_empty()
    }

    /// The message at that place, and `None` from the length on.
    pub fn get(&self, i: usize) -> Option<&(u16, Bytes)>
        ensures { option_copied result ≡ slice_get self.now i }
    {
        self.items.get(i)
    }
}
