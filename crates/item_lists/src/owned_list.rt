//! Lists of items that own memory.
ghost use Rattle.std.specs.Prelude.{◌≡◌, ◌↔◌, ◌++◌, ◌∷◌, [], length, drop, IsTrue, IfOk, OnOk, OnErr, slice_get};
ghost use Rattle.std.specs.Option.{option_copied};
ghost use Rattle.std.specs.Iterator.Runs.{EveryRun, ItemsMapTo};
ghost use Rattle.std.specs.Cmp.Lexicographic.{pointwise, lists_equiv, lists_per};
ghost use Rattle.std.specs.VecDeque.Iter.{deque_iter_rest, deque_iter_steps};

use crate::exact_clone::ExactClone;
use std::alloc::{AllocError, Global};
use std::collections::{VecDeque, vec_deque};
use std::fmt;
use std::marker::Model;

/// Items in the order in which they were pushed. The first ones can be taken out again.
#[derive(Drop)]
pub struct OwnedList<T> {
    items: VecDeque<T>,
}

impl<T> Model for OwnedList<T> {
    ghost use Rattle.std.specs.Prelude.{List};

    ghost Value = { List T };

    ghost view = { λ l. l.items.items };
}

impl<T: Drop> OwnedList<T> {
    /// No items, without memory.
    pub fn new(alloc: Global) -> Self
        ensures { result ≡ [] }
    {
        OwnedList {
            items: VecDeque::new(alloc),
        }
    }

    /// Adds an item at the end. Where the allocator refuses, the list is as it was.
    pub fn push(&mut self, item: T) -> Result<(), AllocError>
        ensures ok { OnOk result (self.new ≡ self.old ++ item ∷ []) }
        ensures err { OnErr result (self.new ≡ self.old) }
    {
        self.items.push_back(item)?;
        Ok(())
    }

    /// Takes the first item out, and `None` where there are none.
    pub fn take_first(&mut self) -> Option<T>
        ensures first { result ≡ slice_get self.old 0 }
        ensures rest { self.new ≡ drop 1 self.old }
    {
        self.items.pop_front()
    }

    /// How many items there are.
    pub fn len(&self) -> usize
        ensures { result ≡ length self.now }
    {
        self.items.len()
    }

    /// Whether there are none.
    pub fn is_empty(&self) -> bool
        ensures { IsTrue result ↔ (self.now ≡ []) }
    {
        self.items.is_empty()
    }

    /// The item at that place, and `None` from the length on.
    pub fn get(&self, i: usize) -> Option<&T>
        ensures { option_copied result ≡ slice_get self.now i }
    {
        self.items.get(i)
    }
}

impl<T: ExactClone> OwnedList<T> {
    /// An equal list of its own. It fails only where an allocator refuses.
    pub fn copy(&self, alloc: Global) -> Result<Self, AllocError>
        ensures { IfOk result (λ l. l ≡ self.now) }
    {
        let mut copy = OwnedList::new(alloc);
        for item in &self.items {
            copy.push(item.clone()?)?;
        }
        Ok(copy)
    }
}

impl<'a, T> IntoIterator for &'a OwnedList<T> {
    type Item = &'a T;

    type IntoIter = vec_deque::Iter<'a, T>;

    ghost into_iter_gives = { λ l it. (deque_iter_rest it ≡ l.now)
        × EveryRun (deque_iter_steps {X = T})
        (λ p. ItemsMapTo p (λ y. y.now) (deque_iter_rest p.from)) };

    fn into_iter(self) -> vec_deque::Iter<'a, T> {
        self.items.iter()
    }
}

impl<T: PartialEq + Drop> PartialEq for OwnedList<T> {
    ghost eq = { pointwise T.eq };

    ghost laws = { lists_per T.laws };

    fn eq(&self, other: &Self) -> bool {
        self.items == other.items
    }
}

impl<T: Eq + Drop> Eq for OwnedList<T> {
    ghost laws = { lists_equiv T.Eq.laws };
}

impl<T: fmt::Debug + Drop> fmt::Debug for OwnedList<T> {
    fn fmt<W: fmt::Write>(&self, f: &mut fmt::Formatter<W>) -> fmt::Result {
        fmt::Debug::fmt(&self.items, f)
    }
}
