//! Lists of items that are copied.
ghost use Rattle.std.specs.Prelude.{◌≡◌, ◌↔◌, ◌++◌, ◌∷◌, [], length, drop, IsTrue, IfOk, OnOk, OnErr, slice_get};
ghost use Rattle.std.specs.Option.{option_copied};
ghost use Rattle.std.specs.Cmp.Lexicographic.{pointwise, lists_equiv, lists_per};

use std::alloc::{AllocError, Global};
use std::fmt;
use std::marker::Model;

/// Items in the order in which they were pushed. The first ones can be taken out again.
#[derive(Drop)]
pub struct CopyList<T> {
    items: Vec<T>,
    taken: usize,
}

impl<T> Model for CopyList<T> {
    ghost use Rattle.std.specs.Prelude.{◌≤◌, List, drop, vec_len};

    ghost Value = { List T };

    ghost view = { λ l. drop l.taken l.items.items };

    ghost invariant = { λ l. l.taken ≤ vec_len l.items };
}

impl<T: Copy> CopyList<T> {
    /// No items, without memory.
    pub fn new(alloc: Global) -> Self
        ensures { result ≡ [] }
    {
        CopyList {
            items: Vec::new(alloc),
            taken: 0,
        }
    }

    /// These items. It fails only where the allocator refuses.
    pub fn from_slice(alloc: Global, items: &[T]) -> Result<Self, AllocError>
        ensures { IfOk result (λ l. l ≡ items.now) }
    {
        let items = Vec::from_slice(alloc, items)?;
        Ok(CopyList { items, taken: 0 })
    }

    /// Adds an item at the end. Where the allocator refuses, the list is as it was.
    pub fn push(&mut self, item: T) -> Result<(), AllocError>
        ensures ok { OnOk result (self.new ≡ self.old ++ item ∷ []) }
        ensures err { OnErr result (self.new ≡ self.old) }
    {
        self.items.push(item)?;
        Ok(())
    }

    /// Adds items at the end. Where the allocator refuses, the list is as it was.
    pub fn extend_from_slice(&mut self, items: &[T]) -> Result<(), AllocError>
        ensures ok { OnOk result (self.new ≡ self.old ++ items.now) }
        ensures err { OnErr result (self.new ≡ self.old) }
    {
        self.items.extend_from_slice(items)?;
        Ok(())
    }

    /// An equal list of its own. It fails only where the allocator refuses.
    pub fn copy(&self, alloc: Global) -> Result<Self, AllocError>
        ensures { IfOk result (λ l. l ≡ self.now) }
    {
        CopyList::from_slice(alloc, self.as_slice())
    }

    /// Takes the first item out, and `None` where there are none.
    pub fn take_first(&mut self) -> Option<T>
        ensures first { result ≡ slice_get self.old 0 }
        ensures rest { self.new ≡ drop 1 self.old }
    {
        let first = *self.items.get(self.taken)?;
        self.taken += 1;
        if self.taken == self.items.len() {
            self.items.clear();
            self.taken = 0;
        }
        Some(first)
    }

    /// How many items there are.
    pub fn len(&self) -> usize
        ensures { result ≡ length self.now }
    {
        self.items.len() - self.taken
    }

    /// Whether there are none.
    pub fn is_empty(&self) -> bool
        ensures { IsTrue result ↔ (self.now ≡ []) }
    {
        self.as_slice().is_empty()
    }

    /// The items in their order.
    pub fn as_slice(&self) -> &[T]
        ensures { result.now ≡ self.now }
    {
        &self.items[self.taken..]
    }

    /// The item at that place, and `None` from the length on.
    pub fn get(&self, i: usize) -> Option<&T>
        ensures { option_copied result ≡ slice_get self.now i }
    {
        self.as_slice().get(i)
    }
}

impl<T: Copy> From<Vec<T>> for CopyList<T> {
    ghost from_gives = { λ v l. l ≡ v.items };

    fn from(items: Vec<T>) -> Self {
        CopyList { items, taken: 0 }
    }
}

impl<T: PartialEq + Copy> PartialEq for CopyList<T> {
    ghost eq = { pointwise T.eq };

    ghost laws = { lists_per T.laws };

    fn eq(&self, other: &Self) -> bool {
        self.as_slice() == other.as_slice()
    }
}

impl<T: Eq + Copy> Eq for CopyList<T> {
    ghost laws = { lists_equiv T.Eq.laws };
}

impl<T: fmt::Debug + Copy> fmt::Debug for CopyList<T> {
    fn fmt<W: fmt::Write>(&self, f: &mut fmt::Formatter<W>) -> fmt::Result {
        fmt::Debug::fmt(self.as_slice(), f)
    }
}
