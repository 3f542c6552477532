//! An item on the heap, so that what holds it stays small.
#![tactic(auto)]

ghost use Rattle.std.specs.Prelude.{◌≡◌, IfOk};

use std::alloc::{AllocError, Global};
use std::fmt;
use std::marker::Model;

/// An item behind a pointer. It is seen as the item.
#[derive(Drop)]
pub struct Boxed<T> {
    item: Box<T>,
}

impl<T> Model for Boxed<T> {
    ghost Value = { T };

    ghost view = { λ b. b.item.value };
}

impl<T: Drop> Boxed<T> {
    /// Moves the item to the heap.
    pub fn new(alloc: Global, item: T) -> Result<Self, AllocError>
        ensures { IfOk result (λ b. b ≡ item) }
    {
        let item = Box::new(alloc, item)?;
        Ok(Boxed { item })
    }

    /// The item.
    pub fn get(&self) -> &T
        ensures { result.now ≡ self.now }
    {
        &self.item
    }
}

impl<T: fmt::Debug + Drop> fmt::Debug for Boxed<T> {
    fn fmt<W: fmt::Write>(&self, f: &mut fmt::Formatter<W>) -> fmt::Result {
        fmt::Debug::fmt(self.get(), f)
    }
}
