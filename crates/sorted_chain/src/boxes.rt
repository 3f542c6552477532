//! Boxed values that are reached by where they lie.
ghost use Rattle.std.specs.Prelude.{◌≡◌, ◌≤◌, ◌<◌, ℕ, List, [], length, ⊤};
ghost use Rattle.std.specs.List.{insert, remove, slice_get};
ghost use Rattle.std.specs.Box.{box_allocator};
ghost use Rattle.std.specs.Box.Ownership.{box_owns};
ghost use Rattle.sorted_chain.specs.declared.boxes.Place.{Place};

use std::alloc::{AllocError, Allocator};
use std::marker::{Model, PhantomData};

/// Where a value lies. It owns nothing.
pub struct Place {
    pub(crate) ptr: *mut u8,
}

impl Clone for Place {
    ghost is_clone = { λ x y. y ≡ x };

    ghost is_infallible = { λ _. ⊤ };

    fn clone(&self) -> Result<Place, AllocError> {
        Ok(*self)
    }
}

impl Copy for Place {}

/// A box as its pointer.
pub struct RawBox<T, A: Allocator> {
    pub(crate) at: *mut T,
    pub(crate) alloc: A,
    pub(crate) ghost value: { T },
}

impl<T, A: Allocator> Model for RawBox<T, A> {
    ghost also_owns = { λ b. box_owns (A.dealloc_token b.alloc) T.row b.at b.value };
}

impl<T: Drop, A: Allocator> RawBox<T, A> {
    pub(crate) fn of(value: Box<T, A>) -> RawBox<T, A>
        ensures value { result.value ≡ value.value }
        ensures alloc { result.alloc ≡ box_allocator value }
    {
        let (at, alloc) = Box::into_raw_with_allocator(value);
        RawBox { at, alloc }
    }

    pub(crate) fn into_box(self) -> Box<T, A>
        ensures value { result.value ≡ self.value }
        ensures alloc { box_allocator result ≡ self.alloc }
    {
        let RawBox { at, alloc } = self;
        unsafe { Box::from_raw(alloc, at) }
    }
}

/// The owner of any number of boxes. It takes no space: whoever holds it keeps their places.
pub struct Boxes<T, A: Allocator> {
    mark: PhantomData<*const (T, A)>,
    pub(crate) ghost alloc: { A },
    pub(crate) ghost places: { List Place },
    pub(crate) ghost items: { List T },
    ghost paired: { length places ≡ length items },
}

impl<T, A: Allocator> Model for Boxes<T, A> {
    ghost use Rattle.sorted_chain.specs.Ownership.{boxes_own, boxes_lent};

    ghost also_owns = { λ b. boxes_own T.row (A.dealloc_token b.alloc) b.places b.items };

    ghost also_shares = { λ b _ κ. boxes_lent T.row b.places b.items κ };
}

impl<T, A: Allocator> Boxes<T, A> {
    ghost use types.Logic.{sem};
    ghost use Rattle.sorted_chain.specs.Lends.{boxes_follow_item};

    pub(crate) fn new(alloc: &A) -> Boxes<T, A>
        ensures { (result.alloc ≡ alloc.now) × (result.places ≡ []) × (result.items ≡ []) }
    {
        Boxes { mark: PhantomData }
    }

    /// Gives up the owner of no boxes.
    pub(crate) fn end(self)
        requires { self.items ≡ [] }
    {
        let Boxes { mark: _ } = self;
    }

    /// Takes a box in as the `i`-th.
    pub(crate) fn insert(&mut self, i: usize, new: RawBox<T, A>) -> (Place, A)
        requires { (i ≤ length self.old.items) × (new.alloc ≡ self.old.alloc) }
        ensures places { self.new.places ≡ insert self.old.places i result.0 }
        ensures items { self.new.items ≡ insert self.old.items i new.value }
        ensures alloc { (self.new.alloc ≡ self.old.alloc) × (result.1 ≡ new.alloc) }
    {
        let RawBox { at, alloc } = new;
        (Place { ptr: at as *mut u8 }, alloc)
    }

    /// Gives the `i`-th box out.
    pub(crate) fn remove(&mut self, i: usize, at: Place, alloc: A) -> RawBox<T, A>
        requires { (slice_get self.old.places i ≡ Some at) × (alloc ≡ self.old.alloc) }
        ensures places { self.new.places ≡ remove self.old.places i }
        ensures items { self.new.items ≡ remove self.old.items i }
        ensures value { slice_get self.old.items i ≡ Some result.value }
        ensures alloc { (self.new.alloc ≡ self.old.alloc) × (result.alloc ≡ alloc) }
    {
        RawBox {
            at: at.ptr as *mut T,
            alloc,
        }
    }

    pub(crate) fn get(&self, i: usize, at: Place) -> &T
        requires { slice_get self.now.places i ≡ Some at }
        ensures { slice_get self.now.items i ≡ Some result.now }
    {
        unsafe { &*(at.ptr as *const T) }
    }

    pub(crate) fn get_mut(&mut self, i: usize, at: Place) -> &mut T
        requires { slice_get self.old.places i ≡ Some at }
        ensures* writes_back { sem 𝓛
            (boxes_follow_item T.row A.row A.Allocator self.entry i result) }
        ensures value { slice_get self.old.items i ≡ Some result.now }
    {
        unsafe { &mut *(at.ptr as *mut T) }
    }
}
