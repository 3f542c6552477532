//! A singly linked list of nodes.
ghost use Rattle.std.specs.Prelude.{ℕ, ◌≡◌, ◌+◌, ◌-◌, ◌≤◌, ◌<◌, ◌^◌, List, [], ◌∷◌, length, slice_get, slice_set, MatchOption, IfSome};
ghost use Rattle.std.specs.List.{insert};
ghost use Rattle.std.specs.Box.{box_allocator};
ghost use Rattle.sorted_chain.specs.Nodes.{IsLinked};

use crate::boxes::{Boxes, Place, RawBox};
use std::alloc::Global;

/// A key, its value, and where the next node lies. A spare node has no value.
///
/// A look-up reads the first two, so they lie side by side.
#[derive(Drop)]
pub struct Node<V> {
    pub(crate) key: [u8; 20],
    pub(crate) value: Option<V>,
    pub(crate) next: Option<Place>,
}

/// The nodes, and where the first lies.
pub struct LinkedList<V> {
    pub(crate) boxes: Boxes<Node<V>, Global>,
    pub(crate) head: Option<Place>,
    pub(crate) len: usize,
    ghost linked: { IsLinked head boxes.places boxes.items },
    ghost counted: { len ≡ length boxes.items },
    ghost small: { len < 2 ^ 63 },
}

/// Where a node lies.
#[derive(Clone, Copy)]
pub(crate) struct Here {
    pub(crate) index: usize,
    pub(crate) at: Place,
}

/// Between which two nodes another would lie.
#[derive(Drop)]
pub(crate) struct Gap {
    pub(crate) index: usize,
    pub(crate) before: Option<Place>,
    pub(crate) at: Option<Place>,
}

impl<V> LinkedList<V> {
    ghost use Rattle.sorted_chain.specs.Nodes.{pays, before_of};

    pub(crate) fn new(alloc: Global) -> LinkedList<V>
        ensures { (result.boxes.items ≡ []) × (result.boxes.alloc ≡ alloc) }
    {
        LinkedList {
            boxes: Boxes::new(&alloc),
            head: None,
            len: 0,
        }
    }

    /// Gives up a list without nodes.
    pub(crate) fn end(self)
        requires { self.len ≡ 0 }
    {
        let LinkedList {
            boxes,
            head: _,
            len: _,
        } = self;
        boxes.end();
    }

    /// The `i`-th node.
    pub(crate) fn node(&self, i: usize, at: Place) -> &Node<V>
        requires { slice_get self.now.boxes.places i ≡ Some at }
        ensures node { slice_get self.now.boxes.items i ≡ Some result.now }
        ensures next { result.now.next ≡ slice_get self.now.boxes.places (i + 1) }
    {
        self.boxes.get(i, at)
    }

    /// The gap before the first node.
    fn first_gap(&self) -> Gap
        ensures index { result.index ≡ 0 }
        ensures before { result.before ≡ None }
        ensures at { result.at ≡ slice_get self.now.boxes.places 0 }
    {
        Gap {
            index: 0,
            before: None,
            at: self.head,
        }
    }

    /// Puts a value in place of the `i`-th.
    pub(crate) fn replace(&mut self, i: usize, at: Place, value: V) -> Option<V>
        requires { slice_get self.old.boxes.places i ≡ Some at }
        ensures items { IfSome (slice_get (pays self.old.boxes.items) i) (λ e. (result ≡ e.1)
            × (pays self.new.boxes.items
            ≡ slice_set (pays self.old.boxes.items) i (e.0, Some value))) }
        ensures places { self.new.boxes.places ≡ self.old.boxes.places }
        ensures len { self.new.len ≡ self.old.len }
        ensures alloc { self.new.boxes.alloc ≡ self.old.boxes.alloc }
    {
        let node = self.boxes.get_mut(i, at);
        node.value.replace(value)
    }
}

impl<V: Drop> LinkedList<V> {
    ghost use Rattle.sorted_chain.specs.Nodes.{pays, pay, before_of};

    /// Links a node in, and answers where it lies.
    pub(crate) fn link(&mut self, gap: Gap, mut node: Box<Node<V>>) -> Here
        requires before { gap.before ≡ before_of self.old.boxes.places gap.index }
        requires next { gap.at ≡ slice_get self.old.boxes.places gap.index }
        requires within { gap.index ≤ length self.old.boxes.items }
        requires room { self.old.len + 1 < 2 ^ 63 }
        requires alloc { box_allocator node ≡ self.old.boxes.alloc }
        ensures items { pays self.new.boxes.items
            ≡ insert (pays self.old.boxes.items) gap.index (pay node.value) }
        ensures places { self.new.boxes.places
            ≡ insert self.old.boxes.places gap.index result.at }
        ensures index { result.index ≡ gap.index }
        ensures len { self.new.len ≡ self.old.len + 1 }
        ensures alloc { self.new.boxes.alloc ≡ self.old.boxes.alloc }
    {
        node.next = gap.at;
        let (place, _) = self.boxes.insert(gap.index, RawBox::of(node));
        self.len += 1;
        match gap.before {
            None => self.head = Some(place),
            Some(at) => {
                let last = self.boxes.get_mut(gap.index - 1, at);
                last.next = Some(place);
            }
        }
        Here {
            index: gap.index,
            at: place,
        }
    }

    /// Links a node in before the first.
    pub(crate) fn push(&mut self, node: Box<Node<V>>)
        requires room { self.old.len + 1 < 2 ^ 63 }
        requires alloc { box_allocator node ≡ self.old.boxes.alloc }
        ensures items { pays self.new.boxes.items ≡ pay node.value ∷ pays self.old.boxes.items }
        ensures len { self.new.len ≡ self.old.len + 1 }
        ensures alloc { self.new.boxes.alloc ≡ self.old.boxes.alloc }
    {
        let first = self.first_gap();
        self.link(first, node);
    }

    /// Takes the first node out.
    pub(crate) fn pop(&mut self, alloc: Global) -> Option<Box<Node<V>>>
        requires { alloc ≡ self.old.boxes.alloc }
        ensures items { MatchOption result
            ((pays self.old.boxes.items ≡ []) × (pays self.new.boxes.items ≡ []))
            (λ b. (pays self.old.boxes.items ≡ pay b.value ∷ pays self.new.boxes.items)
            × (box_allocator b ≡ alloc)) }
        ensures len { self.new.len ≡ self.old.len - 1 }
        ensures alloc { self.new.boxes.alloc ≡ self.old.boxes.alloc }
    {
        match self.head {
            None => None,
            Some(at) => {
                let node = self.boxes.remove(0, at, alloc).into_box();
                self.head = node.next;
                self.len -= 1;
                Some(node)
            }
        }
    }
}
