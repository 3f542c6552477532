//! The events of a world's steps, which only proofs read.
ghost use Rattle.std.specs.Prelude.{◌≡◌, List, [], ◌∷◌, ◌++◌};
ghost use Rattle.std.specs.Borrow.{ftrue};
ghost use Rattle.cluster_rules.specs.declared.event.Event.{Event};

use cluster_rules::Event;
use std::marker::Model;
use std::snapshot::Snapshot;

/// The events so far, as `items`. It takes no memory, and its methods do nothing at run time.
#[derive(Drop)]
pub(crate) struct History {
    pub ghost items: { List Event },
}

impl Model for History {
    ghost also_owns = { λ _. ftrue };
}

impl History {
    /// No event yet.
    pub fn new() -> History
        ensures { result.items ≡ [] }
    {
        History {}
    }

    /// One event more.
    pub fn and(&self, event: &Snapshot<Event>) -> History
        ensures { result.items ≡ self.now.items ++ event.now.value ∷ [] }
    {
        History {}
    }
}
