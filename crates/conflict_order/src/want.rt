//! What a request wants of a record.
ghost use Rattle.std.specs.Prelude.{◌≡◌, IfOk};
ghost use Rattle.conflict_order.specs.Action.{action_of};

use crate::value::ValueBytes;
use std::alloc::{AllocError, Global};

/// What a request wants: to get a record's value, to put this one, or to delete the record.
#[derive(Debug, Drop, PartialEq, Eq)]
pub enum Want {
    Get,
    Put(ValueBytes),
    Del,
}

/// What a request does, without the value that it brings.
#[derive(Clone, Copy, Debug, PartialEq, Eq)]
pub enum Action {
    Get,
    Put,
    Del,
}

impl Want {
    /// What the request does.
    pub fn action(&self) -> Action
        ensures { result ≡ action_of self.now }
    {
        match self {
            Want::Get => Action::Get,
            Want::Put(_) => Action::Put,
            Want::Del => Action::Del,
        }
    }

    /// The same want, with a copy of its value.
    pub fn copy(&self, alloc: Global) -> Result<Want, AllocError>
        ensures { IfOk result (λ w. w ≡ self.now) }
    {
        match self {
            Want::Get => Ok(Want::Get),
            Want::Put(bytes) => Ok(Want::Put(bytes.copy(alloc)?)),
            Want::Del => Ok(Want::Del),
        }
    }
}
