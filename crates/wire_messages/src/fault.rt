//! Why bytes are no message.
use std::alloc::{AllocError, AllocFailed};
use thiserror::Error;

/// What is wrong with the bytes: the first fault from their begin on.
#[derive(Debug, Drop, Error)]
pub enum DecodeFault {
    /// No kind of message has this first byte.
    #[error("no message begins with the byte {0}")]
    BadKind(u8),
    /// The place, from 0, of the first byte of the first whole field whose value isn't allowed.
    #[error("the field at byte {0} has a value that isn't allowed")]
    BadField(usize),
    /// Every whole field is allowed, and the bytes end before the message does.
    #[error("the bytes end before the message does")]
    Short,
    /// A whole message stands first, and this many bytes follow.
    #[error("{0} bytes follow the message")]
    Long(usize),
    /// The allocator refused.
    #[error("out of memory")]
    NoMemory,
}

impl From<AllocError> for DecodeFault {
    ghost use Rattle.std.specs.Prelude.{◌≡◌};
    ghost use Rattle.wire_messages.specs.declared.fault.DecodeFault.TheVariants.{NoMemory};

    ghost from_gives = { λ _ fault. fault ≡ NoMemory };

    fn from(_refused: AllocError) -> DecodeFault {
        DecodeFault::NoMemory
    }
}

impl<T: Drop> From<AllocFailed<T>> for DecodeFault {
    ghost use Rattle.std.specs.Prelude.{◌≡◌};
    ghost use Rattle.wire_messages.specs.declared.fault.DecodeFault.TheVariants.{NoMemory};

    ghost from_gives = { λ _ fault. fault ≡ NoMemory };

    fn from(_refused: AllocFailed<T>) -> DecodeFault {
        DecodeFault::NoMemory
    }
}

/// What is wrong with the bytes from a field on.
#[derive(Clone, Copy, Debug, PartialEq, Eq)]
pub enum FieldFault {
    /// A whole field has a value that isn't allowed. So many bytes stand from its first one on.
    Bad { left: usize },
    /// The bytes end before the field does.
    Short,
}
