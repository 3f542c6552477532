//! Fields are read one by one, up to the first fault.
ghost use Rattle.std.specs.Prelude.{◌≡◌, ◌<◌, ◌≤◌, drop, length, take, IfErr, IfOk, OnErr, OnOk};
ghost use Rattle.wire_messages.specs.declared.fault.FieldFault.TheVariants.{Bad, Short};
ghost use Rattle.wire_codec.specs.declared.reading.ReadFault.TheVariants.{Field, NoMemory};

mod keys;
mod kinds;
mod members;
mod nodes;
mod numbers;
mod requests;
mod rows;
mod versions;

use std::alloc::{AllocError, AllocFailed};
use wire_messages::FieldFault;

/// The bytes that are left to read. Each of its calls reads what stands first in them, and leaves the
/// bytes after it.
#[derive(Drop)]
pub(crate) struct Reader<'a> {
    pub(crate) rest: &'a [u8],
}

impl<'a> Reader<'a> {
    /// So many bytes, or `Short` where fewer are left.
    pub(crate) fn take(&mut self, count: usize) -> Result<&'a [u8], FieldFault>
        ensures front { IfOk result (λ front. front.now ≡ take count self.old.rest.now) }
        ensures rest { OnOk result (self.new.rest.now ≡ drop count self.old.rest.now) }
        ensures whole { OnOk result (count ≤ length self.old.rest.now) }
        ensures cut { OnErr result (length self.old.rest.now < count) }
        ensures short { IfErr result (λ fault. fault ≡ Short) }
    {
        if self.rest.len() < count {
            return Err(short());
        }
        let (front, rest) = self.rest.split_at(count);
        self.rest = rest;
        Ok(front)
    }
}

/// Why a field isn't read whose value takes memory.
#[derive(Debug, Drop)]
pub enum ReadFault {
    Field(FieldFault),
    NoMemory,
}

/// The field that stands first has a value that isn't allowed.
pub(crate) fn bad(bytes: &[u8]) -> FieldFault
    ensures { result ≡ Bad (length bytes.now) }
{
    FieldFault::Bad { left: bytes.len() }
}

/// The bytes end before the field does.
pub(crate) fn short() -> FieldFault
    ensures { result ≡ Short }
{
    FieldFault::Short
}

impl From<FieldFault> for ReadFault {
    ghost from_gives = { λ field fault. fault ≡ Field field };

    fn from(field: FieldFault) -> ReadFault {
        ReadFault::Field(field)
    }
}

impl From<AllocError> for ReadFault {
    ghost from_gives = { λ _ fault. fault ≡ NoMemory };

    fn from(_refused: AllocError) -> ReadFault {
        ReadFault::NoMemory
    }
}

impl<T: Drop> From<AllocFailed<T>> for ReadFault {
    ghost from_gives = { λ _ fault. fault ≡ NoMemory };

    fn from(_refused: AllocFailed<T>) -> ReadFault {
        ReadFault::NoMemory
    }
}
