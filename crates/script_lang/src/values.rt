//! Fields that are values or names of policies.
ghost use Rattle.std.specs.Prelude.{◌≡◌};
ghost use Rattle.script_lang.specs.Reading.{ReadsOutcome};
ghost use Rattle.script_lang.specs.Values as values;

use crate::fault::{Cause, LineFault};
use crate::fields::Field;
use conflict_order::{Policy, ValueBytes, ValueFault};
use std::alloc::Global;

/// A value: the field's bytes, at most 128.
pub fn value(alloc: Global, field: &Field) -> Result<ValueBytes, LineFault>
    ensures { ReadsOutcome result (values.value field.now) }
{
    match ValueBytes::from_slice(alloc, field.as_slice()) {
        Ok(value) => Ok(value),
        Err(ValueFault::TooLong(_)) => Err(LineFault::Bad(Cause::TooLongValue)),
        Err(ValueFault::NoMemory) => Err(LineFault::NoMemory),
    }
}

/// The name of a policy.
pub fn policy(field: &Field) -> Result<Policy, Cause>
    ensures { result ≡ values.policy field.now }
{
    let name = field.as_slice();
    if name == b"time".as_slice() {
        return Ok(Policy::Time);
    }
    if name == b"generation".as_slice() {
        return Ok(Policy::Generation);
    }
    Err(Cause::BadPolicy)
}
