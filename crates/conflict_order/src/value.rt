//! The bytes of a record's value.
ghost use Rattle.std.specs.Prelude.{◌≡◌, ◌<◌, ◌≤◌, List, ℕ, Some, bytes_eq, length, refl, IfOk, IsErrOf, IsOkUnless};
ghost use Rattle.std.specs.Ordering.{nat_cmp};
ghost use Rattle.std.specs.Cmp.{partial_equiv_from_equiv};
ghost use Rattle.std.specs.Cmp.Lexicographic.{slice_cmp, nat_list_eq_equiv, nat_list_cmp_total, texts_ties, texts_po};
ghost use Rattle.conflict_order.specs.ValueFault.{fault_text};
ghost use Rattle.conflict_order.specs.declared.value.ValueFault.TheVariants.{NoMemory};

use smallvec::SmallVec;
use std::alloc::{AllocError, Global};
use std::cmp::Ordering;
use std::error::Error;
use std::fmt;
use std::marker::Model;

/// The most bytes that a value has.
pub const VALUE_LIMIT: usize = 128;

/// How many bytes stand in the value itself, which then takes no memory of its own.
const INLINE_BYTES: usize = 16;

/// A value of 0 to 128 bytes, which compares by its bytes from the first on.
#[derive(Debug, Drop)]
pub struct ValueBytes {
    bytes: SmallVec<u8, INLINE_BYTES>,
}

impl Model for ValueBytes {
    ghost Value = { List ℕ };

    ghost view = { λ v. v.bytes.items };

    ghost invariant = { λ v. length v.bytes.items ≤ 128 };
}

/// Why bytes are not made a value.
#[derive(Clone, Copy, Debug, PartialEq, Eq)]
pub enum ValueFault {
    /// There are more than 128 bytes; their number.
    TooLong(usize),
    /// The allocator refused.
    NoMemory,
}

impl fmt::Display for ValueFault {
    ghost output = { λ fault. Some (fault_text fault) };

    fn fmt<W: fmt::Write>(&self, f: &mut fmt::Formatter<W>) -> fmt::Result {
        match self {
            ValueFault::TooLong(length) => write!(f, "a value of {length} bytes is too long"),
            ValueFault::NoMemory => write!(f, "out of memory"),
        }
    }
}

impl Error for ValueFault {}

impl From<AllocError> for ValueFault {
    ghost from_gives = { λ _ fault. fault ≡ NoMemory };

    fn from(_error: AllocError) -> ValueFault {
        ValueFault::NoMemory
    }
}

impl ValueBytes {
    /// Copies bytes into a value.
    pub fn from_slice(alloc: Global, bytes: &[u8]) -> Result<ValueBytes, ValueFault>
        ensures ok { IfOk result (λ v. (v ≡ bytes.now) × (length bytes.now ≤ 128)) }
        ensures too_long { 128 < length bytes.now
            → IsErrOf result (ValueFault.TooLong (length bytes.now)) }
        ensures within { length bytes.now ≤ 128 → IsOkUnless result ValueFault.NoMemory }
        ensures too_long_only { (n : ℕ) → IsErrOf result (ValueFault.TooLong n)
            → (n ≡ length bytes.now) × (128 < length bytes.now) }
    {
        if bytes.len() > VALUE_LIMIT {
            return Err(ValueFault::TooLong(bytes.len()));
        }
        let bytes = SmallVec::from_slice(alloc, bytes)?;
        Ok(ValueBytes { bytes })
    }

    /// The bytes.
    pub fn as_slice(&self) -> &[u8]
        ensures value { result.now ≡ self.now }
        ensures limit { length self.now ≤ 128 }
    {
        self.bytes.as_slice()
    }

    /// A value of the same bytes.
    pub fn copy(&self, alloc: Global) -> Result<ValueBytes, AllocError>
        ensures { IfOk result (λ v. v ≡ self.now) }
    {
        let bytes = SmallVec::from_slice(alloc, self.bytes.as_slice())?;
        Ok(ValueBytes { bytes })
    }
}

impl Clone for ValueBytes {
    ghost is_clone = { λ a b. b ≡ a };

    fn clone(&self) -> Result<ValueBytes, AllocError> {
        self.copy(*self.bytes.allocator())
    }
}

impl PartialEq for ValueBytes {
    ghost eq = { bytes_eq };

    ghost laws = { partial_equiv_from_equiv nat_list_eq_equiv };

    fn eq(&self, other: &ValueBytes) -> bool {
        self.bytes.as_slice() == other.bytes.as_slice()
    }
}

impl Eq for ValueBytes {
    ghost laws = { nat_list_eq_equiv };
}

impl PartialOrd for ValueBytes {
    ghost partial_cmp = { λ a b. Some (slice_cmp nat_cmp a b) };

    ghost laws = { texts_po };

    fn partial_cmp(&self, other: &ValueBytes) -> Option<Ordering> {
        Some(self.cmp(other))
    }
}

impl Ord for ValueBytes {
    ghost cmp = { slice_cmp nat_cmp };

    ghost total = { nat_list_cmp_total };

    ghost matches_partial_cmp = { λ a b. refl };

    ghost matches_eq = { texts_ties };

    fn cmp(&self, other: &ValueBytes) -> Ordering {
        self.bytes.as_slice().cmp(other.bytes.as_slice())
    }
}
