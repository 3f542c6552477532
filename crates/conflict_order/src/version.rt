//! The versions of a record, and which of two remains.
ghost use Rattle.std.specs.Prelude.{◌≡◌, IfOk};
ghost use Rattle.std.specs.Option.{option_copied};
ghost use Rattle.std.proofs.Common.{rules};
ghost use Rattle.conflict_order.specs.Join as join;
ghost use Rattle.conflict_order.specs.Order as order;

use crate::policy::Policy;
use crate::value::ValueBytes;
use item_lists::ExactClone;
use std::alloc::{AllocError, Global};
use std::cmp::Ordering;

/// What a version says of its record: it is gone, or has a value. A tombstone is below every
/// value, and values compare by their bytes.
#[derive(Clone, Debug, Drop, PartialEq, Eq, PartialOrd, Ord)]
pub enum Body {
    Tombstone,
    Value(ValueBytes),
}

/// One version of a record.
#[derive(Clone, Debug, Drop, PartialEq, Eq)]
pub struct Version {
    /// The last update time: the clock of the node that wrote it, or a later time that it knew.
    pub lut: u64,
    /// How often the record was written, from 1; it stays at 4,294,967,295.
    pub generation: u32,
    pub body: Body,
}

impl ExactClone for Version {
    ghost equal = { Prim.search rules };
}

impl Body {
    /// The same body, with a copy of its value.
    pub fn copy(&self, alloc: Global) -> Result<Body, AllocError>
        ensures { IfOk result (λ b. b ≡ self.now) }
    {
        match self {
            Body::Tombstone => Ok(Body::Tombstone),
            Body::Value(bytes) => Ok(Body::Value(bytes.copy(alloc)?)),
        }
    }
}

impl Version {
    /// Compares by the policy's first number, then the other one, then the body.
    #[tactic(auto, unfolding(crate::specs::Order::version_cmp))]
    pub fn cmp(&self, other: &Version, by: Policy) -> Ordering
        ensures { result ≡ order.version_cmp by self.now other.now }
    {
        self.numbers_cmp(other, by)
            .then_with(|| self.body.cmp(&other.body))
    }

    fn numbers_cmp(&self, other: &Version, by: Policy) -> Ordering
        ensures { result ≡ order.numbers_cmp by self.now other.now }
    {
        let time = self.lut.cmp(&other.lut);
        let generation = self.generation.cmp(&other.generation);
        match by {
            Policy::Time => time.then(generation),
            Policy::Generation => generation.then(time),
        }
    }

    /// Whether this version is greater than the one that is held, or none is held.
    #[tactic(auto, unfolding(crate::specs::Order::is_newer))]
    pub fn is_newer(&self, held: Option<&Version>, by: Policy) -> bool
        ensures { result ≡ order.is_newer by self.now (option_copied held.entry) }
    {
        match held {
            None => true,
            Some(held) => self.cmp(held, by).is_gt(),
        }
    }

    /// The same version, with a copy of its value.
    pub fn copy(&self, alloc: Global) -> Result<Version, AllocError>
        ensures { IfOk result (λ v. v ≡ self.now) }
    {
        Ok(Version {
            lut: self.lut,
            generation: self.generation,
            body: self.body.copy(alloc)?,
        })
    }
}

/// The greater of two versions. Nothing is below every version.
#[tactic(auto, unfolding(crate::specs::Join::join))]
pub fn join(a: Option<Version>, b: Option<Version>, by: Policy) -> Option<Version>
    ensures { result ≡ join.join by a b }
{
    match (a, b) {
        (None, b) => b,
        (a, None) => a,
        (Some(a), Some(b)) => Some(greater(a, b, by)),
    }
}

fn greater(a: Version, b: Version, by: Policy) -> Version
    ensures { result ≡ join.greater by a b }
{
    if b.cmp(&a, by).is_gt() { b } else { a }
}
