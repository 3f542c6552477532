//! Clones that equal their source.
ghost use Rattle.std.specs.Prelude.{◌≡◌};
ghost use Rattle.std.proofs.Common.{rules};

/// A type whose clone, where there is memory, is an equal value.
pub trait ExactClone: Clone {
    ghost equal: { (x y : Self) → Self.is_clone x y → y ≡ x };
}

impl<A: ExactClone, B: ExactClone> ExactClone for (A, B) {
    ghost equal = { Prim.search (rules, A.equal, B.equal) };
}
