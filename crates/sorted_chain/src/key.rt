//! Keys of twenty bytes.
ghost use Rattle.std.specs.Prelude.{◌≡◌};
ghost use Rattle.sorted_chain.specs.Chain.{key_cmp};
ghost use Rattle.sorted_chain.specs.Marks.{key_front, IsTwentyBytes};

use std::cmp::Ordering;

/// The first eight bytes of a key as a number, the first counting most.
pub(crate) fn front_of(k: &[u8; 20]) -> u64
    ensures front { result ≡ key_front k.now }
    ensures key { IsTwentyBytes k.now }
{
    u64::from_be_bytes([k[0], k[1], k[2], k[3], k[4], k[5], k[6], k[7]])
}

/// Compares two keys. A look-up does so where the fronts of both are the same, and mostly the
/// whole keys are then: so each byte is tested for that first.
pub(crate) fn key_order(a: &[u8; 20], b: &[u8; 20]) -> Ordering
    ensures { result ≡ key_cmp a.now b.now }
{
    for i in 0..20 {
        if a[i] != b[i] {
            return a[i].cmp(&b[i]);
        }
    }
    Ordering::Equal
}
