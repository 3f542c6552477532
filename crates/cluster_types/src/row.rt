//! A bit for each partition.
ghost use Rattle.std.specs.Prelude.{◌≡◌, ◌≢◌, ◌<◌, ◌≤◌, ◌&&◌, ◌||◌, ℕ, true, false, not, bit_or, bit_xor, slice_index, slice_set, length, MatchOption};
ghost use Rattle.std.specs.Bool.{beq};
ghost use Rattle.std.specs.Int.{w8, bit_not};
ghost use Rattle.std.specs.Cmp.{partial_equiv_from_equiv, bool_eq_equiv};
ghost use Rattle.std.specs.Cmp.Lexicographic.{pointwise};
ghost use Rattle.std.proofs.lemmas.Cmp.{lists_equiv};
ghost use Rattle.cluster_types.specs.RowBytes.{AreRowBytes, bits_of, byte_bit, bytes_of};
ghost use Rattle.cluster_types.specs.Rows.{bit, IsClear, IsClearFrom, IsNextSet, or_rows};

use crate::partition::{PARTITIONS, PartitionId};
use std::marker::Model;

/// The bytes of a row.
const ROW_BYTES: usize = 512;

/// One bit for each of the 4,096 partitions.
#[derive(Clone, Copy, Debug)]
pub struct Row4096 {
    bytes: [u8; 512],
}

impl Model for Row4096 {
    ghost use Rattle.std.specs.Prelude.{List, Bool};
    ghost use Rattle.cluster_types.specs.RowBytes.{AreRowBytes, bits_of, bytes_of, bytes_again};

    ghost Value = { List Bool };

    ghost view = { λ r. bits_of r.bytes };

    ghost invariant = { λ r. AreRowBytes r.bytes };

    ghost inverse = { λ bits. record { bytes = bytes_of bits } };

    ghost inverse_ok = { λ r h i. record { bytes = bytes_again r.bytes h i } };
}

impl Row4096 {
    /// A row in which no bit is set.
    pub fn new() -> Row4096
        ensures clear { IsClear result }
        ensures size { length result ≡ 4096 }
    {
        Row4096 {
            bytes: [0; ROW_BYTES],
        }
    }

    /// The row of which these are the 512 bytes: the bit of partition p is bit p mod 8 of byte
    /// p div 8.
    pub fn from_bytes(bytes: &[u8]) -> Row4096
        requires { length bytes.now ≡ 512 }
        ensures row { result ≡ bits_of bytes.now }
        ensures size { length result ≡ 4096 }
    {
        let mut copy = [0; ROW_BYTES];
        copy.copy_from_slice(bytes);
        Row4096 { bytes: copy }
    }

    /// The 512 bytes of the row.
    pub fn as_bytes(&self) -> &[u8]
        ensures bytes { result.now ≡ bytes_of self.now }
        ensures row { bits_of result.now ≡ self.now }
        ensures size { length result.now ≡ 512 }
    {
        self.bytes.as_slice()
    }

    /// Whether the partition's bit is set.
    pub fn get(&self, p: PartitionId) -> bool
        ensures value { result ≡ bit self.now p }
        ensures size { length self.now ≡ 4096 }
    {
        is_set(self.bytes.as_slice(), p.number())
    }

    /// Sets the partition's bit, and leaves the others.
    pub fn put(&mut self, p: PartitionId)
        ensures row { self.new ≡ slice_set self.old p true }
        ensures size { length self.new ≡ 4096 }
    {
        set_bit(&mut self.bytes, p.number());
    }

    /// Sets besides each bit that the other row has.
    pub fn or(&mut self, other: &Row4096)
        ensures row { self.new ≡ or_rows self.old other.now }
        ensures each { (p : ℕ) → bit self.new p ≡ (bit self.old p || bit other.now p) }
        ensures size { length self.new ≡ 4096 }
    {
        or_into(&mut self.bytes, other.bytes.as_slice());
    }

    /// Whether the other row has a bit that this one lacks.
    pub fn lacks(&self, other: &Row4096) -> bool
        ensures none { result ≡ false → (p : ℕ) → bit other.now p ≡ true → bit self.now p ≡ true }
        ensures some { result ≡ true
            → (p : ℕ) × (p < 4096) × (bit other.now p ≡ true) × (bit self.now p ≡ false) }
    {
        lacks_some(self.bytes.as_slice(), other.bytes.as_slice())
    }

    /// The first partition from that number on whose bit is set.
    pub fn next_set(&self, from: u16) -> Option<PartitionId>
        ensures { MatchOption result (IsClearFrom self.now from) (λ p. IsNextSet self.now from p) }
    {
        PartitionId::new(next_place(self.bytes.as_slice(), from))
    }

    /// The row of the bits that this one lacks.
    pub fn complement(&self) -> Row4096
        ensures each { (p : ℕ) → p < 4096 → bit result p ≡ not (bit self.now p) }
        ensures size { length result ≡ 4096 }
    {
        let mut bytes = self.bytes;
        turn(&mut bytes);
        Row4096 { bytes }
    }

    /// The row of the bits that this one has and the other lacks.
    pub fn difference(&self, other: &Row4096) -> Row4096
        ensures each { (p : ℕ) → bit result p ≡ (bit self.now p && not (bit other.now p)) }
        ensures size { length result ≡ 4096 }
    {
        let mut both = *other;
        both.or(self);
        both.symmetric_difference(other)
    }

    /// The row of the bits in which the two differ.
    pub fn symmetric_difference(&self, other: &Row4096) -> Row4096
        ensures each { (p : ℕ) → bit result p ≡ not (beq (bit self.now p) (bit other.now p)) }
        ensures size { length result ≡ 4096 }
    {
        let mut bytes = self.bytes;
        xor_into(&mut bytes, other.bytes.as_slice());
        Row4096 { bytes }
    }
}

impl PartialEq for Row4096 {
    ghost eq = { pointwise beq };

    ghost laws = { partial_equiv_from_equiv (lists_equiv bool_eq_equiv) };

    fn eq(&self, other: &Row4096) -> bool {
        self.bytes == other.bytes
    }
}

impl Eq for Row4096 {
    ghost laws = { lists_equiv bool_eq_equiv };
}

/// Whether the partition's bit is set in the row of these bytes.
fn is_set(bytes: &[u8], p: u16) -> bool
    requires size { length bytes.now ≡ 512 }
    requires partition { p < 4096 }
    ensures { result ≡ byte_bit bytes.now p }
{
    (bytes[usize::from(p / 8)] >> (p % 8)) % 2 == 1
}

/// Sets the partition's bit in the row of these bytes.
fn set_bit(bytes: &mut [u8], p: u16)
    requires size { length bytes.old ≡ 512 }
    requires partition { p < 4096 }
    ensures row { bits_of bytes.new ≡ slice_set (bits_of bytes.old) p true }
    ensures size { length bytes.new ≡ 512 }
    ensures small { (i : ℕ) → slice_index bytes.new i < 256 }
{
    bytes[usize::from(p / 8)] |= 1 << (p % 8);
}

/// Sets besides each bit of the other bytes.
fn or_into(bytes: &mut [u8], other: &[u8])
    requires size { length bytes.old ≡ 512 }
    requires other { length other.now ≡ 512 }
    ensures each { (i : ℕ) → i < 512
        → slice_index bytes.new i ≡ bit_or (slice_index bytes.old i) (slice_index other.now i) }
    ensures size { length bytes.new ≡ 512 }
    ensures small { (i : ℕ) → slice_index bytes.new i < 256 }
{
    for i in 0..bytes.len() {
        bytes[i] |= other[i];
    }
}

/// Whether the other bytes have a bit that these lack.
fn lacks_some(bytes: &[u8], other: &[u8]) -> bool
    requires size { length bytes.now ≡ 512 }
    requires other { length other.now ≡ 512 }
    ensures none { result ≡ false → (i : ℕ) → i < 512
        → bit_or (slice_index bytes.now i) (slice_index other.now i) ≡ slice_index bytes.now i }
    ensures some { result ≡ true
        → (i : ℕ) × (i < 512)
        × (bit_or (slice_index bytes.now i) (slice_index other.now i) ≢ slice_index bytes.now i) }
{
    for i in 0..bytes.len() {
        if bytes[i] | other[i] != bytes[i] {
            return true;
        }
    }
    false
}

/// The number of the first partition from that one on whose bit is set; a number past the last
/// where there is none.
fn next_place(bytes: &[u8], from: u16) -> u16
    requires { AreRowBytes bytes.now }
    ensures none_before { (q : ℕ) → from ≤ q → q < result → bit (bits_of bytes.now) q ≡ false }
    ensures set { result < 4096 → (from ≤ result) × (bit (bits_of bytes.now) result ≡ true) }
{
    let mut p = from;
    while p < PARTITIONS {
        let rest = bytes[usize::from(p / 8)] >> (p % 8);
        if rest != 0 {
            return p + rest.trailing_zeros() as u16;
        }
        p = 8 * (p / 8) + 8;
    }
    p
}

/// Changes each bit that the other bytes have.
fn xor_into(bytes: &mut [u8], other: &[u8])
    requires size { length bytes.old ≡ 512 }
    requires other { length other.now ≡ 512 }
    ensures each { (i : ℕ) → i < 512
        → slice_index bytes.new i ≡ bit_xor (slice_index bytes.old i) (slice_index other.now i) }
    ensures size { length bytes.new ≡ 512 }
    ensures small { (i : ℕ) → slice_index bytes.new i < 256 }
{
    for i in 0..bytes.len() {
        bytes[i] ^= other[i];
    }
}

/// Changes each bit.
fn turn(bytes: &mut [u8])
    requires { length bytes.old ≡ 512 }
    ensures each { (i : ℕ) → i < 512
        → slice_index bytes.new i ≡ bit_not w8 (slice_index bytes.old i) }
    ensures size { length bytes.new ≡ 512 }
    ensures small { (i : ℕ) → slice_index bytes.new i < 256 }
{
    for byte in bytes.iter_mut() {
        *byte = !*byte;
    }
}
