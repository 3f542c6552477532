//! How many of the other members are known done, by partition.
ghost use Rattle.std.specs.Int.{bit_at};
ghost use Rattle.std.specs.Prelude.{◌≡◌, ◌<◌, ◌≤◌, ◌+◌, ℕ, IfOk, length, replicate, slice_index};
ghost use Rattle.cluster_types.specs.Partitions.{partition_count};
ghost use Rattle.cluster_types.specs.Rows.{bit};
ghost use Rattle.cluster_types.specs.RowBytes.{bit_number};

use cluster_types::{NoMemory, PARTITIONS, Row4096};
use std::alloc::Global;

/// The bytes of a row.
const ROW_BYTES: usize = 512;

/// None is known done anywhere.
pub(crate) fn no_counts(alloc: Global) -> Result<Vec<u8>, NoMemory>
    ensures { IfOk result (λ known. known.items ≡ replicate partition_count 0) }
{
    let mut known = Vec::with_capacity(alloc, usize::from(PARTITIONS))?;
    for _ in 0..PARTITIONS {
        known.push(0)?;
    }
    Ok(known)
}

/// The counts once the row of one that they count was `before` and is `after`.
pub(crate) fn recount(known: &mut [u8], before: &Row4096, after: &Row4096)
    requires size { length known.old ≡ partition_count }
    requires room { (p : ℕ) → p < partition_count → slice_index known.old p < 255 }
    requires counted { (p : ℕ) → p < partition_count
        → bit_number (bit before.now p) ≤ slice_index known.old p }
    ensures counts { (p : ℕ) → p < partition_count
        → slice_index known.new p + bit_number (bit before.now p)
        ≡ slice_index known.old p + bit_number (bit after.now p) }
    ensures size { length known.new ≡ partition_count }
{
    let was = before.as_bytes();
    let is = after.as_bytes();
    for i in 0..ROW_BYTES {
        // Mostly few of them change.
        if was[i] != is[i] {
            recount_byte(&mut known[8 * i..8 * i + 8], was[i], is[i]);
        }
    }
}

/// The counts of the eight partitions of one byte of a row, once that byte was `before` and is
/// `after`.
fn recount_byte(counts: &mut [u8], before: u8, after: u8)
    requires size { length counts.old ≡ 8 }
    requires room { (b : ℕ) → b < 8 → slice_index counts.old b < 255 }
    requires counted { (b : ℕ) → b < 8 → bit_at before b ≤ slice_index counts.old b }
    ensures counts { (b : ℕ) → b < 8
        → slice_index counts.new b + bit_at before b ≡ slice_index counts.old b + bit_at after b }
    ensures size { length counts.new ≡ 8 }
{
    // Without a branch, so that one step of the machine takes many.
    for b in 0..8usize {
        counts[b] = counts[b] - (before >> b) % 2 + (after >> b) % 2;
    }
}
