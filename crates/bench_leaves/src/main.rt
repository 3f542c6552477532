//! Does the work of the leaf crates so often as standard input says, in lines `WORK TIMES`. Writes a sum
//! for each line on standard output and its time in microseconds on standard error.
#![tactic(auto)]

ghost use Rattle.std.specs.Prelude.{◌≡◌, ◌^◌, ◌<◌, length, IfOk};

use anyhow::{Context, Result};
use cluster_types::{Digest, Members, NoMemory, NodeId, PartitionId};
use conflict_order::{Body, ValueBytes, ValueFault, Version};
use digest_ripemd::digest_of;
use partition_lists::Ranks;
use record_store::{Joined, RecordStore};
use std::alloc::Global;
use std::time::Instant;

/// How many records a store is filled with.
const RECORDS: u32 = 100_000;

/// A message of a million bytes.
fn message(alloc: Global, byte: u8, count: usize) -> Result<Vec<u8>, NoMemory>
    ensures { IfOk result (λ bytes. length bytes.items ≡ count) }
{
    vec![in alloc; byte; count]
}

/// The first byte of the digest of the message as a key of the set without a name.
fn digest(message: &[u8]) -> u64
    requires { length message.now < 2 ^ 60 }
{
    u64::from(digest_of(b"", message).bytes()[0])
}

/// The sum of the first nodes in the lists of all partitions.
fn lists(members: &Members) -> u64 {
    let ranks = Ranks::of(members);
    let mut sum = 0u64;
    for number in 0..4096u16 {
        if let Some(partition) = PartitionId::new(number) {
            if let Some(first) = ranks.list(partition).get(0) {
                sum = sum.wrapping_add(u64::from(first.number()));
            }
        }
    }
    sum
}

/// Sixteen plain nodes, from 16 down to 1.
fn sixteen() -> Option<Members> {
    let mut ids = [NodeId::MIN; 16];
    for place in 0..16usize {
        ids[place] = NodeId::new(16 - place as u16)?;
    }
    Members::from_slice(&ids).ok()
}

/// A digest whose first two bytes go over all partitions.
fn record(i: u32) -> Digest {
    let spread = i.wrapping_mul(2_654_435_761).to_le_bytes();
    let number = i.to_le_bytes();
    let mut bytes = [0; 20];
    bytes[..4].copy_from_slice(&spread);
    bytes[4..8].copy_from_slice(&number);
    Digest::new(bytes)
}

/// A version with a value of two bytes.
fn version(alloc: Global, i: u32) -> Result<Version, ValueFault> {
    let [byte, ..] = i.to_le_bytes();
    let value = ValueBytes::from_slice(alloc, &[b'v', byte])?;
    Ok(Version {
        lut: 0,
        generation: 1,
        body: Body::Value(value),
    })
}

/// How many records a store takes.
fn store(alloc: Global) -> Result<u64> {
    let mut store = RecordStore::new(alloc)?;
    let mut taken = 0u64;
    for i in 0..RECORDS {
        if store.join_in(record(i), version(alloc, i)?)? == Joined::Newer {
            taken = taken.wrapping_add(1);
        }
    }
    Ok(taken)
}

/// Does the work of one line.
fn measure(rt: &HostRuntime, line: &str, message: &[u8], members: &Members) -> Result<()>
    requires { length message.now < 2 ^ 60 }
{
    let (work, times) = line.split_once(' ').context("no number of times")?;
    let start = Instant::now(rt)?;
    let mut sum = 0u64;
    for _ in 0..times.parse::<u32>().context("no number")? {
        let one = match work {
            "digest" => digest(message),
            "lists" => lists(members),
            _ => store(rt.alloc())?,
        };
        sum = sum.wrapping_add(one);
    }
    let time = start.elapsed(rt)?.as_micros();
    println!(rt; "{work} {sum}")?;
    eprintln!(rt; "{work} {time}")?;
    Ok(())
}

fn main(rt: HostRuntime) -> Result<()> {
    let message = message(rt.alloc(), b'a', 1_000_000)?;
    let members = sixteen().context("no members")?;
    for line in rt.lines(rt.alloc()) {
        measure(&rt, line?.as_str(), message.as_slice(), &members)?;
    }
    Ok(())
}
