//! Does what standard input says, in lines `WORK NUMBER`: `read-state`, `write-state`, `read-progress` and
//! `write-progress` decode or encode a long message so often, and `net` sends so many messages and
//! takes them again, not in their order. Writes a sum for each line on standard output and its time in
//! microseconds on standard error.
#![tactic(auto)]

ghost use Rattle.std.specs.Prelude.{◌≡◌, ◌≤◌, ◌<◌, ◌+◌, ◌-◌, ◌^◌, OnOk};
ghost use Rattle.wire_messages.specs.Proper.{IsProper};

use anyhow::{Context, Result};
use cluster_types::{Boxed, Bytes, NoMemory, PartitionId, Row4096};
use net_script::Net;
use std::alloc::Global;
use std::time::Instant;
use wire_codec::{Message, decode, encode};

/// The key 1.2.
const KEY: [u8; 8] = [0, 0, 0, 0, 0, 1, 0, 2];

/// The longest State: the whole copies of all partitions, in 61,452 bytes.
fn state(alloc: Global) -> Result<Vec<u8>, NoMemory> {
    let mut bytes = Vec::from_slice(alloc, &[6])?;
    bytes.extend_from_slice(&KEY)?;
    bytes.extend_from_slice(&[1, 16, 0])?;
    for partition in 0..4096u16 {
        bytes.extend_from_slice(&partition.to_be_bytes())?;
        bytes.push(2)?;
        bytes.extend_from_slice(&KEY)?;
        bytes.extend_from_slice(&u32::from(partition).to_be_bytes())?;
    }
    Ok(bytes)
}

/// A Progress whose rows have bits of no order.
fn progress(alloc: Global) -> Result<Vec<u8>, NoMemory> {
    let mut bytes = Vec::from_slice(alloc, &[9])?;
    bytes.extend_from_slice(&KEY)?;
    bytes.push(0)?;
    for place in 0..1536u32 {
        let [bits, ..] = place.wrapping_mul(2_654_435_761).to_be_bytes();
        bytes.push(bits)?;
    }
    Ok(bytes)
}

/// 1 where the row has the bit of partition 0.
fn first_bit(row: &Boxed<Row4096>) -> u64
    ensures { result ≤ 1 }
{
    u64::from(PartitionId::new(0).is_some_and(|first| row.get().get(first)))
}

/// How many entries a State has, or how many rows of a Progress have the bit of partition 0.
fn seen(message: &Message) -> u64 {
    match message {
        Message::State { row, .. } => row.len() as u64,
        Message::Progress {
            done,
            handed,
            settled,
            ..
        } => first_bit(done) + first_bit(handed) + first_bit(settled),
        _ => 0,
    }
}

fn reads(alloc: Global, bytes: &[u8], times: u32) -> Result<u64> {
    let mut sum = 0u64;
    for _ in 0..times {
        sum = sum.wrapping_add(seen(&decode(alloc, bytes)?));
    }
    Ok(sum)
}

fn writes(alloc: Global, message: &Message, times: u32) -> Result<u64>
    requires { IsProper message.now }
{
    let mut sum = 0u64;
    for _ in 0..times {
        sum = sum.wrapping_add(encode(alloc, message)?.len() as u64);
    }
    Ok(sum)
}

fn send_all(alloc: Global, net: &mut Net, number: u32) -> Result<(), NoMemory>
    requires { net.old.sent + number < 2 ^ 64 - 1 }
    ensures { OnOk result (net.new.sent ≡ net.old.sent + number) }
{
    for i in 0..number {
        net.send(1, (i % 10) as u16, Bytes::new(alloc))?;
    }
    Ok(())
}

/// How many messages were there to take. All are, where their number is a power of two.
fn take_all(net: &mut Net, number: u32) -> u64 {
    let mut taken = 0u64;
    for step in 0..number {
        let place = step.wrapping_mul(48_271) % number;
        if net.take(u64::from(place) + 1).is_some() {
            taken = taken.wrapping_add(1);
        }
    }
    taken
}

fn flights(alloc: Global, number: u32) -> Result<u64> {
    let mut net = Net::new(alloc);
    send_all(alloc, &mut net, number)?;
    Ok(take_all(&mut net, number))
}

/// Does the work of one line.
fn measure(rt: &HostRuntime, line: &str, state: &[u8], progress: &[u8]) -> Result<()> {
    let (work, number) = line.split_once(' ').context("no number")?;
    let number = number.parse::<u32>().context("no number")?;
    let start = Instant::now(rt)?;
    let sum = match work {
        "read-state" => reads(rt.alloc(), state, number)?,
        "write-state" => writes(rt.alloc(), &decode(rt.alloc(), state)?, number)?,
        "read-progress" => reads(rt.alloc(), progress, number)?,
        "write-progress" => writes(rt.alloc(), &decode(rt.alloc(), progress)?, number)?,
        _ => flights(rt.alloc(), number)?,
    };
    let time = start.elapsed(rt)?.as_micros();
    println!(rt; "{work} {sum}")?;
    eprintln!(rt; "{work} {time}")?;
    Ok(())
}

fn main(rt: HostRuntime) -> Result<()> {
    let state = state(rt.alloc())?;
    let progress = progress(rt.alloc())?;
    for line in rt.lines(rt.alloc()) {
        measure(&rt, line?.as_str(), &state, &progress)?;
    }
    Ok(())
}
