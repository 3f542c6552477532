//! Does the work of the parts of a node so often as standard input says, in lines `WORK TIMES`. Writes a
//! sum for each line on standard output and its time in microseconds on standard error.
#![tactic(auto)]

mod records;
mod views;

use anyhow::{Context, Result};
use cluster_types::{Members, NodeId, StateRow};
use record_store::RecordStore;
use std::alloc::Global;
use std::time::Instant;

/// What is made before the time counts.
#[derive(Drop)]
struct Given {
    me: NodeId,
    members: Members,
    rows: Vec<StateRow>,
    store: RecordStore,
}

/// Does one work so often.
fn work(alloc: Global, name: &str, times: u32, given: &Given) -> Result<u64> {
    match name {
        "beats" => Ok(views::beats(&given.members, given.me, times)),
        "exchange" => views::exchanges(alloc, &given.members, given.me, &given.rows, times),
        "progress" => views::progress(alloc, &given.members, given.me, times),
        "batches" => records::emigrations(alloc, &given.members, given.me, &given.store, times),
        _ => records::transactions(alloc, given.me, times),
    }
}

/// Does the work of one line.
fn measure(rt: &HostRuntime, line: &str, given: &Given) -> Result<()> {
    let (name, times) = line.split_once(' ').context("no number of times")?;
    let times = times.parse::<u32>().context("no number")?;
    let start = Instant::now(rt)?;
    let sum = work(rt.alloc(), name, times, given)?;
    let time = start.elapsed(rt)?.as_micros();
    println!(rt; "{name} {sum}")?;
    eprintln!(rt; "{name} {time}")?;
    Ok(())
}

fn main(rt: HostRuntime) -> Result<()> {
    let members = views::sixteen().context("no members")?;
    let given = Given {
        me: NodeId::MIN,
        members,
        rows: views::rows(rt.alloc())?,
        store: records::store(rt.alloc())?,
    };
    for line in rt.lines(rt.alloc()) {
        measure(&rt, line?.as_str(), &given)?;
    }
    Ok(())
}
