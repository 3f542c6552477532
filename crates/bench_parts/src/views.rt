//! The work of what a node knows of its neighbours and of its view.
ghost use Rattle.std.specs.Prelude.{◌≡◌, ◌≢◌};
ghost use Rattle.cluster_types.specs.declared.copy_state.CopyState.TheVariants.{Empty};

use anyhow::{Context, Result};
use cluster_types::{
    ClusterKey, CopyState, Members, NoMemory, NodeId, NodeList, PartitionId, Role, Row4096,
    StateRow,
};
use exchange::{ExchangeStep, Exchanged, begin};
use heartbeat::Adjacency;
use node_rules::Beat;
use progress::Progress;
use std::alloc::Global;

/// The key of the view.
const KEY: ClusterKey = ClusterKey {
    round: 5,
    principal: 16,
};

/// Sixteen plain nodes, from 16 down to 1.
pub(crate) fn sixteen() -> Option<Members> {
    let mut ids = [NodeId::MIN; 16];
    for place in 0..16usize {
        ids[place] = NodeId::new(16 - place as u16)?;
    }
    Members::from_slice(&ids).ok()
}

/// A heartbeat of another node, which is kept where there is room. It is asked, as no clause bounds
/// how many are heard.
fn hear(hearing: &mut Adjacency, from: NodeId, beat: &Beat)
    requires { from ≢ hearing.old.me }
    ensures { hearing.new.me ≡ hearing.old.me }
{
    let hears = hearing.hears();
    if hears.len() < 15 || hears.contains(from) {
        hearing.heard(from, beat);
    }
}

/// A heartbeat of each neighbour.
fn hear_all(hearing: &mut Adjacency, members: &Members, me: NodeId, beat: &Beat)
    requires { hearing.old.me ≡ me }
    ensures { hearing.new.me ≡ me }
{
    for member in members.as_slice() {
        if member.id != me {
            hear(hearing, member.id, beat);
        }
    }
}

/// The sum of the quiet ticks after rounds of heartbeats of all neighbours and a tick.
pub(crate) fn beats(members: &Members, me: NodeId, rounds: u32) -> u64 {
    let mut hearing = Adjacency::new(me, Role::PLAIN);
    let mut beat = Beat {
        view: KEY,
        promised: KEY,
        hears: members.ids(),
        role: Role::PLAIN,
    };
    let mut sum = 0u64;
    for round in 0..rounds {
        beat.promised.round = u64::from(round);
        hear_all(&mut hearing, members, me, &beat);
        hearing.tick();
        sum = sum.wrapping_add(u64::from(hearing.quiet()));
    }
    sum
}

/// The state of a copy, which is whole under one of three keys.
fn whole(place: u16, number: u16) -> CopyState
    ensures { result ≢ Empty }
{
    let key = ClusterKey {
        round: u64::from(place.wrapping_add(number) % 3) + 1,
        principal: 1,
    };
    let writes = u32::from(number);
    CopyState::Whole { key, writes }
}

/// The row of a member, with the copies of all partitions.
fn row(alloc: Global, place: u16) -> Result<StateRow, NoMemory> {
    let mut row = StateRow::new(alloc);
    for number in 0..4096u16 {
        if let Some(p) = PartitionId::new(number) {
            row.add(p, whole(place, number))?;
        }
    }
    Ok(row)
}

/// The rows of sixteen members.
pub(crate) fn rows(alloc: Global) -> Result<Vec<StateRow>, NoMemory> {
    let mut rows = Vec::new(alloc);
    for place in 0..16u16 {
        rows.push(row(alloc, place)?)?;
    }
    Ok(rows)
}

/// The row of a member comes.
fn take_row(step: ExchangeStep, from: NodeId, row: StateRow) -> ExchangeStep {
    match step {
        ExchangeStep::Waiting(waiting) => {
            if waiting.members().contains(from) {
                return waiting.on_state(from, row);
            }
            ExchangeStep::Waiting(waiting)
        }
        ExchangeStep::Complete(exchanged) => ExchangeStep::Complete(exchanged),
    }
}

/// The sum of the acting masters of all partitions.
fn acting(exchanged: &Exchanged) -> u64 {
    let mut sum = 0u64;
    for number in 0..4096u16 {
        if let Some(p) = PartitionId::new(number) {
            sum = sum.wrapping_add(u64::from(exchanged.map(p).acting.number()));
        }
    }
    sum
}

/// An exchange from its begin to its map. The first row is the node's own.
fn exchange(alloc: Global, members: &Members, me: NodeId, rows: &[StateRow]) -> Result<u64> {
    let own = rows.last().context("no row")?.copy(alloc)?;
    if !members.contains(me) {
        return Ok(0);
    }
    let mut step = begin(alloc, KEY, *members, me, 2, own)?;
    for place in 0..rows.len() {
        if let Some(from) = members.get(place)
            && *from != me
        {
            step = take_row(step, *from, rows[place].copy(alloc)?);
        }
    }
    match step {
        ExchangeStep::Waiting(_) => Ok(0),
        ExchangeStep::Complete(exchanged) => Ok(acting(&exchanged)),
    }
}

pub(crate) fn exchanges(
    alloc: Global,
    members: &Members,
    me: NodeId,
    rows: &[StateRow],
    times: u32,
) -> Result<u64> {
    let mut sum = 0u64;
    for _ in 0..times {
        sum = sum.wrapping_add(exchange(alloc, members, me, rows)?);
    }
    Ok(sum)
}

/// A row with a bit for every second partition, from that one on.
fn bits(first: u16) -> Row4096 {
    let mut row = Row4096::new();
    for number in 0..4096u16 {
        if number % 2 == first
            && let Some(p) = PartitionId::new(number)
        {
            row.put(p);
        }
    }
    row
}

/// A Progress of each other member.
fn hear_rows(known: &mut Progress, members: &Members, row: &Row4096) {
    for member in members.as_slice() {
        if known.others().contains(member.id) {
            known.heard(member.id, row, row, row);
        }
    }
}

/// After how many of the rounds, in which every other member tells its rows, all are done at
/// the partition 0.
pub(crate) fn progress(alloc: Global, members: &Members, me: NodeId, rounds: u32) -> Result<u64> {
    let (even, odd) = (bits(0), bits(1));
    let first = PartitionId::new(0).context("no partition")?;
    let mut known = Progress::new(alloc, members, me)?;
    known.own_done(&even);
    let mut sum = 0u64;
    for round in 0..rounds {
        hear_rows(
            &mut known,
            members,
            if round % 2 == 0 { &even } else { &odd },
        );
        sum = sum.wrapping_add(u64::from(known.all_done(first)));
    }
    Ok(sum)
}
