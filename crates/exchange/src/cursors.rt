//! A walk over the rows of all members, from partition to partition.
ghost use Rattle.std.specs.Prelude.{◌≡◌, ◌≤◌, ◌+◌, length};
ghost use Rattle.cluster_types.specs.StateRows.{IsStateRow, state_of};
ghost use Rattle.partition_state.specs.Copies.{copies_at};
ghost use Rattle.exchange.specs.Rows.{ArePlaces, AreNextPlaces, IsNextIn, place_in};

use cluster_types::{CopyState, PARTITIONS, PartitionId};
use node_rules::MemberRow;
use partition_state::States;

/// The states of the partition's copies, as at most sixteen rows tell them, each of which was read
/// up to that partition. They are then read up to the next one.
pub(crate) fn read(rows: &[MemberRow], places: &mut [usize], p: PartitionId) -> States
    requires limit { length rows.now ≤ 16 }
    requires places { ArePlaces p rows.now places.old }
    ensures states { result ≡ copies_at rows.now p }
    ensures places { ArePlaces (p + 1) rows.now places.new }
{
    let mut states = States::new();
    for i in 0..rows.len() {
        let (state, next) = read_state(rows[i].row.entries(), places[i], p);
        places[i] = next;
        states.push(rows[i].node, state);
    }
    states
}

/// The state of the partition, of which no entry stands before the place, and the place of the
/// next partition.
fn read_state(
    entries: &[(PartitionId, CopyState)],
    place: usize,
    p: PartitionId,
) -> (CopyState, usize)
    requires row { IsStateRow entries.now }
    requires place { place ≡ place_in p entries.now }
    ensures state { result.0 ≡ state_of entries.now p }
    ensures next { result.1 ≡ place_in (p + 1) entries.now }
{
    match entries.get(place) {
        None => (CopyState::Empty, place),
        Some(entry) if entry.0 == p => (entry.1, place + 1),
        Some(_) => (CopyState::Empty, place),
    }
}

/// The lowest partition of which a row has an entry that wasn't read yet, and the count of all
/// partitions where no row has one.
pub(crate) fn next_told(rows: &[MemberRow], places: &[usize]) -> u16
    requires { length places.now ≡ length rows.now }
    ensures { AreNextPlaces result rows.now places.now }
{
    let mut next = PARTITIONS;
    for i in 0..rows.len() {
        next = next.min(next_in(rows[i].row.entries(), places[i]));
    }
    next
}

/// The same of one row, which was read up to the place.
fn next_in(entries: &[(PartitionId, CopyState)], place: usize) -> u16
    ensures { IsNextIn result entries.now place }
{
    match entries.get(place) {
        None => PARTITIONS,
        Some(entry) => entry.0.number(),
    }
}
