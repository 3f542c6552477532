//! Who acts on each partition, as the rows tell.
ghost use Rattle.std.specs.Prelude.{◌≡◌, ◌+◌, ◌<◌, ◌≤◌, ℕ, IfOk, length, slice_index_or, vec_capacity};
ghost use Rattle.std.specs.List.{list_all};
ghost use Rattle.cluster_types.specs.Members.{AreMembers};
ghost use Rattle.cluster_types.specs.Partitions.{partition_count};
ghost use Rattle.partition_lists.specs.Acting.{is_empty};
ghost use Rattle.partition_lists.specs.Lists.{list};
ghost use Rattle.exchange.specs.Rows.{AreRowsOf, ArePlaces, AreNextPlaces};
ghost use Rattle.partition_state.specs.Copies.{copies_at};
ghost use Rattle.exchange.specs.declared.served.Served.{Served};
ghost use Rattle.exchange.specs.Served.{AreServed, served_by};

use crate::cursors::{next_told, read};
use crate::view_rows::ViewRows;
use cluster_types::{CopyState, NoMemory, NodeId, PARTITIONS, PartitionId};
use node_rules::MemberRow;
use partition_lists::Lists;
use partition_state::States;
use std::alloc::Global;
use std::marker::Model;

/// How many rows there may be.
const LIMIT: usize = 16;

/// What the rows tell of a partition.
#[derive(Clone, Copy, Debug)]
pub(crate) struct Served {
    pub acting: NodeId,
    /// Whether no member's copy had a record.
    pub all_empty: bool,
}

impl Served {
    /// What stands there of a partition of which nothing is told yet.
    const PLACEHOLDER: Served = Served {
        acting: NodeId::MIN,
        all_empty: false,
    };
}

/// What the rows of all members tell of each partition, apart from an exchange. `Exchanged::served`
/// copies it, and `Exchanging::finish` goes by it.
#[derive(Drop)]
pub struct ServedTable {
    served: Vec<Served>,
}

impl Model for ServedTable {
    ghost use Rattle.std.specs.Prelude.{List};
    ghost use Rattle.exchange.specs.declared.served.Served.{Served};

    ghost Value = { List Served };

    ghost view = { λ t. t.served.items };
}

impl ServedTable {
    /// A copy of what stands there of each partition.
    pub(crate) fn of(alloc: Global, served: &[Served]) -> Result<ServedTable, NoMemory>
        ensures { IfOk result (λ t. t ≡ served.now) }
    {
        let served = Vec::from_slice(alloc, served)?;
        Ok(ServedTable { served })
    }

    /// What stands there of each partition.
    pub(crate) fn into_served(self) -> Vec<Served>
        ensures { result.items ≡ self }
    {
        self.served
    }
}

/// Room for what is told of all partitions.
pub(crate) fn room(alloc: Global) -> Result<Vec<Served>, NoMemory>
    ensures { IfOk result (λ room. length room.items ≡ partition_count) }
{
    let mut room = Vec::with_capacity(alloc, usize::from(PARTITIONS))?;
    for _ in 0..PARTITIONS {
        room.push(Served::PLACEHOLDER)?;
    }
    Ok(room)
}

/// Fills the room with what the rows tell of each partition. Each row is read once.
pub(crate) fn fill(room: &mut [Served], view: &ViewRows)
    requires size { length room.old ≡ partition_count }
    requires rows { AreRowsOf view.now.me view.now.lists view.now.rows.items
        (vec_capacity view.now.rows) }
    ensures { AreServed view.now.lists view.now.rows.items room.new }
{
    let rows = view.rows.as_slice();
    let mut places = [0; LIMIT];
    fill_from(room, &view.lists, rows, &mut places[..rows.len()]);
}

/// The same where nothing of the rows was read.
fn fill_from(room: &mut [Served], lists: &Lists, rows: &[MemberRow], places: &mut [usize])
    requires members { AreMembers lists.now }
    requires size { length room.old ≡ partition_count }
    requires limit { length rows.now ≤ 16 }
    requires places { ArePlaces 0 rows.now places.old }
    ensures { (p : ℕ) (d : Served) → p < partition_count
        → slice_index_or room.new p d ≡ served_by (list lists.now p) (copies_at rows.now p) }
{
    let mut next = next_told(rows, places);
    for number in 0..PARTITIONS {
        if let Some(p) = PartitionId::new(number) {
            room[usize::from(number)] = serve(lists, rows, places, &mut next, p);
        }
    }
}

/// What the rows tell of a partition, up to which each was read. Below the next one of which a row
/// has an entry all copies are empty.
fn serve(
    lists: &Lists,
    rows: &[MemberRow],
    places: &mut [usize],
    next: &mut u16,
    p: PartitionId,
) -> Served
    requires members { AreMembers lists.now }
    requires limit { length rows.now ≤ 16 }
    requires places { ArePlaces p rows.now places.old }
    requires next { AreNextPlaces next.old rows.now places.old }
    ensures served { result ≡ served_by (list lists.now p) (copies_at rows.now p) }
    ensures places { ArePlaces (p + 1) rows.now places.new }
    ensures next { AreNextPlaces next.new rows.now places.new }
{
    if p.number() < *next {
        return Served {
            acting: lists.master(p),
            all_empty: true,
        };
    }
    let states = read(rows, places, p);
    *next = next_told(rows, places);
    who_serves(lists, &states, p)
}

fn who_serves(lists: &Lists, states: &States, p: PartitionId) -> Served
    requires { AreMembers lists.now }
    ensures { result ≡ served_by (list lists.now p) states.now }
{
    let all_empty = are_empty(states.as_slice());
    if all_empty {
        return Served {
            acting: lists.master(p),
            all_empty,
        };
    }
    Served {
        acting: states.acting(&lists.list(p)),
        all_empty,
    }
}

/// Whether none of the copies had a record.
fn are_empty(copies: &[(NodeId, CopyState)]) -> bool
    ensures { result ≡ list_all (λ c. is_empty c.1) copies.now }
{
    copies.iter().all(|copy| is_empty(copy.1))
}

fn is_empty(state: CopyState) -> bool
    ensures { result ≡ is_empty state }
{
    match state {
        CopyState::Empty => true,
        CopyState::Part => false,
        CopyState::Whole { .. } => false,
    }
}
