//! What the other members of a view told.
ghost use Rattle.std.specs.Prelude.{◌≡◌, ◌==◌, ◌<◌, IfOk, Contains, length, map, slice_index};
ghost use Rattle.std.specs.List.{position};
ghost use Rattle.cluster_types.specs.Members.{AreMembers};
ghost use Rattle.node_rules.specs.Agreement.{others_among};
ghost use Rattle.node_rules.specs.Tables.{table_with};
ghost use Rattle.progress.specs.Told.{AreTold, told_nodes, silent_member, told_table, telling};

use crate::counts::recount;
use crate::row::HeapRow;
use cluster_types::{Members, NoMemory, NodeId, Row4096};
use std::alloc::Global;

/// Another member, and the done row of its last Progress.
#[derive(Drop)]
pub(crate) struct Told {
    pub node: NodeId,
    /// Whether a Progress of it came.
    pub came: bool,
    /// Clear before the first.
    pub done: HeapRow,
}

impl Told {
    /// A member that told nothing.
    fn silent(alloc: Global, node: NodeId) -> Result<Told, NoMemory>
        ensures { IfOk result (λ t. t ≡ silent_member node) }
    {
        let done = HeapRow::new(alloc)?;
        Ok(Told {
            node,
            came: false,
            done,
        })
    }

    /// A Progress of the member came.
    fn hear(&mut self, done: &Row4096)
        ensures { self.new ≡ telling self.old done.now }
    {
        self.came = true;
        self.done.set(done);
    }
}

/// The other members, which told nothing.
pub(crate) fn silent_others(
    alloc: Global,
    members: &Members,
    me: NodeId,
) -> Result<Vec<Told>, NoMemory>
    ensures heard { IfOk result
        (λ heard. heard.items ≡ map silent_member (others_among me members.now)) }
    ensures members { IfOk result (λ heard. AreMembers members.now) }
{
    let mut heard = Vec::with_capacity(alloc, members.len())?;
    for member in members.as_slice() {
        if member.id != me {
            heard.push(Told::silent(alloc, member.id)?)?;
        }
    }
    Ok(heard)
}

/// A Progress of one of the members came.
pub(crate) fn hear(heard: &mut [Told], known: &mut [u8], from: NodeId, done: &Row4096)
    requires told { AreTold heard.old known.old }
    requires listed { Contains (told_nodes heard.old) from }
    ensures nodes { told_nodes heard.new ≡ told_nodes heard.old }
    ensures told { AreTold heard.new known.new }
    ensures table { told_table heard.new ≡ table_with (told_table heard.old) from done.now }
{
    match place_of(heard, from) {
        Some(place) => hear_at(heard, known, place, done),
        None => unreachable!(),
    }
}

/// A Progress came of the member at that place.
fn hear_at(heard: &mut [Told], known: &mut [u8], place: usize, done: &Row4096)
    requires told { AreTold heard.old known.old }
    requires place { place < length heard.old }
    ensures nodes { told_nodes heard.new ≡ told_nodes heard.old }
    ensures told { AreTold heard.new known.new }
    ensures table { told_table heard.new
        ≡ table_with (told_table heard.old) (slice_index (told_nodes heard.old) place) done.now }
{
    recount(known, heard[place].done.as_row(), done);
    heard[place].hear(done);
}

/// The place of the member.
fn place_of(heard: &[Told], n: NodeId) -> Option<usize>
    ensures { result ≡ position (λ t. t.node == n) heard.now }
{
    heard.iter().position(|t| t.node == n)
}
