//! What a script has shown of lists, maps and stores.
ghost use Rattle.std.specs.Prelude.{◌≡◌, ◌≤◌, ◌∷◌, [], length, None, IfOk, unwrap_or};
ghost use Rattle.std.specs.FinMap as finite;
ghost use Rattle.cluster_types.specs.Distinct.{IsDescending};
ghost use Rattle.cluster_types.specs.Members.{ids_of, plain_role, role_of};
ghost use Rattle.cluster_types.specs.NodeLists.{IsNodeList};
ghost use Rattle.journal_lines.specs.declared.line.Line.TheVariants as line;
ghost use Rattle.node_rules.specs.Facts.{list_at};
ghost use Rattle.node_rules.specs.Map.{entry_of};
ghost use Rattle.node_rules.specs.Requests as requests;
ghost use Rattle.node_rules.specs.Shows as shows;
ghost use Rattle.partition_lists.specs.Lists as lists;
ghost use Rattle.cluster_rules.specs.DueEvents.{due_place};
ghost use Rattle.world.specs.Steps.{standing};

use crate::lines::one_line;
use crate::order::falling;
use crate::world::World;
use cluster_types::{
    Boxed, Digest, Member, MemberList, Members, NoMemory, NodeId, PartitionId, Role,
};
use journal_text::{Line, LineList};
use node_core::Node;
use partition_lists::list;
use std::alloc::Global;

/// The node's map from one partition to another: a line for each, or else the one that says why it
/// has none.
pub(crate) fn map_lines(
    alloc: Global,
    id: NodeId,
    node: &Node,
    from: PartitionId,
    to: PartitionId,
) -> Result<LineList, NoMemory>
    requires { id ≡ node.now.now.me }
    ensures { IfOk result (λ lines. lines ≡ (shows.due_map node.now.now from to).lines) }
{
    match node.map_entry(from) {
        Err(cause) => one_line(alloc, Line::Mapless { node: id, cause }),
        Ok(_) => mapped_lines(alloc, id, node, from, to),
    }
}

/// A line for each partition from one to another, where the node has a map.
fn mapped_lines(
    alloc: Global,
    id: NodeId,
    node: &Node,
    from: PartitionId,
    to: PartitionId,
) -> Result<LineList, NoMemory>
    requires me { id ≡ node.now.now.me }
    requires mapped { requests.map_refusal node.now.now ≡ None }
    ensures { IfOk result (λ lines. lines ≡ shows.map_lines node.now.now from to) }
{
    let mut lines = LineList::new(alloc);
    let first = from.number();
    let end = to.number() + 1;
    for number in first..end {
        let Some(partition) = PartitionId::new(number) else {
            unreachable!();
        };
        lines.push(map_line(alloc, id, node, partition)?)?;
    }
    Ok(lines)
}

/// The line of one partition, where the node has a map.
fn map_line(
    alloc: Global,
    id: NodeId,
    node: &Node,
    partition: PartitionId,
) -> Result<Line, NoMemory>
    requires me { id ≡ node.now.now.me }
    requires mapped { requests.map_refusal node.now.now ≡ None }
    ensures { IfOk result (λ l. l ≡ shows.map_line node.now.now partition
        (entry_of (list_at node.now.now partition) node.now.now.exchange.rows partition)) }
{
    let Some((key, members)) = node.view() else {
        unreachable!();
    };
    let Ok(entry) = node.map_entry(partition) else {
        unreachable!();
    };
    Ok(Line::Map {
        node: id,
        key,
        partition,
        members: Boxed::new(alloc, with_roles(alloc, &members, entry.list.as_slice())?)?,
        acting: entry.acting,
    })
}

impl World {
    /// The list of the partition over all declared nodes, with the roles that they now have.
    pub(crate) fn place_line(&self, alloc: Global, partition: PartitionId) -> Result<Line, NoMemory>
        ensures { IfOk result (λ l. l ∷ [] ≡ due_place (standing self.now) partition) }
    {
        // What is known of the world's parts: no id stands twice.
        let _ = &self.header;
        let ids = falling(&self.rising_ids());
        let mut places = [Member::plain(NodeId::MIN); 16];
        let members = &mut places[..ids.len()];
        self.write_members(ids.as_slice(), members);
        Ok(Line::Place {
            partition,
            members: Boxed::new(alloc, place(alloc, members, partition)?)?,
        })
    }
}

/// The list of the partition over these members, which stand in falling order, with their roles.
fn place(alloc: Global, members: &[Member], partition: PartitionId) -> Result<MemberList, NoMemory>
    requires limit { length members.now ≤ 16 }
    requires order { IsDescending (ids_of members.now) }
    ensures { IfOk result
        (λ l. l ≡ shows.with_roles members.now (lists.list members.now partition)) }
{
    match Members::with_roles(members) {
        // There are none.
        Err(_) => Ok(MemberList::new()),
        Ok(members) => with_roles(alloc, &members, list(&members, partition).as_slice()),
    }
}

/// The nodes with the roles that they have among the members.
fn with_roles(alloc: Global, members: &Members, ids: &[NodeId]) -> Result<MemberList, NoMemory>
    requires { IsNodeList ids.now }
    ensures { IfOk result (λ l. l ≡ shows.with_roles members.now ids.now) }
{
    let mut placed = Vec::new(alloc);
    for id in ids {
        placed.push(with_role(members, *id))?;
    }
    match MemberList::from_slice(placed.as_slice()) {
        Ok(placed) => Ok(placed),
        Err(_) => unreachable!(),
    }
}

fn with_role(members: &Members, id: NodeId) -> Member
    ensures { result ≡ record { id = id; role = unwrap_or (role_of members.now id) plain_role } }
{
    Member {
        id,
        role: members.role(id).unwrap_or(Role::PLAIN),
    }
}

/// What the node's store holds of the record.
pub(crate) fn holds_line(
    alloc: Global,
    id: NodeId,
    node: &Node,
    digest: &Digest,
) -> Result<Line, NoMemory>
    ensures { IfOk result
        (λ l. l ≡ line.Holds id digest.now (finite.get node.now.now.store.content digest.now)) }
{
    let version = match node.holds(digest) {
        None => None,
        Some(held) => Some(held.copy(alloc)?),
    };
    Ok(Line::Holds {
        node: id,
        digest: *digest,
        version: Boxed::new(alloc, version)?,
    })
}
