//! The lists of all partitions over the members of a view.
ghost use Rattle.std.specs.Prelude.{◌≡◌, ◌<◌, IfOk, length, replicate};
ghost use Rattle.cluster_types.specs.Members.{AreMembers};
ghost use Rattle.cluster_types.specs.NodeLists.{IsNodeList};
ghost use Rattle.cluster_types.specs.Partitions.{partition_count};
ghost use Rattle.partition_lists.specs.Acting.{list_master};
ghost use Rattle.partition_lists.specs.Lists.{list, is_replica_of};
ghost use Rattle.partition_lists.specs.ViewLists.{lists_from};

use crate::ranks::Ranks;
use cluster_types::{Members, NoMemory, NodeId, NodeList, PARTITIONS, PartitionId};
use std::alloc::Global;
use std::marker::Model;

/// The lists of the 4,096 partitions over some members, which were made once and stand one after
/// another. They take two bytes a member and partition.
#[derive(Debug, Drop)]
pub struct Lists {
    members: Members,
    ids: Vec<NodeId>,
}

impl Model for Lists {
    ghost use Rattle.std.specs.Prelude.{◌≡◌, List};
    ghost use Rattle.cluster_types.specs.declared.member.Member.{Member};
    ghost use Rattle.cluster_types.specs.Members.{AreMembers};
    ghost use Rattle.cluster_types.specs.Partitions.{partition_count};
    ghost use Rattle.partition_lists.specs.ViewLists.{lists_from};

    ghost Value = { List Member };

    ghost view = { λ l. l.members };

    ghost invariant = { λ l.
        AreMembers l.members × (l.ids.items ≡ lists_from l.members partition_count 0) };
}

impl Lists {
    /// The lists over these members. Each partition is hashed with each of them, but not where
    /// there is one alone, which is then every list.
    pub fn of(alloc: Global, m: &Members) -> Result<Lists, NoMemory>
        ensures { IfOk result (λ l. l ≡ m.now) }
    {
        let ids = all_lists(alloc, m)?;
        Ok(Lists { members: *m, ids })
    }

    /// Equal lists of their own.
    pub fn copy(&self, alloc: Global) -> Result<Lists, NoMemory>
        ensures { IfOk result (λ l. l ≡ self.now) }
    {
        let ids = Vec::from_slice(alloc, &self.ids)?;
        Ok(Lists {
            members: self.members,
            ids,
        })
    }

    /// The members whose lists they are.
    pub fn members(&self) -> &Members
        ensures same { result.now ≡ self.now }
        ensures valid { AreMembers result.now }
    {
        &self.members
    }

    /// The partition's list, as it stands among the others.
    pub fn ids(&self, p: PartitionId) -> &[NodeId]
        ensures same { result.now ≡ list self.now p }
        ensures valid { IsNodeList result.now }
        ensures some { 0 < length result.now }
    {
        let size = self.members.len();
        let first = usize::from(p.number()) * size;
        &self.ids[first..first + size]
    }

    /// The partition's list: what `list` gives of the members and the partition.
    pub fn list(&self, p: PartitionId) -> NodeList
        ensures { result ≡ list self.now p }
    {
        let mut list = NodeList::new();
        for n in self.ids(p) {
            list.push(*n);
        }
        list
    }

    /// The partition's list master: the first of its list.
    pub fn master(&self, p: PartitionId) -> NodeId
        ensures { result ≡ list_master (list self.now p) }
    {
        self.ids(p)[0]
    }

    /// Whether the node is among the first `factor` nodes of the partition's list.
    pub fn is_replica(&self, n: NodeId, p: PartitionId, factor: u8) -> bool
        ensures { result ≡ is_replica_of n self.now p factor }
    {
        let list = self.ids(p);
        list[..list.len().min(usize::from(factor))].contains(&n)
    }
}

/// The list of each partition, one after another.
fn all_lists(alloc: Global, m: &Members) -> Result<Vec<NodeId>, NoMemory>
    ensures ids { IfOk result (λ ids. ids.items ≡ lists_from m.now partition_count 0) }
    ensures members { AreMembers m.now }
{
    match m.as_slice() {
        [only] => repeated(alloc, only.id),
        _ => ranked_lists(alloc, m),
    }
}

/// The node alone, for each partition.
fn repeated(alloc: Global, only: NodeId) -> Result<Vec<NodeId>, NoMemory>
    ensures { IfOk result (λ ids. ids.items ≡ replicate partition_count only) }
{
    let mut ids = Vec::with_capacity(alloc, usize::from(PARTITIONS))?;
    for _ in 0..PARTITIONS {
        ids.push(only)?;
    }
    Ok(ids)
}

/// The list of each partition by the ranks of the members.
fn ranked_lists(alloc: Global, m: &Members) -> Result<Vec<NodeId>, NoMemory>
    ensures { IfOk result (λ ids. ids.items ≡ lists_from m.now partition_count 0) }
{
    let ranks = Ranks::of(m);
    let mut ids = Vec::with_capacity(alloc, m.len() * usize::from(PARTITIONS))?;
    for number in 0..PARTITIONS {
        if let Some(p) = PartitionId::new(number) {
            ids.extend_from_slice(ranks.list(p).as_slice())?;
        }
    }
    Ok(ids)
}
