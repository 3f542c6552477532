//! The list of a partition, and its replicas.
ghost use Rattle.std.specs.Prelude.{◌≡◌, ◌↔◌, IsTrue, Contains};
ghost use Rattle.partition_lists.specs.Lists.{list, IsListOf, replicas, is_replica_of};

use crate::ranks::Ranks;
use cluster_types::{Members, NodeId, NodeList, PartitionId};

/// All members by their ranks in that partition.
pub fn list(m: &Members, p: PartitionId) -> NodeList
    ensures value { result ≡ list m.now p }
    ensures placed { IsListOf m.now p result }
{
    Ranks::of(m).list(p)
}

/// The first `factor` nodes of a partition's list, or all where it has fewer.
pub fn replicas(l: &NodeList, factor: u8) -> NodeList
    ensures { result ≡ replicas l.now factor }
{
    let mut first = NodeList::new();
    let count = l.len().min(usize::from(factor));
    for n in &l.as_slice()[..count] {
        first.push(*n);
    }
    first
}

/// Whether the node is among the partition's replicas.
pub fn is_replica(n: NodeId, m: &Members, p: PartitionId, factor: u8) -> bool
    ensures value { result ≡ is_replica_of n m.now p factor }
    ensures found { IsTrue result ↔ Contains (replicas (list m.now p) factor) n }
{
    replicas(&list(m, p), factor).contains(n)
}
