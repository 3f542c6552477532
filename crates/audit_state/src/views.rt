//! What is known of a view.
ghost use Rattle.std.specs.Prelude.{◌≡◌, [], false, nat_lt, slice_get};
ghost use Rattle.partition_lists.specs.Lists.{list};
ghost use Rattle.audit_state.specs.Keys.{key_pair};
ghost use Rattle.audit_state.specs.Views.{IsFreshView, entry_line, has_exchanged, has_every_entry};
ghost use Rattle.audit_state.specs.Written.{stand_in, stand_of};

use cluster_types::{ClusterKey, Members, NodeId, NodeList, PartitionId};
use partition_lists::Ranks;
use std::alloc::Global;
use std::collections::HashMap;

/// A member entered a view.
#[derive(Clone, Copy, Debug)]
pub struct Entry {
    pub node: NodeId,
    /// The place of its `enter` line, from 0.
    pub line: usize,
}

/// The writes of a member under one transaction number.
#[derive(Drop)]
pub struct Write {
    /// The `done` line stands.
    pub done: bool,
    /// The partition of each of its open writes as list master.
    pub open_in: Vec<PartitionId>,
}

/// A partition in a view.
#[derive(Drop)]
pub struct Partition {
    /// The list master's `settled` line stands.
    pub settled: bool,
    /// How many writes of the list master are open.
    pub open: usize,
    /// The records that were applied in it under the view's key, each once.
    pub written: Vec<usize>,
    /// It became settled while a write was open: no record of it was tried.
    pub untried: bool,
    /// The records that changed while a write was open.
    pub suspects: Vec<usize>,
}

/// A view that some node entered.
#[derive(Drop)]
pub struct View {
    pub key: ClusterKey,
    pub members: Members,
    pub ranks: Ranks,
    /// The members that have entered, each once.
    pub entered: Vec<Entry>,
    /// The members that finished exchange, each once.
    pub exchanged: Vec<NodeId>,
    /// By the number of each record that was applied under the key, the place of the newest version.
    pub applied: HashMap<usize, usize>,
    /// The records in `applied`.
    pub written: Vec<usize>,
    /// The partitions whose list master's `settled` line stands.
    pub settled: Vec<PartitionId>,
    /// By member and transaction.
    pub writes: HashMap<(u16, u32), Write>,
    /// By the number of each partition.
    pub partitions: HashMap<u16, Partition>,
}

impl Partition {
    pub fn new(alloc: Global) -> Partition
        ensures written { result.written.items ≡ [] }
        ensures stand { stand_in (Some result) ≡ stand_in None }
    {
        Partition {
            settled: false,
            open: 0,
            written: Vec::new(alloc),
            untried: false,
            suspects: Vec::new(alloc),
        }
    }
}

impl Write {
    /// Neither a write nor its `done` line stands.
    pub fn new(alloc: Global) -> Write
        ensures done { result.done ≡ false }
        ensures partitions { result.open_in.items ≡ [] }
    {
        Write {
            done: false,
            open_in: Vec::new(alloc),
        }
    }
}

impl View {
    pub fn new(alloc: Global, key: ClusterKey, members: Members) -> View
        ensures { IsFreshView key members result }
    {
        View {
            key,
            members,
            ranks: Ranks::of(&members),
            entered: Vec::new(alloc),
            exchanged: Vec::new(alloc),
            applied: HashMap::new(alloc),
            written: Vec::new(alloc),
            settled: Vec::new(alloc),
            writes: HashMap::new(alloc),
            partitions: HashMap::new(alloc),
        }
    }

    /// The place of the node's `enter` line.
    pub fn entry_of(&self, node: NodeId) -> Option<usize>
        ensures { result ≡ entry_line self.now node }
    {
        self.entered.iter().find(|e| e.node == node).map(|e| e.line)
    }

    /// Whether every member has entered.
    pub fn have_all_entered(&self) -> bool
        ensures { result ≡ has_every_entry self.now }
    {
        self.members
            .as_slice()
            .iter()
            .all(|m| self.entry_of(m.id).is_some())
    }

    /// The list of the partition.
    pub fn list(&self, p: PartitionId) -> NodeList
        ensures { result ≡ list self.now.ranks p }
    {
        self.ranks.list(p)
    }

    /// The list master of the partition.
    pub fn master(&self, p: PartitionId) -> Option<NodeId>
        ensures { result ≡ slice_get (list self.now.ranks p) 0 }
    {
        self.list(p).get(0).copied()
    }

    /// Whether the member finished exchange.
    pub fn has_exchanged(&self, node: NodeId) -> bool
        ensures { result ≡ has_exchanged self.now node }
    {
        self.exchanged.contains(&node)
    }

    /// Whether the list master's `settled` line of the partition stands.
    pub fn has_settled_line(&self, p: PartitionId) -> bool
        ensures { result ≡ (stand_of self.now p).settled }
    {
        match self.partitions.get(&p.number()) {
            None => false,
            Some(partition) => partition.settled,
        }
    }

    /// Whether a write of the list master is open in the partition.
    pub fn is_open(&self, p: PartitionId) -> bool
        ensures { result ≡ nat_lt 0 (stand_of self.now p).open_writes }
    {
        match self.partitions.get(&p.number()) {
            None => false,
            Some(partition) => partition.open > 0,
        }
    }
}

/// What the views are keyed by.
pub fn key_pair(key: ClusterKey) -> (u64, u16)
    ensures { result ≡ key_pair key }
{
    (key.round, key.principal)
}
