//! A transaction.
ghost use Rattle.std.specs.Prelude.{◌≡◌};
ghost use Rattle.dup_resolve.specs.Open as table;

use cluster_types::{Digest, NodeId, NodeList};
use conflict_order::{Version, Want};

/// A request that was accepted and isn't closed.
#[derive(Debug, Drop)]
pub struct Txn {
    /// Its number at the node in the view, at least 1.
    pub id: u32,
    pub want: Want,
    pub digest: Digest,
    /// Whose answer is missing before the write is applied, and whose acknowledgement afterwards;
    /// in the order of the partition's list.
    pub awaiting: NodeList,
    /// The join of the versions that are known: the node's own and those of the answers.
    pub best: Option<Version>,
    /// Whether its write was applied.
    pub applied: bool,
}

impl Txn {
    /// Whether an answer of that node is awaited.
    pub fn awaits_answer(&self, from: NodeId) -> bool
        ensures { result ≡ table.txn_awaits_answer self.now from }
    {
        !self.applied && self.awaiting.contains(from)
    }

    /// Whether an acknowledgement of that node is awaited.
    pub fn awaits_ack(&self, from: NodeId) -> bool
        ensures { result ≡ table.txn_awaits_ack self.now from }
    {
        self.applied && self.awaiting.contains(from)
    }

    /// Whether no other than that node is awaited.
    pub fn is_last_awaited(&self, from: NodeId) -> bool
        ensures { result ≡ table.txn_awaits_only self.now from }
    {
        self.awaiting.without(from).is_empty()
    }
}
