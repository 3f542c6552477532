//! What happens in a world, one step at a time.
use cluster_types::{Boxed, Digest, Groups, NodeId, PartitionId};
use conflict_order::ValueBytes;

/// What happens in one step: one of a script's commands, or the end of its rounds.
#[derive(Debug, Drop)]
pub enum Event {
    /// The node's clock is set.
    Clock {
        node: NodeId,
        time: u64,
    },
    /// The network is divided. Every declared node stands in one of the groups.
    Groups {
        groups: Boxed<Groups>,
    },
    /// The node ticks.
    Tick {
        node: NodeId,
    },
    /// The node is stopped.
    Stop {
        node: NodeId,
    },
    /// The node is started.
    Start {
        node: NodeId,
    },
    /// A request at the node that writes a value.
    Put {
        node: NodeId,
        digest: Digest,
        value: ValueBytes,
    },
    /// A request at the node that reads.
    Get {
        node: NodeId,
        digest: Digest,
    },
    /// A request at the node that deletes.
    Del {
        node: NodeId,
        digest: Digest,
    },
    /// The client's request that writes a value, at the node that its table names.
    ClientPut {
        digest: Digest,
        value: ValueBytes,
    },
    /// The client's request that reads.
    ClientGet {
        digest: Digest,
    },
    /// The client's request that deletes.
    ClientDel {
        digest: Digest,
    },
    /// The client asks the node for its table.
    Ask {
        node: NodeId,
    },
    /// The message of that number is delivered.
    Deliver {
        message: u64,
    },
    /// The message is delivered and kept in flight.
    Repeat {
        message: u64,
    },
    /// The message is lost.
    Lose {
        message: u64,
    },
    /// So many of the message's first bytes are delivered.
    Cut {
        message: u64,
        length: u64,
    },
    /// The node shows its map from one partition to another, which isn't below it.
    Map {
        node: NodeId,
        from: PartitionId,
        to: PartitionId,
    },
    /// The list of a partition over all declared nodes is shown.
    Place {
        partition: PartitionId,
    },
    /// A key's digest and partition are shown.
    Hash {
        digest: Digest,
    },
    /// The node shows what its store holds.
    Show {
        node: NodeId,
        digest: Digest,
    },
    /// The node is marked as one that is about to leave.
    Quiesce {
        node: NodeId,
    },
    /// That mark is taken away.
    Unquiesce {
        node: NodeId,
    },
    /// A request at the node that reads, passed on where the node doesn't act.
    ProxyGet {
        node: NodeId,
        digest: Digest,
    },
    /// A request at the node that writes a value, passed on where the node doesn't act.
    ProxyPut {
        node: NodeId,
        digest: Digest,
        value: ValueBytes,
    },
    /// A request at the node that deletes, passed on where the node doesn't act.
    ProxyDel {
        node: NodeId,
        digest: Digest,
    },
    /// Each open request that the node passed on is passed on again.
    ProxyAgain {
        node: NodeId,
    },
    /// The client's request that reads, sent as a message.
    CallGet {
        digest: Digest,
    },
    /// The client's request that writes a value, sent as a message.
    CallPut {
        digest: Digest,
        value: ValueBytes,
    },
    /// The client's request that deletes, sent as a message.
    CallDel {
        digest: Digest,
    },
    /// The client's request of that number is sent again.
    CallAgain {
        call: u64,
    },
    /// The client begins to read a whole partition.
    Scan {
        partition: PartitionId,
    },
    /// The client asks for the next page of the scan of that number.
    ScanNext {
        scan: u64,
    },
    /// The world has come to be calm after so many rounds.
    Calmed {
        rounds: u64,
    },
}
