//! Planned steps of a view.
use crate::live::Live;
use cluster_types::{Boxed, Digest, NodeId, NodeList, Row4096, StateRow};
use conflict_order::{Version, Want};
use emigrate::Emigration;
use exchange::ServedTable;
use immigrate::Merged;
use write_path::Seen;

/// What a planned step changes of a view and of the node's store, with all the memory that this
/// takes.
#[derive(Drop)]
pub enum ViewStep {
    /// A row comes, and others are missing.
    Row {
        from: NodeId,
        row: StateRow,
    },
    /// The last row comes.
    LastRow(LastRow),
    /// Records of a batch are joined in.
    Merged(Merged),
    /// A batch is acknowledged.
    BatchAcked {
        from: NodeId,
        number: u32,
    },
    /// A Progress comes.
    Progressed(Progressed),
    /// A write of another node comes.
    Replicated(Replicated),
    /// A write is acknowledged, and by others it isn't yet.
    WriteAcked {
        from: NodeId,
        transaction: u32,
    },
    /// A write is acknowledged by the last one.
    Done {
        transaction: u32,
    },
    /// An answer comes, and others are missing.
    Answered {
        from: NodeId,
        transaction: u32,
        version: Option<Version>,
    },
    /// The last answer comes.
    Resolved {
        from: NodeId,
        transaction: u32,
        version: Option<Version>,
        outcome: Outcome,
    },
    /// A transaction opens, and is resolved at once where there is an outcome.
    Opened {
        digest: Digest,
        want: Want,
        best: Option<Version>,
        asked: NodeList,
        outcome: Option<Outcome>,
    },
}

/// The last row of a view, and once it is there who serves each partition, and what is handed on.
/// `View::plan_last_row` makes it.
#[derive(Drop)]
pub struct LastRow {
    pub(crate) from: NodeId,
    pub(crate) row: StateRow,
    pub(crate) served: ServedTable,
    pub(crate) emigration: Emigration,
    /// Room for the live partitions.
    pub(crate) live: Live,
}

/// The rows of a Progress.
#[derive(Drop)]
pub struct Progressed {
    /// Its sender, another member.
    pub from: NodeId,
    /// The partitions at which the sender is done.
    pub done: Boxed<Row4096>,
    /// Those that it knows handed over.
    pub handed: Boxed<Row4096>,
    /// Those that it knows settled.
    pub settled: Boxed<Row4096>,
}

/// A write of another node.
#[derive(Drop)]
pub struct Replicated {
    /// The digest of its record.
    pub digest: Digest,
    /// It, where it is newer than what is held.
    pub newer: Option<Version>,
    /// Its number, where the list master sent it.
    pub counted: Option<Counted>,
}

/// The number of a write of the list master, and its set if it is the partition's first.
/// `View::plan_count` makes it.
#[derive(Drop)]
pub struct Counted {
    pub(crate) nth: u32,
    pub(crate) first: Seen,
}

/// How a transaction is resolved.
#[derive(Drop)]
pub enum Outcome {
    /// A read is answered and closed.
    Read,
    /// A write makes this version.
    Write(Writing),
}

/// A write that is applied.
#[derive(Drop)]
pub struct Writing {
    /// The node's clock as it is applied.
    pub clock: u64,
    /// The version for the store.
    pub version: Version,
    /// The same, to be sent again.
    pub kept: Version,
    /// Who is to acknowledge it. With nobody the transaction is closed.
    pub to: NodeList,
}
