//! Requests that a node passed on.
use cluster_types::{Digest, NodeId};
use conflict_order::Want;

/// A request that a node passed on, and that isn't replied to.
#[derive(Debug, Drop)]
pub struct Passed {
    pub digest: Digest,
    pub want: Want,
    /// The node to which it was passed on.
    pub to: NodeId,
}

/// What became of a reply to a request that was passed on.
#[derive(Clone, Copy, Debug, PartialEq, Eq)]
pub enum ReplyStep {
    /// The request has its reply, and is closed.
    Taken,
    /// No request of that number waits for that node.
    Spent,
}
