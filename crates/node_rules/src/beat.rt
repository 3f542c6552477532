//! What a heartbeat tells of its sender.
use cluster_types::{ClusterKey, NodeList, Role};

/// What a heartbeat tells of its sender.
#[derive(Clone, Copy, Debug, PartialEq)]
pub struct Beat {
    /// The sender's view, or `NONE`.
    pub view: ClusterKey,
    /// The key that the sender promised last, or `NONE`.
    pub promised: ClusterKey,
    /// Whom the sender hears, in strictly descending order.
    pub hears: NodeList,
    pub role: Role,
}
