//! What is known of a node.
ghost use Rattle.audit_state.specs.Nodes.{IsFreshNode};

use cluster_types::ClusterKey;
use std::alloc::Global;

/// A declared node.
#[derive(Drop)]
pub struct Node {
    /// The key of its view.
    pub view: Option<ClusterKey>,
    pub clock: u64,
    /// The records that changed since it entered a view last.
    pub stay: Vec<usize>,
    /// The places of its `exchanged` lines.
    pub exchanged: Vec<usize>,
}

impl Node {
    pub fn new(alloc: Global) -> Node
        ensures { IsFreshNode result }
    {
        Node {
            view: None,
            clock: 0,
            stay: Vec::new(alloc),
            exchanged: Vec::new(alloc),
        }
    }
}
