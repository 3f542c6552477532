//! A member's copies.
use cluster_types::{NodeId, StateRow};

/// The states of a member's copies as they were when it entered its view.
#[derive(Debug, Drop)]
pub struct MemberRow {
    pub node: NodeId,
    pub row: StateRow,
}
