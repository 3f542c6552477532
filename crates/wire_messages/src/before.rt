//! What stands before a member of a list.
use cluster_types::NodeId;

/// What the members before a member say of it.
#[derive(Clone, Copy, Debug)]
pub struct Before {
    /// The id of the last member, if there is one.
    pub id: Option<NodeId>,
    /// Whether all roles are plain.
    pub plain: bool,
}
