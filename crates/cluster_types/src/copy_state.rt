//! What a node holds of a partition.
use crate::cluster_key::ClusterKey;

/// The state of a node's copy of a partition.
#[derive(Clone, Copy, Debug, PartialEq, Eq)]
pub enum CopyState {
    /// The copy has no record.
    Empty,
    /// The copy has records, and isn't known to be whole.
    Part,
    /// The copy was whole under that key.
    Whole {
        key: ClusterKey,
        /// How many writes of the list master the copy has had under that key. `NO_CLASS` for a
        /// copy of which that isn't known, and which so equals no other.
        writes: u32,
    },
}

impl CopyState {
    /// The number of writes of a copy that is in no class of equal copies.
    pub const NO_CLASS: u32 = u32::MAX;
}
