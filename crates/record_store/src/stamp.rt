//! The stamps of copies.
use cluster_types::ClusterKey;

/// A copy was whole under that key.
#[derive(Clone, Copy, Debug)]
pub struct Stamp {
    pub key: ClusterKey,
    /// How many writes the copy has had under the key.
    pub writes: u32,
}
