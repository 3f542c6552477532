//! What a finished exchange tells of the partitions.
ghost use Rattle.std.specs.Prelude.{◌≡◌, ℕ, Bool, List};
ghost use Rattle.cluster_types.specs.declared.map_view.MapEntry.{MapEntry};

use crate::node_id::NodeId;
use crate::node_list::NodeList;
use crate::partition::PartitionId;

/// Who serves a partition.
#[derive(Clone, Copy, Debug, PartialEq, Eq)]
pub struct MapEntry {
    /// The members in the order of the partition's list. The first one is its list master.
    pub list: NodeList,
    /// The node that acts on the partition.
    pub acting: NodeId,
    /// Whether no member's copy had a record when the view was entered.
    pub all_empty: bool,
}

/// The map of a view as its members' copies made it. No call takes memory.
pub trait MapView {
    /// The entry of a partition.
    ghost entry: { Self → ℕ → MapEntry };

    /// Whether a node sends its copy of a partition to another.
    ghost sends_to: { Self → ℕ → ℕ → ℕ → Bool };

    /// Whom a node asks for their versions of a record of a partition.
    ghost asked_by: { Self → ℕ → ℕ → List ℕ };

    /// Who serves the partition.
    fn map(&self, p: PartitionId) -> MapEntry
        ensures { result ≡ entry self.now p };

    /// Whether `from` sends its copy of the partition to `to`.
    fn sends(&self, p: PartitionId, from: NodeId, to: NodeId) -> bool
        ensures { result ≡ sends_to self.now p from to };

    /// The nodes that `by` asks before it answers a request on the partition, in list order.
    fn asks(&self, p: PartitionId, by: NodeId) -> NodeList
        ensures { result ≡ asked_by self.now p by };
}
