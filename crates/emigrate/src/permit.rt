//! The leave to drop a copy.
ghost use Rattle.std.specs.Prelude.{◌≡◌};
ghost use Rattle.std.specs.FinMap.{remove};
ghost use Rattle.cluster_types.specs.Copies.{without_copy};

use cluster_types::PartitionId;
use record_store::RecordStore;

/// The leave to drop the copy of a partition that is settled and of which nothing is pending. Only
/// `Emigration::permit` makes one, and `drop_copy` spends it.
#[derive(Debug, Drop)]
pub struct DropPermit {
    partition: PartitionId,
}

impl DropPermit {
    pub(crate) fn new(partition: PartitionId) -> DropPermit
        ensures { result.partition ≡ partition }
    {
        DropPermit { partition }
    }
}

/// Drops the copy of the permit's partition with its stamp, and answers the partition.
pub fn drop_copy(store: &mut RecordStore, permit: DropPermit) -> PartitionId
    ensures partition { result ≡ permit.partition }
    ensures store { store.new ≡ record store.old {
      versions = without_copy store.old.versions permit.partition;
      stamps = remove store.old.stamps permit.partition;
    } }
{
    store.clear_copy(permit.partition);
    permit.partition
}
