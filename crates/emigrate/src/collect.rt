//! What is pending to a member at first.
ghost use Rattle.std.specs.Prelude.{◌≡◌, ◌<◌, ◌+◌, ◌++◌, ℕ, filter, IfOk, OnOk, slice_index};
ghost use Rattle.std.specs.List.{count_by};
ghost use Rattle.cluster_types.specs.Partitions.{partition_count, partition_of};
ghost use Rattle.node_rules.specs.Batches.{target_of};
ghost use Rattle.node_rules.specs.Copies.{digests, digests_of, is_of};
ghost use Rattle.emigrate.specs.Going.{AreRising};

use crate::counts::Counts;
use crate::outgoing::Outgoing;
use cluster_types::{CopyState, Digest, MapView, NoMemory, NodeId, PARTITIONS, PartitionId};
use record_store::RecordStore;
use std::alloc::Global;
use std::collections::VecDeque;

/// How many digests are read of a copy at once.
const PAGE: usize = 1024;

/// What the node hands on to the member: all that the store holds and that the view sends to it. It
/// is counted as pending.
pub(crate) fn outgoing_to<X: MapView>(
    alloc: Global,
    store: &RecordStore,
    x: &X,
    me: NodeId,
    to: NodeId,
    counts: &mut Counts,
) -> Result<Outgoing, NoMemory>
    ensures target { IfOk result
        (λ o. o ≡ target_of (λ n d. X.sends_to x.now (partition_of d) me n) store.now.versions to) }
    ensures counts { IfOk result (λ o. (p : ℕ) → p < partition_count
        → slice_index counts.new p ≡ slice_index counts.old p + count_by (is_of p) o.pending) }
{
    let pending = digests_for(alloc, store, x, me, to)?;
    counts.add_all(&pending)?;
    Ok(Outgoing::new(to, pending))
}

/// The digests that the store holds and that the view sends to the member, in strictly rising
/// order.
fn digests_for<X: MapView>(
    alloc: Global,
    store: &RecordStore,
    x: &X,
    me: NodeId,
    to: NodeId,
) -> Result<VecDeque<Digest>, NoMemory>
    ensures digests { IfOk result (λ ds. ds.items
        ≡ filter (λ d. X.sends_to x.now (partition_of d) me to) (digests store.now.versions)) }
    ensures rising { IfOk result (λ ds. AreRising ds.items) }
{
    let mut digests = Vec::new(alloc);
    for number in 0..PARTITIONS {
        if let Some(p) = PartitionId::new(number)
            && store.state(p) != CopyState::Empty
            && x.sends(p, me, to)
        {
            add_copy(alloc, store, p, &mut digests)?;
        }
    }
    digests.sort_unstable();
    Ok(VecDeque::from_vec(digests))
}

/// Adds the digests that the store holds of the partition, in their order.
fn add_copy(
    alloc: Global,
    store: &RecordStore,
    p: PartitionId,
    digests: &mut Vec<Digest>,
) -> Result<(), NoMemory>
    ensures { OnOk result
        (digests.new.items ≡ digests.old.items ++ digests_of store.now.versions p) }
{
    let mut last: Option<Digest> = None;
    loop {
        let page = store.walk(alloc, p, last.as_ref(), PAGE)?;
        let Some(digest) = page.as_slice().last() else {
            return Ok(());
        };
        last = Some(*digest);
        digests.extend_from_slice(page.as_slice())?;
    }
}
