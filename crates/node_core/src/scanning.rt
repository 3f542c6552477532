//! What a node shows of a partition to those who scan it.
ghost use Rattle.std.specs.Prelude.{◌≡◌, ℕ, true, find, option_map, IfOk, Some};
ghost use Rattle.std.specs.Option.{option_copied};
ghost use Rattle.std.specs.Result.{result_err};
ghost use Rattle.cluster_types.specs.Copies.{is_of};
ghost use Rattle.node_rules.specs.Batches as batches;
ghost use Rattle.node_rules.specs.Facts.{Facts, list_at};
ghost use Rattle.node_rules.specs.Stamps.{applies_at};
ghost use Rattle.node_rules.specs.Standing.{acts};
ghost use Rattle.node_view.specs.Views.{IsInView};
ghost use Rattle.request_rules.specs.Pages.{acting_scan_refusal, page_of, scan_refusal, scan_refusal_after};

use crate::node::Node;
use cluster_types::{Digest, NoMemory, PartitionId, partition_of};
use dup_resolve::Txns;
use journal_lines::Refusal;
use node_view::View;
use record_store::RecordStore;
use request_rules::Page;
use std::alloc::Global;
use wire_messages::{Records, ScanRefusal};

impl Node {
    /// How many writes of the partition the node, which runs, applied in its view; or why it has no
    /// page of the partition: the first cause that holds.
    pub fn scan_state(&self, p: PartitionId) -> Result<u32, ScanRefusal>
        requires { self.now.now.up ≡ true }
        ensures refused { result_err result ≡ scan_refusal self.now.now p }
        ensures writes { IfOk result (λ n. n ≡ applies_at self.now.now.writes p) }
    {
        match self.mapped() {
            Err(cause) => Err(unserved(cause)),
            Ok(view) => match acting_refusal(view, p) {
                Some(cause) => Err(cause),
                None => Ok(view.applies_at(p)),
            },
        }
    }

    /// The least records that the node holds of the partition, or of those above the digest, at most
    /// so many; and whether more follow.
    pub fn page(
        &self,
        alloc: Global,
        p: PartitionId,
        after: Option<&Digest>,
        most: u8,
    ) -> Result<Page, NoMemory>
        ensures { IfOk result
            (λ page. page ≡ page_of self.now.now p (option_copied after.entry) most) }
    {
        let most = usize::from(most);
        // One more is looked for, which tells whether records follow.
        let digests = self.store.walk(alloc, p, after, most + 1)?;
        let shown = digests.len().min(most);
        Ok(Page {
            records: records_of(alloc, &self.store, &digests.as_slice()[..shown])?,
            more: digests.len() > most,
        })
    }
}

/// Why a node has no page that has no map for that cause.
fn unserved(cause: Refusal) -> ScanRefusal
    ensures { (f : Facts) → (p : ℕ) → Some result ≡ scan_refusal_after f p (Some cause) }
{
    match cause {
        Refusal::Down | Refusal::NoView => ScanRefusal::NoView,
        Refusal::Exchanging(missing) => ScanRefusal::Exchanging(missing),
        Refusal::NotMaster(named) => ScanRefusal::NotMaster(named),
        Refusal::Busy(transaction) => ScanRefusal::Open(transaction),
    }
}

/// Why a node with a map has no page of the partition: it doesn't act, it doesn't know the partition
/// settled, or a transaction is open on it.
fn acting_refusal(view: &View, p: PartitionId) -> Option<ScanRefusal>
    requires { view.now.exchange.exchanged ≡ true }
    ensures { (f : Facts) → IsInView f view.now
        → result ≡ acting_scan_refusal f p (acts f (list_at f p) p) }
{
    if !view.acts(p) {
        return Some(ScanRefusal::NotMaster(view.named(p)));
    }
    if !view.knows_settled(p) {
        return Some(ScanRefusal::NotSettled);
    }
    Some(ScanRefusal::Open(first_open(view.txns(), p)?))
}

/// The least number of a transaction that is open on the partition.
fn first_open(txns: &Txns, p: PartitionId) -> Option<u32>
    ensures { result ≡ option_map (λ t. t.id) (find (λ t. is_of p t.digest) txns.now.running) }
{
    if !txns.busy_on(p) {
        return None;
    }
    let open = txns.iter().find(|t| partition_of(&t.digest) == p)?;
    Some(open.id)
}

/// The records of these digests, as the store holds them.
fn records_of(alloc: Global, store: &RecordStore, digests: &[Digest]) -> Result<Records, NoMemory>
    ensures { IfOk result (λ rs. rs ≡ batches.records_of store.now.versions digests.now) }
{
    let mut records = Records::new(alloc);
    for digest in digests {
        if let Some(version) = store.get(digest) {
            records.push((*digest, version.copy(alloc)?))?;
        }
    }
    Ok(records)
}
