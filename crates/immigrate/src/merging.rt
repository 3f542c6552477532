//! What a batch makes of a store.
ghost use Rattle.std.specs.Prelude.{◌≡◌, ◌++◌, ◌∷◌, [], if◌then◌else◌, IfOk, OnOk, OnErr};
ghost use Rattle.record_store.specs.Store.{HasRoom, HoldsTheSame, KeepsRoom};
ghost use Rattle.node_rules.specs.Merging.{Record, is_newer_than_held, joined_all, newer_records};
ghost use Rattle.immigrate.specs.Digests.{IsRising, record_digests};

use cluster_types::{Digest, DigestList, NoMemory};
use conflict_order::Version;
use record_store::{Joined, RecordStore};
use std::alloc::Global;
use wire_messages::{Batch, Records};

/// What a batch brought.
#[derive(Debug, Drop)]
pub struct Merged {
    /// Its records that were newer than what was held of their digests, in the batch's order.
    pub newer: Records,
    /// The batch's number.
    pub number: u32,
}

/// Joins each record of a batch, whose digests rise strictly, into the store. It joins all of them
/// or, for want of memory, none.
pub fn on_batch(alloc: Global, store: &mut RecordStore, batch: &Batch) -> Result<Merged, NoMemory>
    requires { IsRising batch.now.records }
    ensures newer { IfOk result
        (λ m. m.newer ≡ newer_records store.old.by store.old.versions batch.now.records) }
    ensures number { IfOk result (λ m. m.number ≡ batch.now.number) }
    ensures versions { OnOk result
        (store.new.versions ≡ joined_all store.old.by store.old.versions batch.now.records) }
    ensures stamps { store.new.stamps ≡ store.old.stamps }
    ensures policy { store.new.by ≡ store.old.by }
    ensures err { OnErr result (HoldsTheSame store.old store.new) }
{
    let merged = plan_batch(alloc, store, batch)?;
    let planned = Merged {
        newer: merged.newer.copy(alloc)?,
        number: merged.number,
    };
    merge_planned(store, planned);
    Ok(merged)
}

/// What `on_batch` would answer. The records and stamps stay as they are, and there is room for
/// each record of the answer, which together make of the store what the whole batch would.
pub fn plan_batch(alloc: Global, store: &mut RecordStore, batch: &Batch) -> Result<Merged, NoMemory>
    requires { IsRising batch.now.records }
    ensures newer { IfOk result
        (λ m. m.newer ≡ newer_records store.old.by store.old.versions batch.now.records) }
    ensures number { IfOk result (λ m. m.number ≡ batch.now.number) }
    ensures joined { IfOk result (λ m. joined_all store.old.by store.old.versions m.newer
        ≡ joined_all store.old.by store.old.versions batch.now.records) }
    ensures room { IfOk result (λ m. HasRoom (record_digests m.newer) store.new.spare) }
    ensures same { HoldsTheSame store.old store.new }
    ensures kept { KeepsRoom store.old.spare store.new.spare }
{
    let newer = newer_of(alloc, store, &batch.records)?;
    store.reserve(&digest_list(alloc, &newer)?)?;
    Ok(Merged {
        newer,
        number: batch.number,
    })
}

/// Joins the records that `plan_batch` found newer into the store, which has room for them.
pub fn merge_planned(store: &mut RecordStore, m: Merged)
    requires { HasRoom (record_digests m.newer) store.old.spare }
    ensures versions { store.new.versions ≡ joined_all store.old.by store.old.versions m.newer }
    ensures stamps { store.new.stamps ≡ store.old.stamps }
    ensures policy { store.new.by ≡ store.old.by }
{
    let mut newer = m.newer;
    while let Some((digest, version)) = newer.take_first() {
        // There is room for it.
        let _ = store.join_in(digest, version);
    }
}

/// The records that are newer than what the store holds of their digests, which rise strictly.
fn newer_of(alloc: Global, store: &RecordStore, records: &Records) -> Result<Records, NoMemory>
    requires { IsRising records.now }
    ensures { IfOk result (λ rs. rs ≡ newer_records store.now.by store.now.versions records.now) }
{
    let mut newer = Records::new(alloc);
    for i in 0..records.len() {
        if let Some((digest, version)) = records.get(i) {
            add_newer(alloc, store, digest, version, &mut newer)?;
        }
    }
    Ok(newer)
}

/// Adds the record if it is newer than what the store holds of its digest.
fn add_newer(
    alloc: Global,
    store: &RecordStore,
    digest: &Digest,
    version: &Version,
    newer: &mut Records,
) -> Result<(), NoMemory>
    ensures { let r : Record = (digest.now, version.now) in
        OnOk result
        (newer.new
        ≡ newer.old
        ++ (if is_newer_than_held store.now.by store.now.versions r then r ∷ [] else [])) }
{
    match store.would_join(digest, version) {
        Joined::Newer => newer.push((*digest, version.copy(alloc)?)),
        Joined::Kept => Ok(()),
    }
}

/// The digests of the records.
fn digest_list(alloc: Global, records: &Records) -> Result<DigestList, NoMemory>
    ensures { IfOk result (λ ds. ds ≡ record_digests records.now) }
{
    let mut digests = DigestList::new(alloc);
    for i in 0..records.len() {
        if let Some((digest, _)) = records.get(i) {
            digests.push(*digest)?;
        }
    }
    Ok(digests)
}
