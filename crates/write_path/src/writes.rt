//! How writes are made, applied and taken.
ghost use Rattle.std.specs.Prelude.{◌≡◌, ◌∷◌, [], Some, IfOk, OnOk, OnErr, IfSome, IsSomeAnd};
ghost use Rattle.std.specs.Option.{option_copied};
ghost use Rattle.std.specs.FinMap as finite;
ghost use Rattle.conflict_order.specs.Contents.{joined};
ghost use Rattle.conflict_order.specs.Next.{next};
ghost use Rattle.cluster_types.specs.Partitions.{partition_of};
ghost use Rattle.record_store.specs.Store.{HasRoom, UsesRoom, answer};
ghost use Rattle.dup_resolve.specs.Open.{HasOpen, change_txn, txn_digest_at, txn_at, txn_with_write};
ghost use Rattle.write_path.specs.Writes.{IsToWrite, IsWrite, body_of, records_with, version_in};

use cluster_types::{Digest, NoMemory, NodeList};
use conflict_order::{Body, Version, Want};
use dup_resolve::Txns;
use record_store::{Joined, RecordStore};
use std::alloc::Global;

/// The version that a write at this time of the clock makes of the best one, which may be none.
pub fn next_version(best: Option<&Version>, clock: u64, body: Body) -> Version
    ensures { result ≡ next (option_copied best.entry) clock body }
{
    match best {
        None => Version {
            lut: clock,
            generation: 1,
            body,
        },
        Some(best) => Version {
            lut: clock.max(best.lut),
            generation: best.generation.saturating_add(1),
            body,
        },
    }
}

/// Applies the write of the transaction, which is open, a put or a delete that isn't applied, and
/// awaits nobody: the version that it makes is joined into the store, and the nodes `to` are to
/// acknowledge it. Answers that version.
pub fn apply(
    alloc: Global,
    store: &mut RecordStore,
    txns: &mut Txns,
    t: u32,
    clock: u64,
    to: NodeList,
) -> Result<Version, NoMemory>
    requires { IsSomeAnd (txn_at txns.old.running t) IsToWrite }
    ensures version { IfOk result (λ v. Some v ≡ version_in clock (txn_at txns.old.running t)) }
    ensures versions { IfOk result (λ v. store.new.versions
        ≡ records_with store.old.by store.old.versions (txn_at txns.old.running t) v) }
    ensures stamps { store.new.stamps ≡ store.old.stamps }
    ensures policy { store.new.by ≡ store.old.by }
    ensures room { OnOk result (IfSome (txn_digest_at txns.old.running t)
        (λ d. UsesRoom (partition_of d) store.old.spare store.new.spare)) }
    ensures applied { OnOk result
        (HasOpen (change_txn txns.old.running t (txn_with_write to)) txns.old txns.new) }
    ensures err { OnErr result (store.new ≡ store.old) }
    ensures none_applied { OnErr result (txns.new ≡ txns.old) }
{
    let Some(txn) = txns.get(t) else {
        unreachable!()
    };
    let body = body_written(alloc, &txn.want)?;
    let version = next_version(txn.best.as_ref(), clock, body);
    store.join_in(txn.digest, version.copy(alloc)?)?;
    txns.write_applied(t, to);
    Ok(version)
}

/// Does what `apply` does with that version, where the store has room for its digest.
pub fn apply_planned(
    store: &mut RecordStore,
    txns: &mut Txns,
    t: u32,
    clock: u64,
    v: Version,
    to: NodeList,
)
    requires write { IsSomeAnd (txn_at txns.old.running t) IsToWrite }
    requires version { Some v ≡ version_in clock (txn_at txns.old.running t) }
    requires room { IfSome (txn_digest_at txns.old.running t)
        (λ d. HasRoom (d ∷ []) store.old.spare) }
    ensures versions { store.new.versions
        ≡ records_with store.old.by store.old.versions (txn_at txns.old.running t) v }
    ensures stamps { store.new.stamps ≡ store.old.stamps }
    ensures policy { store.new.by ≡ store.old.by }
    ensures room { IfSome (txn_digest_at txns.old.running t)
        (λ d. UsesRoom (partition_of d) store.old.spare store.new.spare) }
    ensures applied { HasOpen
        (change_txn txns.old.running t (txn_with_write to)) txns.old txns.new }
{
    let Some(txn) = txns.get(t) else {
        unreachable!()
    };
    // There is room for it.
    let _ = store.join_in(txn.digest, v);
    txns.write_applied(t, to);
}

/// Takes a write of another node: the greater version stays.
pub fn on_repl(
    alloc: Global,
    store: &mut RecordStore,
    d: Digest,
    v: &Version,
) -> Result<Joined, NoMemory>
    ensures answer { IfOk result
        (λ became. became ≡ answer store.old.by v.now (finite.get store.old.versions d)) }
    ensures versions { OnOk result
        (store.new.versions ≡ joined store.old.by store.old.versions d v.now) }
    ensures stamps { store.new.stamps ≡ store.old.stamps }
    ensures policy { store.new.by ≡ store.old.by }
    ensures room { UsesRoom (partition_of d) store.old.spare store.new.spare }
    ensures err { OnErr result (store.new ≡ store.old) }
{
    store.join_in(d, v.copy(alloc)?)
}

/// The body that a write of that want, a put or a delete, gives its version.
fn body_written(alloc: Global, want: &Want) -> Result<Body, NoMemory>
    requires { IsWrite want.now }
    ensures { IfOk result (λ b. b ≡ body_of want.now) }
{
    match want {
        Want::Get => unreachable!(),
        Want::Put(value) => Ok(Body::Value(value.copy(alloc)?)),
        Want::Del => Ok(Body::Tombstone),
    }
}
