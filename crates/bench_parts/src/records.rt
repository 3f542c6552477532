//! The work of the records that a node hands on, and of its transactions.
ghost use Rattle.std.specs.Prelude.{◌≡◌, ◌==◌, ◌&&◌, ◌<◌, ◌-◌, ◌^◌, [], false, IfSome};
ghost use Rattle.node_rules.specs.Batches.{target};
ghost use Rattle.emigrate.specs.Going.{AreHeld};

use anyhow::{Context, Result};
use cluster_types::{
    ClusterKey, Digest, MapEntry, MapView, Members, NoMemory, NodeId, NodeList, PartitionId,
};
use conflict_order::{Body, ValueBytes, ValueFault, Version, Want};
use dup_resolve::{AckedStep, AnswerStep, Txns};
use emigrate::{AckStep, Emigration};
use record_store::RecordStore;
use std::alloc::Global;

/// How many records there are, and how many transactions.
const RECORDS: u32 = 100_000;

/// A view in which one node sends all its records to another.
#[derive(Clone, Copy)]
struct OneSends {
    from: NodeId,
    to: NodeId,
}

impl MapView for OneSends {
    ghost entry = { λ v _. record { list = []; acting = v.from; all_empty = false } };

    ghost sends_to = { λ v _ from to. (from == v.from) && (to == v.to) };

    ghost asked_by = { λ _ _ _. [] };

    fn map(&self, _: PartitionId) -> MapEntry {
        MapEntry {
            list: NodeList::new(),
            acting: self.from,
            all_empty: false,
        }
    }

    fn sends(&self, _: PartitionId, from: NodeId, to: NodeId) -> bool {
        from == self.from && to == self.to
    }

    fn asks(&self, _: PartitionId, _: NodeId) -> NodeList {
        NodeList::new()
    }
}

/// A digest whose first two bytes go over all partitions.
fn record(i: u32) -> Digest {
    let spread = i.wrapping_mul(2_654_435_761).to_le_bytes();
    let number = i.to_le_bytes();
    let mut bytes = [0; 20];
    bytes[..4].copy_from_slice(&spread);
    bytes[4..8].copy_from_slice(&number);
    Digest::new(bytes)
}

/// A version with a value of two bytes.
fn version(alloc: Global, i: u32) -> Result<Version, ValueFault> {
    let [byte, ..] = i.to_le_bytes();
    let value = ValueBytes::from_slice(alloc, &[b'v', byte])?;
    Ok(Version {
        lut: 0,
        generation: 1,
        body: Body::Value(value),
    })
}

/// A store with all records.
pub(crate) fn store(alloc: Global) -> Result<RecordStore> {
    let mut store = RecordStore::new(alloc)?;
    for i in 0..RECORDS {
        store.join_in(record(i), version(alloc, i)?)?;
    }
    Ok(store)
}

/// Sends the next batch to the member, which acknowledges it. Answers how many records it had.
fn send_next(
    alloc: Global,
    going: &mut Emigration,
    store: &RecordStore,
    to: NodeId,
) -> Result<usize, NoMemory>
    requires held { AreHeld store.now.versions going.old.targets }
    requires limit { IfSome (target going.old.targets to) (λ t. t.batches < 2 ^ 32 - 1) }
    ensures held { AreHeld store.now.versions going.new.targets }
    ensures limit { IfSome (target going.new.targets to) (λ t. t.batches < 2 ^ 32 - 1) }
{
    if going.target(to).is_none() {
        return Ok(0);
    }
    let Some(batch) = going.next_batch(alloc, to, store)? else {
        return Ok(0);
    };
    let number = batch.number;
    let count = batch.records.len();
    if number >= u32::MAX {
        return Ok(0);
    }
    going.sent(to, batch);
    match going.on_ack(to, number) {
        AckStep::Taken => Ok(count),
        AckStep::Spent => Ok(0),
    }
}

/// Sends all that is pending to the member. Answers how many records were sent.
fn send_all(
    alloc: Global,
    going: &mut Emigration,
    store: &RecordStore,
    to: NodeId,
) -> Result<u64, NoMemory>
    requires held { AreHeld store.now.versions going.old.targets }
    requires limit { IfSome (target going.old.targets to) (λ t. t.batches < 2 ^ 32 - 1) }
{
    let mut sent = 0u64;
    for _batch in 0..RECORDS {
        let count = send_next(alloc, going, store, to)?;
        if count == 0 {
            return Ok(sent);
        }
        sent = sent.wrapping_add(count as u64);
    }
    Ok(sent)
}

pub(crate) fn emigrations(
    alloc: Global,
    members: &Members,
    me: NodeId,
    store: &RecordStore,
    times: u32,
) -> Result<u64> {
    let to = *members.get(0).context("no member")?;
    let view = OneSends { from: me, to };
    let key = ClusterKey {
        round: 5,
        principal: 16,
    };
    let mut sum = 0u64;
    for _ in 0..times {
        let mut going = Emigration::begin(alloc, store, &view, members, key, me)?;
        sum = sum.wrapping_add(send_all(alloc, &mut going, store, to)?);
    }
    Ok(sum)
}

/// Opens the transactions, which await an answer of each of these nodes.
fn open_all(txns: &mut Txns, awaiting: NodeList)
    requires { txns.old.opened ≡ 0 }
{
    for i in 0..RECORDS {
        let Ok(_) = txns.begin(record(i), Want::Del, None, awaiting) else {
            return;
        };
    }
}

/// Answers each, with a version.
fn answer_all(alloc: Global, txns: &mut Txns, from: NodeId) -> Result<u64> {
    let mut resolved = 0u64;
    for t in 1..=RECORDS {
        if txns.on_answer(from, t, Some(version(alloc, t)?)) == AnswerStep::Resolved {
            resolved = resolved.wrapping_add(1);
        }
    }
    Ok(resolved)
}

/// Closes the transaction of that number, if it is open.
fn finish(txns: &mut Txns, t: u32) {
    if txns.get(t).is_some() {
        txns.finish(t);
    }
}

/// The writes are applied, acknowledged, and all transactions closed.
fn acknowledge_all(txns: &mut Txns, from: NodeId, to: NodeList) -> u64 {
    let mut done = 0u64;
    for t in 1..=RECORDS {
        txns.write_applied(t, to);
        if txns.acked(from, t) == AckedStep::Done {
            finish(txns, t);
            done = done.wrapping_add(1);
        }
    }
    done
}

pub(crate) fn transactions(alloc: Global, from: NodeId, times: u32) -> Result<u64> {
    let awaiting = NodeList::from_slice(&[from]).ok().context("no list")?;
    let mut sum = 0u64;
    for _ in 0..times {
        let mut txns = Txns::new(alloc);
        open_all(&mut txns, awaiting);
        sum = sum.wrapping_add(answer_all(alloc, &mut txns, from)?);
        sum = sum.wrapping_add(acknowledge_all(&mut txns, from, awaiting));
    }
    Ok(sum)
}
