//! What is due of a transaction whose best version is known.
ghost use Rattle.std.specs.Prelude.{◌≡◌, ◌<◌, ◌+◌, true, Some, IsSome, IfOk, OnOk};
ghost use Rattle.std.specs.FinMap as finite;
ghost use Rattle.std.specs.Option.{ForSome, option_copied};
ghost use Rattle.wire_messages.specs.Keys.{IsKeyField};
ghost use Rattle.wire_messages.specs.Numbers.{IsNumber};
ghost use Rattle.wire_messages.specs.Requests.{IsWant};
ghost use Rattle.wire_messages.specs.Versions.{IsDigest, IsOptionVersion, IsVersion};
ghost use Rattle.record_store.specs.Store.{HoldsTheSame};
ghost use Rattle.node_rules.specs.Facts.{Facts};
ghost use Rattle.node_steps.specs.Ranges.{IsResolvingField};
ghost use Rattle.node_steps.specs.Resolvings.{due_asking, due_opening, due_outcome, due_write, opened_step, outcome_if_resolved, outcome_of, repl_version, writing_of};
ghost use Rattle.node_view.specs.Rooms.{HasRoomForOutcome, HasRoomIn};
ghost use Rattle.node_steps.specs.Spelled.{then_effects, spelled, with_lines, write_lines};
ghost use Rattle.node_view.specs.Views.{IsInView, IsNodeInView, IsSame, viewed_key};
ghost use Rattle.node_steps.specs.Viewing.{HasNumbers};

use crate::effects::Effects;
use cluster_types::{Boxed, Digest, NoMemory, NodeList, partition_of};
use conflict_order::{Body, Version, Want};
use journal_lines::Line;
use node_view::{Outcome, View, ViewStep, Writing};
use record_store::RecordStore;
use std::alloc::Global;
use wire_messages::Message;
use write_path::next_version;

/// A transaction of which all answers are there.
#[derive(Drop)]
pub struct Resolving {
    pub transaction: u32,
    pub digest: Digest,
    pub want: Want,
    pub best: Option<Version>,
    pub clock: u64,
}

impl Resolving {
    /// An equal one.
    pub(crate) fn copy(&self, alloc: Global) -> Result<Resolving, NoMemory>
        ensures { IfOk result (λ r. r ≡ self.now) }
    {
        Ok(Resolving {
            transaction: self.transaction,
            digest: self.digest,
            want: self.want.copy(alloc)?,
            best: copy_of(alloc, self.best.as_ref())?,
            clock: self.clock,
        })
    }
}

/// Opens the view's next transaction: its number, the step and what is told of it. Room is made for
/// it.
pub fn plan_opened(
    alloc: Global,
    store: &mut RecordStore,
    view: &mut View,
    digest: Digest,
    want: Want,
    clock: u64,
) -> Result<(u32, ViewStep, Effects), NoMemory>
    requires counts { HasNumbers view.old }
    requires key { IsKeyField (viewed_key view.old) }
    requires exchanged { view.old.exchange.exchanged ≡ true }
    requires digest { IsDigest digest }
    requires want { IsWant want }
    requires held { IsOptionVersion (finite.get store.old.versions digest) }
    ensures number { IfOk result (λ r. r.0 ≡ view.old.transactions.opened + 1) }
    ensures step { IfOk result (λ r. (f : Facts) → IsNodeInView f view.old store.old
        → r.1 ≡ opened_step f view.old clock digest want) }
    ensures effects { IfOk result (λ r. (f : Facts) → IsNodeInView f view.old store.old
        → r.2 ≡ spelled (due_opening f clock digest want)) }
    ensures room { IfOk result (λ r. HasRoomIn view.new store.new.spare r.1) }
    ensures kept { HoldsTheSame store.old store.new }
    ensures same { IsSame view.old view.new }
{
    let (transaction, asked) = view.plan_opening(&digest)?;
    let mut out = Effects::new(alloc);
    out.lines.push(Line::Opened {
        node: view.me(),
        key: view.key(),
        transaction,
        digest,
        action: want.action(),
    })?;
    let opening = Resolving {
        transaction,
        digest,
        want,
        best: copy_of(alloc, store.get(&digest))?,
        clock,
    };
    let outcome = plan_asking(alloc, store, view, &opening, &asked, &mut out)?;
    let Resolving { want, best, .. } = opening;
    let step = ViewStep::Opened {
        digest,
        want,
        best,
        asked,
        outcome,
    };
    Ok((transaction, step, out))
}

/// A transaction that opens asks these nodes. With nobody to ask it is resolved at once.
fn plan_asking(
    alloc: Global,
    store: &mut RecordStore,
    view: &mut View,
    opening: &Resolving,
    asked: &NodeList,
    out: &mut Effects,
) -> Result<Option<Outcome>, NoMemory>
    requires counts { HasNumbers view.old }
    requires key { IsKeyField (viewed_key view.old) }
    requires fields { IsResolvingField opening.now }
    ensures effects { OnOk result
        ((f : Facts) → IsNodeInView f view.old store.old
        → out.new ≡ then_effects out.old (due_asking f opening.now asked.now)) }
    ensures outcome { IfOk result (λ o. o ≡ outcome_if_resolved view.old opening.now asked.now) }
    ensures room { IfOk result
        (λ o. ForSome o (HasRoomForOutcome view.new.room store.new.spare opening.now.digest)) }
    ensures kept { HoldsTheSame store.old store.new }
    ensures other_room { OnOk result (view.new.room.transactions ≡ view.old.room.transactions) }
    ensures same { IsSame view.old view.new }
{
    if asked.is_empty() {
        let resolving = opening.copy(alloc)?;
        let outcome = plan_outcome(alloc, store, view, resolving, out)?;
        return Ok(Some(outcome));
    }
    let ask = Message::Ask {
        key: view.key(),
        transaction: opening.transaction,
        digest: opening.digest,
    };
    out.send_to_each(alloc, asked.as_slice(), ask)?;
    Ok(None)
}

/// A read answers the best version or none. A put or a delete makes the next version. Room is made
/// for it.
pub fn plan_outcome(
    alloc: Global,
    store: &mut RecordStore,
    view: &mut View,
    resolving: Resolving,
    out: &mut Effects,
) -> Result<Outcome, NoMemory>
    requires counts { HasNumbers view.old }
    requires key { IsKeyField (viewed_key view.old) }
    requires fields { IsResolvingField resolving }
    ensures effects { OnOk result
        ((f : Facts) → IsNodeInView f view.old store.old
        → out.new ≡ then_effects out.old (due_outcome f resolving)) }
    ensures outcome { IfOk result (λ o. o ≡ outcome_of view.old resolving resolving.want) }
    ensures room { IfOk result (HasRoomForOutcome view.new.room store.new.spare resolving.digest) }
    ensures kept { HoldsTheSame store.old store.new }
    ensures other_room { OnOk result (view.new.room.transactions ≡ view.old.room.transactions) }
    ensures same { IsSame view.old view.new }
{
    let Resolving {
        transaction,
        digest,
        want,
        best,
        clock,
    } = resolving;
    let body = match want {
        Want::Get => {
            out.lines.push(Line::Value {
                node: view.me(),
                key: view.key(),
                transaction,
                digest,
                version: Boxed::new(alloc, best)?,
            })?;
            return Ok(Outcome::Read);
        }
        Want::Put(value) => Body::Value(value),
        Want::Del => Body::Tombstone,
    };
    let version = next_version(best.as_ref(), clock, body);
    store.reserve_one(&digest)?;
    let writing = plan_write(alloc, view, transaction, &digest, clock, version, out)?;
    Ok(Outcome::Write(writing))
}

/// The version is to be joined into the store, and goes to each other replica in list order.
fn plan_write(
    alloc: Global,
    view: &mut View,
    transaction: u32,
    digest: &Digest,
    clock: u64,
    version: Version,
    out: &mut Effects,
) -> Result<Writing, NoMemory>
    requires counts { HasNumbers view.old }
    requires key { IsKeyField (viewed_key view.old) }
    requires number { IsNumber transaction }
    requires digest { IsDigest digest.now }
    requires version { IsVersion version }
    ensures effects { OnOk result
        ((f : Facts) → IsInView f view.old
        → out.new ≡ then_effects out.old (due_write f transaction digest.now version)) }
    ensures writing { IfOk result (λ w. w ≡ writing_of view.old clock digest.now version) }
    ensures room { OnOk result (0 < view.new.room.applies) }
    ensures other_room { OnOk result (view.new.room.transactions ≡ view.old.room.transactions) }
    ensures same { IsSame view.old view.new }
{
    let key = view.key();
    let p = partition_of(digest);
    let to = view.other_replicas(p);
    let nth = view.applies_at(p) + 1;
    view.reserve_apply()?;
    write_lines(
        alloc,
        view,
        transaction,
        digest,
        &version,
        to.is_empty(),
        out,
    )?;
    let kept = version.copy(alloc)?;
    let repl = Message::Repl {
        key,
        transaction,
        nth,
        digest: *digest,
        version,
    };
    let sent = out.send_borrowed_to_each(alloc, to.as_slice(), &repl);
    let version = version_in(repl);
    sent?;
    Ok(Writing {
        clock,
        version,
        kept,
        to,
    })
}

/// The version that the Repl carries.
fn version_in(repl: Message) -> Version
    requires { IsSome (repl_version repl) }
    ensures { Some result ≡ repl_version repl }
{
    match repl {
        Message::Repl { version, .. } => version,
        _ => unreachable!(),
    }
}

/// The lines of a write, which is done at once where nobody is to acknowledge it.
fn write_lines(
    alloc: Global,
    view: &View,
    transaction: u32,
    digest: &Digest,
    version: &Version,
    is_done: bool,
    out: &mut Effects,
) -> Result<(), NoMemory>
    ensures { OnOk result
        (out.new ≡ with_lines out.old (write_lines view.now.me (viewed_key view.now) transaction
        digest.now version.now is_done)) }
{
    let node = view.me();
    let key = view.key();
    out.lines.push(Line::Apply {
        node,
        key,
        transaction,
        digest: *digest,
        version: Boxed::new(alloc, version.copy(alloc)?)?,
    })?;
    if is_done {
        out.lines.push(Line::Done {
            node,
            key,
            transaction,
        })?;
    }
    Ok(())
}

/// A copy of the version, if there is one.
pub fn copy_of(alloc: Global, version: Option<&Version>) -> Result<Option<Version>, NoMemory>
    ensures { IfOk result (λ v. v ≡ option_copied version.entry) }
{
    match version {
        None => Ok(None),
        Some(version) => Ok(Some(version.copy(alloc)?)),
    }
}
