//! Changes of what a node keeps of requests, and how they are made.
ghost use Rattle.std.specs.Prelude.{◌≡◌, ◌<◌, ◌≤◌, ◌-◌, ◌^◌, ◌++◌, ◌==◌, true, None, Some, length, OnOk, if◌then◌else◌};
ghost use Rattle.std.specs.Option.{option_copied};
ghost use Rattle.request_rules.specs.declared.taken.Outcome.TheVariants as outcome;
ghost use Rattle.request_rules.specs.Passing.{passing_to};
ghost use Rattle.request_rules.specs.TakenUp.{bound_to, keeping_refusal, outcome_for, reply_for, taking_up};
ghost use Rattle.request_rules.specs.Replies.{reply_to};
ghost use Rattle.node_steps.specs.Spelled.{spelled_sends};
ghost use Rattle.proxy_path.specs.Room.{HasRoomFor};
ghost use Rattle.node_requests.specs.declared.change.Change.TheVariants as change;
ghost use Rattle.node_requests.specs.Changes.{CanMake, CanMakeAll, IsNewAndFree, TakesRoomForOne, all_changed, bound_behind, bound_behind_all, changed, only_where, kept, owed_by_change};
ghost use Rattle.node_requests.specs.Planned.{HaveSpellings};

use cluster_types::{ClusterKey, NoMemory};
use item_lists::OwnedList;
use node_steps::SendList;
use proxy_path::Proxies;
use request_rules::{Asker, Passed};
use std::alloc::Global;
use wire_codec::{Message, ReplyBody, encode};

/// The endpoint of the client.
const CLIENT: u16 = 0;

/// What a line of a step changes.
#[derive(Debug, Drop)]
pub(crate) enum Change {
    /// A request is taken up, whose transaction is open.
    Bind {
        asker: Asker,
        transaction: u32,
    },
    /// A request is refused. The reply is kept, unless the client asked.
    Refuse {
        asker: Asker,
        reply: ReplyBody,
    },
    /// The transaction of a request ended with this reply, which is kept.
    End {
        asker: Asker,
        transaction: u32,
        reply: ReplyBody,
    },
    /// A request is passed on, under the next number.
    PassOn(Passed),
    /// The request that was passed on under that number is closed.
    Close {
        number: u32,
    },
    /// The node leaves its view, and all is forgotten.
    Leave,
}

// ---- what is owed

/// Adds the reply that the change owes, if it owes one.
pub(crate) fn send_owed(
    alloc: Global,
    key: ClusterKey,
    change: &Change,
    sends: &mut SendList,
) -> Result<(), NoMemory>
    requires { HaveSpellings (owed_by_change key (Some change.now)) }
    ensures { OnOk result
        (sends.new ≡ sends.old ++ spelled_sends (owed_by_change key (Some change.now))) }
{
    match change {
        Change::Refuse { asker, reply } => send_reply(alloc, key, *asker, reply, sends),
        Change::End { asker, reply, .. } => send_reply(alloc, key, *asker, reply, sends),
        _ => Ok(()),
    }
}

/// Adds the message that brings the asker the reply.
fn send_reply(
    alloc: Global,
    key: ClusterKey,
    asker: Asker,
    reply: &ReplyBody,
    sends: &mut SendList,
) -> Result<(), NoMemory>
    requires { HaveSpellings (reply_for key (Some asker) reply.now) }
    ensures { OnOk result
        (sends.new ≡ sends.old ++ spelled_sends (reply_for key (Some asker) reply.now)) }
{
    let message = reply_to(key, asker, reply.copy(alloc)?);
    sends.push((asker.from, encode(alloc, &message)?))
}

/// The message that brings the asker the reply of a node in the view of that key.
fn reply_to(key: ClusterKey, asker: Asker, reply: ReplyBody) -> Message
    ensures { result ≡ reply_to key asker reply }
{
    let number = asker.number;
    if asker.from != CLIENT {
        return Message::ProxyReply { key, number, reply };
    }
    Message::Reply { key, number, reply }
}

// ---- for whom a transaction is open

/// For whom the transaction of that number is open once the changes are made, if for anybody.
pub(crate) fn bound_behind_all(
    proxies: &Proxies,
    changes: &OwnedList<Change>,
    transaction: u32,
) -> Option<Asker>
    ensures { result ≡ bound_to (all_changed (kept proxies.now) changes.now).taken transaction }
{
    let mut bound = proxies.bound(transaction);
    for change in changes {
        bound = bound_behind(transaction, bound, change);
    }
    bound
}

/// For whom it is open behind the change, where it was open for that asker, or for nobody.
fn bound_behind(transaction: u32, bound: Option<Asker>, change: &Change) -> Option<Asker>
    ensures { result ≡ bound_behind transaction bound change.now }
{
    match change {
        Change::Bind {
            asker,
            transaction: opened,
        } => bound.or(only_where(*opened == transaction, *asker)),
        Change::End {
            transaction: ended,
            ..
        } => unless(*ended == transaction, bound),
        Change::Leave => None,
        _ => bound,
    }
}

/// The asker, if the test says so.
fn only_where(opens: bool, asker: Asker) -> Option<Asker>
    ensures { result ≡ only_where opens asker }
{
    if opens {
        return Some(asker);
    }
    None
}

/// The asker, unless its transaction ended.
fn unless(ended: bool, bound: Option<Asker>) -> Option<Asker>
    ensures { result ≡ (if ended then None else bound) }
{
    if ended {
        return None;
    }
    bound
}

// ---- making changes

/// Makes the changes one after another, for which there is room.
pub(crate) fn make_all(proxies: &mut Proxies, mut changes: OwnedList<Change>)
    requires can { CanMakeAll (kept proxies.old) changes }
    requires room { HasRoomFor (length changes) proxies.old }
    ensures { kept proxies.new ≡ all_changed (kept proxies.old) changes }
{
    while let Some(change) = changes.take_first() {
        make(proxies, change);
    }
}

/// Makes the change, for which there is room.
fn make(proxies: &mut Proxies, change: Change)
    requires can { CanMake (kept proxies.old) change }
    requires room { HasRoomFor 1 proxies.old }
    ensures made { kept proxies.new ≡ changed (kept proxies.old) change }
    ensures room_left { TakesRoomForOne proxies.old proxies.new }
{
    match change {
        Change::Bind { asker, transaction } => bind(proxies, asker, transaction),
        Change::Refuse { asker, reply } => refuse(proxies, asker, reply),
        Change::End {
            transaction,
            reply,
            ..
        } => proxies.end(transaction, reply),
        Change::PassOn(passed) => pass_on(proxies, passed),
        Change::Close { number } => proxies.close(number),
        Change::Leave => proxies.clear(),
    }
}

/// The request is taken up, whose transaction is open.
fn bind(proxies: &mut Proxies, asker: Asker, transaction: u32)
    requires new { IsNewAndFree proxies.old.taken asker transaction }
    requires room { HasRoomFor 1 proxies.old }
    ensures taken { proxies.new.taken
        ≡ taking_up proxies.old.taken asker (outcome.Open transaction) }
    ensures passed { proxies.new.passed ≡ proxies.old.passed }
    ensures room_left { TakesRoomForOne proxies.old proxies.new }
{
    // There is room for it.
    let _ = proxies.bind(asker, transaction);
}

/// The request is refused. The reply is kept, unless the client asked.
fn refuse(proxies: &mut Proxies, asker: Asker, reply: ReplyBody)
    requires new { outcome_for proxies.old.taken asker ≡ None }
    requires room { HasRoomFor 1 proxies.old }
    ensures taken { proxies.new.taken ≡ keeping_refusal proxies.old.taken asker (Some reply) }
    ensures passed { proxies.new.passed ≡ proxies.old.passed }
    ensures room_left { TakesRoomForOne proxies.old proxies.new }
{
    if asker.from == CLIENT {
        return;
    }
    // There is room for it.
    let _ = proxies.keep(asker, reply);
}

/// The request is passed on, under the next number.
fn pass_on(proxies: &mut Proxies, passed: Passed)
    requires number { proxies.old.passed.given < 2 ^ 32 - 1 }
    requires room { HasRoomFor 1 proxies.old }
    ensures passed { proxies.new.passed
        ≡ passing_to proxies.old.passed passed.digest passed.want passed.to }
    ensures taken { proxies.new.taken ≡ proxies.old.taken }
    ensures room_left { TakesRoomForOne proxies.old proxies.new }
{
    let Passed { digest, want, to } = passed;
    // There is room for it.
    let _ = proxies.open(digest, want, to);
}
