//! What open transactions send again.
ghost use Rattle.std.specs.Prelude.{◌≡◌, IsSome, IfOk, OnOk};
ghost use Rattle.std.specs.Option.{ForSome};
ghost use Rattle.wire_messages.specs.declared.message.Message.TheVariants as message;
ghost use Rattle.wire_messages.specs.Keys.{IsKeyField};
ghost use Rattle.node_rules.specs.Effects.{sends_only};
ghost use Rattle.node_rules.specs.Facts.{Facts};
ghost use Rattle.node_rules.specs.Tick as tick;
ghost use Rattle.node_rules.specs.Tick.{sends_again};
ghost use Rattle.node_rules.specs.Transactions as rules;
ghost use Rattle.node_steps.specs.Ranges.{HasSpelling};
ghost use Rattle.node_steps.specs.Spelled.{then_effects};
ghost use Rattle.node_steps.specs.Viewing.{IsAsKept};
ghost use Rattle.node_view.specs.Views.{IsInView, viewed_key};

use crate::effects::Effects;
use crate::ground::Ground;
use cluster_types::NoMemory;
use dup_resolve::Txn;
use node_view::{View, Write};
use std::alloc::Global;
use wire_messages::Message;

/// For each open transaction, in rising order, an Ask to each that hasn't answered, or a Repl to
/// each that hasn't acknowledged, in list order.
pub fn transactions(alloc: Global, f: &Ground<'_>, out: &mut Effects) -> Result<(), NoMemory>
    ensures { OnOk result (out.new ≡ then_effects out.old (tick.transactions f.now)) }
{
    let Some(view) = f.view else {
        return Ok(());
    };
    let txns = view.txns();
    // Their numbers rise.
    let _ = txns.opened();
    for txn in txns.iter() {
        send_again(alloc, view, txn, out)?;
    }
    Ok(())
}

/// What an open transaction of the view sends again.
fn send_again(alloc: Global, view: &View, txn: &Txn, out: &mut Effects) -> Result<(), NoMemory>
    requires key { IsKeyField (viewed_key view.now) }
    requires open_one { IsSome (rules.transaction view.now.transactions txn.now.id) }
    requires spelled { ForSome (rules.transaction view.now.transactions txn.now.id) HasSpelling }
    requires same { ForSome (rules.transaction view.now.transactions txn.now.id)
        (IsAsKept txn.now) }
    ensures { (f : Facts) → IsInView f view.now
        → ForSome (rules.transaction f.transactions txn.now.id) (λ t.
        OnOk result (out.new ≡ then_effects out.old (sends_only (sends_again f t t.applied)))) }
{
    let message = match view.written(txn.id) {
        None => ask(view, txn),
        Some(write) => repl(alloc, view, txn, write)?,
    };
    out.send_to_each(alloc, txn.awaiting.as_slice(), message)
}

/// The message that asks for the version that another node holds.
fn ask(view: &View, txn: &Txn) -> Message
    ensures { result ≡ message.Ask (viewed_key view.now) txn.now.id txn.now.digest }
{
    Message::Ask {
        key: view.key(),
        transaction: txn.id,
        digest: txn.digest,
    }
}

/// The message by which the transaction's write goes to a replica.
fn repl(alloc: Global, view: &View, txn: &Txn, write: &Write) -> Result<Message, NoMemory>
    ensures { IfOk result (λ m. m ≡ message.Repl (viewed_key view.now) txn.now.id write.now.nth
        txn.now.digest write.now.version) }
{
    Ok(Message::Repl {
        key: view.key(),
        transaction: txn.id,
        nth: write.nth,
        digest: txn.digest,
        version: write.version.copy(alloc)?,
    })
}
