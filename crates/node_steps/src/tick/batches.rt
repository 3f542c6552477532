//! Batches.
ghost use Rattle.std.specs.Prelude.{◌≡◌, ◌∷◌, [], IfOk, OnOk};
ghost use Rattle.wire_messages.specs.declared.message.Batch.{Batch};
ghost use Rattle.wire_messages.specs.declared.message.Message.TheVariants as message;
ghost use Rattle.wire_messages.specs.Proper.{IsProper};
ghost use Rattle.wire_messages.specs.Spelling.{spelling};
ghost use Rattle.node_rules.specs.ByParts.{batches_due};
ghost use Rattle.node_rules.specs.Facts.{view_key};
ghost use Rattle.node_rules.specs.Tick as tick;
ghost use Rattle.node_steps.specs.Counts.{HaveNumbers};
ghost use Rattle.node_steps.specs.Spelled.{then_effects, with_sends};
ghost use Rattle.node_view.specs.Fits.{AreNext};

use crate::effects::Effects;
use crate::ground::Ground;
use cluster_types::{NoMemory, NodeId};
use std::alloc::Global;
use wire_messages::{Batch, Message};

/// For each other member, in member order, the batch that is out to it again, or a new one where
/// something is pending. Answers what is sent.
pub fn batches(
    alloc: Global,
    f: &Ground<'_>,
    out: &mut Effects,
) -> Result<Vec<(NodeId, Batch)>, NoMemory>
    requires { HaveNumbers f.now }
    ensures sends { OnOk result (out.new ≡ then_effects out.old (tick.batches f.now)) }
    ensures sent { IfOk result
        (λ bs. bs.items ≡ batches_due (view_key f.now) f.now.store.content f.now.batches) }
    ensures next { IfOk result
        (λ bs. AreNext f.now.exchange.exchanged (view_key f.now) f.now.batches bs.items) }
{
    let mut sent = Vec::new(alloc);
    let Some(view) = f.view else {
        return Ok(sent);
    };
    for (to, batch) in view.next_batches(alloc, f.store)? {
        let batch = send_batch(alloc, to, batch, out)?;
        sent.push((to, batch))?;
    }
    Ok(sent)
}

/// Sends the batch, and hands it back.
fn send_batch(alloc: Global, to: NodeId, batch: Batch, out: &mut Effects) -> Result<Batch, NoMemory>
    requires { IsProper (message.Batch batch) }
    ensures sends { OnOk result
        (out.new ≡ with_sends out.old ((to, spelling (message.Batch batch)) ∷ [])) }
    ensures same { IfOk result (λ b. b ≡ batch) }
{
    let message = Message::Batch(batch);
    let sent = out.send_borrowed(alloc, to.number(), &message);
    let batch = batch_in(message);
    sent?;
    Ok(batch)
}

/// The batch of the message.
fn batch_in(m: Message) -> Batch
    requires { (b : Batch) × (m ≡ message.Batch b) }
    ensures { (b : Batch) → m ≡ message.Batch b → result ≡ b }
{
    match m {
        Message::Batch(batch) => batch,
        _ => unreachable!(),
    }
}
