//! What is told of batches of records, and which are out.
ghost use Rattle.std.specs.Prelude.{◌≡◌, ◌++◌, map, IfOk, OnOk};
ghost use Rattle.wire_messages.specs.declared.message.Message.TheVariants as message;
ghost use Rattle.wire_messages.specs.Proper.{IsProper};
ghost use Rattle.node_rules.specs.Batches.{has_number, out_to};
ghost use Rattle.node_rules.specs.Effects.{to_one};
ghost use Rattle.node_rules.specs.Messages.{merge_line};
ghost use Rattle.node_steps.specs.Spelled.{spelled};

use crate::effects::Effects;
use cluster_types::{Boxed, ClusterKey, NoMemory, NodeId};
use journal_text::{Line, LineList};
use node_view::View;
use std::alloc::Global;
use wire_messages::{Batch, Message, Records};

/// A line for each record that is newer than what the node holds, and the acknowledgement.
pub fn batch_effects(
    alloc: Global,
    me: NodeId,
    from: NodeId,
    batch: &Batch,
    newer: &Records,
) -> Result<Effects, NoMemory>
    requires { IsProper (message.BatchAck batch.now.key batch.now.number) }
    ensures { IfOk result (λ e. e ≡ spelled (record {
      lines = map (merge_line me batch.now.key) newer.now;
      sends = to_one from (message.BatchAck batch.now.key batch.now.number);
    })) }
{
    let mut out = Effects::new(alloc);
    write_merges(alloc, me, batch.key, newer, &mut out.lines)?;
    let ack = Message::BatchAck {
        key: batch.key,
        number: batch.number,
    };
    out.send(alloc, from.number(), ack)?;
    Ok(out)
}

/// A line for each of the records.
fn write_merges(
    alloc: Global,
    node: NodeId,
    key: ClusterKey,
    records: &Records,
    lines: &mut LineList,
) -> Result<(), NoMemory>
    ensures { OnOk result (lines.new ≡ lines.old ++ map (merge_line node key) records.now) }
{
    for i in 0..records.len() {
        if let Some((digest, version)) = records.get(i) {
            lines.push(Line::Merge {
                node,
                key,
                digest: *digest,
                version: Boxed::new(alloc, version.copy(alloc)?)?,
            })?;
        }
    }
    Ok(())
}

/// Whether the batch that is out to the member has that number.
pub fn is_out(view: &View, to: NodeId, number: u32) -> bool
    ensures { result ≡ has_number (out_to view.now.batches to) number }
{
    match view.batch_out(to) {
        None => false,
        Some(out) => out == number,
    }
}
