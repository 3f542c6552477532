//! The answer to a member that tells how far its partitions have come.
ghost use Rattle.std.specs.Prelude.{◌≡◌, ◌&&◌, List, Bool, true, false, IfOk, if◌then◌else◌};
ghost use Rattle.cluster_types.specs.Partitions.{partition_count};
ghost use Rattle.wire_messages.specs.declared.message.Message.TheVariants as message;
ghost use Rattle.wire_messages.specs.Keys.{IsKeyField};
ghost use Rattle.wire_messages.specs.Rows.{IsRow};
ghost use Rattle.node_rules.specs.Batches.{done_row};
ghost use Rattle.node_rules.specs.Bits.{or_rows};
ghost use Rattle.node_rules.specs.Facts.{Facts};
ghost use Rattle.node_rules.specs.Notes.{progress_came};
ghost use Rattle.node_rules.specs.Standing.{knows_all_settled};
ghost use Rattle.node_steps.specs.Spelled.{spelled};
ghost use Rattle.node_view.specs.Views.{IsViewOf, viewed_key};
ghost use Rattle.node_rules.specs.Effects.{nothing, sends_only, to_one};
ghost use Rattle.node_rules.specs.Tick.{progress_message};

use crate::effects::Effects;
use cluster_types::{Boxed, NoMemory, NodeId, Row4096};
use node_view::View;
use std::alloc::Global;
use wire_messages::Message;

/// The answer to the member, where it is wanted and the node then knows every partition settled.
pub fn progress_effects(
    alloc: Global,
    view: &View,
    to: NodeId,
    wants: bool,
    handed: &Row4096,
    settled: &Row4096,
) -> Result<Effects, NoMemory>
    requires key { IsKeyField (viewed_key view.now) }
    requires handed { IsRow handed.now }
    requires settled { IsRow settled.now }
    requires own_handed { IsRow view.now.bits.handed }
    requires own_settled { IsRow view.now.bits.settled }
    ensures { (f : Facts) (done : List Bool) → IsViewOf f view.now
        → IfOk result (λ e. e ≡ spelled (if wants
        && knows_all_settled (progress_came f to done handed.now settled.now true)
        partition_count 0
        then sends_only (to_one to (progress_message partition_count
        (progress_came f to done handed.now settled.now true) false))
        else nothing)) }
{
    let mut out = Effects::new(alloc);
    if !wants || !view.knows_all_settled_with(settled) {
        return Ok(out);
    }
    let answer = answer(alloc, view, handed, settled)?;
    out.send(alloc, to.number(), answer)?;
    Ok(out)
}

/// How far the node's own partitions have come, once it knows these bits besides.
fn answer(
    alloc: Global,
    view: &View,
    handed: &Row4096,
    settled: &Row4096,
) -> Result<Message, NoMemory>
    requires handed { IsRow handed.now }
    requires settled { IsRow settled.now }
    requires own_handed { IsRow view.now.bits.handed }
    requires own_settled { IsRow view.now.bits.settled }
    ensures { IfOk result (λ m. m ≡ message.Progress (viewed_key view.now) false
        (done_row view.now.exchange.exchanged view.now.batches partition_count 0)
        (or_rows view.now.bits.handed handed.now) (or_rows view.now.bits.settled settled.now)) }
{
    Ok(Message::Progress {
        key: view.key(),
        wants: false,
        done: Boxed::new(alloc, *view.done_row())?,
        handed: Boxed::new(alloc, either(view.handed_row(), handed))?,
        settled: Boxed::new(alloc, either(view.settled_row(), settled))?,
    })
}

/// The row with each bit that one of the two has.
fn either(a: &Row4096, b: &Row4096) -> Row4096
    requires first { IsRow a.now }
    requires second { IsRow b.now }
    ensures { result ≡ or_rows a.now b.now }
{
    let mut row = *a;
    row.or(b);
    row
}
