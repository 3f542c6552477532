//! Hand-over, settling, learning and dropping.
ghost use Rattle.std.specs.Prelude.{◌≡◌, None, IfOk, OnOk};
ghost use Rattle.cluster_types.specs.Partitions.{partition_count};
ghost use Rattle.node_rules.specs.Effects.{lines_only};
ghost use Rattle.node_rules.specs.Facts.{view_key};
ghost use Rattle.node_rules.specs.Notes.{noted};
ghost use Rattle.node_rules.specs.Settling.{settling_due};
ghost use Rattle.node_rules.specs.Tick as tick;
ghost use Rattle.node_view.specs.Fits.{AreSettlings};
ghost use Rattle.node_view.specs.Plans.{settled_by};
ghost use Rattle.node_view.specs.Settlings.{lines_of_settling, settling_lines};
ghost use Rattle.node_steps.specs.Spelled.{then_effects};
ghost use Rattle.node_view.specs.Views.{viewed_key};

use crate::effects::Effects;
use crate::ground::Ground;
use cluster_types::NoMemory;
use journal_lines::Line;
use node_view::{Settling, View};
use std::alloc::Global;

/// What is due of the live partitions, in rising order. It goes by the facts before it, since no
/// line of a partition bears on another one.
pub fn settlings(
    alloc: Global,
    f: &Ground<'_>,
    out: &mut Effects,
) -> Result<Vec<Settling>, NoMemory>
    ensures lines { OnOk result
        (out.new ≡ then_effects out.old (tick.settlings partition_count f.now)) }
    ensures due { IfOk result (λ ss. AreSettlings f.now ss.items) }
    ensures told { IfOk result (λ ss.
        settling_lines f.now.me (view_key f.now) ss.items ≡ settling_due partition_count f.now) }
    ensures settled { IfOk result
        (λ ss. settled_by f.now ss.items ≡ noted None f.now (settling_due partition_count f.now)) }
{
    let Some(view) = f.exchanged() else {
        return Ok(Vec::new(alloc));
    };
    let settlings = view.settlings(alloc, f.store)?;
    for settling in &settlings {
        write_lines(view, *settling, out)?;
    }
    Ok(settlings)
}

/// The lines of a partition.
fn write_lines(view: &View, settling: Settling, out: &mut Effects) -> Result<(), NoMemory>
    ensures { OnOk result
        (out.new ≡ then_effects out.old
        (lines_only (lines_of_settling view.now.me (viewed_key view.now) settling))) }
{
    let node = view.me();
    let key = view.key();
    let partition = settling.partition;
    if settling.hands {
        out.lines.push(Line::Handed {
            node,
            key,
            partition,
        })?;
    }
    if settling.settles {
        out.lines.push(Line::Settled {
            node,
            key,
            partition,
        })?;
    }
    if settling.learns {
        out.lines.push(Line::Learn {
            node,
            key,
            partition,
        })?;
    }
    if settling.drops {
        out.lines.push(Line::Drop {
            node,
            key,
            partition,
        })?;
    }
    Ok(())
}
