//! How far the partitions have come.
ghost use Rattle.std.specs.Prelude.{◌≡◌, ◌<◌, None, if◌then◌else◌, fold, All, OnOk};
ghost use Rattle.std.specs.List.{count_by};
ghost use Rattle.cluster_types.specs.Partitions.{partition_count};
ghost use Rattle.node_rules.specs.Bits.{with_bit};
ghost use Rattle.node_rules.specs.Notes.{noted};
ghost use Rattle.node_rules.specs.Settling.{settling_due};
ghost use Rattle.node_rules.specs.Tick as tick;
ghost use Rattle.node_view.specs.Fits.{AreSettlings};
ghost use Rattle.node_view.specs.Plans.{settled_by};
ghost use Rattle.node_steps.specs.Spelled.{then_effects};

use crate::effects::Effects;
use crate::ground::Ground;
use cluster_types::{Boxed, NoMemory, Row4096};
use node_view::{Settling, View};
use std::alloc::Global;
use wire_messages::Message;

/// As long as some partition isn't known settled, a Progress to each other member, in member order.
/// It tells besides of what this tick settles.
pub fn progress(
    alloc: Global,
    f: &Ground<'_>,
    settlings: &[Settling],
    out: &mut Effects,
) -> Result<(), NoMemory>
    requires due { AreSettlings f.now settlings.now }
    requires settled { settled_by f.now settlings.now
        ≡ noted None f.now (settling_due partition_count f.now) }
    ensures { OnOk result
        (out.new
        ≡ then_effects out.old (tick.progress partition_count (settled_by f.now settlings.now))) }
{
    // What it knows has a spelling.
    let _ = &f.me;
    let Some(view) = f.exchanged() else {
        return Ok(());
    };
    let settled = settled_count(settlings);
    if usize::from(view.unsettled()) == settled || view.others().is_empty() {
        return Ok(());
    }
    let message = Message::Progress {
        key: view.key(),
        wants: true,
        done: Boxed::new(alloc, *view.done_row())?,
        handed: Boxed::new(alloc, handed_row(view, settlings))?,
        settled: Boxed::new(alloc, settled_row(view, settlings))?,
    };
    out.send_to_each(alloc, view.others().as_slice(), message)
}

/// How many partitions this tick settles.
fn settled_count(settlings: &[Settling]) -> usize
    ensures count { result ≡ count_by (λ s. s.settles) settlings.now }
    ensures within { All (λ s. s.partition < partition_count) settlings.now }
{
    let mut count = 0;
    for settling in settlings {
        // It is one of those that are counted.
        let _ = settling.partition.number();
        if settling.settles {
            count += 1;
        }
    }
    count
}

/// The partitions that were handed over, those of this tick with them.
fn handed_row(view: &View, settlings: &[Settling]) -> Row4096
    ensures { result ≡ fold (λ row s. if s.hands then with_bit row s.partition else row)
        view.now.bits.handed settlings.now }
{
    let mut row = *view.handed_row();
    for settling in settlings {
        if settling.hands {
            row.put(settling.partition);
        }
    }
    row
}

/// The partitions that were settled, those of this tick with them.
fn settled_row(view: &View, settlings: &[Settling]) -> Row4096
    ensures { result ≡ fold (λ row s. if s.settles then with_bit row s.partition else row)
        view.now.bits.settled settlings.now }
{
    let mut row = *view.settled_row();
    for settling in settlings {
        if settling.settles {
            row.put(settling.partition);
        }
    }
    row
}
