//! What is told and planned of another member's row.
ghost use Rattle.std.specs.Prelude.{◌≡◌, [], false, Contains, IfOk, IsSome, OnOk, if◌then◌else◌};
ghost use Rattle.journal_lines.specs.declared.line.Line.TheVariants as line;
ghost use Rattle.wire_messages.specs.declared.message.Message.TheVariants as message;
ghost use Rattle.wire_messages.specs.Proper.{IsProper};
ghost use Rattle.node_rules.specs.Agreement.{others_among};
ghost use Rattle.node_rules.specs.Effects.{lines_only, sends_only, to_one};
ghost use Rattle.node_rules.specs.Exchange.{members_of};
ghost use Rattle.node_rules.specs.Facts.{Facts};
ghost use Rattle.node_rules.specs.Tick.{own_row_in, state};
ghost use Rattle.node_steps.specs.Fits.{FitsPlanned};
ghost use Rattle.node_steps.specs.Plans.{after_row, taken};
ghost use Rattle.node_rules.specs.Tables.{only_if};
ghost use Rattle.node_steps.specs.Rooms.{NeedsNoRoom};
ghost use Rattle.node_steps.specs.Spelled.{then_effects, spelled};
ghost use Rattle.node_view.specs.Views.{IsInView, IsNodeInView, facts_seen, viewed_key};
ghost use Rattle.node_steps.specs.Viewing.{finishes_with};

use crate::effects::Effects;
use crate::planned::Planned;
use cluster_types::{NoMemory, NodeId, StateRow};
use journal_lines::Line;
use node_view::{View, ViewStep};
use record_store::RecordStore;
use std::alloc::Global;

/// The node's own row to the member, where it is wanted.
pub fn state_effects(
    alloc: Global,
    view: &View,
    to: NodeId,
    wants: bool,
) -> Result<Effects, NoMemory>
    requires { IsProper
        (message.State (viewed_key view.now) false (own_row_in (facts_seen view.now))) }
    ensures { (f : Facts) → IsInView f view.now
        → IfOk result (λ e. e ≡ spelled (sends_only
        (if wants then to_one to (state f false) else []))) }
{
    let mut out = Effects::new(alloc);
    if !wants {
        return Ok(out);
    }
    out.send(alloc, to.number(), view.state(alloc, false)?)?;
    Ok(out)
}

/// The row is kept where the member's was lacking. The view is as before.
pub fn plan_row(
    alloc: Global,
    view: &mut View,
    store: &RecordStore,
    from: NodeId,
    row: &StateRow,
    out: &mut Effects,
) -> Result<Planned, NoMemory>
    requires member { Contains (others_among view.old.me (members_of view.old.exchange.view)) from }
    ensures lines { OnOk result
        (out.new ≡ then_effects out.old (lines_only (only_if
        (line.Exchanged view.old.me (viewed_key view.old))
        (finishes_with view.old from row.now)))) }
    ensures planned { IfOk result (λ p.
        (f : Facts) → IsNodeInView f view.old store.now → taken f p ≡ after_row f from row.now) }
    ensures fits { IfOk result (λ p. (f : Facts) → IsNodeInView f view.old store.now
        → IsSome f.exchange.view → FitsPlanned f p) }
    ensures room { IfOk result NeedsNoRoom }
    ensures same { view.new ≡ view.old }
{
    let Some(waiting) = view.exchanging() else {
        return Ok(Planned::Nothing);
    };
    if !waiting.lacks(from) {
        // Another one is missing still.
        let _ = waiting.missing();
        return Ok(Planned::Nothing);
    }
    let row = row.copy(alloc)?;
    if !view.is_last_missing(from) {
        let step = Box::new(alloc, ViewStep::Row { from, row })?;
        return Ok(Planned::View(step));
    }
    out.lines.push(Line::Exchanged {
        node: view.me(),
        key: view.key(),
    })?;
    let last = view.plan_last_row(alloc, store, from, row)?;
    let step = Box::new(alloc, ViewStep::LastRow(last))?;
    Ok(Planned::View(step))
}
