//! The node's own row.
ghost use Rattle.std.specs.Prelude.{◌≡◌, filter, OnOk};
ghost use Rattle.node_rules.specs.Agreement.{others_among};
ghost use Rattle.node_rules.specs.Exchange.{members_of};
ghost use Rattle.node_rules.specs.Map.{lacks};
ghost use Rattle.node_rules.specs.Tick as tick;
ghost use Rattle.node_steps.specs.Spelled.{then_effects};

use crate::effects::Effects;
use crate::ground::Ground;
use cluster_types::{NoMemory, NodeList};
use node_view::View;
use std::alloc::Global;

/// The node's row to each member whose row it lacks, which it wants. It is spelled once.
pub fn rows(alloc: Global, f: &Ground<'_>, out: &mut Effects) -> Result<(), NoMemory>
    ensures { OnOk result (out.new ≡ then_effects out.old (tick.rows f.now)) }
{
    let Some(view) = f.view else {
        return Ok(());
    };
    let lacking = lacking(view);
    if lacking.is_empty() {
        return Ok(());
    }
    let state = view.state(alloc, true)?;
    out.send_to_each(alloc, lacking.as_slice(), state)
}

/// The other members whose rows aren't there, in member order.
fn lacking(view: &View) -> NodeList
    ensures { result ≡ filter (lacks view.now.exchange.rows)
        (others_among view.now.me (members_of view.now.exchange.view)) }
{
    let mut lacking = NodeList::new();
    for n in view.others().as_slice() {
        if !view.has_row(*n) {
            lacking.push(*n);
        }
    }
    lacking
}
