//! Heartbeats.
ghost use Rattle.std.specs.Prelude.{◌≡◌, OnOk};
ghost use Rattle.node_rules.specs.Tick as tick;
ghost use Rattle.node_steps.specs.Spelled.{then_effects};

use crate::effects::Effects;
use crate::fields::ids_fit;
use crate::ground::Ground;
use cluster_types::NoMemory;
use std::alloc::Global;
use wire_messages::Message;

/// A heartbeat to every other declared node, in rising order.
pub fn beat(alloc: Global, f: &Ground<'_>, out: &mut Effects) -> Result<(), NoMemory>
    ensures { OnOk result (out.new ≡ then_effects out.old (tick.beat f.now)) }
{
    let hears = f.hearing.hears();
    ids_fit(hears.as_slice());
    let heartbeat = Message::Heartbeat {
        view: f.view_key(),
        promised: f.agree.promised(),
        hears,
        role: f.role,
    };
    out.send_to_each(alloc, f.peers.as_slice(), heartbeat)
}
