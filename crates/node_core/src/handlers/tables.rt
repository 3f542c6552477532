//! The tables for the client.
ghost use Rattle.std.specs.Prelude.{◌≡◌, None, IfOk, OnErr, OnOk};
ghost use Rattle.wire_messages.specs.declared.message.Message.TheVariants as message;
ghost use Rattle.node_rules.specs.Messages.{due_map_ask};
ghost use Rattle.node_rules.specs.Steps.{after_message, planning, unplanned};
ghost use Rattle.node_steps.specs.Spelled.{spelled};

use crate::node::Node;
use cluster_types::NoMemory;
use node_steps::{Effects, Planned, tell_table};
use std::alloc::Global;

impl Node {
    /// After the exchange a table goes to the client.
    pub(crate) fn on_map_ask(&mut self, alloc: Global) -> Result<Effects, NoMemory>
        requires unplanned { self.old.next ≡ None }
        ensures effects { IfOk result (λ e. e ≡ spelled (due_map_ask self.old.now)) }
        ensures planned { OnOk result
            (self.new ≡ planning self.old.now (after_message self.old.now 0 0 message.MapAsk)) }
        ensures err { OnErr result (self.new ≡ unplanned self.old.now) }
    {
        let Some(view) = &self.view else {
            return Ok(self.plan(Effects::new(alloc), Planned::Nothing));
        };
        let out = tell_table(alloc, view)?;
        Ok(self.plan(out, Planned::Nothing))
    }
}
