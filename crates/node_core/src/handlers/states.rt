//! The rows of other members.
ghost use Rattle.std.specs.Prelude.{◌≡◌, None, IfOk, OnErr, OnOk};
ghost use Rattle.wire_messages.specs.declared.message.Message.TheVariants as message;
ghost use Rattle.wire_messages.specs.Proper.{IsProper};
ghost use Rattle.node_rules.specs.Messages.{due_state};
ghost use Rattle.node_rules.specs.Notes.{reached};
ghost use Rattle.node_rules.specs.Steps.{after_message, planning, unplanned};
ghost use Rattle.node_rules.specs.Senders.{ComesFrom};
ghost use Rattle.node_steps.specs.Spelled.{spelled};

use crate::node::Node;
use cluster_types::{ClusterKey, NoMemory, NodeId, StateRow};
use node_steps::{Effects, plan_row, state_effects};
use std::alloc::Global;

impl Node {
    /// The exchange ends with the last row, and a row that is wanted is answered.
    pub(crate) fn on_state(
        &mut self,
        alloc: Global,
        from: NodeId,
        key: ClusterKey,
        wants: bool,
        row: &StateRow,
    ) -> Result<Effects, NoMemory>
        requires unplanned { self.old.next ≡ None }
        requires proper { IsProper (message.State key wants row.now) }
        requires sender { ComesFrom self.old.now from (message.State key wants row.now) }
        ensures effects { IfOk result (λ e. e ≡ spelled (due_state self.old.now
            (reached self.old.now from (message.State key wants row.now)) from key wants)) }
        ensures planned { OnOk result
            (self.new ≡ planning self.old.now
            (after_message self.old.now 0 from (message.State key wants row.now))) }
        ensures err { OnErr result (self.new ≡ unplanned self.old.now) }
    {
        if self.view_of(key).is_none() {
            return self.stale(alloc);
        }
        let Some(view) = &mut self.view else {
            unreachable!()
        };
        let mut out = state_effects(alloc, view, from, wants)?;
        let planned = plan_row(alloc, view, &self.store, from, row, &mut out)?;
        Ok(self.plan(out, planned))
    }
}
