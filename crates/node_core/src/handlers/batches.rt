//! Batches of records, and their acknowledgements.
ghost use Rattle.std.specs.Prelude.{◌≡◌, None, IfOk, OnErr, OnOk};
ghost use Rattle.wire_messages.specs.declared.message.Message.TheVariants as message;
ghost use Rattle.wire_messages.specs.Proper.{IsProper};
ghost use Rattle.node_rules.specs.Messages.{due_batch, due_batch_ack};
ghost use Rattle.node_rules.specs.Steps.{after_message, planning, unplanned};
ghost use Rattle.node_steps.specs.Spelled.{spelled};

use crate::node::Node;
use cluster_types::{ClusterKey, NoMemory, NodeId};
use immigrate::plan_batch;
use node_steps::{Effects, Planned, batch_effects, is_out};
use node_view::{View, ViewStep};
use std::alloc::Global;
use wire_messages::Batch;

impl Node {
    /// Each record of a batch is joined into the store, and the batch is acknowledged.
    pub(crate) fn on_batch(
        &mut self,
        alloc: Global,
        from: NodeId,
        batch: &Batch,
    ) -> Result<Effects, NoMemory>
        requires unplanned { self.old.next ≡ None }
        requires proper { IsProper (message.Batch batch.now) }
        ensures effects { IfOk result (λ e. e ≡ spelled (due_batch self.old.now from batch.now)) }
        ensures planned { OnOk result
            (self.new ≡ planning self.old.now
            (after_message self.old.now 0 from (message.Batch batch.now))) }
        ensures err { OnErr result (self.new ≡ unplanned self.old.now) }
    {
        if self.view_of(batch.key).is_none() {
            return self.stale(alloc);
        }
        let merged = plan_batch(alloc, &mut self.store, batch)?;
        let out = batch_effects(alloc, self.me, from, batch, &merged.newer)?;
        let step = Box::new(alloc, ViewStep::Merged(merged))?;
        self.planned = Some(Planned::View(step));
        Ok(out)
    }

    /// An acknowledgement is spent where no batch of that number is out to its sender.
    pub(crate) fn on_batch_ack(
        &mut self,
        alloc: Global,
        from: NodeId,
        key: ClusterKey,
        number: u32,
    ) -> Result<Effects, NoMemory>
        requires unplanned { self.old.next ≡ None }
        ensures effects { IfOk result
            (λ e. e ≡ spelled (due_batch_ack self.old.now from key number)) }
        ensures planned { OnOk result
            (self.new ≡ planning self.old.now
            (after_message self.old.now 0 from (message.BatchAck key number))) }
        ensures err { OnErr result (self.new ≡ unplanned self.old.now) }
    {
        let Some(view) = self.view_of(key) else {
            return self.stale(alloc);
        };
        let step = ViewStep::BatchAcked { from, number };
        let is_out = is_out(view, from, number);
        self.plan_unless_spent(alloc, step, is_out)
    }
}
