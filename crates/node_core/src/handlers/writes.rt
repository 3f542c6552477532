//! Writes of other nodes, and the acknowledgements of the node's own.
ghost use Rattle.std.specs.Prelude.{◌≡◌, None, IsSome, IfOk, OnErr, OnOk};
ghost use Rattle.journal_lines.specs.declared.line.Line.TheVariants as line;
ghost use Rattle.wire_messages.specs.declared.message.Message.TheVariants as message;
ghost use Rattle.wire_messages.specs.Proper.{IsProper};
ghost use Rattle.node_rules.specs.Effects.{lines_only};
ghost use Rattle.node_rules.specs.Messages.{due_repl, due_repl_ack};
ghost use Rattle.node_rules.specs.Steps.{after_message, planning, unplanned};
ghost use Rattle.node_rules.specs.Transactions as rules;
ghost use Rattle.node_steps.specs.Plans.{after_ack};
ghost use Rattle.node_rules.specs.Tables.{only_if};
ghost use Rattle.node_steps.specs.Spelled.{spelled};

use crate::node::Node;
use cluster_types::{ClusterKey, Digest, NoMemory, NodeId, partition_of};
use conflict_order::Version;
use journal_lines::Line;
use node_steps::{Effects, Planned, acknowledge, merge_effects, plan_merge};
use node_view::{Replicated, ViewStep};
use std::alloc::Global;

impl Node {
    /// A write is joined into the store and acknowledged. It counts where the list master sent it.
    pub(crate) fn on_repl(
        &mut self,
        alloc: Global,
        from: NodeId,
        key: ClusterKey,
        transaction: u32,
        nth: u32,
        digest: &Digest,
        version: &Version,
    ) -> Result<Effects, NoMemory>
        requires unplanned { self.old.next ≡ None }
        requires proper { IsProper (message.Repl key transaction nth digest.now version.now) }
        ensures effects { IfOk result
            (λ e. e ≡ spelled (due_repl self.old.now from key transaction digest.now version.now)) }
        ensures planned { OnOk result
            (self.new ≡ planning self.old.now (after_message self.old.now 0 from
            (message.Repl key transaction nth digest.now version.now))) }
        ensures err { OnErr result (self.new ≡ unplanned self.old.now) }
    {
        if self.view_of(key).is_none() {
            return self.stale(alloc);
        }
        let Some(view) = &mut self.view else {
            unreachable!()
        };
        let counted = view.plan_count(alloc, from, partition_of(digest), nth)?;
        let newer = plan_merge(alloc, &mut self.store, digest, version)?;
        let mut out = merge_effects(alloc, self.me, key, digest, version, newer.is_some())?;
        acknowledge(alloc, from, key, transaction, &mut out)?;
        let replicated = Replicated {
            digest: *digest,
            newer,
            counted,
        };
        let step = Box::new(alloc, ViewStep::Replicated(replicated))?;
        self.planned = Some(Planned::View(step));
        Ok(out)
    }

    /// An acknowledgement is spent where it isn't awaited. With the last one the transaction is
    /// done.
    pub(crate) fn on_repl_ack(
        &mut self,
        alloc: Global,
        from: NodeId,
        key: ClusterKey,
        transaction: u32,
    ) -> Result<Effects, NoMemory>
        requires unplanned { self.old.next ≡ None }
        ensures effects { IfOk result
            (λ e. e ≡ spelled (due_repl_ack self.old.now from key transaction)) }
        ensures planned { OnOk result
            (self.new ≡ planning self.old.now
            (after_message self.old.now 0 from (message.ReplAck key transaction))) }
        ensures err { OnErr result (self.new ≡ unplanned self.old.now) }
    {
        let Some(view) = self.view_of(key) else {
            return self.stale(alloc);
        };
        let Some(txn) = view.transaction(transaction) else {
            return self.spent(alloc, ViewStep::WriteAcked { from, transaction });
        };
        if !txn.awaits_ack(from) {
            return self.spent(alloc, ViewStep::WriteAcked { from, transaction });
        }
        let is_last = txn.is_last_awaited(from);
        self.plan_ack(alloc, from, key, transaction, is_last)
    }

    fn plan_ack(
        &mut self,
        alloc: Global,
        from: NodeId,
        key: ClusterKey,
        transaction: u32,
        is_last: bool,
    ) -> Result<Effects, NoMemory>
        requires unplanned { self.old.next ≡ None }
        requires in_one { IsSome self.old.now.exchange.view }
        requires open_one { IsSome (rules.transaction self.old.now.transactions transaction) }
        ensures effects { IfOk result (λ e. e
            ≡ spelled (lines_only (only_if (line.Done self.old.now.me key transaction) is_last))) }
        ensures planned { OnOk result
            (self.new ≡ planning self.old.now (after_ack self.old.now from transaction is_last)) }
        ensures err { OnErr result (self.new ≡ self.old) }
    {
        let node = self.me;
        if !is_last {
            let step = ViewStep::WriteAcked { from, transaction };
            return self.plan_step(alloc, Effects::new(alloc), step);
        }
        let done = Line::Done {
            node,
            key,
            transaction,
        };
        let out = Effects::of_line(alloc, done)?;
        self.plan_step(alloc, out, ViewStep::Done { transaction })
    }
}
