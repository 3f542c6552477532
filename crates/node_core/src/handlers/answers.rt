//! What transactions ask of other nodes, and the answers.
ghost use Rattle.std.specs.Prelude.{◌≡◌, None, true, IsSome, IfSome, IfOk, OnErr, OnOk, if◌then◌else◌};
ghost use Rattle.std.specs.Option.{option_copied};
ghost use Rattle.wire_messages.specs.declared.message.Message.TheVariants as message;
ghost use Rattle.wire_messages.specs.Proper.{IsProper};
ghost use Rattle.wire_messages.specs.Versions.{IsOptionVersion};
ghost use Rattle.node_rules.specs.ByParts.{resolved_with};
ghost use Rattle.node_rules.specs.Effects.{nothing};
ghost use Rattle.node_rules.specs.Messages.{answer_of, due_answer, due_ask, spent};
ghost use Rattle.node_rules.specs.Notes.{answer_came};
ghost use Rattle.node_rules.specs.Steps.{after_message, planning, unplanned};
ghost use Rattle.node_rules.specs.Transactions as rules;
ghost use Rattle.node_steps.specs.Counts.{HaveNumbers};
ghost use Rattle.node_steps.specs.Resolvings.{AwaitsLast, resolving_of};
ghost use Rattle.node_steps.specs.Spelled.{spelled};
ghost use Rattle.node_view.specs.Plans.{with_answer};

use crate::node::Node;
use cluster_types::{ClusterKey, Digest, NoMemory, NodeId};
use conflict_order::{Version, join};
use node_steps::{Effects, Planned, Resolving, copy_of, plan_outcome};
use node_view::ViewStep;
use std::alloc::Global;
use wire_messages::Message;

impl Node {
    /// An Ask is answered with the version that the node holds, or none.
    pub(crate) fn on_ask(
        &mut self,
        alloc: Global,
        from: NodeId,
        key: ClusterKey,
        transaction: u32,
        digest: &Digest,
    ) -> Result<Effects, NoMemory>
        requires unplanned { self.old.next ≡ None }
        requires proper { IsProper (message.Ask key transaction digest.now) }
        ensures effects { IfOk result
            (λ e. e ≡ spelled (due_ask self.old.now from key transaction digest.now)) }
        ensures planned { OnOk result
            (self.new ≡ planning self.old.now
            (after_message self.old.now 0 from (message.Ask key transaction digest.now))) }
        ensures err { OnErr result (self.new ≡ unplanned self.old.now) }
    {
        if self.view_of(key).is_none() {
            return self.stale(alloc);
        }
        let answer = Message::Answer {
            key,
            transaction,
            version: copy_of(alloc, self.store.get(digest))?,
        };
        let mut out = Effects::new(alloc);
        out.send(alloc, from.number(), answer)?;
        Ok(self.plan(out, Planned::Nothing))
    }

    /// An answer is spent where it isn't awaited. The last one resolves the transaction.
    pub(crate) fn on_answer(
        &mut self,
        alloc: Global,
        from: NodeId,
        key: ClusterKey,
        transaction: u32,
        version: Option<&Version>,
        clock: u64,
    ) -> Result<Effects, NoMemory>
        requires unplanned { self.old.next ≡ None }
        requires proper { IsProper (message.Answer key transaction (option_copied version)) }
        requires counts { HaveNumbers self.old.now }
        ensures effects { IfOk result (λ e. e ≡ spelled
            (due_answer self.old.now clock from key transaction (option_copied version.entry))) }
        ensures planned { OnOk result
            (self.new ≡ planning self.old.now (after_message self.old.now clock from
            (message.Answer key transaction (option_copied version.entry)))) }
        ensures err { OnErr result (self.new ≡ unplanned self.old.now) }
    {
        let Some(view) = self.view_of(key) else {
            return self.stale(alloc);
        };
        let Some(txn) = view.transaction(transaction) else {
            return self.plan_answer(alloc, from, transaction, version, false);
        };
        if !txn.awaits_answer(from) {
            return self.plan_answer(alloc, from, transaction, version, false);
        }
        if txn.is_last_awaited(from) {
            return self.plan_last_answer(alloc, from, transaction, version, clock);
        }
        self.plan_answer(alloc, from, transaction, version, true)
    }

    /// An answer that isn't the last one. One that isn't awaited is spent.
    fn plan_answer(
        &mut self,
        alloc: Global,
        from: NodeId,
        transaction: u32,
        version: Option<&Version>,
        is_awaited: bool,
    ) -> Result<Effects, NoMemory>
        requires unplanned { self.old.next ≡ None }
        requires answer { IsOptionVersion (option_copied version) }
        requires in_one { IsSome self.old.now.exchange.view }
        ensures effects { IfOk result
            (λ e. e ≡ spelled (if is_awaited then nothing else spent self.old.now)) }
        ensures planned { OnOk result
            (self.new ≡ planning self.old.now
            (with_answer self.old.now from transaction (option_copied version.entry))) }
        ensures err { OnErr result (self.new ≡ self.old) }
    {
        let step = ViewStep::Answered {
            from,
            transaction,
            version: copy_of(alloc, version)?,
        };
        self.plan_unless_spent(alloc, step, is_awaited)
    }

    /// The last answer came to an open transaction.
    fn plan_last_answer(
        &mut self,
        alloc: Global,
        from: NodeId,
        transaction: u32,
        version: Option<&Version>,
        clock: u64,
    ) -> Result<Effects, NoMemory>
        requires unplanned { self.old.next ≡ None }
        requires counts { HaveNumbers self.old.now }
        requires last { AwaitsLast self.old.now from transaction }
        requires answer { IsOptionVersion (option_copied version) }
        requires in_one { IsSome self.old.now.exchange.view }
        ensures effects { IfOk result (λ e. e ≡ spelled (answer_of self.old.now clock from
            (option_copied version.entry)
            (rules.transaction self.old.now.transactions transaction))) }
        ensures planned { OnOk result
            (self.new ≡ planning self.old.now (resolved_with
            (answer_came self.old.now from transaction (option_copied version.entry) true) clock
            from (option_copied version.entry)
            (rules.transaction self.old.now.transactions transaction))) }
        ensures err { OnErr result (self.new ≡ self.old) }
    {
        let resolving = self.answered(alloc, transaction, version, clock)?;
        let version = copy_of(alloc, version)?;
        let Some(view) = &mut self.view else {
            unreachable!()
        };
        let mut out = Effects::new(alloc);
        let outcome = plan_outcome(alloc, &mut self.store, view, resolving, &mut out)?;
        let step = ViewStep::Resolved {
            from,
            transaction,
            version,
            outcome,
        };
        let step = Box::new(alloc, step)?;
        self.planned = Some(Planned::View(step));
        Ok(out)
    }

    /// The open transaction with its best version once that answer came.
    fn answered(
        &self,
        alloc: Global,
        transaction: u32,
        version: Option<&Version>,
        clock: u64,
    ) -> Result<Resolving, NoMemory>
        requires { IsSome (rules.transaction self.now.now.transactions transaction) }
        ensures { IfOk result (λ r.
            IfSome (rules.transaction self.now.now.transactions transaction) (λ t. r
            ≡ resolving_of clock
            (rules.answered self.now.now.store.by 0 (option_copied version.entry) t))) }
    {
        let Some(txn) = self.transaction(transaction) else {
            unreachable!()
        };
        let best = copy_of(alloc, txn.best.as_ref())?;
        let answer = copy_of(alloc, version)?;
        Ok(Resolving {
            transaction,
            digest: txn.digest,
            want: txn.want.copy(alloc)?,
            best: join(best, answer, self.by),
            clock,
        })
    }
}
