//! Heartbeats, and the messages by which nodes agree on a view.
ghost use Rattle.std.specs.Prelude.{◌≡◌, Some, None, true, not, Contains, IfOk, OnErr, OnOk};
ghost use Rattle.journal_lines.specs.declared.line.Line.TheVariants as line;
ghost use Rattle.wire_messages.specs.declared.message.Message.TheVariants as message;
ghost use Rattle.wire_messages.specs.Keys.{IsKeyField};
ghost use Rattle.wire_messages.specs.Proper.{IsProper};
ghost use Rattle.node_rules.specs.Agreement.{others_among};
ghost use Rattle.node_rules.specs.Effects.{lines_only, nothing, to_each};
ghost use Rattle.node_rules.specs.Entering.{entering};
ghost use Rattle.node_rules.specs.Exchange.{is_member};
ghost use Rattle.node_rules.specs.Messages.{due_accept, due_commit, due_propose, due_refuse};
ghost use Rattle.node_rules.specs.Steps.{after_message, planning, unplanned};
ghost use Rattle.node_rules.specs.Keys.{same_key};
ghost use Rattle.node_steps.specs.Plans.{agreed};
ghost use Rattle.node_rules.specs.Tables.{only_if};
ghost use Rattle.node_steps.specs.Ranges.{HasRanges};
ghost use Rattle.node_steps.specs.Spelled.{spelled};
ghost use Rattle.node_view.specs.Views.{view_at_entry};

use crate::node::Node;
use cluster_types::{ClusterKey, Members, NoMemory, NodeId};
use clustering::{AcceptStep, Agree, CommitStep, RefuseStep};
use journal_lines::Line;
use node_rules::Beat;
use node_steps::{Effects, Planned, message_of, tell_commit};
use std::alloc::Global;

impl Node {
    /// A heartbeat has no effects.
    pub(crate) fn on_heartbeat(
        &mut self,
        alloc: Global,
        from: NodeId,
        beat: Beat,
    ) -> Result<Effects, NoMemory>
        requires unplanned { self.old.next ≡ None }
        requires peer { Contains self.old.now.peers from }
        ensures effects { IfOk result (λ e. e ≡ spelled (nothing)) }
        ensures planned { OnOk result
            (self.new ≡ planning self.old.now (after_message self.old.now 0 from
            (message.Heartbeat beat.view beat.promised beat.hears beat.role))) }
        ensures err { OnErr result (self.new ≡ unplanned self.old.now) }
    {
        // Those that are heard are peers, and none twice: there is a place for this one.
        let _ = self.hearing.count();
        Ok(self.plan(Effects::new(alloc), Planned::Heard { from, beat }))
    }

    /// A Propose is refused where its key is below the promised one, and else accepted.
    pub(crate) fn on_propose(
        &mut self,
        alloc: Global,
        from: NodeId,
        key: ClusterKey,
        members: &Members,
    ) -> Result<Effects, NoMemory>
        requires unplanned { self.old.next ≡ None }
        requires proper { IsProper (message.Propose key members.now) }
        ensures effects { IfOk result (λ e. e ≡ spelled (due_propose self.old.now from key)) }
        ensures planned { OnOk result
            (self.new ≡ planning self.old.now
            (after_message self.old.now 0 from (message.Propose key members.now))) }
        ensures err { OnErr result (self.new ≡ unplanned self.old.now) }
    {
        let (agree, vote) = self.agree.copy().on_propose(key, *members);
        let mut out = self.promise(alloc, agree.promised())?;
        out.send(alloc, from.number(), message_of(vote))?;
        self.plan_agreed(alloc, out, agree)
    }

    /// The line of a promise, where the key isn't the one that was promised before.
    fn promise(&self, alloc: Global, key: ClusterKey) -> Result<Effects, NoMemory>
        ensures { IfOk result (λ e. e ≡ spelled (lines_only (only_if
            (line.Promise self.now.now.me key)
            (not (same_key key self.now.now.agreement.promised))))) }
    {
        if key == self.agree.promised() {
            return Ok(Effects::new(alloc));
        }
        let node = self.me;
        Effects::of_line(alloc, Line::Promise { node, key })
    }

    /// An Accept is stale where its key isn't proposed. With the last one the view is entered, and
    /// a Commit goes to each other member in member order.
    pub(crate) fn on_accept(
        &mut self,
        alloc: Global,
        from: NodeId,
        key: ClusterKey,
    ) -> Result<Effects, NoMemory>
        requires unplanned { self.old.next ≡ None }
        ensures effects { IfOk result (λ e. e ≡ spelled (due_accept self.old.now from key)) }
        ensures planned { OnOk result
            (self.new
            ≡ planning self.old.now (after_message self.old.now 0 from (message.Accept key))) }
        ensures err { OnErr result (self.new ≡ unplanned self.old.now) }
    {
        let (agree, step) = self.agree.copy().on_accept(from, key);
        match step {
            AcceptStep::Stale => self.stale(alloc),
            AcceptStep::Waiting => self.plan_agreed(alloc, Effects::new(alloc), agree),
            AcceptStep::Enter { key, members } => self.lead(alloc, agree, key, members),
        }
    }

    /// All other members have accepted: the node enters first.
    fn lead(
        &mut self,
        alloc: Global,
        agree: Agree,
        key: ClusterKey,
        members: Members,
    ) -> Result<Effects, NoMemory>
        requires unplanned { self.old.next ≡ None }
        requires member { is_member members self.old.now.me ≡ true }
        requires key { IsKeyField key }
        requires agree_of { agree.me ≡ self.old.now.me }
        requires ranges { HasRanges (record self.old.now { agreement = agree.agreement }) }
        ensures effects { IfOk result (λ e. e ≡ spelled (record {
          lines = entering self.old.now key members;
          sends = to_each (others_among self.old.now.me members)
              (message.Commit key members);
        })) }
        ensures planned { OnOk result
            (self.new ≡ planning self.old.now (agreed self.old.now agree.agreement
            (Some (view_at_entry self.old.now key members)))) }
        ensures err { OnErr result (self.new ≡ self.old) }
    {
        let agree = Box::new(alloc, agree)?;
        let mut out = Effects::new(alloc);
        let view = self.plan_entering(alloc, key, &members, &mut out)?;
        tell_commit(alloc, key, &members, view.others().as_slice(), &mut out)?;
        let entered = Some(view);
        Ok(self.plan(out, Planned::Agreed { agree, entered }))
    }

    /// A Refuse is stale where its key isn't proposed. Its promised key is seen either way.
    pub(crate) fn on_refuse(
        &mut self,
        alloc: Global,
        refused: ClusterKey,
        promised: ClusterKey,
    ) -> Result<Effects, NoMemory>
        requires unplanned { self.old.next ≡ None }
        ensures effects { IfOk result (λ e. e ≡ spelled (due_refuse self.old.now refused)) }
        ensures planned { OnOk result
            (self.new ≡ planning self.old.now
            (after_message self.old.now 0 0 (message.Refuse refused promised))) }
        ensures err { OnErr result (self.new ≡ unplanned self.old.now) }
    {
        let (agree, step) = self.agree.copy().on_refuse(refused, promised);
        match step {
            RefuseStep::Stopped => self.plan_agreed(alloc, Effects::new(alloc), agree),
            RefuseStep::Stale => {
                let endpoint = self.me.number();
                let out = Effects::of_line(alloc, Line::Stale { endpoint })?;
                self.plan_agreed(alloc, out, agree)
            }
        }
    }

    /// A Commit is stale where its view isn't to be entered.
    pub(crate) fn on_commit(
        &mut self,
        alloc: Global,
        key: ClusterKey,
        members: &Members,
    ) -> Result<Effects, NoMemory>
        requires unplanned { self.old.next ≡ None }
        requires proper { IsProper (message.Commit key members.now) }
        ensures effects { IfOk result (λ e. e ≡ spelled (due_commit self.old.now key members.now)) }
        ensures planned { OnOk result
            (self.new ≡ planning self.old.now
            (after_message self.old.now 0 0 (message.Commit key members.now))) }
        ensures err { OnErr result (self.new ≡ unplanned self.old.now) }
    {
        let (agree, step) = self.agree.copy().on_commit(key, *members);
        match step {
            CommitStep::Stale => self.stale(alloc),
            CommitStep::Enter { key, members } => {
                let agree = Box::new(alloc, agree)?;
                let mut out = Effects::new(alloc);
                let view = self.plan_entering(alloc, key, &members, &mut out)?;
                let entered = Some(view);
                Ok(self.plan(out, Planned::Agreed { agree, entered }))
            }
        }
    }

    fn plan_agreed(
        &mut self,
        alloc: Global,
        out: Effects,
        agree: Agree,
    ) -> Result<Effects, NoMemory>
        requires agree_of { agree.me ≡ self.old.now.me }
        requires ranges { HasRanges (record self.old.now { agreement = agree.agreement }) }
        ensures same { IfOk result (λ e. e ≡ out) }
        ensures planned { OnOk result (self.new
            ≡ planning self.old.now (record self.old.now { agreement = agree.agreement })) }
        ensures err { OnErr result (self.new ≡ self.old) }
    {
        let agree = Box::new(alloc, agree)?;
        let entered = None;
        Ok(self.plan(out, Planned::Agreed { agree, entered }))
    }
}
