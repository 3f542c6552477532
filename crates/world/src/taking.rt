//! A step of an endpoint that sends messages.
ghost use Rattle.std.specs.Prelude.{◌≡◌, ◌≤◌, ◌++◌, ◌∷◌, [], ℕ, length, is_some, true, IsSome, IfSome, IfOk, OnOk, OnErr, IsErrOf, None, Some};
ghost use Rattle.journal_text.specs.Journals.{IsWithin, line_limit};
ghost use Rattle.net_script.specs.Network as nets;
ghost use Rattle.node_rules.specs.Steps.{unplanned};
ghost use Rattle.world.specs.Ledgers.{IsSameLedger, Wrote};
ghost use Rattle.world.specs.Sent.{IsInFlight, all_posted_in, landing_from};
ghost use Rattle.world.specs.Taking.{end_step_lines, with_all_lines};

use crate::fault::StepFault;
use crate::ledger::Ledger;
use crate::sending::{Postmark, add_sent_lines, land, send_all};
use cluster_rules::Event;
use journal_text::Line;
use net_script::Net;
use node_core::{Effects, Node};
use std::alloc::Global;
use std::snapshot::Snapshot;

/// No journal has more lines, of which each message takes one.
const MESSAGE_LIMIT: usize = 2_000_000;

/// What an endpoint does in an event's step.
#[derive(Drop)]
pub(crate) struct EndStep {
    pub event: Snapshot<Event>,
    /// The endpoint.
    pub from: u16,
    /// The message in flight that leaves the network before the endpoint sends its own.
    pub landing: Option<u64>,
    pub effects: Effects,
}

impl EndStep {
    /// A step that takes no message out of flight.
    pub fn of(event: Snapshot<Event>, from: u16, effects: Effects) -> EndStep
        ensures { result
            ≡ record { event = event; from = from; landing = None; effects = effects } }
    {
        EndStep {
            event,
            from,
            landing: None,
            effects,
        }
    }

    /// The step with the lines of its messages, and room for all of it.
    fn prepare(
        self,
        alloc: Global,
        net: &mut Net,
        ledger: &mut Ledger,
    ) -> Result<EndStep, StepFault>
        requires sent { net.old.sent ≤ line_limit }
        requires flying { IsInFlight net.old.flying self.landing }
        ensures ok { IfOk result (λ step. step ≡ with_all_lines self net.old) }
        ensures within { OnOk result
            (IsWithin (ledger.old.journal.lines ++ end_step_lines self net.old)) }
        ensures few { OnOk result (length self.effects.sends ≤ line_limit) }
        ensures place { OnOk result (length self.effects.sends ≤ net.new.spare) }
        ensures room { OnOk result
            (length (end_step_lines self net.old) ≤ ledger.new.journal.spare) }
        ensures too_long { IsErrOf result StepFault.RunTooLong
            → ¬ IsWithin (ledger.old.journal.lines ++ end_step_lines self net.old) }
        ensures numbers { OnOk result
            (nets.AreNumbers net.old.sent (nets.flying_ids net.old.flying)) }
        ensures net { nets.IsSameNetwork net.old net.new }
        ensures ledger { IsSameLedger ledger.old ledger.new }
    {
        let EndStep {
            event,
            from,
            landing,
            effects,
        } = self;
        let Effects { mut lines, sends } = effects;
        if sends.len() > MESSAGE_LIMIT {
            return Err(StepFault::RunTooLong);
        }
        let before = Postmark::after(net, landing);
        add_sent_lines(alloc, &mut lines, from, &sends, before)?;
        net.reserve(sends.len())?;
        ledger.make_room(&lines)?;
        Ok(EndStep {
            event,
            from,
            landing,
            effects: Effects { lines, sends },
        })
    }

    /// Takes the step, of which all lines stand in it and for which there is room.
    fn finish(self, net: &mut Net, ledger: &mut Ledger)
        requires sent { net.old.sent ≤ line_limit }
        requires few { length self.effects.sends ≤ line_limit }
        requires place { length self.effects.sends ≤ net.old.spare }
        requires within { IsWithin (ledger.old.journal.lines ++ self.effects.lines) }
        requires room { length self.effects.lines ≤ ledger.old.journal.spare }
        ensures net { nets.IsSameNetwork
            (all_posted_in (landing_from net.old self.landing) self.from self.effects.sends)
            net.new }
        ensures wrote { Wrote ledger.old ledger.new self.effects.lines self.event.value }
    {
        let EndStep {
            event,
            from,
            landing,
            effects,
        } = self;
        let Effects { lines, sends } = effects;
        land(net, landing);
        send_all(net, from, sends);
        ledger.write(lines, event);
    }

    /// Takes the step, where it fits in the journal.
    pub fn take(self, alloc: Global, net: &mut Net, ledger: &mut Ledger) -> Result<(), StepFault>
        requires sent { net.old.sent ≤ line_limit }
        requires flying { IsInFlight net.old.flying self.landing }
        ensures net { OnOk result (nets.IsSameNetwork
            (all_posted_in (landing_from net.old self.landing) self.from self.effects.sends)
            net.new) }
        ensures numbers { OnOk result
            (nets.AreNumbers net.old.sent (nets.flying_ids net.old.flying)) }
        ensures wrote { OnOk result
            (Wrote ledger.old ledger.new (end_step_lines self net.old) self.event.value) }
        ensures within { OnOk result
            (IsWithin (ledger.old.journal.lines ++ end_step_lines self net.old)) }
        ensures too_long { IsErrOf result StepFault.RunTooLong
            → ¬ IsWithin (ledger.old.journal.lines ++ end_step_lines self net.old) }
        ensures err { OnErr result
            (nets.IsSameNetwork net.old net.new × IsSameLedger ledger.old ledger.new) }
    {
        let step = self.prepare(alloc, net, ledger)?;
        step.finish(net, ledger);
        Ok(())
    }

    /// The same, where the endpoint is a node that has planned the step.
    pub fn take_of(
        self,
        alloc: Global,
        node: &mut Node,
        net: &mut Net,
        ledger: &mut Ledger,
    ) -> Result<(), StepFault>
        requires planned { IsSome node.old.next }
        requires sent { net.old.sent ≤ line_limit }
        requires flying { IsInFlight net.old.flying self.landing }
        ensures node { OnOk result (IfSome node.old.next (λ f. node.new ≡ unplanned f)) }
        ensures net { OnOk result (nets.IsSameNetwork
            (all_posted_in (landing_from net.old self.landing) self.from self.effects.sends)
            net.new) }
        ensures numbers { OnOk result
            (nets.AreNumbers net.old.sent (nets.flying_ids net.old.flying)) }
        ensures wrote { OnOk result
            (Wrote ledger.old ledger.new (end_step_lines self net.old) self.event.value) }
        ensures within { OnOk result
            (IsWithin (ledger.old.journal.lines ++ end_step_lines self net.old)) }
        ensures too_long { IsErrOf result StepFault.RunTooLong
            → ¬ IsWithin (ledger.old.journal.lines ++ end_step_lines self net.old) }
        ensures err { OnErr result
            ((node.new ≡ node.old) × nets.IsSameNetwork net.old net.new
            × IsSameLedger ledger.old ledger.new) }
    {
        let step = self.prepare(alloc, net, ledger)?;
        node.commit();
        step.finish(net, ledger);
        Ok(())
    }
}

/// A step of one line, at which a node does nothing but go on.
#[derive(Drop)]
pub(crate) struct LineStep {
    pub event: Snapshot<Event>,
    /// The message in flight that leaves the network.
    pub landing: Option<u64>,
    pub line: Line,
}

impl LineStep {
    /// Takes the step that the node has planned, where its line fits in the journal.
    pub fn take_of(
        self,
        endpoint: &mut Node,
        net: &mut Net,
        ledger: &mut Ledger,
    ) -> Result<(), StepFault>
        requires planned { IsSome endpoint.old.next }
        ensures node { OnOk result (IfSome endpoint.old.next (λ f. endpoint.new ≡ unplanned f)) }
        ensures net { OnOk result (nets.IsSameNetwork (landing_from net.old self.landing) net.new) }
        ensures numbers { OnOk result
            (nets.AreNumbers net.old.sent (nets.flying_ids net.old.flying)) }
        ensures wrote { OnOk result
            (Wrote ledger.old ledger.new (self.line ∷ []) self.event.value) }
        ensures within { OnOk result (IsWithin (ledger.old.journal.lines ++ self.line ∷ [])) }
        ensures too_long { IsErrOf result StepFault.RunTooLong
            → ¬ IsWithin (ledger.old.journal.lines ++ self.line ∷ []) }
        ensures err { OnErr result
            ((endpoint.new ≡ endpoint.old) × nets.IsSameNetwork net.old net.new
            × IsSameLedger ledger.old ledger.new) }
    {
        let LineStep {
            event,
            landing,
            line,
        } = self;
        // The numbers of those in flight rise.
        let _ = net.len();
        ledger.tell(line, event)?;
        endpoint.commit();
        land(net, landing);
        Ok(())
    }
}
