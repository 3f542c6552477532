//! Proposals.
ghost use Rattle.std.specs.Prelude.{◌≡◌, not, IfOk, OnOk};
ghost use Rattle.journal_lines.specs.declared.line.Line.TheVariants as line;
ghost use Rattle.node_rules.specs.Effects.{lines_only};
ghost use Rattle.node_rules.specs.Keys.{same_key};
ghost use Rattle.node_rules.specs.Notes.{after_ages};
ghost use Rattle.node_rules.specs.Tick as tick;
ghost use Rattle.node_rules.specs.Tables.{only_if};
ghost use Rattle.node_steps.specs.Spelled.{then_effects};
ghost use Rattle.node_steps.specs.Ticks.{EntersBy, IsProposed};

use crate::node::Node;
use cluster_types::{ClusterKey, NoMemory};
use clustering::{Agree, ProposalStep};
use journal_lines::Line;
use node_steps::{Effects, tell_proposal};
use node_view::View;
use std::alloc::Global;

impl Node {
    /// What the agreement says in a tick, with what is left of it: the proposal goes out again or
    /// anew, or a view without other members is entered.
    pub(crate) fn propose(
        &mut self,
        alloc: Global,
        agree: &Agree,
        proposal: &ProposalStep,
        out: &mut Effects,
    ) -> Result<Option<Box<View>>, NoMemory>
        requires { IsProposed (after_ages self.old.now) agree.now proposal.now }
        ensures effects { OnOk result
            (out.new ≡ then_effects out.old (tick.propose (after_ages self.old.now))) }
        ensures view { IfOk result (λ v. EntersBy (after_ages self.old.now) proposal.now v) }
        ensures same { self.new ≡ self.old }
    {
        let _ = &self.me;
        self.tell_promise(agree.promised(), out)?;
        match proposal {
            ProposalStep::Nothing => Ok(None),
            ProposalStep::Send { key, members, to } => {
                tell_proposal(alloc, *key, members, to.as_slice(), out)?;
                Ok(None)
            }
            ProposalStep::Enter { key, members } => {
                Ok(Some(self.plan_entering(alloc, *key, members, out)?))
            }
        }
    }

    /// The line of the promise, where it is another one.
    fn tell_promise(&self, promised: ClusterKey, out: &mut Effects) -> Result<(), NoMemory>
        ensures { OnOk result
            (out.new ≡ then_effects out.old (lines_only (only_if
            (line.Promise self.now.now.me promised)
            (not (same_key promised self.now.now.agreement.promised))))) }
    {
        if promised != self.agree.promised() {
            out.lines.push(Line::Promise {
                node: self.me,
                key: promised,
            })?;
        }
        Ok(())
    }
}
