//! Entering a view, and the lines of transactions that end with one.
ghost use Rattle.std.specs.Prelude.{◌≡◌, true, IfOk, OnOk};
ghost use Rattle.node_rules.specs.Effects.{lines_only};
ghost use Rattle.node_rules.specs.Entering.{closing, entering};
ghost use Rattle.node_rules.specs.Exchange.{is_member};
ghost use Rattle.node_steps.specs.Spelled.{then_effects};
ghost use Rattle.node_steps.specs.Viewing.{ending_of};
ghost use Rattle.node_view.specs.Views.{IsEntered};

use crate::node::Node;
use cluster_types::{Boxed, ClusterKey, Members, NoMemory};
use dup_resolve::Txn;
use journal_lines::Line;
use node_steps::Effects;
use node_view::{Entrant, View};
use std::alloc::Global;

impl Node {
    /// Plans that a view is entered: the transactions are closed, and the new view is made.
    pub(crate) fn plan_entering(
        &mut self,
        alloc: Global,
        key: ClusterKey,
        members: &Members,
        out: &mut Effects,
    ) -> Result<Box<View>, NoMemory>
        requires member { is_member members.now self.old.now.me ≡ true }
        ensures lines { OnOk result
            (out.new ≡ then_effects out.old (lines_only (entering self.old.now key members.now))) }
        ensures view { IfOk result (λ v. IsEntered self.old.now key members.now v.value) }
        ensures same { self.new ≡ self.old }
    {
        let node = self.me;
        self.close_transactions(out)?;
        out.lines.push(Line::Enter {
            node,
            key,
            members: Boxed::new(alloc, *members)?,
        })?;
        if members.len() == 1 {
            out.lines.push(Line::Exchanged { node, key })?;
        }
        let lists = self.lists.lists(alloc, members)?;
        let entrant = Entrant {
            me: node,
            factor: self.factor,
            by: self.by,
        };
        let view = View::enter(alloc, entrant, key, lists, &self.store)?;
        Ok(Box::new(alloc, view)?)
    }

    /// The lines of all open transactions that end, in rising order of their numbers.
    pub(crate) fn close_transactions(&self, out: &mut Effects) -> Result<(), NoMemory>
        ensures { OnOk result (out.new ≡ then_effects out.old (lines_only (closing self.now.now))) }
    {
        if let Some(view) = &self.view {
            for txn in view.txns().iter() {
                out.lines.push(self.ending(view.key(), txn))?;
            }
        }
        Ok(())
    }

    /// The line of a transaction that ends: in doubt where its write was applied.
    fn ending(&self, key: ClusterKey, txn: &Txn) -> Line
        ensures { result ≡ ending_of self.now.now.me key txn.now }
    {
        if txn.applied {
            Line::Doubt {
                node: self.me,
                key,
                transaction: txn.id,
            }
        } else {
            Line::Aborted {
                node: self.me,
                key,
                transaction: txn.id,
            }
        }
    }
}
