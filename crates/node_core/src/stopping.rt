//! A stop and a start.
ghost use Rattle.std.specs.Prelude.{◌≡◌, false, IsTrue, IfOk, OnErr, OnOk};
ghost use Rattle.node_rules.specs.Requests.{due_stop};
ghost use Rattle.node_rules.specs.Steps.{after_start, after_stop, planning, unplanned};
ghost use Rattle.node_steps.specs.Spelled.{spelled};

use crate::node::Node;
use cluster_types::NoMemory;
use journal_lines::Line;
use node_steps::{Effects, Planned};
use std::alloc::Global;

impl Node {
    /// Plans the stop of a running node: it closes all transactions.
    pub fn stop(&mut self, alloc: Global) -> Result<Effects, NoMemory>
        requires up { IsTrue self.old.now.up }
        ensures effects { IfOk result (λ e. e ≡ spelled (due_stop self.old.now)) }
        ensures planned { OnOk result (self.new ≡ planning self.old.now (after_stop self.old.now)) }
        ensures err { OnErr result (self.new ≡ unplanned self.old.now) }
    {
        self.give_up();
        let mut out = Effects::new(alloc);
        self.close_transactions(&mut out)?;
        out.lines.push(Line::Stop { node: self.me })?;
        Ok(self.plan(out, Planned::Stopped))
    }

    /// Starts a stopped node.
    pub fn start(&mut self)
        requires { self.old.now.up ≡ false }
        ensures { self.new ≡ unplanned (after_start self.old.now) }
    {
        self.give_up();
        self.up = true;
    }
}
