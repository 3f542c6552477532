//! How far other members' partitions have come.
ghost use Rattle.std.specs.Prelude.{◌≡◌, None, IfOk, OnErr, OnOk};
ghost use Rattle.cluster_types.specs.Partitions.{partition_count};
ghost use Rattle.wire_messages.specs.declared.message.Message.TheVariants as message;
ghost use Rattle.wire_messages.specs.Proper.{IsProper};
ghost use Rattle.node_rules.specs.Messages.{due_progress};
ghost use Rattle.node_rules.specs.Notes.{reached};
ghost use Rattle.node_rules.specs.Steps.{after_message, planning, unplanned};
ghost use Rattle.node_rules.specs.Senders.{ComesFrom};
ghost use Rattle.node_steps.specs.Spelled.{spelled};

use crate::node::Node;
use cluster_types::{Boxed, ClusterKey, NoMemory, NodeId, Row4096};
use node_steps::{Effects, progress_effects};
use node_view::{Progressed, View, ViewStep};
use std::alloc::Global;

impl Node {
    /// The rows are the sender's done row, and the handed and settled rows as it knows them. A node
    /// that with them knows every partition settled answers, where that is wanted.
    pub(crate) fn on_progress(
        &mut self,
        alloc: Global,
        from: NodeId,
        key: ClusterKey,
        wants: bool,
        done: &Row4096,
        handed: &Row4096,
        settled: &Row4096,
    ) -> Result<Effects, NoMemory>
        requires unplanned { self.old.next ≡ None }
        requires proper { IsProper (message.Progress key wants done.now handed.now settled.now) }
        requires sender { ComesFrom self.old.now from
            (message.Progress key wants done.now handed.now settled.now) }
        ensures effects { IfOk result (λ e. e ≡ spelled (due_progress partition_count self.old.now
            (reached self.old.now from (message.Progress key wants done.now handed.now settled.now))
            from key wants)) }
        ensures planned { OnOk result
            (self.new ≡ planning self.old.now (after_message self.old.now 0 from
            (message.Progress key wants done.now handed.now settled.now))) }
        ensures err { OnErr result (self.new ≡ unplanned self.old.now) }
    {
        // What it sends keeps its ranges.
        let _ = &self.me;
        let Some(view) = self.view_of(key) else {
            return self.stale(alloc);
        };
        let out = progress_effects(alloc, view, from, wants, handed, settled)?;
        let progressed = Progressed {
            from,
            done: Boxed::new(alloc, *done)?,
            handed: Boxed::new(alloc, *handed)?,
            settled: Boxed::new(alloc, *settled)?,
        };
        self.plan_step(alloc, out, ViewStep::Progressed(progressed))
    }
}
