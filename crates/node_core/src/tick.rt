//! A tick, part by part.
ghost use Rattle.std.specs.Prelude.{◌≡◌, IsTrue, IfOk, OnErr, OnOk};
ghost use Rattle.std.specs.Option.{option_map};
ghost use Rattle.cluster_types.specs.Partitions.{partition_count};
ghost use Rattle.node_rules.specs.Steps.{after_tick, planning, unplanned};
ghost use Rattle.node_rules.specs.Tick.{due_tick, parts_in_order};
ghost use Rattle.node_steps.specs.Counts.{HaveNumbers};
ghost use Rattle.node_steps.specs.Fits.{FitsAgreed};
ghost use Rattle.node_steps.specs.Grounds.{IsGroundOf, grounded, lent};
ghost use Rattle.node_steps.specs.Plans.{either};
ghost use Rattle.node_steps.specs.Ranges.{HasRanges};
ghost use Rattle.node_steps.specs.Spelled.{then_effects, spelled};
ghost use Rattle.node_steps.specs.Ticks.{TicksFrom, agreed, later_parts};

mod propose;

use crate::node::Node;
use cluster_types::NoMemory;
use clustering::Agree;
use heartbeat::Adjacency;
use journal_lines::Line;
use node_steps::{
    Effects, Ground, Planned, Ticked, batches, beat, is_candidate, progress, rows, settlings,
    transactions,
};
use node_view::View;
use std::alloc::Global;

impl Node {
    /// Plans a tick of a running node. Its clock plays no part.
    pub fn tick(&mut self, alloc: Global, _clock: u64) -> Result<Effects, NoMemory>
        requires up { IsTrue self.old.now.up }
        requires counts { HaveNumbers self.old.now }
        ensures effects { IfOk result (λ e. e ≡ spelled (due_tick self.old.now)) }
        ensures planned { OnOk result (self.new ≡ planning self.old.now (after_tick self.old.now)) }
        ensures err { OnErr result (self.new ≡ unplanned self.old.now) }
    {
        self.give_up();
        let mut out = Effects::new(alloc);
        out.lines.push(Line::Tick { node: self.me })?;

        let mut hearing = self.hearing.copy();
        let set = hearing.tick();
        let before = self.ground(&hearing, &self.agree, self.own_view());
        beat(alloc, &before, &mut out)?;
        let candidate = is_candidate(&before, &set);

        let (agree, proposal) = self.agree.copy().on_tick(set, candidate);
        let entered = self.propose(alloc, &agree, &proposal, &mut out)?;
        let ticked = self.plan_rest(alloc, &hearing, agree, entered, &mut out)?;
        let tick = Box::new(alloc, ticked)?;
        Ok(self.plan(out, Planned::Tick(tick)))
    }

    /// The parts of a tick after the agreement.
    fn plan_rest(
        &self,
        alloc: Global,
        hearing: &Adjacency,
        agree: Agree,
        entered: Option<Box<View>>,
        out: &mut Effects,
    ) -> Result<Ticked, NoMemory>
        requires up { IsTrue self.now.now.up }
        requires counts { HaveNumbers (agreed self.now.now hearing.now agree entered) }
        requires hearing { hearing.now.me ≡ self.now.now.me }
        requires view { FitsAgreed self.now.now agree entered }
        requires ranges { HasRanges (agreed self.now.now hearing.now agree entered) }
        ensures lines { OnOk result
            (out.new ≡ then_effects out.old (parts_in_order (later_parts partition_count)
            (agreed self.now.now hearing.now agree entered))) }
        ensures ticked { IfOk result (λ t. TicksFrom self.now.now hearing.now agree entered t) }
    {
        let _ = &self.me;
        let (batches, settlings) = {
            let ground = self.ground(hearing, &agree, newest(&entered, self.own_view()));
            rows(alloc, &ground, out)?;
            transactions(alloc, &ground, out)?;
            let batches = batches(alloc, &ground, out)?;
            let settlings = settlings(alloc, &ground, out)?;
            progress(alloc, &ground, &settlings, out)?;
            (batches, settlings)
        };
        Ok(Ticked {
            agree,
            entered,
            batches,
            settlings,
        })
    }

    /// The node with these parts in place of its own.
    fn ground<'a>(
        &'a self,
        hearing: &'a Adjacency,
        agree: &'a Agree,
        view: Option<&'a View>,
    ) -> Ground<'a>
        requires { IsGroundOf self.now.now hearing.now agree.now view }
        ensures { result ≡ grounded self.now.now hearing.now agree.now view.entry }
    {
        Ground {
            me: self.me,
            peers: &self.peers,
            factor: self.factor,
            role: self.role,
            hearing,
            agree,
            view,
            store: &self.store,
        }
    }
}

/// The view that was entered, and else the one before.
fn newest<'a>(entered: &'a Option<Box<View>>, before: Option<&'a View>) -> Option<&'a View>
    ensures { lent result ≡ either (option_map (λ v. v.value) entered.now) (lent before.entry) }
{
    match entered {
        Some(view) => Some(view),
        None => before,
    }
}
