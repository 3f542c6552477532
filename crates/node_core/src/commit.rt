//! Planned steps are taken, without memory.
ghost use Rattle.std.specs.Prelude.{◌≡◌, None, IsSome, IfSome};
ghost use Rattle.std.specs.Option.{ForSome, option_map};
ghost use Rattle.node_rules.specs.Notes.{stopped};
ghost use Rattle.node_rules.specs.Steps.{unplanned};
ghost use Rattle.node_steps.specs.declared.planned.Planned.TheVariants as planned;
ghost use Rattle.node_steps.specs.Fits.{FitsAgreed, FitsBeat, FitsTick, HasStepped};
ghost use Rattle.node_view.specs.Fits.{IsReady};
ghost use Rattle.node_steps.specs.Plans.{agreed, taken, tick_taken};
ghost use Rattle.node_steps.specs.Ranges.{HasRanges};

use crate::node::Node;
use cluster_types::NodeId;
use clustering::Agree;
use node_rules::Beat;
use node_steps::{Planned, Ticked};
use node_view::{View, ViewStep};
use record_store::RecordStore;

impl Node {
    /// Takes the step that the last call planned, without memory.
    pub fn commit(&mut self)
        requires { IsSome self.old.next }
        ensures { IfSome self.old.next (λ f. self.new ≡ unplanned f) }
    {
        let Some(planned) = self.planned.take() else {
            return;
        };
        match planned {
            Planned::Nothing => {}
            Planned::Tick(tick) => self.take_tick(Box::into_inner(tick)),
            Planned::Agreed { agree, entered } => {
                self.take_agreed(Box::into_inner(agree), entered)
            }
            Planned::Heard { from, beat } => self.take_heard(from, &beat),
            Planned::Stopped => self.take_stop(),
            Planned::View(step) => {
                take_view_step(&mut self.view, &mut self.store, Box::into_inner(step))
            }
        }
    }

    fn take_tick(&mut self, tick: Ticked)
        requires unplanned { self.old.next ≡ None }
        requires fits { FitsTick self.old.now tick }
        requires ranges { HasRanges (tick_taken self.old.now tick) }
        ensures { self.new ≡ unplanned (tick_taken self.old.now tick) }
    {
        let Ticked {
            agree,
            entered,
            batches,
            settlings,
        } = tick;
        self.hearing.tick();
        self.take_agreed(agree, entered);
        if let Some(view) = &mut self.view {
            view.settle_all(&mut self.store, &settlings);
            view.send_batches(batches);
        }
    }

    fn take_agreed(&mut self, agree: Agree, entered: Option<Box<View>>)
        requires unplanned { self.old.next ≡ None }
        requires fits { FitsAgreed self.old.now agree entered }
        requires ranges { HasRanges
            (agreed self.old.now agree.agreement (option_map (λ v. v.value) entered)) }
        ensures { self.new
            ≡ unplanned (agreed self.old.now agree.agreement (option_map (λ v. v.value) entered)) }
    {
        self.agree = agree;
        if let Some(view) = entered {
            self.hearing.entered();
            view.stamp_empty_copies(&mut self.store);
            self.view = Some(view);
        }
    }

    fn take_heard(&mut self, from: NodeId, beat: &Beat)
        requires unplanned { self.old.next ≡ None }
        requires fits { FitsBeat self.old.now from }
        requires ranges { HasRanges (taken self.old.now (planned.Heard from beat.now)) }
        ensures { self.new ≡ unplanned (taken self.old.now (planned.Heard from beat.now)) }
    {
        self.hearing.heard(from, beat);
        self.agree.see(beat.promised);
    }

    fn take_stop(&mut self)
        requires unplanned { self.old.next ≡ None }
        requires ranges { HasRanges (stopped self.old.now) }
        ensures { self.new ≡ unplanned (stopped self.old.now) }
    {
        self.up = false;
        self.hearing.stopped();
        self.agree = Agree::restart(self.me, self.agree.promised(), self.agree.last());
        self.view = None;
    }
}

/// Takes the step in the view, with what is held. There is room for it.
fn take_view_step(view: &mut Option<Box<View>>, store: &mut RecordStore, step: ViewStep)
    requires in_one { IsSome view.old }
    requires ready { ForSome view.old (λ v. IsReady v.value store.old step) }
    ensures { HasStepped view.old store.old step view.new store.new }
{
    let Some(view) = view else { unreachable!() };
    view.take_step(store, step);
}
