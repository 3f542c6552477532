//! What a node keeps of requests, and the step that is planned.
ghost use Rattle.std.specs.Prelude.{◌≡◌, ◌↔◌, ◌<◌, ◌+◌, ◌-◌, ◌^◌, Some, None, true, false, IsTrue, IsSome, IfSome, IfOk, OnOk, OnErr, length, map};
ghost use Rattle.std.specs.Option.{option_copied};
ghost use Rattle.node_rules.specs.Effects as rules;
ghost use Rattle.node_rules.specs.Facts.{Facts, view_key};
ghost use Rattle.node_steps.specs.Spelled.{spelled};
ghost use Rattle.reply_table.specs.Kept.{TellsOutcome};
ghost use Rattle.request_rules.specs.ByNumber.{item_under};
ghost use Rattle.request_rules.specs.Dressing.{with_requests};
ghost use Rattle.request_rules.specs.LineNotes.{noted_requests};
ghost use Rattle.request_rules.specs.Requests.{no_requests};
ghost use Rattle.request_rules.specs.TakenUp.{outcome_for, owed};
ghost use Rattle.node_requests.specs.Changes.{CanMakeAll, all_changed};
ghost use Rattle.node_requests.specs.Dressed.{dressed};
ghost use Rattle.node_requests.specs.Planned.{CanAllCount, HaveSpellings, planning, unplanned};

use crate::change::{Change, make_all};
use crate::leaving::with_given_up;
use crate::planning::Planner;
use cluster_types::{ClusterKey, NoMemory, NodeId};
use conflict_order::Want;
use item_lists::{CopyList, OwnedList};
use node_steps::Effects;
use proxy_path::Proxies;
use request_rules::laws::what_is_given_up_changes_nothing_kept;
use request_rules::{Asker, Passed};
use std::alloc::Global;
use std::marker::Model;
use wire_codec::Known;

/// What a node keeps of requests that go as messages, and the change that a step is to make of it.
#[derive(Drop)]
pub struct NodeRequests {
    proxies: Proxies,
    /// The changes that the last call planned.
    planned: Option<OwnedList<Change>>,
}

impl Model for NodeRequests {
    ghost use Rattle.std.specs.Prelude.{option_map, length};
    ghost use Rattle.std.specs.Option.{ForSome};
    ghost use Rattle.proxy_path.specs.Room.{HasRoomFor};
    ghost use Rattle.node_requests.specs.Changes.{CanMakeAll, all_changed, kept};
    ghost use Rattle.node_requests.specs.Planned.{PlannedRequests};

    ghost Value = { PlannedRequests };

    ghost view = { λ r.
        record {
          now = kept r.proxies;
          next = option_map (all_changed (kept r.proxies)) r.planned;
        } };

    ghost invariant = { λ r. ForSome r.planned (λ cs.
        CanMakeAll (kept r.proxies) cs × HasRoomFor (length cs) r.proxies) };
}

impl NodeRequests {
    /// Nothing is kept, and nothing is planned.
    pub fn new(alloc: Global) -> NodeRequests
        ensures { result ≡ unplanned no_requests }
    {
        NodeRequests {
            proxies: Proxies::new(alloc),
            planned: None,
        }
    }

    /// Whether nothing is kept: nothing was passed on in the view, and nothing taken up.
    pub fn is_idle(&self) -> bool
        ensures { IsTrue result ↔ (self.now.now ≡ no_requests) }
    {
        self.proxies.given() == 0 && self.proxies.is_idle()
    }

    // ---- what is known of a request

    /// What became of the asker's request: it has a reply, its transaction is open, or it wasn't
    /// taken up.
    pub fn known(&self, asker: Asker) -> Known<'_>
        ensures { TellsOutcome result (outcome_for self.now.now.taken asker) }
    {
        self.proxies.known(asker)
    }

    /// What was passed on under that number, if it isn't replied to.
    pub fn get(&self, number: u32) -> Option<&Passed>
        ensures { option_copied result ≡ item_under self.now.now.passed.waiting number }
    {
        self.proxies.get(number)
    }

    /// The numbers of what was passed on and isn't replied to, in rising order.
    pub fn numbers(&self, alloc: Global) -> Result<CopyList<u32>, NoMemory>
        ensures { IfOk result (λ ns. ns ≡ map (λ p. p.0) self.now.now.passed.waiting) }
    {
        self.proxies.numbers(alloc)
    }

    /// The number that the next request gets that is passed on, where fewer than 2^32 - 1 were in the
    /// view.
    pub fn next_number(&self) -> u32
        requires { self.now.now.passed.given < 2 ^ 32 - 1 }
        ensures { result ≡ self.now.now.passed.given + 1 }
    {
        self.proxies.next()
    }

    // ---- a step

    /// Plans what a step of the node of that id changes, which has these effects without requests by
    /// message and began in the view of that key, with this asker and this want in hand. The answer
    /// is what the step does with them: behind its other messages the replies that its lines owe, and
    /// right before the first line at which it leaves its view a line for each request that it gives
    /// up.
    pub fn plan(
        &mut self,
        alloc: Global,
        me: NodeId,
        key: ClusterKey,
        asker: Option<Asker>,
        want: Option<&Want>,
        effects: Effects,
    ) -> Result<Effects, NoMemory>
        requires count { CanAllCount asker (option_copied want) self.old.now effects.lines }
        requires spelled { HaveSpellings (owed key asker self.old.now.taken effects.lines) }
        ensures dressed { IfOk result (λ d. d ≡ dressed self.old.now me key asker effects) }
        ensures by_rules { (f : Facts) → (e : rules.Effects) → f.me ≡ me → view_key f ≡ key
            → effects ≡ spelled e
            → IfOk result (λ d. d ≡ spelled (with_requests self.old.now f asker e)) }
        ensures planned { IfOk result (λ d. self.new ≡ planning self.old.now
            (noted_requests asker (option_copied want.entry) self.old.now d.lines)) }
        ensures err { OnErr result (self.new ≡ unplanned self.old.now) }
    {
        self.give_up();
        let Effects { lines, mut sends } = effects;
        let planner = Planner {
            proxies: &self.proxies,
            key,
            asker,
            want,
        };
        let changes = planner.plan(alloc, &lines, &mut sends)?;
        let lines = with_given_up(alloc, &self.proxies, me, key, lines)?;
        self.plan_changes(changes)?;
        // So the lines of the answer make of what is kept what the planned changes make of it.
        what_is_given_up_changes_nothing_kept();
        Ok(Effects { lines, sends })
    }

    /// Makes the changes that the last call planned, without memory.
    pub fn commit(&mut self)
        requires { IsSome self.old.next }
        ensures { IfSome self.old.next (λ r. self.new ≡ unplanned r) }
    {
        if let Some(changes) = self.planned.take() {
            make_all(&mut self.proxies, changes);
        }
    }

    /// Gives up what was planned.
    fn give_up(&mut self)
        ensures { self.new ≡ unplanned self.old.now }
    {
        self.planned = None;
    }

    /// Plans the changes. There is room for them from now on.
    fn plan_changes(&mut self, changes: OwnedList<Change>) -> Result<(), NoMemory>
        requires unplanned { self.old.next ≡ None }
        requires can { CanMakeAll self.old.now changes }
        ensures planned { OnOk result
            (self.new ≡ planning self.old.now (all_changed self.old.now changes)) }
        ensures err { OnErr result (self.new ≡ self.old) }
    {
        self.proxies.reserve_for(changes.len())?;
        self.planned = Some(changes);
        Ok(())
    }
}
