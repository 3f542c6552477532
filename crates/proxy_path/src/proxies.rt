//! What a node keeps of requests that go as messages, for as long as it stays in its view.
ghost use Rattle.std.specs.Prelude.{◌≡◌, ◌≢◌, ◌↔◌, ◌<◌, ◌≤◌, ◌+◌, ◌-◌, ◌^◌, [], ℕ, Some, None, IsTrue, IsOk, IfOk, OnOk, OnErr, map};
ghost use Rattle.std.specs.Option.{option_copied};
ghost use Rattle.wire_messages.specs.declared.reply.ReplyBody.{ReplyBody};
ghost use Rattle.request_rules.specs.declared.passed.ReplyStep.TheVariants as step;
ghost use Rattle.request_rules.specs.declared.taken.Outcome.TheVariants as outcome;
ghost use Rattle.request_rules.specs.ByNumber.{item_under};
ghost use Rattle.request_rules.specs.Passing.{closing_passed, passing_to, reply_step, waits_for};
ghost use Rattle.request_rules.specs.Requests.{none_passed};
ghost use Rattle.request_rules.specs.TakenUp.{bound_to, keeping, outcome_for, taking_up};
ghost use Rattle.reply_table.specs.Kept.{TellsOutcome};
ghost use Rattle.proxy_path.specs.Room.{HasRoomFor, HasRoomForEach, KeepsRequests, HasNoLessRoom};

use cluster_types::{Digest, NoMemory, NodeId};
use conflict_order::Want;
use item_lists::CopyList;
use open_table::OpenTable;
use reply_table::ReplyTable;
use request_rules::{Asker, Passed, ReplyStep};
use std::alloc::Global;
use std::marker::Model;
use wire_messages::{Known, ReplyBody};

/// The requests that a node passed on, by their numbers, and those that it took up for others. All
/// are forgotten as the node leaves its view.
#[derive(Drop)]
pub struct Proxies {
    passed: OpenTable<Passed>,
    taken: ReplyTable,
}

impl Model for Proxies {
    ghost use Rattle.proxy_path.specs.Room.{RequestsWithRoom};

    ghost Value = { RequestsWithRoom };

    ghost view = { λ p.
        record {
          passed = record { given = p.passed.given; waiting = p.passed.items };
          taken = p.taken.taken;
          to_pass = p.passed.spare;
          to_take = p.taken.spare;
        } };
}

impl Proxies {
    /// Nothing was passed on or taken up.
    pub fn new(alloc: Global) -> Proxies
        ensures passed { result.passed ≡ none_passed }
        ensures taken { result.taken ≡ [] }
    {
        Proxies {
            passed: OpenTable::new(alloc),
            taken: ReplyTable::new(alloc),
        }
    }

    /// Whether nothing that was passed on waits, and nothing was taken up.
    pub fn is_idle(&self) -> bool
        ensures { IsTrue result
            ↔ ((self.now.passed.waiting ≡ []) × (self.now.taken ≡ [])) }
    {
        self.passed.is_empty() && self.taken.is_empty()
    }

    /// Makes room: one `open`, one `bind` and one `keep` then want no memory.
    pub fn reserve(&mut self) -> Result<(), NoMemory>
        ensures same { KeepsRequests self.old self.new }
        ensures enough { OnOk result (HasRoomForEach self.new) }
        ensures kept { HasNoLessRoom self.old self.new }
        ensures reserved { HasRoomForEach self.old → IsOk result }
    {
        self.passed.reserve()?;
        self.taken.reserve(2)
    }

    /// Makes room for so many requests of each kind: as many times `open`, and as many times `bind` or
    /// `keep`, then wants no memory.
    pub fn reserve_for(&mut self, additional: usize) -> Result<(), NoMemory>
        ensures same { KeepsRequests self.old self.new }
        ensures enough { OnOk result (HasRoomFor additional self.new) }
        ensures kept { HasNoLessRoom self.old self.new }
        ensures reserved { HasRoomFor additional self.old → IsOk result }
    {
        self.passed.reserve_for(additional)?;
        self.taken.reserve(additional)
    }

    // ---- requests that were passed on

    /// How many requests were passed on in the view.
    pub fn given(&self) -> u32
        ensures { result ≡ self.now.passed.given }
    {
        self.passed.given()
    }

    /// The number that the next request gets, where fewer than 2^32 - 1 were passed on in the view.
    pub fn next(&self) -> u32
        requires { self.now.passed.given < 2 ^ 32 - 1 }
        ensures { result ≡ self.now.passed.given + 1 }
    {
        self.passed.given() + 1
    }

    /// A request is passed on to that node, where fewer than 2^32 - 1 were in the view. The answer is
    /// its number, from 1 on.
    pub fn open(&mut self, digest: Digest, want: Want, to: NodeId) -> Result<u32, NoMemory>
        requires { self.old.passed.given < 2 ^ 32 - 1 }
        ensures number { IfOk result (λ x. x ≡ self.old.passed.given + 1) }
        ensures passed { OnOk result (self.new.passed ≡ passing_to self.old.passed digest want to) }
        ensures taken { self.new.taken ≡ self.old.taken }
        ensures err { OnErr result (KeepsRequests self.old self.new) }
        ensures reserved { 0 < self.old.to_pass → IsOk result }
        ensures room { self.old.to_take ≤ self.new.to_take }
        ensures to_pass { self.old.to_pass ≤ self.new.to_pass + 1 }
    {
        self.passed.reserve()?;
        Ok(self.passed.push(Passed { digest, want, to }))
    }

    /// What was passed on under that number, if it isn't replied to.
    pub fn get(&self, number: u32) -> Option<&Passed>
        ensures { option_copied result ≡ item_under self.now.passed.waiting number }
    {
        self.passed.get(number)
    }

    /// The numbers of what isn't replied to, in rising order.
    pub fn numbers(&self, alloc: Global) -> Result<CopyList<u32>, NoMemory>
        ensures { IfOk result (λ ns. ns ≡ map (λ p. p.0) self.now.passed.waiting) }
    {
        self.passed.numbers(alloc)
    }

    /// A reply came from that node: it closes the request of that number, and is `Spent` exactly where
    /// none of that number waits for the node.
    pub fn on_reply(&mut self, from: NodeId, number: u32) -> ReplyStep
        ensures step { result
            ≡ reply_step (waits_for from (item_under self.old.passed.waiting number)) }
        ensures closed { result ≡ step.Taken
            → self.new.passed ≡ closing_passed self.old.passed number }
        ensures spent { result ≡ step.Spent → self.new.passed ≡ self.old.passed }
        ensures taken { self.new.taken ≡ self.old.taken }
        ensures room { HasNoLessRoom self.old self.new }
    {
        if !self.is_awaited(from, number) {
            return ReplyStep::Spent;
        }
        self.close(number);
        ReplyStep::Taken
    }

    /// Closes the request of that number, if it isn't replied to.
    pub fn close(&mut self, number: u32)
        ensures passed { self.new.passed ≡ closing_passed self.old.passed number }
        ensures taken { self.new.taken ≡ self.old.taken }
        ensures room { HasNoLessRoom self.old self.new }
    {
        let _ = self.passed.take(number);
    }

    /// Whether the request of that number waits for that node.
    fn is_awaited(&self, from: NodeId, number: u32) -> bool
        ensures { result ≡ waits_for from (item_under self.now.passed.waiting number) }
    {
        match self.passed.get(number) {
            Some(passed) => passed.to == from,
            None => false,
        }
    }

    // ---- requests that were taken up

    /// What became of the asker's request: it has a reply, its transaction is open, or it wasn't
    /// taken up.
    pub fn known(&self, asker: Asker) -> Known<'_>
        ensures { TellsOutcome result (outcome_for self.now.taken asker) }
    {
        self.taken.known(asker)
    }

    /// For whom the open transaction of that number was taken up, if for anybody.
    pub fn bound(&self, transaction: u32) -> Option<Asker>
        ensures { result ≡ bound_to self.now.taken transaction }
    {
        self.taken.bound(transaction)
    }

    /// A request is taken up whose transaction is open. It wasn't taken up before, and the
    /// transaction is no other's.
    pub fn bind(&mut self, asker: Asker, transaction: u32) -> Result<(), NoMemory>
        requires new { outcome_for self.old.taken asker ≡ None }
        requires free { bound_to self.old.taken transaction ≡ None }
        ensures taken { OnOk result
            (self.new.taken ≡ taking_up self.old.taken asker (outcome.Open transaction)) }
        ensures passed { self.new.passed ≡ self.old.passed }
        ensures err { OnErr result (KeepsRequests self.old self.new) }
        ensures reserved { 0 < self.old.to_take → IsOk result }
        ensures room { self.old.to_take ≤ self.new.to_take + 1 }
        ensures to_pass { self.old.to_pass ≤ self.new.to_pass }
    {
        self.taken.reserve(1)?;
        self.taken.bind(asker, transaction);
        Ok(())
    }

    /// The reply to a request is kept, which has none yet: in the place of its open transaction, or,
    /// where it wasn't taken up, as one that is refused, as a new one.
    pub fn keep(&mut self, asker: Asker, reply: ReplyBody) -> Result<(), NoMemory>
        requires { (b : ReplyBody) → outcome_for self.old.taken asker ≢ Some (outcome.Kept b) }
        ensures bound { (t : ℕ) → outcome_for self.old.taken asker ≡ Some (outcome.Open t)
            → OnOk result (self.new.taken ≡ keeping self.old.taken t reply) }
        ensures new { outcome_for self.old.taken asker ≡ None
            → OnOk result
            (self.new.taken ≡ taking_up self.old.taken asker (outcome.Kept reply)) }
        ensures passed { self.new.passed ≡ self.old.passed }
        ensures err { OnErr result (KeepsRequests self.old self.new) }
        ensures reserved { 0 < self.old.to_take → IsOk result }
        ensures room { self.old.to_take ≤ self.new.to_take + 1 }
        ensures to_pass { self.old.to_pass ≤ self.new.to_pass }
    {
        self.taken.reserve(1)?;
        self.taken.keep(asker, reply);
        Ok(())
    }

    /// The transaction of that number ended. Where it was taken up for an asker, the reply is kept in
    /// its place, which takes no room; otherwise nothing changes.
    pub fn end(&mut self, transaction: u32, reply: ReplyBody)
        ensures taken { self.new.taken ≡ keeping self.old.taken transaction reply }
        ensures passed { self.new.passed ≡ self.old.passed }
        ensures room { HasNoLessRoom self.old self.new }
    {
        self.taken.end(transaction, reply);
    }

    /// The node leaves its view: all is forgotten, and the next number is 1. The room stays.
    pub fn clear(&mut self)
        ensures passed { self.new.passed ≡ none_passed }
        ensures taken { self.new.taken ≡ [] }
        ensures room { HasNoLessRoom self.old self.new }
    {
        self.passed.clear();
        self.taken.clear();
    }
}
