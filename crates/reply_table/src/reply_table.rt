//! The table of requests that a node took up for others.
ghost use Rattle.std.specs.Prelude.{◌≡◌, ◌≢◌, ◌↔◌, ◌<◌, ◌≤◌, ◌+◌, [], ℕ, Some, None, IsTrue, IsOk, OnOk, MatchOption, nat_eq, length, slice_get, if◌then◌else◌};
ghost use Rattle.std.specs.HashMap.{get, spare};
ghost use Rattle.wire_messages.specs.declared.reply.ReplyBody.{ReplyBody};
ghost use Rattle.request_rules.specs.declared.taken.Outcome.TheVariants as outcome;
ghost use Rattle.request_rules.specs.TakenUp.{bound_to, is_bound_to, keeping, outcome_for, taking_up};
ghost use Rattle.request_rules.specs.declared.taken.Taken.{Taken};
ghost use Rattle.reply_table.specs.Kept.{KeepsTaken, TellsOutcome, is_transaction, open_transaction};
ghost use Rattle.reply_table.specs.Places.{IsNobodys, IsPlaceOfAsker, StandsInPlace};

use cluster_types::NoMemory;
use request_rules::{Asker, Outcome, Taken};
use std::alloc::Global;
use std::collections::HashMap;
use std::marker::Model;
use wire_messages::{Known, ReplyBody};

/// The requests that a node took up for others in its view: of each asker and number the
/// transaction that is open for it, or the reply. A request keeps its place until all are forgotten.
#[derive(Drop)]
pub struct ReplyTable {
    taken: Vec<Taken>,
    by_asker: HashMap<Asker, usize>,
    by_transaction: HashMap<u32, usize>,
}

impl Model for ReplyTable {
    ghost use Rattle.std.specs.Prelude.{◌-◌, min, nat_eq, vec_len, vec_capacity};
    ghost use Rattle.std.specs.HashMap.{get, spare};
    ghost use Rattle.request_rules.specs.TakenUp.{same_asker};
    ghost use Rattle.reply_table.specs.Kept.{TakenWithRoom};
    ghost use Rattle.reply_table.specs.Places.{AreIndexed};

    ghost Value = { TakenWithRoom };

    ghost view = { λ t.
        record {
          taken = t.taken.items;
          spare = min (vec_capacity t.taken - vec_len t.taken)
              (min (spare t.by_asker) (spare t.by_transaction));
        } };

    ghost invariant = { λ t. AreIndexed t.taken.items (λ a. get same_asker t.by_asker a)
        (λ n. get nat_eq t.by_transaction n) };
}

impl ReplyTable {
    /// Nothing was taken up.
    pub fn new(alloc: Global) -> ReplyTable
        ensures { result.taken ≡ [] }
    {
        ReplyTable {
            taken: Vec::new(alloc),
            by_asker: HashMap::new(alloc),
            by_transaction: HashMap::new(alloc),
        }
    }

    /// Whether nothing was taken up.
    pub fn is_empty(&self) -> bool
        ensures { IsTrue result ↔ (self.now.taken ≡ []) }
    {
        self.taken.is_empty()
    }

    /// What became of the asker's request: it has a reply, its transaction is open, or it wasn't
    /// taken up.
    pub fn known(&self, asker: Asker) -> Known<'_>
        ensures { TellsOutcome result (outcome_for self.now.taken asker) }
    {
        match self.place_of(asker) {
            Some(place) => told(&self.taken[place].outcome),
            None => Known::New,
        }
    }

    /// The place of the asker's request, if it was taken up.
    fn place_of(&self, asker: Asker) -> Option<usize>
        ensures { MatchOption result (outcome_for self.now.taken asker ≡ None)
            (IsPlaceOfAsker self.now.taken asker) }
    {
        self.by_asker.get(&asker).copied()
    }

    /// For whom the open transaction of that number was taken up, if for anybody.
    pub fn bound(&self, transaction: u32) -> Option<Asker>
        ensures { result ≡ bound_to self.now.taken transaction }
    {
        let place = self.by_transaction.get(&transaction)?;
        Some(self.taken[*place].asker)
    }

    /// The place of the open transaction of that number, if it was taken up for anybody.
    fn place_of_transaction(&self, transaction: u32) -> Option<usize>
        ensures { MatchOption result (IsNobodys self.now.taken transaction)
            (StandsInPlace self.now.taken (λ x. is_bound_to transaction x.outcome)) }
    {
        self.by_transaction.get(&transaction).copied()
    }

    /// Makes room for so many requests: as many times `bind` or `keep` then wants no memory.
    pub fn reserve(&mut self, additional: usize) -> Result<(), NoMemory>
        ensures same { KeepsTaken self.old self.new }
        ensures enough { OnOk result (additional ≤ self.new.spare) }
        ensures kept { self.old.spare ≤ self.new.spare }
        ensures reserved { additional ≤ self.old.spare → IsOk result }
    {
        self.taken.reserve(additional)?;
        self.by_asker.reserve(additional)?;
        self.by_transaction.reserve(additional)
    }

    /// A request is taken up whose transaction is open. It wasn't taken up before, the transaction
    /// is no other's, and there is room.
    pub fn bind(&mut self, asker: Asker, transaction: u32)
        requires room { 0 < self.old.spare }
        requires new { outcome_for self.old.taken asker ≡ None }
        requires free { bound_to self.old.taken transaction ≡ None }
        ensures taken { self.new.taken
            ≡ taking_up self.old.taken asker (outcome.Open transaction) }
        ensures spare { self.old.spare ≤ self.new.spare + 1 }
    {
        let place = self.taken.len();
        // There is room for all three.
        let _ = self.by_asker.insert(asker, place);
        let _ = self.by_transaction.insert(transaction, place);
        self.taken.push_reserved(Taken {
            asker,
            outcome: Outcome::Open(transaction),
        });
    }

    /// The reply to a request is kept, which has none yet. Where its transaction is open, the reply
    /// stands in its place and takes no room; where it wasn't taken up, as one that is refused, there
    /// is room.
    pub fn keep(&mut self, asker: Asker, reply: ReplyBody)
        requires room { outcome_for self.old.taken asker ≡ None → 0 < self.old.spare }
        requires unreplied { (b : ReplyBody)
            → outcome_for self.old.taken asker ≢ Some (outcome.Kept b) }
        ensures bound { (t : ℕ) → outcome_for self.old.taken asker ≡ Some (outcome.Open t)
            → self.new.taken ≡ keeping self.old.taken t reply }
        ensures new { outcome_for self.old.taken asker ≡ None
            → self.new.taken ≡ taking_up self.old.taken asker (outcome.Kept reply) }
        ensures spare { self.old.spare ≤ self.new.spare + 1 }
        ensures placed { (t : ℕ) → outcome_for self.old.taken asker ≡ Some (outcome.Open t)
            → self.old.spare ≤ self.new.spare }
    {
        match self.place_of(asker) {
            Some(place) => self.reply_at(place, reply),
            None => self.push_replied(asker, reply),
        }
    }

    /// The transaction of that number ended. Where it was taken up for an asker, the reply is kept in
    /// its place, which takes no room; otherwise nothing changes.
    pub fn end(&mut self, transaction: u32, reply: ReplyBody)
        ensures taken { self.new.taken ≡ keeping self.old.taken transaction reply }
        ensures spare { self.old.spare ≤ self.new.spare }
    {
        if let Some(place) = self.place_of_transaction(transaction) {
            self.reply_at(place, reply);
        }
    }

    /// The reply stands in the place of the request's open transaction.
    fn reply_at(&mut self, place: usize, reply: ReplyBody)
        requires { place < length self.old.taken }
        ensures taken { (x : Taken) → (t : ℕ) → slice_get self.old.taken place ≡ Some x
            → x.outcome ≡ outcome.Open t → self.new.taken ≡ keeping self.old.taken t reply }
        ensures spare { self.old.spare ≤ self.new.spare }
    {
        let transaction = close(&mut self.taken[place].outcome, reply);
        forget(&mut self.by_transaction, transaction);
    }

    /// A request is taken up with its reply, for which there is room.
    fn push_replied(&mut self, asker: Asker, reply: ReplyBody)
        requires room { 0 < self.old.spare }
        requires new { outcome_for self.old.taken asker ≡ None }
        ensures taken { self.new.taken ≡ taking_up self.old.taken asker (outcome.Kept reply) }
        ensures spare { self.old.spare ≤ self.new.spare + 1 }
    {
        let place = self.taken.len();
        // There is room for both.
        let _ = self.by_asker.insert(asker, place);
        self.taken.push_reserved(Taken {
            asker,
            outcome: Outcome::Kept(reply),
        });
    }

    /// All is forgotten. The room stays.
    pub fn clear(&mut self)
        ensures taken { self.new.taken ≡ [] }
        ensures spare { self.old.spare ≤ self.new.spare }
    {
        self.taken.clear();
        self.by_asker.clear();
        self.by_transaction.clear();
    }
}

/// What a caller learns of a request that became this.
fn told(state: &Outcome) -> Known<'_>
    ensures { TellsOutcome result (Some state.now) }
{
    match state {
        Outcome::Open(_) => Known::Open,
        Outcome::Kept(reply) => Known::Kept(reply),
    }
}

/// The reply takes the place of what was there. The answer is the transaction that was open.
fn close(state: &mut Outcome, reply: ReplyBody) -> Option<u32>
    ensures transaction { result ≡ open_transaction state.old }
    ensures kept { state.new ≡ outcome.Kept reply }
{
    let transaction = match state {
        Outcome::Open(transaction) => Some(*transaction),
        Outcome::Kept(_) => None,
    };
    *state = Outcome::Kept(reply);
    transaction
}

/// The transaction, if it is one, has no place any more.
fn forget(places: &mut HashMap<u32, usize>, transaction: Option<u32>)
    ensures places { (n : ℕ) → get nat_eq places.new n
        ≡ (if is_transaction transaction n then None else get nat_eq places.old n) }
    ensures spare { spare places.old ≤ spare places.new }
{
    if let Some(transaction) = transaction {
        places.remove(&transaction);
    }
}
