//! The requests of the client that have no reply yet.
ghost use Rattle.std.specs.Prelude.{◌≡◌, ◌≢◌, ◌↔◌, ◌<◌, ◌+◌, ◌-◌, ◌^◌, ℕ, Some, None, Err, true, IsTrue, IfOk, OnOk, OnErr, if◌then◌else◌};
ghost use Rattle.std.specs.Option.{option_copied};
ghost use Rattle.request_rules.specs.declared.call.CallStep.TheVariants as step;
ghost use Rattle.request_rules.specs.Calls.{call_step, is_full, opening_call, replied_to};
ghost use Rattle.request_rules.specs.ByNumber.{item_under};
ghost use Rattle.request_rules.specs.Replies.{is_refusal};
ghost use Rattle.request_rules.specs.Requests.{no_calls};

use cluster_types::{Digest, NoMemory};
use conflict_order::Want;
use open_table::OpenTable;
use request_rules::{Call, CallStep};
use std::alloc::Global;
use std::marker::Model;
use wire_messages::ReplyBody;

/// So many requests may be open.
const LIMIT: usize = 1024;

/// Why no request is opened.
#[derive(Clone, Copy, Debug, PartialEq, Eq)]
pub enum OpenFault {
    /// 1,024 are open.
    Full,
    NoMemory,
}

impl From<NoMemory> for OpenFault {
    ghost use Rattle.std.specs.Prelude.{◌≡◌};
    ghost use Rattle.once_client.specs.declared.once_client.OpenFault.TheVariants as fault;

    ghost from_gives = { λ _ f. f ≡ fault.NoMemory };

    fn from(_: NoMemory) -> OpenFault {
        OpenFault::NoMemory
    }
}

/// The requests of the client that are open: they have no reply, or refusals alone.
#[derive(Drop)]
pub struct OnceClient {
    calls: OpenTable<Call>,
}

impl Model for OnceClient {
    ghost use Rattle.request_rules.specs.Requests.{Calls};

    ghost Value = { Calls };

    ghost view = { λ c. record { given = c.calls.given; waiting = c.calls.items } };
}

impl OnceClient {
    /// None is open, and no number was given.
    pub fn new(alloc: Global) -> OnceClient
        ensures { result ≡ no_calls }
    {
        OnceClient {
            calls: OpenTable::new(alloc),
        }
    }

    /// Whether 1,024 requests are open.
    pub fn is_full(&self) -> bool
        ensures { result ≡ is_full self.now }
    {
        !(self.calls.len() < LIMIT)
    }

    /// The number that the next request gets, where fewer than 2^32 - 1 were given. `None` exactly
    /// where 1,024 are open.
    pub fn next(&self) -> Option<u32>
        requires { self.now.given < 2 ^ 32 - 1 }
        ensures { result ≡ (if is_full self.now then None else Some (self.now.given + 1)) }
    {
        if self.is_full() {
            return None;
        }
        Some(self.calls.given() + 1)
    }

    /// Opens a request under the next number, from 1 on, where fewer than 2^32 - 1 were given. `Full`
    /// exactly where 1,024 are open. After a fault nothing has changed.
    pub fn open(&mut self, digest: Digest, want: Want) -> Result<u32, OpenFault>
        requires { self.old.given < 2 ^ 32 - 1 }
        ensures number { IfOk result (λ q. q ≡ self.old.given + 1) }
        ensures calls { OnOk result (self.new ≡ opening_call self.old digest want) }
        ensures full { (result ≡ Err OpenFault.Full) ↔ (is_full self.old ≡ true) }
        ensures err { OnErr result (self.new ≡ self.old) }
    {
        if self.is_full() {
            return Err(OpenFault::Full);
        }
        self.calls.reserve()?;
        Ok(self.calls.push(Call { digest, want }))
    }

    /// The request of that number, if it is open.
    pub fn get(&self, number: u32) -> Option<&Call>
        ensures { option_copied result ≡ item_under self.now.waiting number }
    {
        self.calls.get(number)
    }

    /// A reply came. It closes the request of that number, unless it is a refusal: then the request
    /// stays open. `Spent` exactly where no request of that number is open.
    pub fn on_reply(&mut self, number: u32, reply: &ReplyBody) -> CallStep
        ensures step { result ≡ call_step (item_under self.old.waiting number) reply.now }
        ensures closed { result ≡ step.Closed
            → self.new ≡ replied_to self.old number reply.now }
        ensures kept { result ≢ step.Closed → self.new ≡ self.old }
    {
        let step = self.step_of(number, reply);
        if step == CallStep::Closed {
            let _ = self.calls.take(number);
        }
        step
    }

    /// What a reply is to the request of that number.
    fn step_of(&self, number: u32, reply: &ReplyBody) -> CallStep
        ensures { result ≡ call_step (item_under self.now.waiting number) reply.now }
    {
        match self.calls.get(number) {
            Some(_) => step_by(reply),
            None => CallStep::Spent,
        }
    }
}

/// What a reply is to a request that is open.
fn step_by(reply: &ReplyBody) -> CallStep
    ensures { result ≡ (if is_refusal reply.now then step.Refused else step.Closed) }
{
    match reply {
        ReplyBody::Nothing => CallStep::Closed,
        ReplyBody::Found(_) => CallStep::Closed,
        ReplyBody::Done => CallStep::Closed,
        ReplyBody::Exchanging(_) => CallStep::Refused,
        ReplyBody::NotMaster(_) => CallStep::Refused,
        ReplyBody::Busy(_) => CallStep::Refused,
        ReplyBody::NoView => CallStep::Refused,
    }
}
