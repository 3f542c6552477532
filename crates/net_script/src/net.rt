//! The messages in flight.
ghost use Rattle.std.specs.Prelude.{◌≡◌, ◌<◌, ◌≤◌, ◌+◌, ◌-◌, ◌^◌, ℕ, length, Some, IsOk, IsTrue, IfOk, OnOk, OnErr};
ghost use Rattle.std.specs.Option.{option_copied};
ghost use Rattle.net_script.specs.Network.{AreNumbers, IsNewNetwork, IsSameNetwork, ends_apart, flight_limit, flying_ids, flying_message, next_posted, with_next, flying_without};

use crate::slots::{drop_taken, numbers, place_of, take_at};
use cluster_types::{Bytes, Groups, IdList, NoMemory, NodeId};
use std::alloc::Global;
use std::collections::VecDeque;
use std::marker::Model;

/// How many messages may be in flight.
pub const FLIGHT_LIMIT: usize = 262_144;

/// A message in flight between two endpoints: the ids of nodes, or 0 for the client.
#[derive(Debug, PartialEq, Eq, Drop)]
pub struct Flying {
    pub from: u16,
    pub to: u16,
    pub bytes: Bytes,
}

/// What became of a message that was sent, and its number.
#[derive(Clone, Copy, Debug, PartialEq, Eq)]
pub enum Posted {
    /// It is in flight.
    Kept(u64),
    /// As many messages as may be were in flight, and it is lost.
    Full(u64),
}

/// The messages in flight, numbered from 1 in the order in which they were sent, and the groups
/// between which none gets through.
///
/// Each number from the first in flight on has a slot, so that a message is found at once. A slot
/// takes 48 bytes and outlives its message where an older one is still in flight.
#[derive(Debug, Drop)]
pub struct Net {
    slots: VecDeque<Option<Flying>>,
    count: usize,
    sent: u64,
    groups: Option<Groups>,
}

impl Model for Net {
    ghost use Rattle.std.specs.Prelude.{◌≡◌, ◌≤◌, ◌-◌, length, IsTrue};
    ghost use Rattle.std.specs.VecDeque.{deque_len, deque_capacity};
    ghost use Rattle.net_script.specs.Network.{NetworkState, flight_limit};
    ghost use Rattle.net_script.specs.Flights.{numbered, starts_full};

    ghost Value = { NetworkState };

    ghost view = { λ n.
        record {
          flying = numbered (n.sent - deque_len n.slots) n.slots.items;
          sent = n.sent;
          groups = n.groups;
          spare = deque_capacity n.slots - deque_len n.slots;
        } };

    ghost invariant = { λ n. (deque_len n.slots ≤ n.sent)
        × (n.count ≡ length (numbered (n.sent - deque_len n.slots) n.slots.items))
        × (n.count ≤ flight_limit) × IsTrue (starts_full n.slots.items) };
}

impl Net {
    /// A network on which nothing was sent, in one group.
    pub fn new(alloc: Global) -> Net
        ensures { IsNewNetwork result }
    {
        Net {
            slots: VecDeque::new(alloc),
            count: 0,
            sent: 0,
            groups: None,
        }
    }

    /// How many messages are in flight: at most `FLIGHT_LIMIT`.
    pub fn len(&self) -> usize
        ensures value { result ≡ length self.now.flying }
        ensures limit { result ≤ flight_limit }
        ensures numbers { AreNumbers self.now.sent (flying_ids self.now.flying) }
    {
        self.count
    }

    /// The number that the next message gets, where fewer than 2^64 - 1 were sent.
    pub fn next(&self) -> u64
        requires { self.now.sent < 2 ^ 64 - 1 }
        ensures { result ≡ self.now.sent + 1 }
    {
        self.sent + 1
    }

    /// Makes room, so that the next `n` messages are sent without memory.
    pub fn reserve(&mut self, n: usize) -> Result<(), NoMemory>
        ensures same { IsSameNetwork self.old self.new }
        ensures enough { OnOk result (n ≤ self.new.spare) }
        ensures kept { self.old.spare ≤ self.new.spare }
    {
        self.slots.reserve(n)
    }

    /// Sends a message, where fewer than 2^64 - 1 were sent. It gets the next number, and is lost
    /// at once where as many as may be are in flight.
    pub fn send(&mut self, from: u16, to: u16, bytes: Bytes) -> Result<Posted, NoMemory>
        requires { self.old.sent < 2 ^ 64 - 1 }
        ensures posted { IfOk result (λ p. p ≡ next_posted self.old) }
        ensures flying { OnOk result
            (self.new.flying
            ≡ with_next self.old (record { from = from; to = to; bytes = bytes })) }
        ensures sent { OnOk result (self.new.sent ≡ self.old.sent + 1) }
        ensures groups { self.new.groups ≡ self.old.groups }
        ensures err { OnErr result (IsSameNetwork self.old self.new) }
        ensures spare { self.old.spare ≤ self.new.spare + 1 }
        ensures reserved { 0 < self.old.spare → IsOk result }
    {
        let id = self.sent + 1;
        if self.count == FLIGHT_LIMIT {
            self.slots.push_back(None)?;
            self.sent = id;
            return Ok(Posted::Full(id));
        }
        let flying = Flying { from, to, bytes };
        self.slots.push_back(Some(flying))?;
        self.count += 1;
        self.sent = id;
        Ok(Posted::Kept(id))
    }

    /// The message of that number, and `None` where it isn't in flight.
    pub fn get(&self, id: u64) -> Option<&Flying>
        ensures { option_copied result ≡ flying_message id self.now.flying }
    {
        let place = place_of(id, self.sent, self.slots.len())?;
        self.slots[place].as_ref()
    }

    /// Takes the message of that number out of flight, and `None` where it isn't in flight.
    pub fn take(&mut self, id: u64) -> Option<Flying>
        ensures message { result ≡ flying_message id self.old.flying }
        ensures flying { self.new.flying ≡ flying_without id self.old.flying }
        ensures sent { self.new.sent ≡ self.old.sent }
        ensures groups { self.new.groups ≡ self.old.groups }
        ensures spare { self.old.spare ≤ self.new.spare }
    {
        let place = place_of(id, self.sent, self.slots.len())?;
        let flying = take_at(&mut self.slots, place)?;
        self.count -= 1;
        drop_taken(&mut self.slots);
        Some(flying)
    }

    /// The numbers of the messages in flight, in rising order.
    pub fn ids(&self, alloc: Global) -> Result<IdList, NoMemory>
        ensures ids { IfOk result (λ ids. ids ≡ flying_ids self.now.flying) }
        ensures numbers { IfOk result (AreNumbers self.now.sent) }
    {
        let before = self.sent - self.slots.len() as u64;
        numbers(alloc, before, &self.slots)
    }

    /// Divides the network into these groups.
    pub fn set_groups(&mut self, g: Groups)
        ensures flying { self.new.flying ≡ self.old.flying }
        ensures sent { self.new.sent ≡ self.old.sent }
        ensures groups { self.new.groups ≡ Some g }
        ensures spare { self.new.spare ≡ self.old.spare }
    {
        self.groups = Some(g);
    }

    /// The groups into which the network is divided, and `None` before any were set.
    pub fn groups(&self) -> Option<&Groups>
        ensures { option_copied result ≡ self.now.groups }
    {
        self.groups.as_ref()
    }

    /// Whether the two endpoints are nodes of different groups. No endpoint is apart from the
    /// client, 0, nor from any other before groups are set.
    pub fn apart(&self, a: u16, b: u16) -> bool
        ensures { result ≡ ends_apart self.now.groups a b }
    {
        match (&self.groups, NodeId::new(a), NodeId::new(b)) {
            (Some(groups), Some(a), Some(b)) => groups.apart(a, b),
            _ => false,
        }
    }
}
