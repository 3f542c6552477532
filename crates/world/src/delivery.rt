//! How messages are delivered.
ghost use Rattle.std.specs.Prelude.{◌≡◌, IfOk};
ghost use Rattle.world.specs.Arriving as rules;

use cluster_types::NoMemory;
use journal_text::Line;
use net_script::Flying;
use std::alloc::Global;
use wire_codec::{DecodeFault, Message, decode};

/// How a message is delivered.
#[derive(Clone, Copy)]
pub(crate) enum Delivery {
    /// Whole.
    Whole,
    /// Whole, and it stays in flight.
    Repeated,
    /// As so many of its first bytes.
    Cut(u64),
}

/// What arrives.
#[derive(Drop)]
pub(crate) enum Arrival {
    /// Fewer bytes than the message has.
    Short,
    /// Bytes that are no message.
    Unread,
    /// A message.
    Message(Message),
}

impl Delivery {
    /// The message, where it leaves the network.
    pub fn landing(self, message: u64) -> Option<u64>
        ensures { result ≡ rules.landing_of message self }
    {
        match self {
            Delivery::Whole | Delivery::Cut(_) => Some(message),
            Delivery::Repeated => None,
        }
    }

    /// The line of the delivery between these endpoints.
    pub fn line(self, message: u64, from: u16, to: u16) -> Line
        ensures { result ≡ rules.line_of_delivery message from to self }
    {
        match self {
            Delivery::Whole => Line::Deliver { message, from, to },
            Delivery::Repeated => Line::Repeat { message, from, to },
            Delivery::Cut(length) => Line::Cut {
                message,
                from,
                to,
                length,
            },
        }
    }

    /// What arrives of the message.
    pub fn arrival(self, alloc: Global, flying: &Flying) -> Result<Arrival, NoMemory>
        ensures { IfOk result (λ arrival. arrival ≡ rules.arrival_of flying.now.bytes self) }
    {
        let bytes = flying.bytes.as_slice();
        if self.is_short_of(bytes.len()) {
            return Ok(Arrival::Short);
        }
        match decode(alloc, bytes) {
            Ok(message) => Ok(Arrival::Message(message)),
            Err(fault) => match fault {
                DecodeFault::NoMemory => Err(NoMemory),
                _ => Ok(Arrival::Unread),
            },
        }
    }

    /// Whether it delivers fewer bytes than these.
    fn is_short_of(self, count: usize) -> bool
        ensures { result ≡ rules.is_short_of count self }
    {
        match self {
            Delivery::Cut(length) => length < count as u64,
            Delivery::Whole | Delivery::Repeated => false,
        }
    }
}
