//! What an endpoint sends.
ghost use Rattle.std.specs.Prelude.{◌≡◌, ◌<◌, ◌+◌, ◌-◌, ◌≤◌, ◌^◌, ◌++◌, ◌∷◌, [], length, IfOk, OnOk, if◌then◌else◌};
ghost use Rattle.net_script.specs.Network as nets;
ghost use Rattle.cluster_rules.specs.Network.{has_place};
ghost use Rattle.world.specs.Sent.{IsInFlight, all_posted_in, landing_from, posted_lines};
ghost use Rattle.journal_lines.specs.declared.line.Line.TheVariants as journal_line;

use cluster_types::NoMemory;
use journal_text::{Line, LineList, MessageBytes};
use net_script::{FLIGHT_LIMIT, Net};
use node_core::SendList;
use std::alloc::Global;

/// The client, as an endpoint of messages.
pub(crate) const CLIENT: u16 = 0;

/// How many messages were sent, and how many of them are in flight.
#[derive(Clone, Copy)]
pub(crate) struct Postmark {
    pub sent: u64,
    pub in_flight: usize,
}

impl Postmark {
    /// That of the network, once the landing message, which is in flight, has left it.
    pub fn after(net: &Net, landing: Option<u64>) -> Postmark
        requires sent { net.now.sent < 2 ^ 64 - 1 }
        requires flying { IsInFlight net.now.flying landing }
        ensures sent { result.sent ≡ net.now.sent }
        ensures in_flight { result.in_flight ≡ length (landing_from net.now landing).flying }
        ensures numbers { nets.AreNumbers net.now.sent (nets.flying_ids net.now.flying) }
    {
        let sent = net.next() - 1;
        let in_flight = net.len();
        match landing {
            None => Postmark { sent, in_flight },
            Some(_) => Postmark {
                sent,
                in_flight: in_flight - 1,
            },
        }
    }
}

/// Adds the lines of the messages that an endpoint sends: one for each, and behind it another where
/// the message has no place in flight.
pub(crate) fn add_sent_lines(
    alloc: Global,
    lines: &mut LineList,
    from: u16,
    sends: &SendList,
    before: Postmark,
) -> Result<(), NoMemory>
    requires { before.sent + length sends.now < 2 ^ 64 }
    ensures { OnOk result
        (lines.new ≡ lines.old ++ posted_lines from before.sent before.in_flight sends.now) }
{
    let mut message = before.sent;
    let mut in_flight = before.in_flight;
    let mut count = 0;
    while let Some((to, bytes)) = sends.get(count) {
        message += 1;
        let line = Line::Sent {
            message,
            from,
            to: *to,
            bytes: MessageBytes::from_slice(alloc, bytes.as_slice())?,
        };
        in_flight = add_sent_line(lines, line, message, in_flight)?;
        count += 1;
    }
    Ok(())
}

/// Adds the line of one message, and behind it another where the message has no place beside those
/// in flight. Answers how many are in flight with it.
fn add_sent_line(
    lines: &mut LineList,
    line: Line,
    message: u64,
    in_flight: usize,
) -> Result<usize, NoMemory>
    ensures lines { OnOk result
        (lines.new ≡ lines.old ++ line
        ∷ (if has_place in_flight then [] else journal_line.Full message ∷ [])) }
    ensures in_flight { IfOk result
        (λ count. count ≡ (if has_place in_flight then in_flight + 1 else in_flight)) }
{
    lines.push(line)?;
    if in_flight < FLIGHT_LIMIT {
        return Ok(in_flight + 1);
    }
    lines.push(Line::Full { message })?;
    Ok(in_flight)
}

/// Sends the messages, for which there is room.
pub(crate) fn send_all(net: &mut Net, from: u16, sends: SendList)
    requires sent { net.old.sent + length sends < 2 ^ 64 }
    requires room { length sends ≤ net.old.spare }
    ensures { nets.IsSameNetwork (all_posted_in net.old from sends) net.new }
{
    let mut left = sends;
    while let Some((to, bytes)) = left.take_first() {
        let _ = net.send(from, to, bytes);
    }
}

/// Takes the message out of flight, if there is one.
pub(crate) fn land(net: &mut Net, landing: Option<u64>)
    ensures same { nets.IsSameNetwork (landing_from net.old landing) net.new }
    ensures room { net.old.spare ≤ net.new.spare }
{
    let Some(message) = landing else {
        return;
    };
    net.take(message);
}
