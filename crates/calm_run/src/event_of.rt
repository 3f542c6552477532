//! Commands as events.
ghost use Rattle.std.specs.Prelude.{◌≡◌, IfOk, IsSome, OnErr, Some};
ghost use Rattle.cluster_rules.specs.Allowed as allowed;

use cluster_types::{Boxed, NoMemory};
use script_lang::Command;
use std::alloc::Global;
use world::Event;

/// The event that the command is, and `None` for a flow, a round and calm, which are several: that
/// takes no memory.
pub(crate) fn event_of(alloc: Global, command: &Command) -> Result<Option<Event>, NoMemory>
    ensures event { IfOk result (λ event. event ≡ allowed.event_of command.now) }
    ensures refused { OnErr result (IsSome (allowed.event_of command.now)) }
{
    let event = match command {
        Command::Flow | Command::Round | Command::Calm => return Ok(None),
        Command::Clock { node, time } => Event::Clock {
            node: *node,
            time: *time,
        },
        Command::Groups { groups } => Event::Groups {
            groups: Boxed::new(alloc, *groups.get())?,
        },
        Command::Tick { node } => Event::Tick { node: *node },
        Command::Stop { node } => Event::Stop { node: *node },
        Command::Start { node } => Event::Start { node: *node },
        Command::Put {
            node,
            digest,
            value,
        } => Event::Put {
            node: *node,
            digest: *digest,
            value: value.copy(alloc)?,
        },
        Command::Get { node, digest } => Event::Get {
            node: *node,
            digest: *digest,
        },
        Command::Del { node, digest } => Event::Del {
            node: *node,
            digest: *digest,
        },
        Command::ClientPut { digest, value } => Event::ClientPut {
            digest: *digest,
            value: value.copy(alloc)?,
        },
        Command::ClientGet { digest } => Event::ClientGet { digest: *digest },
        Command::ClientDel { digest } => Event::ClientDel { digest: *digest },
        Command::Ask { node } => Event::Ask { node: *node },
        Command::Deliver { message } => Event::Deliver { message: *message },
        Command::Repeat { message } => Event::Repeat { message: *message },
        Command::Lose { message } => Event::Lose { message: *message },
        Command::Cut { message, length } => Event::Cut {
            message: *message,
            length: *length,
        },
        Command::Map { node, from, to } => Event::Map {
            node: *node,
            from: *from,
            to: *to,
        },
        Command::Place { partition } => Event::Place {
            partition: *partition,
        },
        Command::Hash { digest } => Event::Hash { digest: *digest },
        Command::Show { node, digest } => Event::Show {
            node: *node,
            digest: *digest,
        },
        Command::Quiesce { node } => Event::Quiesce { node: *node },
        Command::Unquiesce { node } => Event::Unquiesce { node: *node },
        Command::ProxyGet { node, digest } => Event::ProxyGet {
            node: *node,
            digest: *digest,
        },
        Command::ProxyPut {
            node,
            digest,
            value,
        } => Event::ProxyPut {
            node: *node,
            digest: *digest,
            value: value.copy(alloc)?,
        },
        Command::ProxyDel { node, digest } => Event::ProxyDel {
            node: *node,
            digest: *digest,
        },
        Command::ProxyAgain { node } => Event::ProxyAgain { node: *node },
        Command::CallGet { digest } => Event::CallGet { digest: *digest },
        Command::CallPut { digest, value } => Event::CallPut {
            digest: *digest,
            value: value.copy(alloc)?,
        },
        Command::CallDel { digest } => Event::CallDel { digest: *digest },
        Command::CallAgain { call } => Event::CallAgain { call: *call },
        Command::Scan { partition } => Event::Scan {
            partition: *partition,
        },
        Command::ScanNext { scan } => Event::ScanNext { scan: *scan },
    };
    Ok(Some(event))
}
