//! Copies of lines.
ghost use Rattle.std.specs.Prelude.{◌≡◌, IfOk};

use cluster_types::{Boxed, NoMemory};
use conflict_order::Version;
use journal_lines::Line;
use std::alloc::Global;

/// The same line, with copies of all that it holds in memory.
pub fn copy_line(alloc: Global, line: &Line) -> Result<Line, NoMemory>
    ensures { IfOk result (λ l. l ≡ line.now) }
{
    match line {
        Line::Script { version } => Ok(Line::Script { version: *version }),
        Line::Factor { factor } => Ok(Line::Factor { factor: *factor }),
        Line::Node { node, rack } => Ok(Line::Node {
            node: *node,
            rack: *rack,
        }),
        Line::Policy { policy } => Ok(Line::Policy { policy: *policy }),
        Line::Clock { node, time } => Ok(Line::Clock {
            node: *node,
            time: *time,
        }),
        Line::Groups { groups } => Ok(Line::Groups {
            groups: Boxed::new(alloc, *groups.get())?,
        }),
        Line::Tick { node } => Ok(Line::Tick { node: *node }),
        Line::Stop { node } => Ok(Line::Stop { node: *node }),
        Line::Start { node } => Ok(Line::Start { node: *node }),
        Line::Down { node } => Ok(Line::Down { node: *node }),
        Line::Up { node } => Ok(Line::Up { node: *node }),
        Line::Quiesce { node } => Ok(Line::Quiesce { node: *node }),
        Line::Unquiesce { node } => Ok(Line::Unquiesce { node: *node }),
        Line::Deliver { message, from, to } => Ok(Line::Deliver {
            message: *message,
            from: *from,
            to: *to,
        }),
        Line::Repeat { message, from, to } => Ok(Line::Repeat {
            message: *message,
            from: *from,
            to: *to,
        }),
        Line::Cut {
            message,
            from,
            to,
            length,
        } => Ok(Line::Cut {
            message: *message,
            from: *from,
            to: *to,
            length: *length,
        }),
        Line::Lost { message } => Ok(Line::Lost { message: *message }),
        Line::Blocked { message } => Ok(Line::Blocked { message: *message }),
        Line::NoMessage { message } => Ok(Line::NoMessage { message: *message }),
        Line::Sent {
            message,
            from,
            to,
            bytes,
        } => Ok(Line::Sent {
            message: *message,
            from: *from,
            to: *to,
            bytes: bytes.copy(alloc)?,
        }),
        Line::Full { message } => Ok(Line::Full { message: *message }),
        Line::Short { endpoint } => Ok(Line::Short {
            endpoint: *endpoint,
        }),
        Line::Stale { endpoint } => Ok(Line::Stale {
            endpoint: *endpoint,
        }),
        Line::Spent { endpoint } => Ok(Line::Spent {
            endpoint: *endpoint,
        }),
        Line::Promise { node, key } => Ok(Line::Promise {
            node: *node,
            key: *key,
        }),
        Line::Enter { node, key, members } => Ok(Line::Enter {
            node: *node,
            key: *key,
            members: Boxed::new(alloc, *members.get())?,
        }),
        Line::Exchanged { node, key } => Ok(Line::Exchanged {
            node: *node,
            key: *key,
        }),
        Line::Opened {
            node,
            key,
            transaction,
            digest,
            action,
        } => Ok(Line::Opened {
            node: *node,
            key: *key,
            transaction: *transaction,
            digest: *digest,
            action: *action,
        }),
        Line::Refused {
            node,
            digest,
            cause,
        } => Ok(Line::Refused {
            node: *node,
            digest: *digest,
            cause: *cause,
        }),
        Line::Value {
            node,
            key,
            transaction,
            digest,
            version,
        } => Ok(Line::Value {
            node: *node,
            key: *key,
            transaction: *transaction,
            digest: *digest,
            version: Boxed::new(alloc, copy_version(alloc, version.get())?)?,
        }),
        Line::Apply {
            node,
            key,
            transaction,
            digest,
            version,
        } => Ok(Line::Apply {
            node: *node,
            key: *key,
            transaction: *transaction,
            digest: *digest,
            version: Boxed::new(alloc, version.get().copy(alloc)?)?,
        }),
        Line::Done {
            node,
            key,
            transaction,
        } => Ok(Line::Done {
            node: *node,
            key: *key,
            transaction: *transaction,
        }),
        Line::Aborted {
            node,
            key,
            transaction,
        } => Ok(Line::Aborted {
            node: *node,
            key: *key,
            transaction: *transaction,
        }),
        Line::Doubt {
            node,
            key,
            transaction,
        } => Ok(Line::Doubt {
            node: *node,
            key: *key,
            transaction: *transaction,
        }),
        Line::Merge {
            node,
            key,
            digest,
            version,
        } => Ok(Line::Merge {
            node: *node,
            key: *key,
            digest: *digest,
            version: Boxed::new(alloc, version.get().copy(alloc)?)?,
        }),
        Line::Handed {
            node,
            key,
            partition,
        } => Ok(Line::Handed {
            node: *node,
            key: *key,
            partition: *partition,
        }),
        Line::Settled {
            node,
            key,
            partition,
        } => Ok(Line::Settled {
            node: *node,
            key: *key,
            partition: *partition,
        }),
        Line::Learn {
            node,
            key,
            partition,
        } => Ok(Line::Learn {
            node: *node,
            key: *key,
            partition: *partition,
        }),
        Line::Drop {
            node,
            key,
            partition,
        } => Ok(Line::Drop {
            node: *node,
            key: *key,
            partition: *partition,
        }),
        Line::Map {
            node,
            key,
            partition,
            members,
            acting,
        } => Ok(Line::Map {
            node: *node,
            key: *key,
            partition: *partition,
            members: Boxed::new(alloc, *members.get())?,
            acting: *acting,
        }),
        Line::Mapless { node, cause } => Ok(Line::Mapless {
            node: *node,
            cause: *cause,
        }),
        Line::Place { partition, members } => Ok(Line::Place {
            partition: *partition,
            members: Boxed::new(alloc, *members.get())?,
        }),
        Line::Hash { digest, partition } => Ok(Line::Hash {
            digest: *digest,
            partition: *partition,
        }),
        Line::Holds {
            node,
            digest,
            version,
        } => Ok(Line::Holds {
            node: *node,
            digest: *digest,
            version: Boxed::new(alloc, copy_version(alloc, version.get())?)?,
        }),
        Line::Client { node, digest } => Ok(Line::Client {
            node: *node,
            digest: *digest,
        }),
        Line::NoMap { partition } => Ok(Line::NoMap {
            partition: *partition,
        }),
        Line::Table { key } => Ok(Line::Table { key: *key }),
        Line::Calm { rounds } => Ok(Line::Calm { rounds: *rounds }),
        Line::Proxy {
            node,
            key,
            number,
            digest,
            action,
            acting,
        } => Ok(Line::Proxy {
            node: *node,
            key: *key,
            number: *number,
            digest: *digest,
            action: *action,
            acting: *acting,
        }),
        Line::Proxied {
            node,
            key,
            number,
            reply,
        } => Ok(Line::Proxied {
            node: *node,
            key: *key,
            number: *number,
            reply: Boxed::new(alloc, reply.get().copy(alloc)?)?,
        }),
        Line::Unproxied { node, key, number } => Ok(Line::Unproxied {
            node: *node,
            key: *key,
            number: *number,
        }),
        Line::CallFull => Ok(Line::CallFull),
        Line::Call {
            number,
            node,
            digest,
            action,
        } => Ok(Line::Call {
            number: *number,
            node: *node,
            digest: *digest,
            action: *action,
        }),
        Line::NoOpen { number } => Ok(Line::NoOpen { number: *number }),
        Line::Again { number, node } => Ok(Line::Again {
            number: *number,
            node: *node,
        }),
        Line::Reply {
            number,
            node,
            reply,
        } => Ok(Line::Reply {
            number: *number,
            node: *node,
            reply: Boxed::new(alloc, reply.get().copy(alloc)?)?,
        }),
        Line::Scan {
            scan,
            node,
            partition,
        } => Ok(Line::Scan {
            scan: *scan,
            node: *node,
            partition: *partition,
        }),
        Line::NoScan { scan } => Ok(Line::NoScan { scan: *scan }),
        Line::Rescan { scan } => Ok(Line::Rescan { scan: *scan }),
        Line::Page { scan, count } => Ok(Line::Page {
            scan: *scan,
            count: *count,
        }),
        Line::Scanned {
            scan,
            node,
            key,
            partition,
            count,
        } => Ok(Line::Scanned {
            scan: *scan,
            node: *node,
            key: *key,
            partition: *partition,
            count: *count,
        }),
        Line::Record {
            scan,
            digest,
            version,
        } => Ok(Line::Record {
            scan: *scan,
            digest: *digest,
            version: Boxed::new(alloc, version.get().copy(alloc)?)?,
        }),
        Line::Unscanned { scan, cause } => Ok(Line::Unscanned {
            scan: *scan,
            cause: *cause,
        }),
    }
}

/// The same version, if there is one.
fn copy_version(alloc: Global, version: &Option<Version>) -> Result<Option<Version>, NoMemory>
    ensures { IfOk result (λ v. v ≡ version.now) }
{
    match version {
        None => Ok(None),
        Some(version) => Ok(Some(version.copy(alloc)?)),
    }
}
