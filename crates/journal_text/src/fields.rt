//! A line as its word and its fields.
ghost use Rattle.journal_text.specs.FieldTexts.{AreFields};
ghost use Rattle.journal_text.specs.LineGroups.{group};
ghost use Rattle.std.specs.Prelude.{◌≡◌, IfSome, IfNone};

use cluster_types::{ClusterKey, Member, NodeId, NodeList, PartitionId};
use journal_lines::{Line, Refusal};
use wire_messages::{ReplyBody, ScanRefusal};

/// What stands behind the word of a line.
#[derive(Clone, Copy)]
pub enum Field<'a> {
    /// Nothing.
    Absent,
    /// The word with which a line begins.
    Word(&'a str),
    Byte(u8),
    Endpoint(u16),
    Count(u32),
    Number(u64),
    Node(NodeId),
    Key(ClusterKey),
    Partition(PartitionId),
    Digest(&'a cluster_types::Digest),
    Version(&'a conflict_order::Version),
    Found(&'a Option<conflict_order::Version>),
    Members(&'a [Member]),
    Groups(&'a [NodeList]),
    Hex(&'a [u8]),
    Rack(Option<u8>),
    Cause(Refusal),
    Reply(&'a ReplyBody),
    ScanCause(ScanRefusal),
    Action(conflict_order::Action),
    Policy(conflict_order::Policy),
}

use Field::{
    Absent, Action, Byte, Cause, Count, Digest, Endpoint, Found, Groups, Hex, Key, Members, Node,
    Number, Partition, Policy, Rack, Reply, ScanCause, Version, Word,
};

/// Fields, and nothing behind them.
macro_rules! padded {
    ($a:expr) => {
        Some([$a, Absent, Absent, Absent, Absent, Absent, Absent])
    };
    ($a:expr, $b:expr) => {
        Some([$a, $b, Absent, Absent, Absent, Absent, Absent])
    };
    ($a:expr, $b:expr, $c:expr) => {
        Some([$a, $b, $c, Absent, Absent, Absent, Absent])
    };
    ($a:expr, $b:expr, $c:expr, $d:expr) => {
        Some([$a, $b, $c, $d, Absent, Absent, Absent])
    };
    ($a:expr, $b:expr, $c:expr, $d:expr, $e:expr) => {
        Some([$a, $b, $c, $d, $e, Absent, Absent])
    };
    ($a:expr, $b:expr, $c:expr, $d:expr, $e:expr, $f:expr) => {
        Some([$a, $b, $c, $d, $e, $f, Absent])
    };
    ($a:expr, $b:expr, $c:expr, $d:expr, $e:expr, $f:expr, $g:expr) => {
        Some([$a, $b, $c, $d, $e, $f, $g])
    };
}

/// The fields of a line that the script sets.
#[tactic(auto, using(crate::proofs::Joins::nothing_behind))]
fn script_fields(line: &Line) -> Option<[Field<'_>; 7]>
    ensures some { IfSome result (λ fields. AreFields fields line.now) }
    ensures none { IfNone result (¬ (group line.now ≡ 0)) }
{
    match line {
        Line::Script { version } => padded!(Word("script"), Byte(*version)),
        Line::Factor { factor } => padded!(Word("factor"), Byte(*factor)),
        Line::Node { node, rack } => padded!(Word("node"), Node(*node), Rack(*rack)),
        Line::Policy { policy } => padded!(Word("policy"), Policy(*policy)),
        Line::Clock { node, time } => padded!(Word("clock"), Node(*node), Number(*time)),
        Line::Groups { groups } => padded!(Word("groups"), Groups(groups.get().as_slice())),
        _ => None,
    }
}

/// The fields of a line of what is done to a node.
#[tactic(auto, using(crate::proofs::Joins::nothing_behind))]
fn node_fields(line: &Line) -> Option<[Field<'_>; 7]>
    ensures some { IfSome result (λ fields. AreFields fields line.now) }
    ensures none { IfNone result (¬ (group line.now ≡ 1)) }
{
    match line {
        Line::Tick { node } => padded!(Word("tick"), Node(*node)),
        Line::Stop { node } => padded!(Word("stop"), Node(*node)),
        Line::Start { node } => padded!(Word("start"), Node(*node)),
        Line::Down { node } => padded!(Word("down"), Node(*node)),
        Line::Up { node } => padded!(Word("up"), Node(*node)),
        Line::Quiesce { node } => padded!(Word("quiesce"), Node(*node)),
        Line::Unquiesce { node } => padded!(Word("unquiesce"), Node(*node)),
        _ => None,
    }
}

/// The fields of a line of a message on its way.
#[tactic(auto, using(crate::proofs::Joins::nothing_behind))]
fn message_fields(line: &Line) -> Option<[Field<'_>; 7]>
    ensures some { IfSome result (λ fields. AreFields fields line.now) }
    ensures none { IfNone result (¬ (group line.now ≡ 2)) }
{
    match line {
        Line::Deliver { message, from, to } => padded!(
            Word("deliver"),
            Number(*message),
            Endpoint(*from),
            Endpoint(*to)
        ),
        Line::Repeat { message, from, to } => padded!(
            Word("repeat"),
            Number(*message),
            Endpoint(*from),
            Endpoint(*to)
        ),
        Line::Cut {
            message,
            from,
            to,
            length,
        } => padded!(
            Word("cut"),
            Number(*message),
            Endpoint(*from),
            Endpoint(*to),
            Number(*length)
        ),
        Line::Lost { message } => padded!(Word("lost"), Number(*message)),
        Line::Blocked { message } => padded!(Word("blocked"), Number(*message)),
        Line::NoMessage { message } => padded!(Word("nomessage"), Number(*message)),
        _ => None,
    }
}

/// The fields of a line of a message that was sent, lost or of no use.
#[tactic(auto, using(crate::proofs::Joins::nothing_behind))]
fn fault_fields(line: &Line) -> Option<[Field<'_>; 7]>
    ensures some { IfSome result (λ fields. AreFields fields line.now) }
    ensures none { IfNone result (¬ (group line.now ≡ 3)) }
{
    match line {
        Line::Sent {
            message,
            from,
            to,
            bytes,
        } => padded!(
            Word("sent"),
            Number(*message),
            Endpoint(*from),
            Endpoint(*to),
            Hex(bytes.as_slice())
        ),
        Line::Full { message } => padded!(Word("full"), Number(*message)),
        Line::Short { endpoint } => padded!(Word("short"), Endpoint(*endpoint)),
        Line::Stale { endpoint } => padded!(Word("stale"), Endpoint(*endpoint)),
        Line::Spent { endpoint } => padded!(Word("spent"), Endpoint(*endpoint)),
        _ => None,
    }
}

/// The fields of a line of a view, or of a step of migration in it.
#[tactic(auto, using(crate::proofs::Joins::nothing_behind))]
fn view_fields(line: &Line) -> Option<[Field<'_>; 7]>
    ensures some { IfSome result (λ fields. AreFields fields line.now) }
    ensures none { IfNone result (¬ (group line.now ≡ 4)) }
{
    match line {
        Line::Promise { node, key } => padded!(Word("promise"), Node(*node), Key(*key)),
        Line::Enter { node, key, members } => padded!(
            Word("enter"),
            Node(*node),
            Key(*key),
            Members(members.get().as_slice())
        ),
        Line::Exchanged { node, key } => padded!(Word("exchanged"), Node(*node), Key(*key)),
        Line::Handed {
            node,
            key,
            partition,
        } => padded!(
            Word("handed"),
            Node(*node),
            Key(*key),
            Partition(*partition)
        ),
        Line::Settled {
            node,
            key,
            partition,
        } => padded!(
            Word("settled"),
            Node(*node),
            Key(*key),
            Partition(*partition)
        ),
        Line::Learn {
            node,
            key,
            partition,
        } => padded!(Word("learn"), Node(*node), Key(*key), Partition(*partition)),
        Line::Drop {
            node,
            key,
            partition,
        } => padded!(Word("drop"), Node(*node), Key(*key), Partition(*partition)),
        _ => None,
    }
}

/// The fields of a line of a request at a node.
#[tactic(auto, using(crate::proofs::Joins::nothing_behind))]
fn request_fields(line: &Line) -> Option<[Field<'_>; 7]>
    ensures some { IfSome result (λ fields. AreFields fields line.now) }
    ensures none { IfNone result (¬ (group line.now ≡ 5)) }
{
    match line {
        Line::Opened {
            node,
            key,
            transaction,
            digest,
            action,
        } => padded!(
            Word("opened"),
            Node(*node),
            Key(*key),
            Count(*transaction),
            Digest(digest),
            Action(*action)
        ),
        Line::Refused {
            node,
            digest,
            cause,
        } => padded!(Word("refused"), Node(*node), Digest(digest), Cause(*cause)),
        Line::Value {
            node,
            key,
            transaction,
            digest,
            version,
        } => padded!(
            Word("value"),
            Node(*node),
            Key(*key),
            Count(*transaction),
            Digest(digest),
            Found(version.get())
        ),
        Line::Apply {
            node,
            key,
            transaction,
            digest,
            version,
        } => padded!(
            Word("apply"),
            Node(*node),
            Key(*key),
            Count(*transaction),
            Digest(digest),
            Version(version.get())
        ),
        Line::Done {
            node,
            key,
            transaction,
        } => padded!(Word("done"), Node(*node), Key(*key), Count(*transaction)),
        Line::Aborted {
            node,
            key,
            transaction,
        } => padded!(Word("aborted"), Node(*node), Key(*key), Count(*transaction)),
        Line::Doubt {
            node,
            key,
            transaction,
        } => padded!(Word("doubt"), Node(*node), Key(*key), Count(*transaction)),
        Line::Merge {
            node,
            key,
            digest,
            version,
        } => padded!(
            Word("merge"),
            Node(*node),
            Key(*key),
            Digest(digest),
            Version(version.get())
        ),
        _ => None,
    }
}

/// The fields of a line of what a command shows, or of the table of the client.
#[tactic(auto, using(crate::proofs::Joins::nothing_behind))]
fn answer_fields(line: &Line) -> Option<[Field<'_>; 7]>
    ensures some { IfSome result (λ fields. AreFields fields line.now) }
    ensures none { IfNone result (¬ (group line.now ≡ 6)) }
{
    match line {
        Line::Map {
            node,
            key,
            partition,
            members,
            acting,
        } => padded!(
            Word("map"),
            Node(*node),
            Key(*key),
            Partition(*partition),
            Members(members.get().as_slice()),
            Node(*acting)
        ),
        Line::Mapless { node, cause } => padded!(Word("mapless"), Node(*node), Cause(*cause)),
        Line::Place { partition, members } => padded!(
            Word("place"),
            Partition(*partition),
            Members(members.get().as_slice())
        ),
        Line::Hash { digest, partition } => padded!(
            Word("hash"),
            Digest(digest),
            Partition(*partition)
        ),
        Line::Holds {
            node,
            digest,
            version,
        } => padded!(
            Word("holds"),
            Node(*node),
            Digest(digest),
            Found(version.get())
        ),
        Line::Client { node, digest } => padded!(Word("client"), Node(*node), Digest(digest)),
        Line::NoMap { partition } => padded!(Word("nomap"), Partition(*partition)),
        Line::Table { key } => padded!(Word("table"), Key(*key)),
        Line::Calm { rounds } => padded!(Word("calm"), Number(*rounds)),
        _ => None,
    }
}

/// The fields of a line of a request that is sent as a message.
#[tactic(auto, using(crate::proofs::Joins::nothing_behind))]
fn call_fields(line: &Line) -> Option<[Field<'_>; 7]>
    ensures some { IfSome result (λ fields. AreFields fields line.now) }
    ensures none { IfNone result (¬ (group line.now ≡ 7)) }
{
    match line {
        Line::Proxy {
            node,
            key,
            number,
            digest,
            action,
            acting,
        } => padded!(
            Word("proxy"),
            Node(*node),
            Key(*key),
            Count(*number),
            Digest(digest),
            Action(*action),
            Node(*acting)
        ),
        Line::Proxied {
            node,
            key,
            number,
            reply,
        } => padded!(
            Word("proxied"),
            Node(*node),
            Key(*key),
            Count(*number),
            Reply(reply.get())
        ),
        Line::Unproxied { node, key, number } => padded!(
            Word("unproxied"),
            Node(*node),
            Key(*key),
            Count(*number)
        ),
        Line::CallFull => padded!(Word("callfull")),
        Line::Call {
            number,
            node,
            digest,
            action,
        } => padded!(
            Word("call"),
            Count(*number),
            Node(*node),
            Digest(digest),
            Action(*action)
        ),
        Line::NoOpen { number } => padded!(Word("noopen"), Number(*number)),
        Line::Again { number, node } => padded!(Word("again"), Count(*number), Node(*node)),
        Line::Reply {
            number,
            node,
            reply,
        } => padded!(
            Word("reply"),
            Count(*number),
            Node(*node),
            Reply(reply.get())
        ),
        _ => None,
    }
}

/// The fields of a line of a scan of a partition.
#[tactic(auto, using(crate::proofs::Joins::nothing_behind))]
fn scan_fields(line: &Line) -> Option<[Field<'_>; 7]>
    ensures some { IfSome result (λ fields. AreFields fields line.now) }
    ensures none { IfNone result (¬ (group line.now ≡ 8)) }
{
    match line {
        Line::Scan {
            scan,
            node,
            partition,
        } => padded!(
            Word("scan"),
            Count(*scan),
            Node(*node),
            Partition(*partition)
        ),
        Line::NoScan { scan } => padded!(Word("noscan"), Number(*scan)),
        Line::Rescan { scan } => padded!(Word("rescan"), Count(*scan)),
        Line::Page { scan, count } => padded!(Word("page"), Count(*scan), Count(*count)),
        Line::Scanned {
            scan,
            node,
            key,
            partition,
            count,
        } => padded!(
            Word("scanned"),
            Count(*scan),
            Node(*node),
            Key(*key),
            Partition(*partition),
            Number(*count)
        ),
        Line::Record {
            scan,
            digest,
            version,
        } => padded!(
            Word("record"),
            Count(*scan),
            Digest(digest),
            Version(version.get())
        ),
        Line::Unscanned { scan, cause } => padded!(
            Word("unscanned"),
            Count(*scan),
            ScanCause(*cause)
        ),
        _ => None,
    }
}

/// The word and the fields of a line.
#[tactic(auto, using(crate::proofs::Joins::in_a_group))]
pub fn fields_of(line: &Line) -> [Field<'_>; 7]
    ensures { AreFields result line.now }
{
    if let Some(fields) = script_fields(line) {
        return fields;
    }
    if let Some(fields) = node_fields(line) {
        return fields;
    }
    if let Some(fields) = message_fields(line) {
        return fields;
    }
    if let Some(fields) = fault_fields(line) {
        return fields;
    }
    if let Some(fields) = view_fields(line) {
        return fields;
    }
    if let Some(fields) = request_fields(line) {
        return fields;
    }
    if let Some(fields) = answer_fields(line) {
        return fields;
    }
    if let Some(fields) = call_fields(line) {
        return fields;
    }
    if let Some(fields) = scan_fields(line) {
        return fields;
    }
    [Absent, Absent, Absent, Absent, Absent, Absent, Absent]
}
