//! How many bytes the parts of a line have, without writing them.
ghost use Rattle.std.specs.Prelude.{◌≡◌, ◌≤◌, ◌^◌, ◌-◌, length, min};
ghost use Rattle.std.specs.Fmt as formats;
ghost use Rattle.cluster_types.specs.Texts.{key_text, digest_text, node_text, partition_text};
ghost use Rattle.journal_text.specs.Values as texts;

use cluster_types::{ClusterKey, Digest, Member, NodeId, NodeList, PartitionId, Role};
use conflict_order::{Action, Body, Policy, Version};
use journal_lines::Refusal;
use wire_messages::{ReplyBody, ScanRefusal};

/// A word.
pub fn word(text: &str) -> usize
    ensures { result ≡ min (length text.now) (2 ^ 64 - 1) }
{
    text.len()
}

/// A number in decimal.
pub fn decimal(n: u64) -> usize
    ensures len { result ≡ length (formats.decimal n) }
    ensures bound { result ≤ 20 }
{
    match n.checked_ilog10() {
        None => 1,
        Some(power) => power as usize + 1,
    }
}

/// A node's id.
pub fn node(id: NodeId) -> usize
    ensures len { result ≡ length (node_text id) }
    ensures bound { result ≤ 20 }
{
    decimal(u64::from(id.number()))
}

/// A partition's number.
pub fn partition(p: PartitionId) -> usize
    ensures len { result ≡ length (partition_text p) }
    ensures bound { result ≤ 20 }
{
    decimal(u64::from(p.number()))
}

/// A view's key.
pub fn key(k: ClusterKey) -> usize
    ensures len { result ≡ length (key_text k) }
    ensures bound { result ≤ 41 }
{
    decimal(k.round) + ".".len() + decimal(u64::from(k.principal))
}

/// A digest.
pub fn digest(d: &Digest) -> usize
    ensures len { result ≡ length (digest_text d.now) }
    ensures bound { result ≤ 40 }
{
    2 * d.as_slice().len()
}

/// A conflict policy's name.
pub fn policy(p: Policy) -> usize
    ensures len { result ≡ length (texts.policy_word p) }
    ensures bound { result ≤ 10 }
{
    match p {
        Policy::Time => "time".len(),
        Policy::Generation => "generation".len(),
    }
}

/// What a request does.
pub fn action(a: Action) -> usize
    ensures len { result ≡ length (texts.action_word a) }
    ensures bound { result ≤ 3 }
{
    match a {
        Action::Get => "get".len(),
        Action::Put => "put".len(),
        Action::Del => "del".len(),
    }
}

/// A version: its time, its generation and its body.
pub fn version(v: &Version) -> usize
    ensures len { result ≡ length (texts.version_text v.now) }
    ensures bound { result ≤ 298 }
{
    decimal(v.lut) + ".".len() + decimal(u64::from(v.generation)) + body(&v.body)
}

/// A version's body.
fn body(b: &Body) -> usize
    ensures len { result ≡ length (texts.body_text b.now) }
    ensures bound { result ≤ 257 }
{
    match b {
        Body::Tombstone => "-".len(),
        Body::Value(bytes) => "=".len() + 2 * bytes.as_slice().len(),
    }
}

/// A version, or the word for none.
pub fn optional_version(v: &Option<Version>) -> usize
    ensures len { result ≡ length (texts.optional_text v.now) }
    ensures bound { result ≤ 298 }
{
    match v {
        None => "none".len(),
        Some(held) => version(held),
    }
}

/// Why a request was refused.
pub fn refusal(cause: Refusal) -> usize
    ensures len { result ≡ length (texts.refusal_text cause) }
    ensures bound { result ≤ 31 }
{
    match cause {
        Refusal::Down => "down".len(),
        Refusal::NoView => "noview".len(),
        Refusal::Exchanging(member) => "exchanging ".len() + node(member),
        Refusal::NotMaster(acting) => "notmaster ".len() + node(acting),
        Refusal::Busy(transaction) => "busy ".len() + decimal(u64::from(transaction)),
    }
}

/// A rack and the mark of a quiesced node, of which a plain one has none.
fn role(r: Role) -> usize
    ensures len { result ≡ length (texts.role_text r) }
    ensures bound { result ≤ 22 }
{
    let rack = "/".len() + decimal(u64::from(r.rack));
    match (r.quiesced, r.rack) {
        (true, _) => rack + "q".len(),
        (false, 0) => 0,
        (false, _) => rack,
    }
}

/// A member of a list.
fn member(m: Member) -> usize
    ensures len { result ≡ length (texts.member_text m) }
    ensures bound { result ≤ 42 }
{
    node(m.id) + role(m.role)
}

/// Members, each with a comma before it.
fn more_members(members: &[Member]) -> usize
    ensures { result ≡ min (length (texts.more_members_text members.now)) (2 ^ 64 - 1) }
{
    let mut bytes: usize = 0;
    for m in members {
        bytes = bytes.saturating_add(",".len() + member(*m));
    }
    bytes
}

/// Members with commas between them, or the word for none.
pub fn members(members: &[Member]) -> usize
    ensures { result ≡ min (length (texts.members_text members.now)) (2 ^ 64 - 1) }
{
    match members {
        [] => "none".len(),
        [first, more @ ..] => member(*first).saturating_add(more_members(more)),
    }
}

/// Ids, each with a space before it.
fn ids(ids: &[NodeId]) -> usize
    ensures { result ≡ min (length (texts.ids_text ids.now)) (2 ^ 64 - 1) }
{
    let mut bytes: usize = 0;
    for id in ids {
        bytes = bytes.saturating_add(" ".len() + node(*id));
    }
    bytes
}

/// Groups, each with a bar before it.
fn more_groups(groups: &[NodeList]) -> usize
    ensures { result ≡ min (length (texts.more_groups_text groups.now)) (2 ^ 64 - 1) }
{
    let mut bytes: usize = 0;
    for group in groups {
        bytes = bytes.saturating_add(" |".len().saturating_add(ids(group.as_slice())));
    }
    bytes
}

/// Groups with bars between them, and a space before each id and bar.
pub fn groups(groups: &[NodeList]) -> usize
    ensures { result ≡ min (length (texts.groups_text groups.now)) (2 ^ 64 - 1) }
{
    match groups {
        [] => 0,
        [first, more @ ..] => ids(first.as_slice()).saturating_add(more_groups(more)),
    }
}

/// The reply to a request.
pub fn reply(r: &ReplyBody) -> usize
    ensures len { result ≡ length (texts.reply_text r.now) }
    ensures bound { result ≤ 304 }
{
    match r {
        ReplyBody::Nothing => "value none".len(),
        ReplyBody::Found(found) => "value ".len() + version(found),
        ReplyBody::Done => "done".len(),
        ReplyBody::Exchanging(member) => "refused exchanging ".len() + node(*member),
        ReplyBody::NotMaster(acting) => "refused notmaster ".len() + node(*acting),
        ReplyBody::Busy(transaction) => "refused busy ".len() + decimal(u64::from(*transaction)),
        ReplyBody::NoView => "refused noview".len(),
    }
}

/// Why a node has no page for a scan.
pub fn scan_refusal(cause: ScanRefusal) -> usize
    ensures len { result ≡ length (texts.scan_refusal_text cause) }
    ensures bound { result ≤ 31 }
{
    match cause {
        ScanRefusal::NoView => "noview".len(),
        ScanRefusal::Exchanging(member) => "exchanging ".len() + node(member),
        ScanRefusal::NotMaster(acting) => "notmaster ".len() + node(acting),
        ScanRefusal::NotSettled => "notsettled".len(),
        ScanRefusal::Open(transaction) => "open ".len() + decimal(u64::from(transaction)),
    }
}
