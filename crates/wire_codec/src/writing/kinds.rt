//! Each kind of message is written: the byte of the kind, and then its fields.
ghost use Rattle.std.specs.Prelude.{◌≡◌, ◌++◌, ◌∷◌, [], OnOk};
ghost use Rattle.std.specs.Int.{w32};
ghost use Rattle.wire_messages.specs.declared.message.Message.TheVariants as message;
ghost use Rattle.wire_messages.specs.Keys.{key_field, IsKeyField};
ghost use Rattle.wire_messages.specs.Nodes as nodes;
ghost use Rattle.wire_messages.specs.Numbers.{byte_field, number_field};
ghost use Rattle.wire_messages.specs.Proper.{IsProper};
ghost use Rattle.wire_messages.specs.Spelling.{fields_of, view_fields};
ghost use Rattle.wire_messages.specs.Versions.{option_digest_field};
ghost use Rattle.wire_messages.specs.Writing.{appended};
ghost use Rattle.wire_codec.specs.KindBytes.{byte_of};

use crate::kind::Kind;
use crate::roles::is_plain;
use crate::writing::keys::put_key;
use crate::writing::members::{put_members, put_plain_members};
use crate::writing::nodes::{put_each_id, put_ids, put_role};
use crate::writing::numbers::{put_byte, put_flag, put_u16, put_u32};
use crate::writing::requests::{put_refusal, put_reply, put_want};
use crate::writing::rows::{put_row, put_state_row};
use crate::writing::versions::{
    put_digest, put_option_digest, put_option_version, put_records, put_version,
};
use cluster_types::{
    Boxed, ClusterKey, Digest, Member, Members, NoMemory, NodeList, PartitionId, Role, Row4096,
    StateRow,
};
use conflict_order::{Version, Want};
use wire_messages::{Batch, MapTable, Message, ReplyBody, ScanPage, ScanRefusal};

/// The byte of a kind.
fn put_kind(out: &mut Vec<u8>, kind: Kind) -> Result<(), NoMemory>
    ensures { OnOk result (out.new.items ≡ out.old.items ++ byte_field (byte_of kind)) }
{
    put_byte(out, u8::from(kind))
}

/// A node tells of itself. A plain role isn't written.
#[tactic(auto, unfolding(wire_messages::specs::Numbers::byte_field))]
fn put_heartbeat(
    out: &mut Vec<u8>,
    view: ClusterKey,
    promised: ClusterKey,
    hears: &NodeList,
    role: Role,
) -> Result<(), NoMemory>
    requires { IsProper (message.Heartbeat view promised hears.now role) }
    ensures { OnOk result
        (out.new.items
        ≡ appended out.old.items (fields_of (message.Heartbeat view promised hears.now role))) }
{
    let plain = is_plain(role);
    let kind = if plain {
        Kind::Heartbeat
    } else {
        Kind::HeartbeatWithRole
    };
    put_kind(out, kind)?;
    put_key(out, view)?;
    put_key(out, promised)?;
    put_ids(out, hears)?;
    if plain { Ok(()) } else { put_role(out, role) }
}

/// A proposal is accepted.
#[tactic(auto, unfolding(wire_messages::specs::Numbers::byte_field))]
fn put_accept(out: &mut Vec<u8>, key: ClusterKey) -> Result<(), NoMemory>
    requires { IsProper (message.Accept key) }
    ensures { OnOk result
        (out.new.items ≡ appended out.old.items (fields_of (message.Accept key))) }
{
    put_kind(out, Kind::Accept)?;
    put_key(out, key)
}

/// A proposal is refused.
#[tactic(auto, unfolding(wire_messages::specs::Numbers::byte_field))]
fn put_refuse(out: &mut Vec<u8>, refused: ClusterKey, promised: ClusterKey) -> Result<(), NoMemory>
    requires { IsProper (message.Refuse refused promised) }
    ensures { OnOk result
        (out.new.items ≡ appended out.old.items (fields_of (message.Refuse refused promised))) }
{
    put_kind(out, Kind::Refuse)?;
    put_key(out, refused)?;
    put_key(out, promised)
}

/// The states of the copies.
#[tactic(auto, unfolding(wire_messages::specs::Numbers::byte_field))]
fn put_state(
    out: &mut Vec<u8>,
    key: ClusterKey,
    wants: bool,
    row: &StateRow,
) -> Result<(), NoMemory>
    requires { IsProper (message.State key wants row.now) }
    ensures { OnOk result
        (out.new.items ≡ appended out.old.items (fields_of (message.State key wants row.now))) }
{
    put_kind(out, Kind::State)?;
    put_key(out, key)?;
    put_flag(out, wants)?;
    put_state_row(out, row)
}

/// A batch of records.
#[tactic(auto, unfolding(wire_messages::specs::Numbers::byte_field))]
fn put_batch(out: &mut Vec<u8>, batch: &Batch) -> Result<(), NoMemory>
    requires { IsProper (message.Batch batch.now) }
    ensures { OnOk result
        (out.new.items ≡ appended out.old.items (fields_of (message.Batch batch.now))) }
{
    put_kind(out, Kind::Batch)?;
    put_key(out, batch.key)?;
    put_u32(out, batch.number)?;
    put_records(out, &batch.records)
}

/// A batch came.
#[tactic(auto, unfolding(wire_messages::specs::Numbers::byte_field))]
fn put_batch_ack(out: &mut Vec<u8>, key: ClusterKey, number: u32) -> Result<(), NoMemory>
    requires { IsProper (message.BatchAck key number) }
    ensures { OnOk result
        (out.new.items ≡ appended out.old.items (fields_of (message.BatchAck key number))) }
{
    put_kind(out, Kind::BatchAck)?;
    put_key(out, key)?;
    put_u32(out, number)
}

/// How far the copies have come.
#[tactic(auto, unfolding(wire_messages::specs::Numbers::byte_field))]
fn put_progress(
    out: &mut Vec<u8>,
    key: ClusterKey,
    wants: bool,
    done: &Boxed<Row4096>,
    handed: &Boxed<Row4096>,
    settled: &Boxed<Row4096>,
) -> Result<(), NoMemory>
    requires { IsProper (message.Progress key wants done.now handed.now settled.now) }
    ensures { OnOk result
        (out.new.items ≡ appended out.old.items
        (fields_of (message.Progress key wants done.now handed.now settled.now))) }
{
    put_kind(out, Kind::Progress)?;
    put_key(out, key)?;
    put_flag(out, wants)?;
    put_row(out, done.get())?;
    put_row(out, handed.get())?;
    put_row(out, settled.get())
}

/// A write is replicated.
#[tactic(auto, unfolding(wire_messages::specs::Numbers::byte_field))]
fn put_repl(
    out: &mut Vec<u8>,
    key: ClusterKey,
    transaction: u32,
    nth: u32,
    digest: &Digest,
    version: &Version,
) -> Result<(), NoMemory>
    requires { IsProper (message.Repl key transaction nth digest.now version.now) }
    ensures { OnOk result
        (out.new.items ≡ appended out.old.items
        (fields_of (message.Repl key transaction nth digest.now version.now))) }
{
    put_kind(out, Kind::Repl)?;
    put_key(out, key)?;
    put_u32(out, transaction)?;
    put_u32(out, nth)?;
    put_digest(out, digest)?;
    put_version(out, version)
}

/// A write came.
#[tactic(auto, unfolding(wire_messages::specs::Numbers::byte_field))]
fn put_repl_ack(out: &mut Vec<u8>, key: ClusterKey, transaction: u32) -> Result<(), NoMemory>
    requires { IsProper (message.ReplAck key transaction) }
    ensures { OnOk result
        (out.new.items ≡ appended out.old.items (fields_of (message.ReplAck key transaction))) }
{
    put_kind(out, Kind::ReplAck)?;
    put_key(out, key)?;
    put_u32(out, transaction)
}

/// A version is asked for.
#[tactic(auto, unfolding(wire_messages::specs::Numbers::byte_field))]
fn put_ask(
    out: &mut Vec<u8>,
    key: ClusterKey,
    transaction: u32,
    digest: &Digest,
) -> Result<(), NoMemory>
    requires { IsProper (message.Ask key transaction digest.now) }
    ensures { OnOk result
        (out.new.items
        ≡ appended out.old.items (fields_of (message.Ask key transaction digest.now))) }
{
    put_kind(out, Kind::Ask)?;
    put_key(out, key)?;
    put_u32(out, transaction)?;
    put_digest(out, digest)
}

/// The version that was asked for.
#[tactic(auto, unfolding(wire_messages::specs::Numbers::byte_field))]
fn put_answer(
    out: &mut Vec<u8>,
    key: ClusterKey,
    transaction: u32,
    version: &Option<Version>,
) -> Result<(), NoMemory>
    requires { IsProper (message.Answer key transaction version.now) }
    ensures { OnOk result
        (out.new.items
        ≡ appended out.old.items (fields_of (message.Answer key transaction version.now))) }
{
    put_kind(out, Kind::Answer)?;
    put_key(out, key)?;
    put_u32(out, transaction)?;
    put_option_version(out, version)
}

/// The table of acting nodes.
#[tactic(auto, unfolding(wire_messages::specs::Numbers::byte_field))]
fn put_map_table(out: &mut Vec<u8>, table: &MapTable) -> Result<(), NoMemory>
    requires { IsProper (message.MapTable table.now) }
    ensures { OnOk result
        (out.new.items ≡ appended out.old.items (fields_of (message.MapTable table.now))) }
{
    put_kind(out, Kind::MapTable)?;
    put_key(out, table.key)?;
    put_each_id(out, table.ids.as_slice())?;
    put_row(out, table.moved.get())
}

/// A request is passed on.
#[tactic(auto, unfolding(wire_messages::specs::Numbers::byte_field))]
fn put_proxy(
    out: &mut Vec<u8>,
    key: ClusterKey,
    number: u32,
    digest: &Digest,
    want: &Want,
) -> Result<(), NoMemory>
    requires { IsProper (message.Proxy key number digest.now want.now) }
    ensures { OnOk result
        (out.new.items
        ≡ appended out.old.items (fields_of (message.Proxy key number digest.now want.now))) }
{
    put_kind(out, Kind::Proxy)?;
    put_key(out, key)?;
    put_u32(out, number)?;
    put_digest(out, digest)?;
    put_want(out, want)
}

/// The reply to a request that was passed on.
#[tactic(auto, unfolding(wire_messages::specs::Numbers::byte_field))]
fn put_proxy_reply(
    out: &mut Vec<u8>,
    key: ClusterKey,
    number: u32,
    reply: &ReplyBody,
) -> Result<(), NoMemory>
    requires { IsProper (message.ProxyReply key number reply.now) }
    ensures { OnOk result
        (out.new.items
        ≡ appended out.old.items (fields_of (message.ProxyReply key number reply.now))) }
{
    put_kind(out, Kind::ProxyReply)?;
    put_key(out, key)?;
    put_u32(out, number)?;
    put_reply(out, reply)
}

/// A request of the client.
#[tactic(auto, unfolding(wire_messages::specs::Numbers::byte_field))]
fn put_call(out: &mut Vec<u8>, number: u32, digest: &Digest, want: &Want) -> Result<(), NoMemory>
    requires { IsProper (message.Call number digest.now want.now) }
    ensures { OnOk result
        (out.new.items
        ≡ appended out.old.items (fields_of (message.Call number digest.now want.now))) }
{
    put_kind(out, Kind::Call)?;
    put_u32(out, number)?;
    put_digest(out, digest)?;
    put_want(out, want)
}

/// The reply to the client.
#[tactic(auto, unfolding(wire_messages::specs::Numbers::byte_field))]
fn put_client_reply(
    out: &mut Vec<u8>,
    key: ClusterKey,
    number: u32,
    reply: &ReplyBody,
) -> Result<(), NoMemory>
    requires { IsProper (message.Reply key number reply.now) }
    ensures { OnOk result
        (out.new.items ≡ appended out.old.items (fields_of (message.Reply key number reply.now))) }
{
    put_kind(out, Kind::Reply)?;
    put_key(out, key)?;
    put_u32(out, number)?;
    put_reply(out, reply)
}

/// A page of a scan is asked for.
#[tactic(auto, unfolding(wire_messages::specs::Numbers::byte_field))]
fn put_scan_ask(
    out: &mut Vec<u8>,
    scan: u32,
    partition: PartitionId,
    after: &Option<Digest>,
) -> Result<(), NoMemory>
    requires { IsProper (message.ScanAsk scan partition after.now) }
    ensures { OnOk result
        (out.new.items
        ≡ appended out.old.items (fields_of (message.ScanAsk scan partition after.now))) }
{
    put_kind(out, Kind::ScanAsk)?;
    put_u32(out, scan)?;
    put_u16(out, partition.number())?;
    put_option_digest(out, after)
}

/// There is no page.
#[tactic(auto, unfolding(wire_messages::specs::Numbers::byte_field))]
fn put_scan_no(out: &mut Vec<u8>, scan: u32, refusal: &ScanRefusal) -> Result<(), NoMemory>
    requires { IsProper (message.ScanNo scan refusal.now) }
    ensures { OnOk result
        (out.new.items ≡ appended out.old.items (fields_of (message.ScanNo scan refusal.now))) }
{
    put_kind(out, Kind::ScanNo)?;
    put_u32(out, scan)?;
    put_refusal(out, refusal)
}

/// Whether no member has a rack, and none is quiesced.
fn all_plain(members: &[Member]) -> bool
    ensures { result ≡ nodes.all_plain members.now }
{
    members.iter().all(|member| is_plain(member.role))
}

/// A key and members, whose roles aren't written where all are plain.
#[tactic(auto, unfolding(wire_messages::specs::Numbers::byte_field))]
fn put_view(
    out: &mut Vec<u8>,
    plain_kind: Kind,
    kind: Kind,
    key: ClusterKey,
    members: &Members,
) -> Result<(), NoMemory>
    requires { IsKeyField key }
    ensures { OnOk result
        (out.new.items ≡ appended out.old.items
        (view_fields (byte_of plain_kind) (byte_of kind) key members.now)) }
{
    if all_plain(members.as_slice()) {
        put_kind(out, plain_kind)?;
        put_key(out, key)?;
        return put_plain_members(out, members);
    }
    put_kind(out, kind)?;
    put_key(out, key)?;
    put_members(out, members)
}

/// A view is proposed. Roles aren't written where all are plain.
#[tactic(auto, unfolding(wire_messages::specs::Numbers::byte_field))]
fn put_propose(out: &mut Vec<u8>, key: ClusterKey, members: &Members) -> Result<(), NoMemory>
    requires { IsProper (message.Propose key members.now) }
    ensures { OnOk result
        (out.new.items ≡ appended out.old.items (fields_of (message.Propose key members.now))) }
{
    put_view(out, Kind::Propose, Kind::ProposeWithRoles, key, members)
}

/// A proposed view is entered. Roles aren't written where all are plain.
#[tactic(auto, unfolding(wire_messages::specs::Numbers::byte_field))]
fn put_commit(out: &mut Vec<u8>, key: ClusterKey, members: &Members) -> Result<(), NoMemory>
    requires { IsProper (message.Commit key members.now) }
    ensures { OnOk result
        (out.new.items ≡ appended out.old.items (fields_of (message.Commit key members.now))) }
{
    put_view(out, Kind::Commit, Kind::CommitWithRoles, key, members)
}

/// The numbers of a page of a scan.
#[tactic(auto, unfolding(wire_messages::specs::Numbers::byte_field))]
fn put_page_head(out: &mut Vec<u8>, page: &ScanPage) -> Result<(), NoMemory>
    requires { IsKeyField page.now.key }
    ensures { OnOk result
        (out.new.items ≡ appended out.old.items
        (byte_field 24 ∷ key_field page.now.key ∷ number_field w32 page.now.scan
        ∷ option_digest_field page.now.after ∷ number_field w32 page.now.writes ∷ [])) }
{
    put_kind(out, Kind::ScanPage)?;
    put_key(out, page.key)?;
    put_u32(out, page.scan)?;
    put_option_digest(out, &page.after)?;
    put_u32(out, page.writes)
}

/// A page of a scan.
#[tactic(auto, unfolding(wire_messages::specs::Numbers::byte_field))]
fn put_scan_page(out: &mut Vec<u8>, page: &ScanPage) -> Result<(), NoMemory>
    requires { IsProper (message.ScanPage page.now) }
    ensures { OnOk result
        (out.new.items ≡ appended out.old.items (fields_of (message.ScanPage page.now))) }
{
    put_page_head(out, page)?;
    put_records(out, &page.records)?;
    put_flag(out, page.more)
}

/// The message's fields in their order, behind its kind.
#[tactic(auto, unfolding(wire_messages::specs::Numbers::byte_field))]
pub(crate) fn put_message(out: &mut Vec<u8>, m: &Message) -> Result<(), NoMemory>
    requires { IsProper m.now }
    ensures { OnOk result (out.new.items ≡ appended out.old.items (fields_of m.now)) }
{
    match m {
        Message::Heartbeat {
            view,
            promised,
            hears,
            role,
        } => put_heartbeat(out, *view, *promised, hears, *role),
        Message::Propose { key, members } => put_propose(out, *key, members),
        Message::Accept { key } => put_accept(out, *key),
        Message::Refuse { refused, promised } => put_refuse(out, *refused, *promised),
        Message::Commit { key, members } => put_commit(out, *key, members),
        Message::State { key, wants, row } => put_state(out, *key, *wants, row),
        Message::Batch(batch) => put_batch(out, batch),
        Message::BatchAck { key, number } => put_batch_ack(out, *key, *number),
        Message::Progress {
            key,
            wants,
            done,
            handed,
            settled,
        } => put_progress(out, *key, *wants, done, handed, settled),
        Message::Repl {
            key,
            transaction,
            nth,
            digest,
            version,
        } => put_repl(out, *key, *transaction, *nth, digest, version),
        Message::ReplAck { key, transaction } => put_repl_ack(out, *key, *transaction),
        Message::Ask {
            key,
            transaction,
            digest,
        } => put_ask(out, *key, *transaction, digest),
        Message::Answer {
            key,
            transaction,
            version,
        } => put_answer(out, *key, *transaction, version),
        Message::MapAsk => put_kind(out, Kind::MapAsk),
        Message::MapTable(table) => put_map_table(out, table),
        Message::Proxy {
            key,
            number,
            digest,
            want,
        } => put_proxy(out, *key, *number, digest, want),
        Message::ProxyReply { key, number, reply } => put_proxy_reply(out, *key, *number, reply),
        Message::Call {
            number,
            digest,
            want,
        } => put_call(out, *number, digest, want),
        Message::Reply { key, number, reply } => put_client_reply(out, *key, *number, reply),
        Message::ScanAsk {
            scan,
            partition,
            after,
        } => put_scan_ask(out, *scan, *partition, after),
        Message::ScanPage(page) => put_scan_page(out, page),
        Message::ScanNo { scan, refusal } => put_scan_no(out, *scan, refusal),
    }
}
