//! The lines of a journal.
use crate::message_bytes::MessageBytes;
use crate::refusal::Refusal;
use cluster_types::{Boxed, ClusterKey, Digest, Groups, MemberList, Members, NodeId, PartitionId};
use conflict_order::{Action, Policy, Version};
use wire_messages::{ReplyBody, ScanRefusal};

/// One line of the journal. It is written as docs/FORMATS.md says, without its line feed.
///
/// A message goes from an endpoint to an endpoint: the id of a node, or 0, which is the client.
/// Numbers of transactions, proxies, calls and scans are at least 1.
#[derive(Drop)]
pub enum Line {
    /// The version of the script's language, 1 or 2.
    Script {
        version: u8,
    },
    /// How many replicas a partition has, 1 to 4.
    Factor {
        factor: u8,
    },
    /// A node was declared, with its rack where the script names one.
    Node {
        node: NodeId,
        rack: Option<u8>,
    },
    /// The conflict policy.
    Policy {
        policy: Policy,
    },
    /// The node's clock was set.
    Clock {
        node: NodeId,
        time: u64,
    },
    /// The network was divided into these groups.
    Groups {
        groups: Boxed<Groups>,
    },
    /// An up node ticked.
    Tick {
        node: NodeId,
    },
    /// An up node was stopped.
    Stop {
        node: NodeId,
    },
    /// A stopped node was started.
    Start {
        node: NodeId,
    },
    /// A tick or a stop of a stopped node did nothing.
    Down {
        node: NodeId,
    },
    /// A start of an up node did nothing.
    Up {
        node: NodeId,
    },
    /// The node was marked as about to leave.
    Quiesce {
        node: NodeId,
    },
    /// The node's mark was taken back.
    Unquiesce {
        node: NodeId,
    },
    /// A message arrived.
    Deliver {
        message: u64,
        from: u16,
        to: u16,
    },
    /// A message arrived, and is still in flight.
    Repeat {
        message: u64,
        from: u16,
        to: u16,
    },
    /// At most that many bytes of a message arrived.
    Cut {
        message: u64,
        from: u16,
        to: u16,
        length: u64,
    },
    /// A message was lost.
    Lost {
        message: u64,
    },
    /// A message can't arrive, as its ends stand in different groups.
    Blocked {
        message: u64,
    },
    /// No message of that number is in flight.
    NoMessage {
        message: u64,
    },
    /// A message was sent.
    Sent {
        message: u64,
        from: u16,
        to: u16,
        bytes: MessageBytes,
    },
    /// The message just sent isn't in flight, as too many are.
    Full {
        message: u64,
    },
    /// What arrived there ends before its message does.
    Short {
        endpoint: u16,
    },
    /// What arrived there is of another view, or of no use.
    Stale {
        endpoint: u16,
    },
    /// What arrived there answers nothing that is still open.
    Spent {
        endpoint: u16,
    },
    /// The node's promised key rose to this one.
    Promise {
        node: NodeId,
        key: ClusterKey,
    },
    /// The node entered the view of this key and these members.
    Enter {
        node: NodeId,
        key: ClusterKey,
        members: Boxed<Members>,
    },
    /// The node knows the copies of every member of its view.
    Exchanged {
        node: NodeId,
        key: ClusterKey,
    },
    /// The node accepted a request, under this transaction number.
    Opened {
        node: NodeId,
        key: ClusterKey,
        transaction: u32,
        digest: Digest,
        action: Action,
    },
    /// The node refused a request.
    Refused {
        node: NodeId,
        digest: Digest,
        cause: Refusal,
    },
    /// A read was resolved, with the best version or none.
    Value {
        node: NodeId,
        key: ClusterKey,
        transaction: u32,
        digest: Digest,
        version: Boxed<Option<Version>>,
    },
    /// A write was applied, with the version that it made.
    Apply {
        node: NodeId,
        key: ClusterKey,
        transaction: u32,
        digest: Digest,
        version: Boxed<Version>,
    },
    /// Every other replica has the write.
    Done {
        node: NodeId,
        key: ClusterKey,
        transaction: u32,
    },
    /// The transaction ended before it applied anything.
    Aborted {
        node: NodeId,
        key: ClusterKey,
        transaction: u32,
    },
    /// The transaction applied its write and ended before every other replica had it.
    Doubt {
        node: NodeId,
        key: ClusterKey,
        transaction: u32,
    },
    /// A version that came from another node is newer than what the node held.
    Merge {
        node: NodeId,
        key: ClusterKey,
        digest: Digest,
        version: Boxed<Version>,
    },
    /// The node no longer acts for the partition, since the first of its list does.
    Handed {
        node: NodeId,
        key: ClusterKey,
        partition: PartitionId,
    },
    /// Every replica of the partition has all records of it.
    Settled {
        node: NodeId,
        key: ClusterKey,
        partition: PartitionId,
    },
    /// The node's copy of the partition is whole.
    Learn {
        node: NodeId,
        key: ClusterKey,
        partition: PartitionId,
    },
    /// The node, no replica of the partition, dropped its copy.
    Drop {
        node: NodeId,
        key: ClusterKey,
        partition: PartitionId,
    },
    /// The node's list of the partition, and the member that acts for it.
    Map {
        node: NodeId,
        key: ClusterKey,
        partition: PartitionId,
        members: Boxed<MemberList>,
        acting: NodeId,
    },
    /// The node has no map. The cause is `Down`, `NoView` or `Exchanging`.
    Mapless {
        node: NodeId,
        cause: Refusal,
    },
    /// The list of the partition over all declared nodes.
    Place {
        partition: PartitionId,
        members: Boxed<MemberList>,
    },
    /// The digest of a key, and its partition.
    Hash {
        digest: Digest,
        partition: PartitionId,
    },
    /// What the node's store holds of the record.
    Holds {
        node: NodeId,
        digest: Digest,
        version: Boxed<Option<Version>>,
    },
    /// The client chose the node for a request; the request's lines follow.
    Client {
        node: NodeId,
        digest: Digest,
    },
    /// The client has no table, so it knows no node for the partition.
    NoMap {
        partition: PartitionId,
    },
    /// A table of acting nodes reached the client.
    Table {
        key: ClusterKey,
    },
    /// The rounds after which the world was calm.
    Calm {
        rounds: u64,
    },
    /// The node passed a request on to the node that acts, under this number.
    Proxy {
        node: NodeId,
        key: ClusterKey,
        number: u32,
        digest: Digest,
        action: Action,
        acting: NodeId,
    },
    /// The reply to a request that was passed on.
    Proxied {
        node: NodeId,
        key: ClusterKey,
        number: u32,
        reply: Boxed<ReplyBody>,
    },
    /// The node left the view before the request that it passed on was replied to.
    Unproxied {
        node: NodeId,
        key: ClusterKey,
        number: u32,
    },
    /// The client has too many requests open.
    CallFull,
    /// The client sent a request of this number to a node.
    Call {
        number: u32,
        node: NodeId,
        digest: Digest,
        action: Action,
    },
    /// No request of that number is open.
    NoOpen {
        number: u64,
    },
    /// The client sent the request again, to this node.
    Again {
        number: u32,
        node: NodeId,
    },
    /// A node's reply to a request of the client.
    Reply {
        number: u32,
        node: NodeId,
        reply: Boxed<ReplyBody>,
    },
    /// The client asked a node for a page of a scan.
    Scan {
        scan: u32,
        node: NodeId,
        partition: PartitionId,
    },
    /// No scan of that number is open.
    NoScan {
        scan: u64,
    },
    /// The scan begins anew, since the partition changed.
    Rescan {
        scan: u32,
    },
    /// A page of a scan that isn't its last, with its number of records.
    Page {
        scan: u32,
        count: u32,
    },
    /// A scan came to its end, with the number of all its records, whose lines follow.
    Scanned {
        scan: u32,
        node: NodeId,
        key: ClusterKey,
        partition: PartitionId,
        count: u64,
    },
    /// A record that a scan found.
    Record {
        scan: u32,
        digest: Digest,
        version: Boxed<Version>,
    },
    /// A node has no page for a scan.
    Unscanned {
        scan: u32,
        cause: ScanRefusal,
    },
}
