//! What is told and planned of the writes of other nodes.
ghost use Rattle.std.specs.Prelude.{◌≡◌, ◌<◌, IfOk, OnOk};
ghost use Rattle.std.specs.FinMap as finite;
ghost use Rattle.std.specs.Option.{ForSome};
ghost use Rattle.conflict_order.specs.Order.{is_newer};
ghost use Rattle.cluster_types.specs.Partitions.{partition_of};
ghost use Rattle.journal_lines.specs.declared.line.Line.TheVariants as line;
ghost use Rattle.wire_messages.specs.declared.message.Message.TheVariants as message;
ghost use Rattle.wire_messages.specs.Proper.{IsProper};
ghost use Rattle.record_store.specs.Store.{HoldsTheSame, room_at};
ghost use Rattle.node_rules.specs.Effects.{lines_only, sends_only, to_one};
ghost use Rattle.node_rules.specs.Tables.{only_if};
ghost use Rattle.node_view.specs.Plans.{some_if};
ghost use Rattle.node_steps.specs.Spelled.{then_effects, spelled};

use crate::effects::Effects;
use cluster_types::{Boxed, ClusterKey, Digest, NoMemory, NodeId};
use conflict_order::Version;
use journal_lines::Line;
use record_store::{Joined, RecordStore};
use std::alloc::Global;
use wire_messages::Message;

/// The line of a version from another node, where it is newer than what the node holds.
pub fn merge_effects(
    alloc: Global,
    node: NodeId,
    key: ClusterKey,
    digest: &Digest,
    version: &Version,
    is_newer: bool,
) -> Result<Effects, NoMemory>
    ensures { IfOk result (λ e.
        e ≡ spelled (lines_only (only_if (line.Merge node key digest.now version.now) is_newer))) }
{
    if !is_newer {
        return Ok(Effects::new(alloc));
    }
    let merge = Line::Merge {
        node,
        key,
        digest: *digest,
        version: Boxed::new(alloc, version.copy(alloc)?)?,
    };
    Effects::of_line(alloc, merge)
}

/// Tells besides that the write came.
pub fn acknowledge(
    alloc: Global,
    to: NodeId,
    key: ClusterKey,
    transaction: u32,
    out: &mut Effects,
) -> Result<(), NoMemory>
    requires { IsProper (message.ReplAck key transaction) }
    ensures { OnOk result
        (out.new
        ≡ then_effects out.old (sends_only (to_one to (message.ReplAck key transaction)))) }
{
    let ack = Message::ReplAck { key, transaction };
    out.send(alloc, to.number(), ack)
}

/// The version, where it is newer than what the store holds. There is room for it then.
pub fn plan_merge(
    alloc: Global,
    store: &mut RecordStore,
    digest: &Digest,
    version: &Version,
) -> Result<Option<Version>, NoMemory>
    ensures newer { IfOk result (λ v. v ≡ some_if
        (is_newer store.old.by version.now (finite.get store.old.versions digest.now))
        version.now) }
    ensures room { IfOk result
        (λ v. ForSome v (λ _. 0 < room_at store.new.spare (partition_of digest.now))) }
    ensures kept { HoldsTheSame store.old store.new }
{
    match store.would_join(digest, version) {
        Joined::Kept => Ok(None),
        Joined::Newer => {
            store.reserve_one(digest)?;
            Ok(Some(version.copy(alloc)?))
        }
    }
}
