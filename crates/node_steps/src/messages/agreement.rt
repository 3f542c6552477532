//! What is told of a view that is proposed, agreed on or refused.
ghost use Rattle.std.specs.Prelude.{◌≡◌, map, OnOk};
ghost use Rattle.wire_messages.specs.declared.message.Message.TheVariants as message;
ghost use Rattle.wire_messages.specs.Keys.{IsKeyField};
ghost use Rattle.wire_messages.specs.Spelling.{spelling};
ghost use Rattle.node_steps.specs.Spelled.{vote_message, with_sends};

use crate::effects::Effects;
use crate::fields::members_fit;
use cluster_types::{ClusterKey, Members, NoMemory, NodeId};
use clustering::Vote;
use std::alloc::Global;
use wire_messages::Message;

/// Tells each of these nodes that the view is to be entered.
pub fn tell_commit(
    alloc: Global,
    key: ClusterKey,
    members: &Members,
    to: &[NodeId],
    out: &mut Effects,
) -> Result<(), NoMemory>
    requires { IsKeyField key }
    ensures { OnOk result
        (out.new
        ≡ with_sends out.old (map (λ n. (n, spelling (message.Commit key members.now))) to.now)) }
{
    members_fit(members);
    let commit = Message::Commit {
        key,
        members: *members,
    };
    out.send_to_each(alloc, to, commit)
}

/// The message that tells the vote.
pub fn message_of(vote: Vote) -> Message
    ensures { result ≡ vote_message vote }
{
    match vote {
        Vote::Accept(key) => Message::Accept { key },
        Vote::Refuse { key, promised } => Message::Refuse {
            refused: key,
            promised,
        },
    }
}

/// Proposes the view to each of these nodes.
pub fn tell_proposal(
    alloc: Global,
    key: ClusterKey,
    members: &Members,
    to: &[NodeId],
    out: &mut Effects,
) -> Result<(), NoMemory>
    requires { IsKeyField key }
    ensures { OnOk result
        (out.new ≡ with_sends out.old
        (map (λ n. (n, spelling (message.Propose key members.now))) to.now)) }
{
    members_fit(members);
    let propose = Message::Propose {
        key,
        members: *members,
    };
    out.send_to_each(alloc, to, propose)
}
