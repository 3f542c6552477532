//! Laws of worlds in which requests come and go as messages. A call does nothing: what it ensures is the law.
ghost use Rattle.std.specs.Prelude.{◌≡◌, ◌∷◌, [], Some};
ghost use Rattle.conflict_order.specs.declared.want.Want.TheVariants as want;
ghost use Rattle.conflict_order.specs.declared.want.Action.TheVariants as action;
ghost use Rattle.cluster_types.specs.Partitions.{partition_count};
ghost use Rattle.wire_messages.specs.declared.reply.ReplyBody.TheVariants as reply;
ghost use Rattle.journal_lines.specs.declared.line.Line.TheVariants as line;
ghost use Rattle.node_rules.specs.Examples.{key};
ghost use Rattle.request_rules.specs.Examples.{last_digest, proxy_of_read, version_of};
ghost use Rattle.cluster_rules.specs.declared.event.Event.TheVariants as event;
ghost use Rattle.cluster_rules.specs.RequestEvents.{due_with_requests};
ghost use Rattle.cluster_rules.specs.RequestExamples.{asking_one, before_ending, before_reading, before_reply, before_taking_up, reply_to_one, sent_line};

/// A read that node 1 passes on opens a transaction at node 2, whose value goes back behind its end.
pub fn a_read_goes_between_two_nodes()
    ensures passed { due_with_requests partition_count before_reading (event.ProxyGet 1 last_digest)
        ≡ line.Proxy 1 (key 2 2) 1 last_digest action.Get 2 ∷ sent_line 26 1 2 proxy_of_read ∷ [] }
    ensures taken_up { due_with_requests partition_count before_taking_up (event.Deliver 26)
        ≡ line.Deliver 26 1 2 ∷ line.Opened 2 (key 2 2) 1 last_digest action.Get
        ∷ sent_line 27 2 1 asking_one ∷ [] }
    ensures ended { due_with_requests partition_count before_ending (event.Deliver 28)
        ≡ line.Deliver 28 1 2 ∷ line.Value 2 (key 2 2) 1 last_digest (Some (version_of 1 98))
        ∷ sent_line 29 2 1 reply_to_one ∷ [] }
    ensures proxied { due_with_requests partition_count before_reply (event.Deliver 29)
        ≡ line.Deliver 29 2 1 ∷ line.Proxied 1 (key 2 2) 1 (reply.Found (version_of 1 98)) ∷ [] }
{}
