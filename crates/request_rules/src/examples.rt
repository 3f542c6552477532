//! Worked examples of the rules, which the prover computes. A call does nothing: what it ensures is
//! the example.
ghost use Rattle.std.specs.Prelude.{◌≡◌, ◌++◌, ◌∷◌, [], ℕ, List, Option, Some, None, true, false, length};
ghost use Rattle.conflict_order.specs.declared.want.Want.TheVariants as want;
ghost use Rattle.conflict_order.specs.declared.want.Action.TheVariants as action;
ghost use Rattle.cluster_types.specs.ClusterKeys.{none};
ghost use Rattle.cluster_types.specs.Partitions.{partition_count};
ghost use Rattle.journal_lines.specs.declared.line.Line.TheVariants as line;
ghost use Rattle.journal_lines.specs.declared.refusal.Refusal.TheVariants as refusal;
ghost use Rattle.wire_messages.specs.declared.message.Message.TheVariants as message;
ghost use Rattle.wire_messages.specs.declared.reply.ReplyBody.TheVariants as reply;
ghost use Rattle.wire_messages.specs.declared.scan.ScanRefusal.TheVariants as unserved;
ghost use Rattle.node_rules.specs.Effects.{nothing, lines_only, sends_only, to_one};
ghost use Rattle.node_rules.specs.Examples.{key, two, lone};
ghost use Rattle.node_rules.specs.Messages.{client};
ghost use Rattle.request_rules.specs.declared.call.CallStep.TheVariants as call;
ghost use Rattle.request_rules.specs.declared.scanning.ScanStep.TheVariants as scan;
ghost use Rattle.request_rules.specs.declared.taken.Outcome.TheVariants as outcome;
ghost use Rattle.request_rules.specs.Calls.{calling_named, calling_again, called_again, on_reply, note_call, call_limit};
ghost use Rattle.request_rules.specs.Dressing.{with_requests};
ghost use Rattle.request_rules.specs.Examples.{last_digest, last_partition, version_of, joined_one, joined_two, proxy_of_read, having_passed, having_reply, first_of_one, having_read, having_replied, reading_two, alone, first_put, calls_with_put, calls_without_put, open_calls, first_of_client, having_put, record_at, records_at, scan_begun, page_with, first_page, second_page, having_page};
ghost use Rattle.request_rules.specs.LineNotes.{noted_requests};
ghost use Rattle.request_rules.specs.NodeMessages.{due_at_node_of};
ghost use Rattle.request_rules.specs.Pages.{on_scan_ask};
ghost use Rattle.request_rules.specs.Passing.{passing, passing_again};
ghost use Rattle.request_rules.specs.Requests.{no_requests, none_passed, no_calls, no_scans};
ghost use Rattle.request_rules.specs.Scans.{scanning_named, scanning_on, scan_step, note_scan, on_page, on_no_page};
ghost use Rattle.request_rules.specs.TakenUp.{outcome_for};

/// A node that doesn't act passes a read on. The node that acts opens a transaction for it, and sends
/// what it read behind the transaction's end; the first node then writes the reply.
pub fn a_read_is_passed_on()
    ensures passed { passing none_passed joined_one 0 last_digest want.Get ≡ record {
      lines = line.Proxy 1 (key 2 2) 1 last_digest action.Get 2 ∷ [];
      sends = to_one 2 proxy_of_read;
    } }
    ensures kept { noted_requests None (Some want.Get) no_requests
        (line.Proxy 1 (key 2 2) 1 last_digest action.Get 2 ∷ [])
        ≡ having_passed }
    ensures taken { with_requests no_requests joined_two (Some first_of_one)
        (due_at_node_of partition_count no_requests joined_two 0 1 proxy_of_read)
        ≡ record {
          lines = line.Opened 2 (key 2 2) 1 last_digest action.Get ∷ [];
          sends = to_one 1 (message.Ask (key 2 2) 1 last_digest);
        } }
    ensures bound { noted_requests (Some first_of_one) (Some want.Get) no_requests
        (line.Opened 2 (key 2 2) 1 last_digest action.Get ∷ [])
        ≡ having_read }
    ensures ended { with_requests having_read reading_two None
        (due_at_node_of partition_count having_read reading_two 0 1
        (message.Answer (key 2 2) 1 (Some (version_of 1 97))))
        ≡ record {
          lines = line.Value 2 (key 2 2) 1 last_digest (Some (version_of 1 98)) ∷ [];
          sends = to_one 1
              (message.ProxyReply (key 2 2) 1 (reply.Found (version_of 1 98)));
        } }
    ensures replied { noted_requests None None having_read
        (line.Value 2 (key 2 2) 1 last_digest (Some (version_of 1 98)) ∷ [])
        ≡ having_replied }
    ensures proxied { due_at_node_of partition_count having_passed joined_one 0 2
        (message.ProxyReply (key 2 2) 1 (reply.Found (version_of 1 98)))
        ≡ lines_only (line.Proxied 1 (key 2 2) 1 (reply.Found (version_of 1 98)) ∷ []) }
    ensures closed { noted_requests None None having_passed
        (line.Proxied 1 (key 2 2) 1 (reply.Found (version_of 1 98)) ∷ [])
        ≡ having_reply }
{}

/// A request that comes twice is taken up once, and its reply counts once.
pub fn a_request_that_comes_twice_is_taken_up_once()
    ensures still_open { due_at_node_of partition_count having_read reading_two 0 1 proxy_of_read
        ≡ nothing }
    ensures kept { due_at_node_of partition_count having_replied joined_two 0 1 proxy_of_read
        ≡ sends_only (to_one 1
        (message.ProxyReply (key 2 2) 1 (reply.Found (version_of 1 98)))) }
    ensures reply_again { due_at_node_of partition_count having_reply joined_one 0 2
        (message.ProxyReply (key 2 2) 1 (reply.Found (version_of 1 98)))
        ≡ lines_only (line.Spent 1 ∷ []) }
    ensures other_node { due_at_node_of partition_count having_passed joined_one 0 3
        (message.ProxyReply (key 2 2) 1 reply.Done)
        ≡ lines_only (line.Spent 1 ∷ []) }
    ensures other_view { due_at_node_of partition_count having_passed joined_one 0 2
        (message.ProxyReply (key 1 2) 1 reply.Done)
        ≡ lines_only (line.Stale 1 ∷ []) }
    ensures request_of_other_view { due_at_node_of partition_count no_requests joined_two 0 1
        (message.Proxy (key 1 1) 1 last_digest want.Get)
        ≡ lines_only (line.Stale 2 ∷ []) }
{}

/// What waits goes again without a line. A node that leaves its view gives it up, and forgets all.
pub fn what_waits_goes_again_or_is_given_up()
    ensures again { passing_again having_passed.passed joined_one
        ≡ sends_only (to_one 2 proxy_of_read) }
    ensures down { passing_again none_passed (record joined_one { up = false })
        ≡ lines_only (line.Down 1 ∷ []) }
    ensures stopped { with_requests having_passed joined_one None (lines_only (line.Stop 1 ∷ []))
        ≡ lines_only (line.Unproxied 1 (key 2 2) 1 ∷ line.Stop 1 ∷ []) }
    ensures entered { with_requests having_passed joined_one None
        (lines_only
        (line.Promise 1 (key 3 1) ∷ line.Enter 1 (key 3 1) two ∷ line.Tick 1 ∷ []))
        ≡ lines_only
        (line.Promise 1 (key 3 1) ∷ line.Unproxied 1 (key 2 2) 1 ∷ line.Enter 1 (key 3 1) two
        ∷ line.Tick 1 ∷ []) }
    ensures forgotten { noted_requests None None having_replied (line.Stop 2 ∷ []) ≡ no_requests }
{}

/// A refusal of a node's request is sent at once and kept; one of the client's is sent and not kept.
pub fn refusals_are_sent_at_once()
    ensures node { with_requests no_requests joined_two (Some first_of_one)
        (lines_only (line.Refused 2 last_digest (refusal.Busy 7) ∷ []))
        ≡ record {
          lines = line.Refused 2 last_digest (refusal.Busy 7) ∷ [];
          sends = to_one 1 (message.ProxyReply (key 2 2) 1 (reply.Busy 7));
        } }
    ensures kept { outcome_for
        (noted_requests (Some first_of_one) None no_requests
        (line.Refused 2 last_digest (refusal.Busy 7) ∷ [])).taken
        first_of_one
        ≡ Some (outcome.Kept (reply.Busy 7)) }
    ensures client { with_requests no_requests lone (Some first_of_client)
        (due_at_node_of partition_count no_requests lone 0 client
        (message.Call 1 last_digest want.Get))
        ≡ record {
          lines = line.Refused 1 last_digest refusal.NoView ∷ [];
          sends = to_one client (message.Reply none 1 reply.NoView);
        } }
    ensures not_kept { noted_requests (Some first_of_client) None no_requests
        (line.Refused 1 last_digest refusal.NoView ∷ [])
        ≡ no_requests }
    ensures plain { with_requests no_requests joined_two None
        (lines_only (line.Refused 2 last_digest (refusal.Busy 7) ∷ []))
        ≡ lines_only (line.Refused 2 last_digest (refusal.Busy 7) ∷ []) }
{}

/// A put that the client sent twice is applied once, and replied to each time.
pub fn a_call_is_applied_once()
    ensures called { calling_named no_calls last_digest (want.Put (97 ∷ [])) (Some 1) ≡ record {
      lines = line.Call 1 1 last_digest action.Put ∷ [];
      sends = to_one 1 (message.Call 1 last_digest (want.Put (97 ∷ [])));
    } }
    ensures kept { note_call (Some (want.Put (97 ∷ []))) no_calls
        (line.Call 1 1 last_digest action.Put)
        ≡ calls_with_put }
    ensures applied { with_requests no_requests alone (Some first_of_client)
        (due_at_node_of partition_count no_requests alone 0 client
        (message.Call 1 last_digest (want.Put (97 ∷ []))))
        ≡ record {
          lines = line.Opened 1 (key 1 1) 1 last_digest action.Put
              ∷ line.Apply 1 (key 1 1) 1 last_digest (version_of 1 97)
              ∷ line.Done 1 (key 1 1) 1 ∷ [];
          sends = to_one client (message.Reply (key 1 1) 1 reply.Done);
        } }
    ensures known { noted_requests (Some first_of_client) (Some (want.Put (97 ∷ []))) no_requests
        (line.Opened 1 (key 1 1) 1 last_digest action.Put
        ∷ line.Apply 1 (key 1 1) 1 last_digest (version_of 1 97) ∷ line.Done 1 (key 1 1) 1 ∷ [])
        ≡ having_put }
    ensures again { called_again 1 first_put (Some 1) ≡ record {
      lines = line.Again 1 1 ∷ [];
      sends = to_one 1 (message.Call 1 last_digest (want.Put (97 ∷ [])));
    } }
    ensures reply_again { due_at_node_of partition_count having_put alone 0 client
        (message.Call 1 last_digest (want.Put (97 ∷ [])))
        ≡ sends_only (to_one client (message.Reply (key 1 1) 1 reply.Done)) }
    ensures replied { on_reply calls_with_put 1 1 reply.Done
        ≡ line.Reply 1 1 reply.Done ∷ [] }
    ensures closed { note_call None calls_with_put (line.Reply 1 1 reply.Done)
        ≡ calls_without_put }
    ensures spent { on_reply calls_without_put 1 1 reply.Done ≡ line.Spent 0 ∷ [] }
    ensures refused { note_call None calls_with_put (line.Reply 1 1 reply.NoView)
        ≡ calls_with_put }
{}

/// Without a table, with 1,024 requests open, or of a number that isn't open, nothing is sent.
pub fn calls_that_are_not_sent()
    ensures no_table { calling_named no_calls last_digest want.Get None
        ≡ lines_only (line.NoMap last_partition ∷ []) }
    ensures last { calling_named (open_calls 1023) last_digest want.Del (Some 1) ≡ record {
      lines = line.Call 1024 1 last_digest action.Del ∷ [];
      sends = to_one 1 (message.Call 1024 last_digest want.Del);
    } }
    ensures full { calling_named (open_calls 1024) last_digest want.Del (Some 1)
        ≡ lines_only (line.CallFull ∷ []) }
    ensures not_open { calling_again [] calls_without_put 1 ≡ lines_only (line.NoOpen 1 ∷ []) }
{}

/// A scan of 65 records has all with its second page.
pub fn a_scan_reads_page_by_page()
    ensures asked { scanning_named no_scans last_partition (Some 1) ≡ record {
      lines = line.Scan 1 1 last_partition ∷ [];
      sends = to_one 1 (message.ScanAsk 1 last_partition None);
    } }
    ensures begun { note_scan no_scans (line.Scan 1 1 last_partition) ≡ scan_begun }
    ensures page { on_page scan_begun 1 (first_page 65) ≡ line.Page 1 64 ∷ [] }
    ensures asked_on { scanning_on [] having_page 2
        ≡ lines_only (line.NoScan 2 ∷ []) }
    ensures whole { scan_step having_page 1 (second_page 65)
        ≡ scan.Whole (records_at 0 64 ++ records_at 64 1) }
    ensures later { note_scan having_page (line.Scan 1 1 last_partition) ≡ having_page }
    ensures refused { on_no_page having_page 1 unserved.NotSettled
        ≡ line.Unscanned 1 unserved.NotSettled ∷ [] }
    ensures unknown { on_no_page having_page 2 unserved.NotSettled ≡ line.Spent 0 ∷ [] }
{}

/// A page that was sent after a further write, or by another node, begins the scan again; a page
/// that doesn't begin where the scan has come to is spent.
pub fn a_scan_begins_again()
    ensures rescan { on_page having_page 1 (second_page 66) ≡ line.Rescan 1 ∷ [] }
    ensures other_node { on_page having_page 2 (second_page 65) ≡ line.Rescan 1 ∷ [] }
    ensures twice { on_page having_page 1 (first_page 65) ≡ line.Spent 0 ∷ [] }
    ensures other_scan { on_page no_scans 1 (first_page 65) ≡ line.Spent 0 ∷ [] }
{}

/// A node without a view has no page.
pub fn pages_and_refusals_go_to_the_client()
    ensures no_view { on_scan_ask lone 1 last_partition None
        ≡ sends_only (to_one client (message.ScanNo 1 unserved.NoView)) }
{}
