//! Worked examples of the rules, which the prover computes. A call does nothing: what it ensures is
//! the example.
ghost use Rattle.std.specs.Prelude.{◌≡◌, ◌↔◌, ◌<◌, ◌≤◌, ◌+◌, ◌&&◌, ◌||◌, not, length, map, flat_map, Bool, List, ◌∷◌, [], ℕ, true, false, Some, None};
ghost use Rattle.conflict_order.specs.declared.policy.Policy.TheVariants.{Time};
ghost use Rattle.conflict_order.specs.declared.want.Want.TheVariants as want;
ghost use Rattle.conflict_order.specs.declared.want.Action.TheVariants as action;
ghost use Rattle.cluster_types.specs.declared.cluster_key.ClusterKey.{ClusterKey};
ghost use Rattle.cluster_types.specs.declared.member.Member.{Member};
ghost use Rattle.cluster_types.specs.declared.member.Role.{Role};
ghost use Rattle.cluster_types.specs.declared.copy_state.CopyState.TheVariants.{Part, Whole};
ghost use Rattle.journal_lines.specs.declared.line.Line.TheVariants as line;
ghost use Rattle.journal_lines.specs.declared.refusal.Refusal.TheVariants as refusal;
ghost use Rattle.wire_messages.specs.declared.message.Message.TheVariants as message;
ghost use Rattle.cluster_types.specs.ClusterKeys.{none};
ghost use Rattle.cluster_types.specs.Members.{plain_role, plain_member};
ghost use Rattle.node_rules.specs.Agreement as agreement;
ghost use Rattle.node_rules.specs.Batches.{next_batch, acking, new_target, done_row};
ghost use Rattle.node_rules.specs.Classes.{class_first, sends, asked_by_rows};
ghost use Rattle.node_rules.specs.Copies.{Content, Store, Stamps, store_state, row_from};
ghost use Rattle.node_rules.specs.Facts.{Facts, fresh, list_at, view_key, view_members, has_exchanged_in};
ghost use Rattle.node_rules.specs.Standing.{is_done, knows_settled, knows_all_settled, is_to_learn, is_to_drop, has_nothing_to_learn_or_drop, is_at_rest_of, has_moved, is_all_empty, is_own_replica};
ghost use Rattle.cluster_types.specs.Partitions.{partition_count};
ghost use Rattle.cluster_types.specs.Rows.{bit};
ghost use Rattle.cluster_types.specs.StateRows.{IsStateRow, state_of};
ghost use Rattle.node_rules.specs.Effects.{nothing, lines_only, sends_only, to_one, to_each};
ghost use Rattle.node_rules.specs.Examples.{key, lone, itself, ticked_twice, in_its_view, zeros, hi, first_hi, having_hi, seven, writing_hi, hi_written, promised_two, two, five_rows, five, hearing_one, proposing_two, row_of, migrating, whole_and_part, batch_of_hi, sent_hi, restarted, hearing_of_all, waiting_for, second_hi, lacking_two, racked};
ghost use Rattle.node_rules.specs.Here.{Here, HasRows, IsAsleep, IsOver, part_lines, lines_here, lines_from, live_from};
ghost use Rattle.node_rules.specs.Map.{acting_by_rows, all_empty};
ghost use Rattle.node_rules.specs.Merging.{Record, newer_records, joined_all, store_merged_all};
ghost use Rattle.node_rules.specs.Messages.{due_message, due_message_of, merging_all, merge_line};
ghost use Rattle.node_rules.specs.ClientMessages.{moved_from};
ghost use Rattle.node_rules.specs.Notes.{note, noted, reached, neighbours, after_ages, stopped, marked, with_role, count_in};
ghost use Rattle.node_rules.specs.ViewNotes.{stamped_from};
ghost use Rattle.node_rules.specs.Requests.{due_request, due_stop, request_refusal, request_at};
ghost use Rattle.node_rules.specs.Settling.{settling_at, settling_from};
ghost use Rattle.node_rules.specs.Stamps.{count_of, with_number, no_class, stamped_by};
ghost use Rattle.node_rules.specs.Tables.{all_from, bits_from};
ghost use Rattle.node_rules.specs.Shows.{due_map, due_show, with_roles};
ghost use Rattle.node_rules.specs.Steps.{after_tick, after_message, after_stop, after_start};
ghost use Rattle.node_rules.specs.Tick.{due_tick, progress_message, done_from, is_candidate, propose, proposal_sends};

/// A node that is alone enters a view of its own at its third tick.
pub fn lone_node_enters_at_its_third_tick()
    ensures first { due_tick lone ≡ lines_only (line.Tick 1 ∷ []) }
    ensures second { due_tick (after_tick lone) ≡ lines_only (line.Tick 1 ∷ []) }
    ensures third { due_tick ticked_twice ≡ lines_only
        (line.Tick 1 ∷ line.Promise 1 (key 1 1) ∷ line.Enter 1 (key 1 1) itself
        ∷ line.Exchanged 1 (key 1 1) ∷ []) }
{}

/// There it writes and reads at once, as no other member is to be asked or to acknowledge.
pub fn lone_node_puts_and_gets()
    ensures put { due_request in_its_view 0 zeros (want.Put hi)
        ≡ lines_only
        (line.Opened 1 (key 1 1) 1 zeros action.Put ∷ line.Apply 1 (key 1 1) 1 zeros first_hi
        ∷ line.Done 1 (key 1 1) 1 ∷ []) }
    ensures get { due_request having_hi 0 zeros want.Get ≡ lines_only
        (line.Opened 1 (key 1 1) 2 zeros action.Get ∷ line.Value 1 (key 1 1) 2 zeros (Some first_hi)
        ∷ []) }
{}

/// Heartbeats go to the other nodes in rising order, in whatever order they were declared.
pub fn heartbeats_go_in_rising_order()
    ensures { due_tick (fresh 2 plain_role (4 ∷ 1 ∷ 3 ∷ []) 2 Time)
        ≡ record {
          lines = line.Tick 2 ∷ [];
          sends = to_each (1 ∷ 3 ∷ 4 ∷ []) (message.Heartbeat none none [] plain_role);
        } }
{}

/// A node without a view refuses every request.
pub fn node_without_view_refuses()
    ensures { due_request lone 0 zeros want.Get
        ≡ lines_only (line.Refused 1 zeros refusal.NoView ∷ []) }
{}

/// A stop ends an open transaction: in doubt where it was applied, and aborted otherwise.
pub fn stop_ends_transactions()
    ensures aborted { due_stop (writing_hi None)
        ≡ lines_only (line.Aborted 1 (key 1 1) 1 ∷ line.Stop 1 ∷ []) }
    ensures doubt { due_stop (writing_hi (Some hi_written))
        ≡ lines_only (line.Doubt 1 (key 1 1) 1 ∷ line.Stop 1 ∷ []) }
{}

/// A node votes by the key that it promised, and enters a committed view once.
pub fn votes_go_by_the_promised_key()
    ensures below { due_message promised_two 0 2 (message.Propose (key 1 2) two)
        ≡ sends_only (to_one 2 (message.Refuse (key 1 2) (key 2 1))) }
    ensures same { due_message promised_two 0 2 (message.Propose (key 2 1) two)
        ≡ sends_only (to_one 2 (message.Accept (key 2 1))) }
    ensures above { due_message promised_two 0 2 (message.Propose (key 2 2) two)
        ≡ record
        { lines = line.Promise 1 (key 2 2) ∷ []; sends = to_one 2 (message.Accept (key 2 2)) } }
    ensures enters { due_message promised_two 0 2 (message.Commit (key 2 1) two)
        ≡ lines_only (line.Enter 1 (key 2 1) two ∷ []) }
    ensures entered { due_message promised_two 0 2 (message.Commit (key 1 1) two)
        ≡ lines_only (line.Stale 1 ∷ []) }
    ensures not_proposed { due_message promised_two 0 2 (message.Accept (key 2 1))
        ≡ lines_only (line.Stale 1 ∷ []) }
    ensures entered_before { due_message restarted 0 2 (message.Commit (key 2 1) two)
        ≡ lines_only (line.Stale 1 ∷ []) }
{}

/// The greater of two neighbours proposes a view of both, and enters it once the other has accepted.
pub fn two_nodes_agree()
    ensures proposes { due_tick hearing_one ≡ record {
      lines = line.Tick 2 ∷ line.Promise 2 (key 1 2) ∷ [];
      sends = (1, message.Heartbeat none none (1 ∷ []) plain_role)
          ∷ (1, message.Propose (key 1 2) two) ∷ [];
    } }
    ensures commits { due_message proposing_two 0 1 (message.Accept (key 1 2))
        ≡ record {
          lines = line.Enter 2 (key 1 2) two ∷ [];
          sends = to_one 1 (message.Commit (key 1 2) two);
        } }
    ensures stops { due_message proposing_two 0 1 (message.Refuse (key 1 2) (key 3 1)) ≡ nothing }
    ensures proposes_again { due_tick proposing_two ≡ record {
      lines = line.Tick 2 ∷ [];
      sends = (1, message.Heartbeat none (key 1 2) (1 ∷ []) plain_role)
          ∷ (1, message.Propose (key 1 2) two) ∷ [];
    } }
{}

/// A message of another view changes nothing, an answer that nothing awaits is spent, and the last
/// acknowledgement ends a write.
pub fn messages_count_in_their_view()
    ensures other_view { due_message (writing_hi (Some hi_written)) 0 2
        (message.ReplAck (key 1 2) 1)
        ≡ lines_only (line.Stale 1 ∷ []) }
    ensures not_awaited { due_message (writing_hi (Some hi_written)) 0 3
        (message.ReplAck (key 1 1) 1)
        ≡ lines_only (line.Spent 1 ∷ []) }
    ensures not_applied { due_message (writing_hi None) 0 2 (message.ReplAck (key 1 1) 1)
        ≡ lines_only (line.Spent 1 ∷ []) }
    ensures last { due_message (writing_hi (Some hi_written)) 0 2 (message.ReplAck (key 1 1) 1)
        ≡ lines_only (line.Done 1 (key 1 1) 1 ∷ []) }
{}

/// Of five members two have equal copies. The first of them in the list acts and sends for both; a
/// copy without a count, and one that is a part, send for themselves; an empty one sends nothing.
pub fn classes_of_five_members()
    ensures acting { acting_by_rows five five_rows 7 ≡ 3 }
    ensures first { class_first five five_rows 7 1 ≡ Some 3 }
    ensures alone { class_first five five_rows 7 2 ≡ Some 2 }
    ensures empty { class_first five five_rows 7 5 ≡ None }
    ensures second_is_silent { sends five five_rows 7 1 4 ≡ false }
    ensures class_is_spared { sends five five_rows 7 3 1 ≡ false }
    ensures others_are_served { sends five five_rows 7 3 2 ≡ true }
    ensures asked { asked_by_rows five five_rows 7 1 ≡ 4 ∷ 2 ∷ [] }
    ensures asked_by_empty { asked_by_rows five five_rows 7 5 ≡ 4 ∷ 3 ∷ 2 ∷ [] }
    ensures not_empty { all_empty five five_rows 7 ≡ false }
    ensures empty_elsewhere { all_empty five five_rows 6 ≡ true }
    ensures empty_among_two { all_empty (5 ∷ 6 ∷ []) five_rows 7 ≡ true }
    ensures master_of_empty { acting_by_rows five five_rows 6 ≡ 5 }
{}

/// Writes that came out of order count once they are without a gap.
pub fn counts_have_no_gap()
    ensures none { count_of [] ≡ 0 }
    ensures gap { count_of (with_number [] 2) ≡ no_class }
    ensures filled { count_of (with_number (with_number [] 2) 1) ≡ 2 }
    ensures repeated { count_of (with_number (with_number (with_number [] 2) 1) 2) ≡ 2 }
{}

/// The acting master hands a partition over once all are done, and then names the list master. The
/// list master settles it and learns it, and acts from then on.
pub fn partition_comes_to_its_list_master()
    ensures of_no_member { is_all_empty (migrating 1 2 (row_of 3 7 Part ∷ []) true false) 7 ≡ true }
    ensures waits { settling_at (2 ∷ 1 ∷ []) 7 (migrating 1 2 (whole_and_part 1 2) false false)
        ≡ [] }
    ensures hands { settling_at (2 ∷ 1 ∷ []) 7 (migrating 1 2 (whole_and_part 1 2) true false)
        ≡ line.Handed 1 (key 2 2) 7 ∷ [] }
    ensures isnt_handed { settling_at (2 ∷ 1 ∷ []) 7 (migrating 2 1 (whole_and_part 1 2) true false)
        ≡ [] }
    ensures settles { settling_at (2 ∷ 1 ∷ []) 7 (migrating 2 1 (whole_and_part 1 2) false true)
        ≡ line.Settled 2 (key 2 2) 7 ∷ line.Learn 2 (key 2 2) 7 ∷ [] }
    ensures settles_its_own { settling_at (2 ∷ 1 ∷ []) 7
        (migrating 2 1 (whole_and_part 2 1) true false)
        ≡ line.Settled 2 (key 2 2) 7 ∷ line.Learn 2 (key 2 2) 7 ∷ [] }
    ensures empty { settling_at (2 ∷ 1 ∷ []) 6 (migrating 2 1 (whole_and_part 2 1) true false)
        ≡ [] }
    ensures refers { request_refusal (migrating 2 1 (whole_and_part 1 2) true false) (2 ∷ 1 ∷ [])
        seven
        ≡ Some (refusal.NotMaster 1) }
    ensures names_itself { request_refusal (migrating 2 1 (whole_and_part 1 2) true true)
        (2 ∷ 1 ∷ []) seven
        ≡ Some (refusal.NotMaster 2) }
    ensures accepts { request_refusal (migrating 1 2 (whole_and_part 1 2) true false) (2 ∷ 1 ∷ [])
        seven
        ≡ None }
    ensures handed { request_refusal (migrating 1 2 (whole_and_part 1 2) true true) (2 ∷ 1 ∷ [])
        seven
        ≡ Some (refusal.NotMaster 2) }
{}

/// Who acts, and who hands over, goes by a node's own lines: to hear that a partition was handed over or settled
/// changes neither.
pub fn hearing_of_a_hand_over_changes_nothing()
    ensures hands { settling_at (2 ∷ 1 ∷ []) 7 (hearing_of_all true false 1 2 (whole_and_part 1 2))
        ≡ line.Handed 1 (key 2 2) 7 ∷ [] }
    ensures accepts { request_refusal (hearing_of_all true false 1 2 (whole_and_part 1 2))
        (2 ∷ 1 ∷ []) seven
        ≡ None }
    ensures list_master { request_refusal (hearing_of_all true true 2 1 (whole_and_part 1 2))
        (2 ∷ 1 ∷ []) seven
        ≡ Some (refusal.NotMaster 2) }
{}

/// A node is at rest where it has finished the exchange, knows all settled, and has nothing open. Here
/// partition 7 alone isn't empty everywhere.
pub fn node_is_at_rest_once_all_is_settled()
    ensures rests { is_at_rest_of 7 (migrating 2 1 (whole_and_part 2 1) false false) ≡ true }
    ensures unsettled { is_at_rest_of 8 (migrating 2 1 (whole_and_part 2 1) false false) ≡ false }
    ensures open { is_at_rest_of 7 (waiting_for want.Get) ≡ false }
    ensures exchanging { is_at_rest_of 7 lacking_two ≡ false }
{}

/// A Progress that is wanted is answered by a node that knows each of so many partitions settled, and by no other.
/// Here partition 7 alone isn't.
pub fn progress_is_answered_once_all_is_settled()
    ensures settled { due_message_of 7 (migrating 2 1 (whole_and_part 2 1) true false) 0 1
        (message.Progress (key 2 2) true [] [] [])
        ≡ sends_only (to_one 1 (progress_message 7 (reached
        (migrating 2 1 (whole_and_part 2 1) true false) 1
        (message.Progress (key 2 2) true [] [] [])) false)) }
    ensures unsettled { due_message_of 8 (migrating 2 1 (whole_and_part 2 1) true false) 0 1
        (message.Progress (key 2 2) true [] [] [])
        ≡ nothing }
{}

/// A batch is sent again under its number until just that number is acknowledged.
pub fn batch_is_sent_until_acknowledged()
    ensures again { (content : Content) → next_batch (key 2 2) content sent_hi ≡ Some batch_of_hi }
    ensures other_number { acking (sent_hi ∷ []) 1 2 ≡ sent_hi ∷ [] }
    ensures other_node { acking (sent_hi ∷ []) 3 3 ≡ sent_hi ∷ [] }
    ensures acknowledged { acking (sent_hi ∷ []) 1 3
        ≡ record { node = 1; pending = []; out = None; batches = 3 } ∷ [] }
    ensures nothing_left { (content : Content)
        → next_batch (key 2 2) content (new_target 1 []) ≡ None }
{}

/// The exchange ends with the last row, and a row that is wanted is answered.
pub fn exchange_ends_with_the_last_row()
    ensures last { due_message lacking_two 0 2 (message.State (key 2 2) true [])
        ≡ record {
          lines = line.Exchanged 1 (key 2 2) ∷ [];
          sends = to_one 2 (message.State (key 2 2) false ((7, Part) ∷ []));
        } }
    ensures unwanted { due_message lacking_two 0 2 (message.State (key 2 2) false [])
        ≡ lines_only (line.Exchanged 1 (key 2 2) ∷ []) }
    ensures repeated { due_message (migrating 1 2 (whole_and_part 1 2) false false) 0 2
        (message.State (key 2 2) false [])
        ≡ nothing }
    ensures other_view { due_message lacking_two 0 2 (message.State (key 1 2) true [])
        ≡ lines_only (line.Stale 1 ∷ []) }
    ensures refuses { request_refusal lacking_two (2 ∷ 1 ∷ []) seven ≡ Some (refusal.Exchanging 2) }
{}

/// Before a partition is settled a request waits for the other classes, and a write is done once the
/// other replica has it.
pub fn request_waits_for_other_classes()
    ensures asks { request_at (migrating 2 1 (whole_and_part 2 1) false false) 0 (2 ∷ 1 ∷ []) seven
        want.Get
        ≡ record {
          lines = line.Opened 2 (key 2 2) 1 seven action.Get ∷ [];
          sends = to_one 1 (message.Ask (key 2 2) 1 seven);
        } }
    ensures reads { due_message (waiting_for want.Get) 5 1
        (message.Answer (key 2 2) 1 (Some first_hi))
        ≡ lines_only (line.Value 2 (key 2 2) 1 seven (Some first_hi) ∷ []) }
    ensures writes { due_message (waiting_for (want.Put hi)) 5 1
        (message.Answer (key 2 2) 1 (Some first_hi))
        ≡ record {
          lines = line.Apply 2 (key 2 2) 1 seven second_hi ∷ [];
          sends = to_one 1 (message.Repl (key 2 2) 1 1 seven second_hi);
        } }
    ensures merges { due_message (migrating 1 2 (whole_and_part 2 1) false false) 0 2
        (message.Repl (key 2 2) 1 1 seven second_hi)
        ≡ record {
          lines = line.Merge 1 (key 2 2) seven second_hi ∷ [];
          sends = to_one 2 (message.ReplAck (key 2 2) 1);
        } }
{}

/// A node that has finished the exchange shows of each partition its list, each member with its role,
/// and the acting master. Any other shows why it can't.
pub fn node_shows_its_map()
    ensures shown { due_map in_its_view 6 7
        ≡ lines_only (line.Map 1 (key 1 1) 6 itself 1 ∷ line.Map 1 (key 1 1) 7 itself 1 ∷ []) }
    ensures roles { with_roles (record { id = 2; role = racked } ∷ plain_member 1 ∷ []) (1 ∷ 2 ∷ [])
        ≡ plain_member 1 ∷ record { id = 2; role = racked } ∷ [] }
    ensures down { due_map (after_stop lone) 0 4095
        ≡ lines_only (line.Mapless 1 refusal.Down ∷ []) }
    ensures no_view { due_map lone 0 4095 ≡ lines_only (line.Mapless 1 refusal.NoView ∷ []) }
    ensures exchanging { due_map lacking_two 0 4095
        ≡ lines_only (line.Mapless 1 (refusal.Exchanging 2) ∷ []) }
{}

/// A node shows what it holds, also while it is stopped.
pub fn node_shows_what_it_holds()
    ensures held { due_show having_hi zeros ≡ lines_only (line.Holds 1 zeros (Some first_hi) ∷ []) }
    ensures stopped { due_show (after_stop having_hi) zeros
        ≡ lines_only (line.Holds 1 zeros (Some first_hi) ∷ []) }
    ensures nothing { due_show lone zeros ≡ lines_only (line.Holds 1 zeros None ∷ []) }
{}

/// A node keeps its role over a stop, and takes another one also while it is stopped.
pub fn role_stays_over_a_stop()
    ensures kept { (after_stop (marked lone true)).role ≡ record { rack = 0; quiesced = true } }
    ensures taken { (after_start (marked (after_stop lone) true)).role
        ≡ record { rack = 0; quiesced = true } }
    ensures noted { (note None (stopped lone) (line.Quiesce 1)).role
        ≡ record { rack = 0; quiesced = true } }
    ensures other { (with_role (stopped lone) racked).role ≡ racked }
{}

/// Whether a node has finished the exchange of a view goes by its members with their roles.
pub fn exchange_is_finished_among_members()
    ensures view { view_members (migrating 1 2 [] false false) ≡ Some (key 2 2, two) }
    ensures finished { has_exchanged_in (key 2 2) two (migrating 1 2 [] false false) ≡ true }
    ensures other_key { has_exchanged_in (key 2 1) two (migrating 1 2 [] false false) ≡ false }
    ensures other_member { has_exchanged_in (key 2 2) itself (migrating 1 2 [] false false)
        ≡ false }
    ensures other_role { has_exchanged_in (key 2 2) (record { id = 2; role = racked } ∷ itself)
        (migrating 1 2 [] false false)
        ≡ false }
    ensures unfinished { has_exchanged_in (key 2 2) two lacking_two ≡ false }
    ensures no_view { view_members lone ≡ None }
{}

/// What a step makes of the agreement goes by the rules of agreement alone.
pub fn agreement_goes_by_its_own_rules()
    ensures tick { (f : Facts) → f.up ≡ true
        → (after_tick f).agreement ≡ agreement.ticking f.me f.agreement (neighbours (after_ages f))
        (is_candidate (after_ages f)) }
    ensures proposal { (f : Facts)
        → (propose f).sends ≡ proposal_sends
        (agreement.proposing_anew f.me f.agreement (neighbours f) (is_candidate f)).proposal }
    ensures heartbeat { (f : Facts) → (clock : ℕ) → (from : ℕ) → (view : ClusterKey)
        → (promised : ClusterKey) → (hears : List ℕ) → (role : Role)
        → (after_message f clock from (message.Heartbeat view promised hears role)).agreement
        ≡ agreement.seeing f.agreement promised }
    ensures propose { (f : Facts) → (clock : ℕ) → (from : ℕ) → (k : ClusterKey) → (ms : List Member)
        → (after_message f clock from (message.Propose k ms)).agreement
        ≡ agreement.voting f.agreement k }
    ensures accept { (f : Facts) → (clock : ℕ) → (from : ℕ) → (k : ClusterKey)
        → (after_message f clock from (message.Accept k)).agreement
        ≡ agreement.counting f.agreement from k }
    ensures refuse { (f : Facts) → (clock : ℕ) → (from : ℕ) → (k : ClusterKey)
        → (promised : ClusterKey)
        → (after_message f clock from (message.Refuse k promised)).agreement
        ≡ agreement.refusing f.agreement k promised }
    ensures commit { (f : Facts) → (clock : ℕ) → (from : ℕ) → (k : ClusterKey) → (ms : List Member)
        → (after_message f clock from (message.Commit k ms)).agreement
        ≡ agreement.committing f.me f.agreement k ms }
    ensures stop { (f : Facts) → f.up ≡ true
        → (after_stop f).agreement ≡ agreement.stopping f.agreement }
{}

/// A batch merges those of its records that are newer than what is held as they are come to.
pub fn batch_merges_what_is_newer()
    ensures lines { (f : Facts) → (rs : List Record)
        → merging_all f rs
        ≡ map (merge_line f.me (view_key f)) (newer_records f.store.by f.store.content rs) }
    ensures content { (f : Facts) → (rs : List Record)
        → (noted None f (merging_all f rs)).store.content
        ≡ joined_all f.store.by f.store.content (newer_records f.store.by f.store.content rs) }
    ensures facts { (f : Facts) → (rs : List Record)
        → noted None f (merging_all f rs) ≡ record f {
          store = store_merged_all f.store (view_key f)
              (newer_records f.store.by f.store.content rs);
        } }
{}

/// What is told of many partitions at once says of each what holds of it, and nothing of others.
pub fn rows_tell_of_each_partition()
    ensures row { (s : Store) → (n : ℕ) → (p : ℕ) → p < n
        → state_of (row_from s n 0) p ≡ store_state s p }
    ensures is_row { (s : Store) → (n : ℕ) → n ≤ partition_count → IsStateRow (row_from s n 0) }
    ensures done { (f : Facts) → (n : ℕ) → (p : ℕ) → p < n → bit (done_from f n 0) p ≡ is_done f p }
    ensures size { (f : Facts) → (n : ℕ) → length (done_from f n 0) ≡ n }
    ensures settled { (f : Facts) → (n : ℕ)
        → (knows_all_settled f n 0 ≡ true) ↔ ((p : ℕ) → p < n → knows_settled f p ≡ true) }
    ensures rest { (f : Facts) → (n : ℕ)
        → (has_nothing_to_learn_or_drop f n 0 ≡ true)
        ↔ ((p : ℕ) → p < n
        → (is_to_learn f (list_at f p) p ≡ false) × (is_to_drop f (list_at f p) p ≡ false)) }
{}

/// What is told of many partitions at once is a test of each.
pub fn many_partitions_are_tested_one_by_one()
    ensures settled { (f : Facts) → (n : ℕ) → (p : ℕ)
        → knows_all_settled f n p ≡ all_from (knows_settled f) n p }
    ensures rest { (f : Facts) → (n : ℕ) → (p : ℕ)
        → has_nothing_to_learn_or_drop f n p ≡ all_from
        (λ q. not (is_to_learn f (list_at f q) q || is_to_drop f (list_at f q) q)) n p }
    ensures done { (f : Facts) → (n : ℕ) → (p : ℕ)
        → done_from f n p ≡ done_row f.exchange.exchanged f.batches n p }
    ensures moved { (f : Facts) → (n : ℕ) → (p : ℕ)
        → moved_from f n p ≡ bits_from (has_moved f) n p }
    ensures stamps { (f : Facts) → (k : ClusterKey) → (stamps : Stamps) → (n : ℕ) → (p : ℕ)
        → stamped_from f k stamps n p ≡ stamped_by
        (λ q. is_all_empty f q && is_own_replica f (list_at f q))
        (λ q. count_in f (list_at f q) q) k stamps n p }
{}

/// What is due of settling at a partition goes by the facts before any of them is settled.
pub fn partitions_settle_apart()
    ensures { (f : Facts) → (n : ℕ) → (p : ℕ) → HasRows f → p + n ≤ partition_count
        → settling_from n p f ≡ lines_from n p f }
{}

/// No line of settling is due at a partition that sleeps or is over.
pub fn quiet_partitions_have_no_lines()
    ensures asleep { (me : ℕ) → (k : ClusterKey) → (p : ℕ) → (h : Here) → IsAsleep h
        → lines_here me k p h ≡ [] }
    ensures over { (me : ℕ) → (k : ClusterKey) → (p : ℕ) → (h : Here) → IsOver h
        → lines_here me k p h ≡ [] }
{}

/// Where all others have no lines of settling, those of the live partitions are all.
pub fn live_partitions_are_enough()
    ensures { (f : Facts) → (live : ℕ → Bool) → (n : ℕ) → (p : ℕ)
        → ((q : ℕ) → live q ≡ false → part_lines f q ≡ [])
        → lines_from n p f ≡ flat_map (part_lines f) (live_from live n p) }
{}
