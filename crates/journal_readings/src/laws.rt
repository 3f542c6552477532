//! Laws of the readings. A call does nothing: what it ensures is the law.
ghost use Rattle.std.specs.Prelude.{take, slice_get, if◌then◌else◌, ◌≡◌, ◌↔◌, ◌∷◌, ◌++◌, ◌||◌, [], ℕ, List, true, false, Some, None};
ghost use Rattle.conflict_order.specs.declared.policy.Policy.{Policy};
ghost use Rattle.conflict_order.specs.declared.policy.Policy.TheVariants.{Time};
ghost use Rattle.cluster_types.specs.declared.cluster_key.ClusterKey.{ClusterKey};
ghost use Rattle.cluster_types.specs.declared.copy_state.CopyState.TheVariants.{Empty, Whole};
ghost use Rattle.cluster_types.specs.Members.{plain_member};
ghost use Rattle.cluster_types.specs.Partitions.{partition_of};
ghost use Rattle.journal_lines.specs.declared.line.Line.{Line};
ghost use Rattle.std.specs.List.{list_any};
ghost use Rattle.wire_messages.specs.declared.message.Message.TheVariants as message;
ghost use Rattle.journal_lines.specs.declared.line.Line.TheVariants as line;
ghost use Rattle.partition_lists.specs.Classes.{no_class};
ghost use Rattle.journal_readings.specs.Lines.{is_enter};
ghost use Rattle.journal_readings.specs.Messages.{arrival, arrival_between};
ghost use Rattle.journal_readings.specs.Settings.{is_node_up, up_step, clock_of, clock_step, present_role, role_step, present_members, up_members};
ghost use Rattle.journal_readings.specs.Contents.{content, content_step, holds_any, copy_step, applied, applied_step};
ghost use Rattle.journal_readings.specs.Views.{view, view_step, last_key, last_step, promised_key, promise_step, master, is_replica};
ghost use Rattle.journal_readings.specs.Entries.{entry, applied_in, applied_in_step, fold_of};
ghost use Rattle.journal_readings.specs.Stamps.{stamp, stamp_step, is_empty_at_entry, is_empty_everywhere};
ghost use Rattle.journal_readings.specs.Counts.{count, heard_numbers, heard_step};
ghost use Rattle.journal_readings.specs.Rows.{row, copy_state, is_empty_row};
ghost use Rattle.journal_readings.specs.Classes.{class_of, first_of_class, hands_on};
ghost use Rattle.journal_readings.specs.Maps.{acting, listed_members};
ghost use Rattle.journal_readings.specs.Pending.{is_acked, acks, is_handed_on, acks_record, is_record_pending, out};
ghost use Rattle.journal_readings.specs.Settled.{is_settled, has_open_write};
ghost use Rattle.journal_readings.specs.Claims.{OneMap, NoLoss, newest, SettledJoin, ReadJoin, EqualClasses, KeysRise};
ghost use Rattle.journal_readings.specs.CalmEnd.{CalmEnd};
ghost use Rattle.journal_readings.specs.Shape.{Shape};
ghost use Rattle.journal_readings.specs.ProxyClaims.{ProxiesAnswer};
ghost use Rattle.journal_readings.specs.CallClaims.{CallsAnswer};
ghost use Rattle.journal_readings.specs.ScanClaims.{ScansAreWhole};
ghost use Rattle.journal_readings.specs.Examples.{marked, agreed, calmed, misread, unmerged, lost, uneasy, misled, shown, second, first_lost, garbled, reused, unpromised, two_lists, outdated, unsettled, digest, key, version, both, written_and_read, sides, batch, batch_out, batch_merged, batch_acked, settled, applied_once, replicated, met_again, met_unequal};
ghost use Rattle.journal_readings.specs.ProxyExamples.{passed_again, refused_on, mistaken, renumbered, opened_again, misquoted, misrefused, unasked, taken_twice};
ghost use Rattle.journal_readings.specs.CallExamples.{called_again, called_early, called_twice, written_twice, uncalled, answered_early, misheard, misexplained, heard_twice};
ghost use Rattle.journal_readings.specs.ScanExamples.{scanned_anew, mixed, lacking, miscounted, disordered, foreign, unsought, unfinished};

/// What one line more makes of a reading is fixed by the reading before it, the lines before it and
/// the line.
pub fn readings_go_line_by_line()
    ensures content { (by : Policy) → (n : ℕ) → (d : List ℕ) → (lines : List Line) → (l : Line)
        → content by n d (lines ++ l ∷ []) ≡ content_step by n d (content by n d lines) l }
    ensures applied { (by : Policy) → (d : List ℕ) → (lines : List Line) → (l : Line)
        → applied by d (lines ++ l ∷ []) ≡ applied_step by d (applied by d lines) l }
    ensures applied_in { (by : Policy) → (k : ClusterKey) → (d : List ℕ) → (lines : List Line)
        → (l : Line)
        → applied_in by k d (lines ++ l ∷ []) ≡ applied_in_step by k d (applied_in by k d lines) l }
    ensures entry { (by : Policy) → (k : ClusterKey) → (n : ℕ) → (d : List ℕ) → (lines : List Line)
        → (l : Line)
        → entry by k n d (lines ++ l ∷ [])
        ≡ (if list_any (is_enter k n) lines then entry by k n d lines
        else (if is_enter k n l then content by n d lines else None)) }
    ensures row { (factor : ℕ) → (k : ClusterKey) → (n : ℕ) → (p : ℕ) → (lines : List Line)
        → (l : Line)
        → row factor k n p (lines ++ l ∷ [])
        ≡ (if list_any (is_enter k n) lines then row factor k n p lines
        else (if is_enter k n l then Some (copy_state factor n p lines) else None)) }
    ensures copies { (n : ℕ) → (p : ℕ) → (lines : List Line) → (l : Line)
        → holds_any n p (lines ++ l ∷ []) ≡ copy_step n p (holds_any n p lines) l }
    ensures view { (n : ℕ) → (lines : List Line) → (l : Line)
        → view n (lines ++ l ∷ []) ≡ view_step n (view n lines) l }
    ensures last { (n : ℕ) → (lines : List Line) → (l : Line)
        → last_key n (lines ++ l ∷ []) ≡ last_step n (last_key n lines) l }
    ensures promised { (n : ℕ) → (lines : List Line) → (l : Line)
        → promised_key n (lines ++ l ∷ []) ≡ promise_step n (promised_key n lines) l }
    ensures up { (n : ℕ) → (lines : List Line) → (l : Line)
        → is_node_up n (lines ++ l ∷ []) ≡ up_step n (is_node_up n lines) l }
    ensures clock { (n : ℕ) → (lines : List Line) → (l : Line)
        → clock_of n (lines ++ l ∷ []) ≡ clock_step n (clock_of n lines) l }
    ensures role { (n : ℕ) → (lines : List Line) → (l : Line)
        → present_role n (lines ++ l ∷ []) ≡ role_step n (present_role n lines) l }
    ensures stamp { (factor : ℕ) → (n : ℕ) → (p : ℕ) → (lines : List Line) → (l : Line)
        → stamp factor n p (lines ++ l ∷ [])
        ≡ stamp_step factor n p lines (stamp factor n p lines) l }
    ensures heard { (k : ClusterKey) → (n : ℕ) → (p : ℕ) → (master : ℕ) → (lines : List Line)
        → (l : Line)
        → heard_numbers k n p master (lines ++ l ∷ [])
        ≡ heard_step k n p master lines (heard_numbers k n p master lines) l }
    ensures acked { (k : ClusterKey) → (n : ℕ) → (r : ℕ) → (number : ℕ) → (lines : List Line)
        → (l : Line)
        → is_acked k n r number (lines ++ l ∷ [])
        ≡ (is_acked k n r number lines || acks k n r number lines l) }
    ensures handed_on { (k : ClusterKey) → (n : ℕ) → (r : ℕ) → (d : List ℕ) → (lines : List Line)
        → (l : Line)
        → is_handed_on k n r d (lines ++ l ∷ [])
        ≡ (is_handed_on k n r d lines || acks_record k n r d lines l) }
{}

/// A node has a record of a partition exactly where it holds something of one, and the state in which
/// its copy was on entry is empty exactly where it had none.
pub fn copies_are_empty_where_nothing_is_held()
    ensures copies { (by : Policy) → (n : ℕ) → (p : ℕ) → (lines : List Line)
        → (holds_any n p lines ≡ false)
        ↔ ((d : List ℕ) → partition_of d ≡ p → content by n d lines ≡ None) }
    ensures rows { (factor : ℕ) → (k : ClusterKey) → (n : ℕ) → (p : ℕ) → (lines : List Line)
        → is_empty_row (row factor k n p lines) ≡ is_empty_at_entry k n p lines }
{}

/// A node's role is the rack of its declaration and the mark that was set last, also while it is
/// stopped.
pub fn roles_are_as_set_last()
    ensures members { present_members marked
        ≡ plain_member 1 ∷ (record { id = 3; role = record { rack = 2; quiesced = true } })
        ∷ (record { id = 2; role = record { rack = 2; quiesced = false } }) ∷ [] }
    ensures up { up_members (1 ∷ 2 ∷ 3 ∷ []) marked
        ≡ (record { id = 3; role = record { rack = 2; quiesced = true } })
        ∷ (record { id = 2; role = record { rack = 2; quiesced = false } }) ∷ [] }
{}

/// A node that is alone writes a record and reads it again.
pub fn one_node_holds_what_it_wrote()
    ensures content { content Time 1 digest written_and_read ≡ Some (version 0 1 97) }
    ensures applied { applied Time digest written_and_read ≡ Some (version 0 1 97) }
    ensures entry { entry Time (key 1 1) 1 digest written_and_read ≡ None }
    ensures folded { fold_of Time (key 1 1) digest written_and_read ≡ Some (version 0 1 97) }
    ensures view { view 1 written_and_read ≡ Some (key 1 1) }
    ensures keys { (last_key 1 written_and_read ≡ key 1 1)
        × (promised_key 1 written_and_read ≡ key 1 1) }
    ensures settled { is_settled (key 1 1) 4095 written_and_read ≡ true }
    ensures stamp { stamp 1 1 4095 written_and_read ≡ Some (key 1 1) }
{}

/// Two sides wrote one record. As they meet, the member whose copy is newest acts, and hands its
/// record on to the only replica.
pub fn sides_hand_on()
    ensures list { listed_members (key 4 2) 4095 sides ≡ both }
    ensures acting { (acting 1 (key 4 2) 4095 sides ≡ 1) × (master (key 4 2) 4095 sides ≡ 2) }
    ensures entries { (entry Time (key 4 2) 1 digest sides ≡ Some (version 9 1 97))
        × (entry Time (key 4 2) 2 digest sides ≡ Some (version 0 1 98)) }
    ensures folded { fold_of Time (key 4 2) digest sides ≡ Some (version 9 1 97) }
    ensures unsettled { is_settled (key 4 2) 4095 sides ≡ false }
    ensures pending { (is_record_pending Time 1 (key 4 2) 1 2 digest sides ≡ true)
        × (is_record_pending Time 1 (key 4 2) 2 1 digest sides ≡ false) }
    ensures none_out { out (key 4 2) 1 2 sides ≡ None }
    ensures out { out (key 4 2) 1 2 batch_out ≡ Some batch }
    ensures still_pending { is_record_pending Time 1 (key 4 2) 1 2 digest batch_merged ≡ true }
    ensures merged { (content Time 1 digest batch_merged ≡ Some (version 9 1 97))
        × (content Time 2 digest batch_merged ≡ Some (version 9 1 97)) }
    ensures acked { (is_record_pending Time 1 (key 4 2) 1 2 digest batch_acked ≡ false)
        × (out (key 4 2) 1 2 batch_acked ≡ None) }
{}

/// Where the partition is settled the replica's copy is whole by the view, and the other member has
/// dropped its own.
pub fn settling_drops_copies()
    ensures settled { is_settled (key 4 2) 4095 settled ≡ true }
    ensures content { (content Time 1 digest settled ≡ None)
        × (content Time 2 digest settled ≡ Some (version 9 1 97)) }
    ensures copies { (holds_any 1 4095 settled ≡ false) × (holds_any 2 4095 settled ≡ true) }
    ensures stamps { (stamp 1 1 4095 settled ≡ None) × (stamp 1 2 4095 settled ≡ Some (key 4 2)) }
    ensures before { (stamp 1 1 4095 sides ≡ Some (key 3 1))
        × (stamp 1 2 4095 sides ≡ Some (key 1 2)) }
{}

/// A write that the other replica has left two equal copies, of which only the first is handed on.
pub fn equal_copies_are_one_class()
    ensures empty { is_empty_everywhere (key 1 2) 4095 applied_once ≡ true }
    ensures open { has_open_write (key 1 2) 4095 applied_once ≡ true }
    ensures done { has_open_write (key 1 2) 4095 replicated ≡ false }
    ensures rows { (row 2 (key 2 2) 1 4095 met_again ≡ Some (Whole (key 1 2) 1))
        × (row 2 (key 2 2) 2 4095 met_again ≡ Some (Whole (key 1 2) 1)) }
    ensures classes { (class_of 2 (key 2 2) 4095 1 met_again ≡ 2 ∷ 1 ∷ [])
        × (class_of 2 (key 2 2) 4095 2 met_again ≡ 2 ∷ 1 ∷ []) }
    ensures first { first_of_class 2 (key 2 2) 4095 1 met_again ≡ Some 2 }
    ensures sends { (hands_on 2 (key 2 2) 2 1 4095 met_again ≡ false)
        × (hands_on 2 (key 2 2) 1 2 4095 met_again ≡ false) }
{}

/// A write that was lost on its way leaves copies that aren't equal, and both are handed on.
pub fn unequal_copies_are_two_classes()
    ensures open { has_open_write (key 1 2) 4095 met_unequal ≡ true }
    ensures counts { (count (key 1 2) 2 4095 met_unequal ≡ 1)
        × (count (key 1 2) 1 4095 met_unequal ≡ 0) }
    ensures rows { (row 2 (key 2 2) 2 4095 met_unequal ≡ Some (Whole (key 1 2) 1))
        × (row 2 (key 2 2) 1 4095 met_unequal ≡ Some Empty) }
    ensures class { class_of 2 (key 2 2) 4095 2 met_unequal ≡ 2 ∷ [] }
    ensures sends { (hands_on 2 (key 2 2) 2 1 4095 met_unequal ≡ true)
        × (hands_on 2 (key 2 2) 1 2 4095 met_unequal ≡ false) }
{}

/// A copy that lacks a write before one that it has is in no class with another, and both are handed
/// on.
pub fn a_gap_leaves_a_copy_alone()
    ensures rows { (row 2 (key 2 2) 2 4095 first_lost ≡ Some (Whole (key 1 2) 2))
        × (row 2 (key 2 2) 1 4095 first_lost ≡ Some (Whole (key 1 2) no_class)) }
    ensures classes { (class_of 2 (key 2 2) 4095 2 first_lost ≡ 2 ∷ [])
        × (class_of 2 (key 2 2) 4095 1 first_lost ≡ 1 ∷ []) }
    ensures sends { (hands_on 2 (key 2 2) 2 1 4095 first_lost ≡ true)
        × (hands_on 2 (key 2 2) 1 2 4095 first_lost ≡ true) }
    ensures pending { (is_record_pending Time 2 (key 2 2) 2 1 digest first_lost ≡ true)
        × (is_record_pending Time 2 (key 2 2) 1 2 second first_lost ≡ true)
        × (is_record_pending Time 2 (key 2 2) 1 2 digest first_lost ≡ false) }
    ensures open { has_open_write (key 1 2) 4095 first_lost ≡ true }
{}

/// A message arrives where it is delivered, repeated, or cut at no less than its length of 49 bytes:
/// at the endpoint that this line names, from the sender that its own line names.
pub fn a_message_arrives_whole()
    ensures delivered { arrival_between 1 2 batch_out (line.Deliver 1 1 2)
        ≡ Some (message.Batch batch) }
    ensures repeated { arrival_between 1 2 batch_out (line.Repeat 1 1 2)
        ≡ Some (message.Batch batch) }
    ensures cut { (arrival_between 1 2 batch_out (line.Cut 1 1 2 49) ≡ Some (message.Batch batch))
        × (arrival_between 1 2 batch_out (line.Cut 1 1 2 48) ≡ None) }
    ensures others { (arrival_between 1 2 batch_out (line.Deliver 2 1 2) ≡ None)
        × (arrival_between 2 1 batch_out (line.Deliver 1 1 2) ≡ None)
        × (arrival_between 1 2 batch_out (line.Blocked 1) ≡ None) }
    ensures other_ends { arrival batch_out (line.Deliver 1 5 7)
        ≡ Some (record { from = 1; to = 7; message = message.Batch batch }) }
{}

/// As the sides have met and the partition is settled, nothing is lost and the replica holds the fold.
pub fn the_settled_replica_holds_the_fold()
    ensures lossless { newest settled digest 100 ≡ applied Time digest settled }
    ensures unlost { newest batch_out digest 100 ≡ applied Time digest batch_out }
    ensures views { (view 2 settled ≡ Some (key 4 2)) × (master (key 4 2) 4095 settled ≡ 2) }
    ensures closed { has_open_write (key 4 2) 4095 settled ≡ false }
    ensures replica { (is_replica 1 (key 4 2) 4095 2 settled ≡ true)
        × (is_replica 1 (key 4 2) 4095 1 settled ≡ false) }
    ensures joined { content Time 2 digest settled ≡ fold_of Time (key 4 2) digest settled }
{}

/// Every claim holds of a journal in which all went well, at each place and for each record.
pub fn claims_hold_of_what_went_well()
    ensures map { OneMap shown }
    ensures lossless { NoLoss settled }
    ensures joined { SettledJoin replicated }
    ensures read { ReadJoin written_and_read }
    ensures equal { EqualClasses met_again }
    ensures rises { KeysRise agreed }
    ensures calm { CalmEnd calmed }
    ensures shape { Shape shown }
{}

/// No claim holds of every journal: each is refused by one in which that very thing went wrong.
pub fn claims_refuse_what_went_wrong()
    ensures misread { ¬ (ReadJoin misread) }
    ensures unmerged { ¬ (SettledJoin unmerged) }
    ensures lost { ¬ (NoLoss lost) }
    ensures uneasy { ¬ (CalmEnd uneasy) }
    ensures misled { ¬ (OneMap misled) }
    ensures garbled { ¬ (EqualClasses garbled) }
    ensures reused { ¬ (KeysRise reused) }
    ensures unpromised { ¬ (KeysRise unpromised) }
    ensures two_lists { ¬ (KeysRise two_lists) }
    ensures outdated { ¬ (CalmEnd outdated) }
    ensures unsettled { ¬ (CalmEnd unsettled) }
{}

/// A request that a node passed on is answered, though the first reply is lost, and one is refused. The
/// claim is refused by a journal in which the request that was sent is another one, two have one number,
/// one is opened twice, a reply is another than the read or the refusal that there was, nobody asked for
/// it, or it is taken twice.
pub fn passed_on_requests_are_answered()
    ensures answered { ProxiesAnswer passed_again }
    ensures refused { ProxiesAnswer refused_on }
    ensures mistaken { ¬ (ProxiesAnswer mistaken) }
    ensures renumbered { ¬ (ProxiesAnswer renumbered) }
    ensures opened_again { ¬ (ProxiesAnswer opened_again) }
    ensures misquoted { ¬ (ProxiesAnswer misquoted) }
    ensures misrefused { ¬ (ProxiesAnswer misrefused) }
    ensures unasked { ¬ (ProxiesAnswer unasked) }
    ensures taken_twice { ¬ (ProxiesAnswer taken_twice) }
{}

/// A call of the client is opened once and answered, though the first reply is lost and the call comes
/// again; and one that is refused at first is answered later. The claim is refused by a journal in which
/// two calls have one number, one is opened twice in a view, the client made none, the node replies
/// before its write is done, the client takes another reply than the one that comes, a refusal has
/// another cause than there was, or a reply is taken of a call that is closed.
pub fn calls_are_answered()
    ensures answered { CallsAnswer called_again }
    ensures answered_later { CallsAnswer called_early }
    ensures called_twice { ¬ (CallsAnswer called_twice) }
    ensures written_twice { ¬ (CallsAnswer written_twice) }
    ensures uncalled { ¬ (CallsAnswer uncalled) }
    ensures answered_early { ¬ (CallsAnswer answered_early) }
    ensures misheard { ¬ (CallsAnswer misheard) }
    ensures misexplained { ¬ (CallsAnswer misexplained) }
    ensures heard_twice { ¬ (CallsAnswer heard_twice) }
{}

/// A scan that begins anew, as a record was written behind its first page, has the whole partition. The
/// claim is refused by a journal in which the page behind the write is taken, a record isn't listed, more
/// are counted, they don't rise, one is of another partition, nobody asked for a page, or the last page
/// that came isn't the last.
pub fn scans_are_whole()
    ensures anew { ScansAreWhole scanned_anew }
    ensures mixed { ¬ (ScansAreWhole mixed) }
    ensures lacking { ¬ (ScansAreWhole lacking) }
    ensures miscounted { ¬ (ScansAreWhole miscounted) }
    ensures disordered { ¬ (ScansAreWhole disordered) }
    ensures foreign { ¬ (ScansAreWhole foreign) }
    ensures unsought { ¬ (ScansAreWhole unsought) }
    ensures unfinished { ¬ (ScansAreWhole unfinished) }
{}
