//! Laws of worlds and runs. A call does nothing: what it ensures is the law.
ghost use Rattle.std.specs.Prelude.{take, map, ◌≡◌, ◌∷◌, ◌++◌, [], ℕ, List, Option, Some, None, true, false};
ghost use Rattle.conflict_order.specs.declared.policy.Policy.{Policy};
ghost use Rattle.conflict_order.specs.declared.policy.Policy.TheVariants.{Generation};
ghost use Rattle.conflict_order.specs.declared.version.Version.{Version};
ghost use Rattle.conflict_order.specs.declared.want.Want.TheVariants as want;
ghost use Rattle.cluster_types.specs.declared.cluster_key.ClusterKey.{ClusterKey};
ghost use Rattle.cluster_types.specs.declared.member.Member.{Member};
ghost use Rattle.cluster_types.specs.Members.{plain_role, plain_member};
ghost use Rattle.wire_messages.specs.declared.message.MapTable.{MapTable};
ghost use Rattle.wire_messages.specs.declared.message.Message.{Message};
ghost use Rattle.wire_messages.specs.declared.message.Message.TheVariants as message;
ghost use Rattle.wire_messages.specs.Decoding.{message_of};
ghost use Rattle.journal_lines.specs.declared.line.Line.{Line};
ghost use Rattle.journal_lines.specs.declared.line.Line.TheVariants as line;
ghost use Rattle.journal_lines.specs.declared.refusal.Refusal.{Refusal};
ghost use Rattle.journal_lines.specs.declared.refusal.Refusal.TheVariants as refusal;
ghost use Rattle.script_lang.specs.declared.script.Command.{Command};
ghost use Rattle.script_lang.specs.declared.script.Command.TheVariants as command;
ghost use Rattle.script_lang.specs.declared.script.Script.{Script};
ghost use Rattle.cluster_rules.specs.Marks.{Mark, Begins, Writes, adds, after, after_all, came_to_client, lines_among};
ghost use Rattle.cluster_rules.specs.Opening.{Header, header_lines};
ghost use Rattle.node_rules.specs.Batches.{out_to};
ghost use Rattle.node_rules.specs.Effects.{nothing, lines_only};
ghost use Rattle.node_rules.specs.Examples.{key, zeros, seven, hi};
ghost use Rattle.node_rules.specs.Hearing.{heard_ids};
ghost use Rattle.node_rules.specs.Messages.{due_message};
ghost use Rattle.node_rules.specs.Standing.{is_done, is_at_rest_of};
ghost use Rattle.node_rules.specs.Steps.{after_start, after_stop};
ghost use Rattle.node_rules.specs.Tick.{tick_of};
ghost use Rattle.cluster_rules.specs.declared.event.Event.TheVariants as event;
ghost use Rattle.cluster_rules.specs.Calm.{is_calm_of};
ghost use Rattle.cluster_types.specs.Partitions.{partition_count};
ghost use Rattle.cluster_rules.specs.CalmBound.{calm_limit, is_full_round, IsWithinCalm, CalmIsReached, ComesInTime};
ghost use Rattle.cluster_rules.specs.FrontRuns.{AreFrontOf, FrontRunOf};
ghost use Rattle.node_rules.specs.Client.{node_for};
ghost use Rattle.cluster_rules.specs.DueEvents.{due_of, due_at_client, sent_lines};
ghost use Rattle.std.specs.List.{list_all};
ghost use Rattle.cluster_rules.specs.Allowed.{AreAllowed, may_come, is_playable};
ghost use Rattle.cluster_rules.specs.Begun.{ComesNext, AllBegun, BegunRunOf, BegunRun};
ghost use Rattle.cluster_rules.specs.Runs.{ComesToCalm, PlaysAll, RunOf, Run, run_marks};
ghost use Rattle.cluster_rules.specs.Steps.{Step, Played, AreDue, all_marks, all_lines, play, play_all, round, rounds};
ghost use Rattle.journal_readings.specs.Messages.{Posting};
ghost use Rattle.request_rules.specs.LineNotes.{requests_noted};
ghost use Rattle.request_rules.specs.Replies.{asker_of, want_in_message};
ghost use Rattle.cluster_rules.specs.Network.{posting_at};
ghost use Rattle.cluster_rules.specs.declared.event.Event.{Event};
ghost use Rattle.cluster_rules.specs.World.{World, opened, is_up, up_nodes};
ghost use Rattle.cluster_rules.specs.WalkExamples.{older, newer, side, batch_of, ack, handing_on, being_done, resting, acking, one_sent, two_sent, merge, one_has, two_has, one_done, two_done, two_knows, settle, two_rests, one_knows, learn, one_rests, one_again, one_third, one_acked};
ghost use Rattle.cluster_rules.specs.WorldExamples.{one_node, one_node_journal, entering_lines, put_lines, two_nodes, beat, beats, agreeing, beaten, split, halved, calm_twice, calm_twice_journal, table, told, racked, leaving, parted, hearing, proposing, proposed, committing, committed, parted_and_quiet, unticked, alone, next, accepting, wants};

/// A line adds nothing unless its word is one of those that count: it only tells, as one of the header or one that
/// shows something. A refusal counts only where somebody asks by a message.
pub fn a_line_that_only_tells_adds_nothing()
    ensures nothing { (w : World) → (l : Line) → adds l ≡ false → after w (Writes l) ≡ w }
    ensures header { (w : World) → (h : Header) → after_all w (map Writes (header_lines h)) ≡ w }
    ensures maps { (n : ℕ) → (cause : Refusal) → (k : ClusterKey) → (p : ℕ) → (ms : List Member)
        → (a : ℕ)
        → (adds (line.Mapless n cause) ≡ false) × (adds (line.Map n k p ms a) ≡ false) }
    ensures unasked { (w : World) → (n : ℕ) → (d : List ℕ) → (cause : Refusal) → w.asker ≡ None
        → after w (Writes (line.Refused n d cause)) ≡ w }
    ensures messages { (i : ℕ)
        → (adds (line.Lost i) ≡ false) × (adds (line.Blocked i) ≡ false)
        × (adds (line.NoMessage i) ≡ false) }
    ensures ends { (n : ℕ)
        → (adds (line.Down n) ≡ false) × (adds (line.Up n) ≡ false) × (adds (line.Short n) ≡ false)
        × (adds (line.Stale n) ≡ false) × (adds (line.Spent n) ≡ false) }
    ensures shown { (p : ℕ) → (d : List ℕ) → (ms : List Member) → (rounds : ℕ) → (k : ClusterKey)
        → (n : ℕ) → (v : Option Version)
        → (adds (line.Place p ms) ≡ false) × (adds (line.Hash d p) ≡ false)
        × (adds (line.NoMap p) ≡ false) × (adds (line.Calm rounds) ≡ false)
        × (adds (line.Table k) ≡ false) × (adds (line.Client n d) ≡ false)
        × (adds (line.Holds n d v) ≡ false) }
{}

/// The requests of a world are what its lines make of them, with the want and the asker that are in hand. A step that
/// begins leaves them.
pub fn requests_are_what_lines_make_of_them()
    ensures lines { (w : World) → (l : Line)
        → (after w (Writes l)).requests ≡ requests_noted w.asker w.want w.requests l }
    ensures begins { (w : World) → (e : Event) → (after w (Begins e)).requests ≡ w.requests }
{}

/// The journal of a run is the lines among its marks, and each front of it is the lines among a front
/// of the marks.
pub fn the_journal_is_the_lines_among_the_marks()
    ensures whole { (n : ℕ) → (s : Script) → (j : List Line) → (r : RunOf n s j)
        → j ≡ lines_among (run_marks s.header r.played) }
    ensures fronts { (ms : List Mark) → (i : ℕ)
        → (k : ℕ) × (take i (lines_among ms) ≡ lines_among (take k ms)) }
{}

/// The steps of commands are due, one after another, and their marks lead to the world after them.
pub fn commands_take_due_steps()
    ensures due { (n : ℕ) → (w : World) → (cs : List Command) → (x : Played) → PlaysAll n w cs x
        → AreDue n w x.steps }
    ensures leads { (n : ℕ) → (w : World) → (cs : List Command) → (x : Played) → PlaysAll n w cs x
        → after_all w (all_marks x.steps) ≡ x.world }
{}

/// A script has one journal at most.
pub fn a_script_has_one_journal()
    ensures { (n : ℕ) → (s : Script) → (j : List Line) → (k : List Line) → RunOf n s j → RunOf n s k
        → j ≡ k }
{}

/// A node that is alone enters its view, puts and gets: the transcript of its whole script.
pub fn one_node_runs()
    ensures { Run one_node one_node_journal }
{}

/// Two nodes hear each other and agree on a view, by messages that are read from their bytes.
pub fn two_nodes_agree()
    ensures heard { all_lines (rounds 0 4 (opened two_nodes)).steps
        ≡ beats 1 2 [] []
        ++ (beats 3 4 (2 ∷ []) (1 ∷ [])
        ++ (beats 5 6 (2 ∷ []) (1 ∷ []) ++ beats 7 8 (2 ∷ []) (1 ∷ []))) }
    ensures agreed { all_lines (round 0 (rounds 0 4 (opened two_nodes)).world).steps ≡ agreeing }
{}

/// Two sides meet in one view. A Commit that comes again after a restart is stale, and an Accept that is
/// cut short counts for nothing.
pub fn two_sides_agree()
    ensures proposed { all_lines (play_all 0 proposing hearing).steps ≡ proposed }
    ensures committed { all_lines (play_all 0 committing (play_all 0 proposing hearing).world).steps
        ≡ committed }
    ensures cut { due_of 0 (play_all 0 proposing hearing).world (event.Cut 18 8)
        ≡ line.Cut 18 1 2 8 ∷ line.Short 2 ∷ [] }
    ensures blocked { due_of 0 parted (event.Deliver 1) ≡ line.Blocked 1 ∷ [] }
{}

/// A message in flight is delivered, repeated, cut, lost or blocked; only the one that is repeated is
/// still in flight afterwards.
pub fn a_message_leaves_the_network()
    ensures flying { beaten.network.flying ≡ 1 ∷ [] }
    ensures delivered { (due_of 0 beaten (event.Deliver 1) ≡ line.Deliver 1 1 2 ∷ [])
        × ((play 0 (event.Deliver 1) beaten).world.network.flying ≡ []) }
    ensures heard { heard_ids ((play 0 (event.Deliver 1) beaten).world.facts 2).hearing.heard
        ≡ 1 ∷ [] }
    ensures repeated { (due_of 0 beaten (event.Repeat 1) ≡ line.Repeat 1 1 2 ∷ [])
        × ((play 0 (event.Repeat 1) beaten).world.network.flying ≡ 1 ∷ []) }
    ensures cut { (due_of 0 beaten (event.Cut 1 17) ≡ line.Cut 1 1 2 17 ∷ line.Short 2 ∷ [])
        × (heard_ids ((play 0 (event.Cut 1 17) beaten).world.facts 2).hearing.heard ≡ []) }
    ensures cut_is_gone { (play 0 (event.Cut 1 17) beaten).world.network.flying ≡ [] }
    ensures cut_whole { (due_of 0 beaten (event.Cut 1 18) ≡ line.Cut 1 1 2 18 ∷ [])
        × (heard_ids ((play 0 (event.Cut 1 18) beaten).world.facts 2).hearing.heard ≡ 1 ∷ []) }
    ensures lost { (due_of 0 beaten (event.Lose 1) ≡ line.Lost 1 ∷ [])
        × (due_of 0 (play 0 (event.Lose 1) beaten).world (event.Deliver 1)
        ≡ line.NoMessage 1 ∷ []) }
    ensures absent { (due_of 0 beaten (event.Deliver 9) ≡ line.NoMessage 9 ∷ [])
        × (due_of 0 beaten (event.Cut 0 9) ≡ line.NoMessage 0 ∷ []) }
    ensures apart { (due_of 0 split (event.Deliver 1) ≡ line.Blocked 1 ∷ [])
        × ((play 0 (event.Deliver 1) split).world.network.flying ≡ []) }
    ensures stopped { (due_of 0 halved (event.Repeat 1) ≡ line.Blocked 1 ∷ [])
        × ((play 0 (event.Repeat 1) halved).world.network.flying ≡ 1 ∷ []) }
{}

/// Two sides with one record of a partition meet. Both hand it on, the older side merges the newer
/// version, and once both are done the list master settles the partition, and both learn it.
pub fn two_sides_settle()
    ensures one_hands { tick_of 1 (side 1 2 older) ≡ handing_on 1 2 older }
    ensures two_hands { tick_of 1 (side 2 1 newer) ≡ handing_on 2 1 newer }
    ensures merges { due_message one_sent 0 2 (batch_of newer) ≡ acking 2 merge }
    ensures keeps { due_message two_sent 0 1 (batch_of older) ≡ acking 1 [] }
    ensures acked { (due_message one_has 0 2 ack ≡ nothing)
        × (due_message two_has 0 1 ack ≡ nothing) }
    ensures done { (tick_of 1 one_done ≡ being_done 1 2) × (tick_of 1 two_done ≡ being_done 2 1) }
    ensures settles { tick_of 1 two_knows ≡ resting 1 settle }
    ensures learns { tick_of 1 one_knows ≡ resting 2 learn }
    ensures rests { (is_at_rest_of 1 two_rests ≡ true) × (is_at_rest_of 1 one_rests ≡ true)
        × (is_at_rest_of 1 one_knows ≡ false) }
{}

/// A batch that is lost, or whose acknowledgement is lost, is sent again under its number, until it is
/// acknowledged once. A second acknowledgement is spent, and stale after a restart.
pub fn a_lost_batch_is_sent_again()
    ensures again { (tick_of 1 one_sent ≡ handing_on 1 2 older)
        × (tick_of 1 one_again ≡ handing_on 1 2 older) }
    ensures twice { due_message two_has 0 1 (batch_of older) ≡ acking 1 [] }
    ensures acked { due_message one_third 0 2 ack ≡ nothing }
    ensures done { (out_to one_third.batches 2 ≡ out_to one_sent.batches 2)
        × (out_to one_acked.batches 2 ≡ None) × (is_done one_third 0 ≡ false)
        × (is_done one_acked 0 ≡ true) }
    ensures spent { due_message one_acked 0 2 ack ≡ lines_only (line.Spent 1 ∷ []) }
    ensures stale { due_message (after_start (after_stop one_acked)) 0 2 ack
        ≡ lines_only (line.Stale 1 ∷ []) }
{}

/// A node that is alone is calm after three rounds, and stays so where nothing happens. They are no more than calm may
/// take: one that holds records, or has open transactions, may take as many more.
pub fn a_lone_node_comes_to_calm()
    ensures runs { Run calm_twice calm_twice_journal }
    ensures few { IsWithinCalm partition_count (opened calm_twice.header) 3 }
    ensures limit { (calm_limit (opened calm_twice.header) ≡ 256)
        × (calm_limit (accepting (event.Put 1 zeros hi)) ≡ 257) }
{}

/// The client asks the node of the first table with the greatest key, and under one key rather a node
/// to which the partition has moved.
pub fn the_client_goes_by_its_latest_table()
    ensures none { due_of 0 (opened two_nodes) (event.ClientGet zeros) ≡ line.NoMap 0 ∷ [] }
    ensures some { due_of 0 (told (table (key 1 1) 2 false ∷ [])) (event.ClientGet zeros)
        ≡ line.Client 2 zeros ∷ line.Refused 2 zeros refusal.NoView ∷ [] }
    ensures greater_key { node_for (table (key 1 1) 1 true ∷ table (key 1 2) 2 false ∷ []) 0
        ≡ Some 2 }
    ensures moved { node_for
        (table (key 1 2) 2 false ∷ table (key 1 2) 1 true ∷ table (key 1 1) 3 true ∷ []) 0
        ≡ Some 1 }
    ensures first { node_for (table (key 1 2) 1 true ∷ table (key 1 2) 2 true ∷ []) 0 ≡ Some 1 }
    ensures asks { due_of 0 (opened two_nodes) (event.Ask 2) ≡ line.Sent 1 0 2 (14 ∷ []) ∷ [] }
    ensures table { (w : World) → (t : MapTable)
        → (due_at_client (message.MapTable t) ≡ line.Table t.key ∷ [])
        × (came_to_client w (message.MapTable t) ≡ record w { tables = w.tables ++ t ∷ [] }) }
    ensures other { (w : World)
        → (due_at_client message.MapAsk ≡ line.Stale 0 ∷ [])
        × (came_to_client w message.MapAsk ≡ w) }
{}

/// A header is taken as a whole, in whatever order its lines stand. A quiesced node stands last.
pub fn a_header_is_taken_as_a_whole()
    ensures nodes { (opened racked).nodes ≡ 2 ∷ 1 ∷ [] }
    ensures rising { up_nodes (opened racked) ≡ 1 ∷ 2 ∷ [] }
    ensures undeclared { (is_up (opened racked) 1 ≡ true) × (is_up (opened racked) 3 ≡ false) }
    ensures racks { (((opened racked).facts 2).role ≡ record { rack = 7; quiesced = false })
        × (((opened racked).facts 1).role ≡ plain_role) }
    ensures each { (((opened racked).facts 2).factor ≡ 3)
        × (((opened racked).facts 2).store.by ≡ Generation)
        × (((opened racked).facts 2).peers ≡ 1 ∷ []) }
    ensures lines { header_lines racked
        ≡ line.Node 2 (Some 7) ∷ line.Policy Generation ∷ line.Node 1 None ∷ line.Factor 3 ∷ [] }
    ensures plain { due_of 0 (opened two_nodes) (event.Place 0)
        ≡ line.Place 0 (plain_member 2 ∷ plain_member 1 ∷ []) ∷ [] }
    ensures quiesced { due_of 0 leaving (event.Place 0)
        ≡ line.Place 0
        (plain_member 1 ∷ record { id = 2; role = record { rack = 0; quiesced = true } } ∷ [])
        ∷ [] }
{}

/// At most 262,144 messages are in flight: the next one is lost as it is sent.
pub fn a_message_without_a_place_is_lost()
    ensures full { sent_lines 0 5 262144 ((2, message.MapAsk) ∷ (1, message.MapAsk) ∷ [])
        ≡ line.Sent 6 0 2 (14 ∷ []) ∷ line.Full 6 ∷ line.Sent 7 0 1 (14 ∷ []) ∷ line.Full 7 ∷ [] }
    ensures one_left { sent_lines 0 5 262143 ((2, message.MapAsk) ∷ (1, message.MapAsk) ∷ [])
        ≡ line.Sent 6 0 2 (14 ∷ []) ∷ line.Sent 7 0 1 (14 ∷ []) ∷ line.Full 7 ∷ [] }
    ensures gone { (after beaten (Writes (line.Full 1))).network.flying ≡ [] }
    ensures kept { (after beaten (Writes (line.Full 1))).network.sent ≡ beaten.network.sent }
{}

/// A request's want is in hand as its transaction opens, also that of the client. A delivery has the want of its
/// message, and who asks by it; other events have none.
pub fn a_request_has_its_want_in_hand()
    ensures put { wants (accepting (event.Put 1 zeros hi)) ≡ want.Put hi ∷ [] }
    ensures client_put { wants (accepting (event.ClientPut zeros hi)) ≡ want.Put hi ∷ [] }
    ensures client_del { wants (accepting (event.ClientDel zeros)) ≡ want.Del ∷ [] }
    ensures message { (w : World) → (i : ℕ) → (p : Posting) → (m : Message)
        → posting_at w.network i ≡ Some p → message_of p.bytes ≡ Some m
        → ((after w (Begins (event.Deliver i))).want ≡ want_in_message m)
        × ((after w (Begins (event.Deliver i))).asker ≡ asker_of p.from m) }
    ensures unsent { (w : World) → (i : ℕ) → posting_at w.network i ≡ None
        → ((after w (Begins (event.Deliver i))).want ≡ None)
        × ((after w (Begins (event.Deliver i))).asker ≡ None) }
    ensures others { (w : World) → (n : ℕ) → (i : ℕ)
        → ((after w (Begins (event.Tick n))).want ≡ None)
        × ((after w (Begins (event.Lose i))).want ≡ None) }
    ensures unasked { (w : World) → (n : ℕ) → (d : List ℕ) → (v : List ℕ)
        → ((after w (Begins (event.Put n d v))).asker ≡ None)
        × ((after w (Begins (event.ClientPut d v))).asker ≡ None) }
{}

/// What an event writes that is one line, and what a clock that is set changes.
pub fn an_event_writes_its_line()
    ensures clock { (due_of 0 beaten (event.Clock 1 7) ≡ line.Clock 1 7 ∷ [])
        × ((next (event.Clock 1 7) beaten).clocks 1 ≡ 7)
        × ((next (event.Clock 1 7) beaten).clocks 2 ≡ 0) }
    ensures hash { due_of 0 beaten (event.Hash seven) ≡ line.Hash seven 7 ∷ [] }
    ensures no_map { due_of 0 beaten (event.Map 1 0 9) ≡ line.Mapless 1 refusal.NoView ∷ [] }
    ensures down { (due_of 0 halved (event.Tick 2) ≡ line.Down 2 ∷ [])
        × (due_of 0 halved (event.Stop 2) ≡ line.Down 2 ∷ [])
        × (due_of 0 halved (event.Map 2 0 9) ≡ line.Mapless 2 refusal.Down ∷ [])
        × (due_of 0 halved (event.Get 2 zeros) ≡ line.Refused 2 zeros refusal.Down ∷ []) }
    ensures up { (due_of 0 beaten (event.Start 2) ≡ line.Up 2 ∷ [])
        × (due_of 0 halved (event.Start 2) ≡ line.Start 2 ∷ []) }
    ensures marks { (due_of 0 halved (event.Quiesce 2) ≡ line.Quiesce 2 ∷ [])
        × (((next (event.Quiesce 2) halved).facts 2).role.quiesced ≡ true)
        × (((next (event.Unquiesce 2) (next (event.Quiesce 2) halved)).facts 2).role.quiesced
        ≡ false) }
    ensures rounds { due_of 0 beaten (event.Calmed 3) ≡ line.Calm 3 ∷ [] }
    ensures unserved { due_of 0 beaten (event.Scan 7) ≡ [] }
    ensures round { all_lines (round 0 halved).steps
        ≡ line.Tick 1 ∷ beat 2 [] 1 2 ∷ line.Blocked 1 ∷ line.Blocked 2 ∷ [] }
{}

/// A world is calm where the up nodes of each group share a view of just them with their roles, and
/// nothing is in flight.
pub fn calm_goes_group_by_group()
    ensures alone { is_calm_of 0 alone ≡ true }
    ensures quiesced { (is_calm_of 0 (next (event.Quiesce 1) alone) ≡ false)
        × (is_calm_of 0 (next (event.Unquiesce 1) (next (event.Quiesce 1) alone)) ≡ true) }
    ensures stopped { (is_calm_of 0 (next (event.Stop 1) alone) ≡ true)
        × (is_calm_of 0 (next (event.Start 1) (next (event.Stop 1) alone)) ≡ false) }
    ensures flying { (is_calm_of 0 (next (event.Ask 1) alone) ≡ false)
        × (is_calm_of 0 parted ≡ false) }
    ensures parted { is_calm_of 0 parted_and_quiet ≡ true }
    ensures joined { is_calm_of 0 (next (event.Groups ((1 ∷ 2 ∷ []) ∷ [])) parted_and_quiet)
        ≡ false }
    ensures nobody { is_calm_of 0 (opened []) ≡ true }
    ensures new { is_calm_of 0 (opened two_nodes) ≡ false }
{}

/// Each front of a run is one that was begun, and the steps of commands that were begun are due, that which
/// comes next among them.
pub fn fronts_of_runs_are_begun()
    ensures fronts { (n : ℕ) → (s : Script) → (j : List Line) → (r : RunOf n s j)
        → (taken : List Step) → (next : Step) → ComesNext r.played.steps taken next
        → BegunRunOf n s (header_lines s.header ++ all_lines taken) next.lines }
    ensures due { (n : ℕ) → (w : World) → (cs : List Command) → (taken : List Step) → (next : Step)
        → AllBegun n w cs taken next → AreDue n w (taken ++ next ∷ []) }
    ensures put { BegunRun one_node (line.Node 1 None ∷ line.Tick 1 ∷ line.Tick 1 ∷ entering_lines)
        put_lines }
    ensures calm { BegunRun calm_twice (line.Node 1 None ∷ line.Tick 1 ∷ line.Tick 1 ∷ [])
        entering_lines }
    ensures calmed { BegunRun calm_twice
        (line.Node 1 None ∷ line.Tick 1 ∷ line.Tick 1 ∷ entering_lines) (line.Calm 3 ∷ []) }
{}

/// Where each command names declared nodes alone, and groups name each of them, the steps of commands are allowed:
/// each event may come, and has the lines that are due of it. The declared nodes stay.
pub fn steps_of_commands_are_allowed()
    ensures allowed { (n : ℕ) → (w : World) → (cs : List Command) → (x : Played)
        → list_all (is_playable w.nodes) cs ≡ true → PlaysAll n w cs x → AreAllowed n w x.steps }
    ensures due { (n : ℕ) → (w : World) → (ss : List Step) → AreAllowed n w ss → AreDue n w ss }
    ensures nodes { (w : World) → (ms : List Mark) → (after_all w ms).nodes ≡ w.nodes }
    ensures tick { (may_come 0 beaten (event.Tick 2) ≡ true)
        × (may_come 0 beaten (event.Tick 3) ≡ false) }
    ensures groups { (may_come 0 beaten (event.Groups ((2 ∷ []) ∷ (1 ∷ []) ∷ [])) ≡ true)
        × (may_come 0 beaten (event.Groups ((2 ∷ []) ∷ [])) ≡ false)
        × (may_come 0 beaten (event.Groups ((1 ∷ 2 ∷ []) ∷ (3 ∷ []) ∷ [])) ≡ false) }
    ensures calmed { (may_come 0 beaten (event.Calmed 1) ≡ false)
        × (may_come 0 alone (event.Calmed 3) ≡ true) }
{}

/// A front of a run needs no step that comes next: whole runs and those that were begun are fronts, and so is a flow
/// of nothing of which nothing was begun. The steps of a front are allowed.
pub fn what_stands_is_a_front()
    ensures whole { (n : ℕ) → (s : Script) → (j : List Line) → RunOf n s j → FrontRunOf n s j }
    ensures begun { (n : ℕ) → (s : Script) → (j : List Line) → (next : List Line)
        → BegunRunOf n s j next → FrontRunOf n s j }
    ensures allowed { (n : ℕ) → (w : World) → (cs : List Command) → (taken : List Step)
        → list_all (is_playable w.nodes) cs ≡ true → AreFrontOf n w cs taken
        → AreAllowed n w taken }
    ensures idle { FrontRunOf 0 (record { header = []; commands = command.Flow ∷ [] }) [] }
    ensures not_begun { (j : List Line) → (next : List Line)
        → BegunRunOf 0 (record { header = []; commands = command.Flow ∷ [] }) j next → ⊥ }
{}

/// Where calm is reached in time and no message is lost for want of a place, the world is calm after so many rounds.
pub fn calm_comes_in_time()
    ensures { (n : ℕ) → (w : World) → CalmIsReached n w → ((i : ℕ) → is_full_round n w i ≡ false)
        → ComesInTime n w }
{}

/// A world that isn't calm and in which nobody ticks is never calm. A bound of the rounds after which calm comes holds
/// of it, since calm doesn't come; that calm is reached in time doesn't.
pub fn a_calm_that_never_comes_is_not_reached()
    ensures never { (k : ℕ) → ComesToCalm 0 unticked k → ⊥ }
    ensures within { (k : ℕ) → ComesToCalm 0 unticked k → IsWithinCalm 0 unticked k }
    ensures reached { CalmIsReached 0 unticked → ⊥ }
{}
