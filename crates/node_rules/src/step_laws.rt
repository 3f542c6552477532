//! What a step makes of the facts of a node, by its parts: what changes, and that all else stays. A call does
//! nothing: what it ensures is the law.
ghost use Rattle.std.specs.Prelude.{◌≡◌, ◌&&◌, ℕ, Bool, true, false, List, Option, Some, None, ◌==◌, if◌then◌else◌};
ghost use Rattle.std.specs.FinMap as finite;
ghost use Rattle.conflict_order.specs.declared.version.Version.{Version};
ghost use Rattle.conflict_order.specs.declared.want.Want.{Want};
ghost use Rattle.conflict_order.specs.Order.{is_newer};
ghost use Rattle.cluster_types.specs.declared.cluster_key.ClusterKey.{ClusterKey};
ghost use Rattle.cluster_types.specs.declared.member.Member.{Member};
ghost use Rattle.cluster_types.specs.declared.member.Role.{Role};
ghost use Rattle.cluster_types.specs.Partitions.{partition_count, partition_of};
ghost use Rattle.wire_messages.specs.declared.message.Batch.{Batch};
ghost use Rattle.wire_messages.specs.declared.message.Message.TheVariants as message;
ghost use Rattle.node_rules.specs.Agreement as agreement;
ghost use Rattle.node_rules.specs.Agreement.{Proposal, proposes, is_accepted_with, enters_alone};
ghost use Rattle.node_rules.specs.ByParts.{view_entered, entered_alone, exchanged_if, merged_if, resolved_with, requested, batches_due, sending_all, proposed_facts, settled_facts};
ghost use Rattle.node_rules.specs.Copies.{Row};
ghost use Rattle.node_rules.specs.Entering.{entering};
ghost use Rattle.node_rules.specs.Facts.{Facts, view_key, list_at};
ghost use Rattle.node_rules.specs.Hearing.{beat_heard};
ghost use Rattle.node_rules.specs.Map.{list_master};
ghost use Rattle.node_rules.specs.Merging.{newer_records, store_merged_all};
ghost use Rattle.node_rules.specs.Messages.{finishes, may_enter_view};
ghost use Rattle.node_rules.specs.Notes.{noted, neighbours, after_ages, stopped, started, in_view, row_came, batch_acked, progress_came, write_counted_if, answer_came};
ghost use Rattle.node_rules.specs.Requests.{request_refusal};
ghost use Rattle.node_rules.specs.Steps.{after_tick, after_message, after_request, after_stop, after_start};
ghost use Rattle.node_rules.specs.Tick.{is_candidate, propose};
ghost use Rattle.node_rules.specs.Transactions.{transaction, acknowledging, ends_by_ack, closing_if};

/// The facts after a message of the agreement.
pub fn agreeing_changes_the_agreement()
    ensures heartbeat { (f : Facts) → (clock : ℕ) → (from : ℕ) → (view : ClusterKey)
        → (promised : ClusterKey) → (hears : List ℕ) → (role : Role)
        → after_message f clock from (message.Heartbeat view promised hears role)
        ≡ record f {
          hearing = beat_heard f.hearing from
              (record { view = view; promised = promised; hears = hears; role = role });
          agreement = agreement.seeing f.agreement promised;
        } }
    ensures propose { (f : Facts) → (clock : ℕ) → (from : ℕ) → (k : ClusterKey) → (ms : List Member)
        → after_message f clock from (message.Propose k ms)
        ≡ record f { agreement = agreement.voting f.agreement k } }
    ensures accept { (f : Facts) → (clock : ℕ) → (from : ℕ) → (k : ClusterKey)
        → (proposes f.agreement.proposal k && is_accepted_with f.agreement.proposal from) ≡ false
        → after_message f clock from (message.Accept k)
        ≡ record f { agreement = agreement.counting f.agreement from k } }
    ensures last_accept { (f : Facts) → (clock : ℕ) → (from : ℕ) → (k : ClusterKey) → (p : Proposal)
        → f.agreement.proposal ≡ Some p
        → (proposes (Some p) k && is_accepted_with (Some p) from) ≡ true
        → after_message f clock from (message.Accept k) ≡ view_entered f p.key p.members }
    ensures refuse { (f : Facts) → (clock : ℕ) → (from : ℕ) → (k : ClusterKey)
        → (promised : ClusterKey)
        → after_message f clock from (message.Refuse k promised)
        ≡ record f { agreement = agreement.refusing f.agreement k promised } }
    ensures commit { (f : Facts) → (clock : ℕ) → (from : ℕ) → (k : ClusterKey) → (ms : List Member)
        → after_message f clock from (message.Commit k ms)
        ≡ (if may_enter_view f k ms then view_entered f k ms else f) }
{}

/// Entering a view closes all transactions, whose facts are gone with the older view.
pub fn entering_leaves_no_transaction()
    ensures { (f : Facts) → (g : Facts) → (k : ClusterKey) → (ms : List Member)
        → noted None g (entering f k ms) ≡ view_entered g k ms }
{}

/// The facts after a message of a view: one of another view changes nothing.
pub fn messages_of_the_view_change_their_part()
    ensures state { (f : Facts) → (clock : ℕ) → (from : ℕ) → (k : ClusterKey) → (wants : Bool)
        → (row : Row)
        → after_message f clock from (message.State k wants row)
        ≡ (if in_view f k
        then exchanged_if (row_came f from row true) (view_key f)
        (finishes f (row_came f from row true))
        else f) }
    ensures batch { (f : Facts) → (clock : ℕ) → (from : ℕ) → (b : Batch)
        → after_message f clock from (message.Batch b)
        ≡ (if in_view f b.key
        then record f {
          store = store_merged_all f.store (view_key f)
              (newer_records f.store.by f.store.content b.records);
        }
        else f) }
    ensures batch_ack { (f : Facts) → (clock : ℕ) → (from : ℕ) → (k : ClusterKey) → (number : ℕ)
        → after_message f clock from (message.BatchAck k number)
        ≡ batch_acked f from number (in_view f k) }
    ensures progress { (f : Facts) → (clock : ℕ) → (from : ℕ) → (k : ClusterKey) → (wants : Bool)
        → (done : List Bool) → (handed : List Bool) → (settled : List Bool)
        → after_message f clock from (message.Progress k wants done handed settled)
        ≡ progress_came f from done handed settled (in_view f k) }
    ensures repl { (f : Facts) → (clock : ℕ) → (from : ℕ) → (k : ClusterKey) → (t : ℕ) → (nth : ℕ)
        → (digest : List ℕ) → (v : Version)
        → after_message f clock from (message.Repl k t nth digest v)
        ≡ (if in_view f k
        then merged_if (write_counted_if f k (list_at f (partition_of digest))
        (partition_of digest) nth (from == list_master (list_at f (partition_of digest))))
        (view_key f) digest v (is_newer f.store.by v (finite.get f.store.content digest))
        else f) }
    ensures repl_ack { (f : Facts) → (clock : ℕ) → (from : ℕ) → (k : ClusterKey) → (t : ℕ)
        → after_message f clock from (message.ReplAck k t)
        ≡ (if in_view f k
        then record f {
          transactions = closing_if (acknowledging f.transactions from t) t
              (ends_by_ack (transaction f.transactions t) from);
        }
        else f) }
    ensures ask { (f : Facts) → (clock : ℕ) → (from : ℕ) → (k : ClusterKey) → (t : ℕ)
        → (digest : List ℕ) → after_message f clock from (message.Ask k t digest) ≡ f }
    ensures answer { (f : Facts) → (clock : ℕ) → (from : ℕ) → (k : ClusterKey) → (t : ℕ)
        → (v : Option Version)
        → after_message f clock from (message.Answer k t v)
        ≡ (if in_view f k
        then resolved_with (answer_came f from t v true) clock from v
        (transaction f.transactions t)
        else f) }
    ensures map_ask { (f : Facts) → (clock : ℕ) → (from : ℕ)
        → after_message f clock from message.MapAsk ≡ f }
{}

/// The facts after a request, a stop and a start.
pub fn requests_change_transactions_and_the_copy()
    ensures request { (f : Facts) → (clock : ℕ) → (digest : List ℕ) → (w : Want)
        → after_request f clock digest w ≡ requested f clock (list_at f (partition_of digest))
        digest w (request_refusal f (list_at f (partition_of digest)) digest) }
    ensures stop { (f : Facts) → after_stop f ≡ (if f.up then stopped f else f) }
    ensures start { (f : Facts) → after_start f ≡ (if f.up then f else started f) }
{}

/// The facts after a tick: those with its lines, the agreement by its own rules, and the batches that go out.
pub fn a_tick_changes_hearing_agreement_and_settling()
    ensures up { (f : Facts) → f.up ≡ true
        → after_tick f ≡ record (settled_facts partition_count f) {
          agreement = agreement.ticking f.me f.agreement (neighbours (after_ages f))
              (is_candidate (after_ages f));
          batches = sending_all (settled_facts partition_count f).batches
              (batches_due (view_key (proposed_facts f)) (proposed_facts f).store.content
              (proposed_facts f).batches);
        } }
    ensures down { (f : Facts) → f.up ≡ false → after_tick f ≡ f }
    ensures alone { (f : Facts)
        → enters_alone f.me f.agreement (neighbours f) (is_candidate f) ≡ true
        → noted None f (propose f).lines
        ≡ entered_alone f (agreement.next_key f.me f.agreement) (neighbours f) }
    ensures among_others { (f : Facts)
        → enters_alone f.me f.agreement (neighbours f) (is_candidate f) ≡ false
        → noted None f (propose f).lines
        ≡ record f { agreement = (noted None f (propose f).lines).agreement } }
{}
