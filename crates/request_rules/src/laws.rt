//! Laws of the rules. A call does nothing: what it ensures is the law.
ghost use Rattle.std.specs.Prelude.{◌≡◌, ◌==◌, ◌+◌, ◌++◌, ◌∷◌, [], ℕ, List, All, Bool, true, false, not, filter, map, take, length, Option, Some, None, if◌then◌else◌};
ghost use Rattle.std.specs.List.{list_any};
ghost use Rattle.conflict_order.specs.Contents.{Record};
ghost use Rattle.conflict_order.specs.declared.want.Action.{Action};
ghost use Rattle.conflict_order.specs.declared.want.Want.{Want};
ghost use Rattle.cluster_types.specs.declared.cluster_key.ClusterKey.{ClusterKey};
ghost use Rattle.cluster_types.specs.Endpoints.{client};
ghost use Rattle.journal_lines.specs.declared.line.Line.{Line};
ghost use Rattle.journal_lines.specs.declared.line.Line.TheVariants as line;
ghost use Rattle.journal_lines.specs.declared.refusal.Refusal.{Refusal};
ghost use Rattle.wire_messages.specs.declared.reply.ReplyBody.{ReplyBody};
ghost use Rattle.wire_messages.specs.declared.scan.ScanPage.{ScanPage};
ghost use Rattle.node_rules.specs.Effects.{Effects};
ghost use Rattle.node_rules.specs.Facts.{Facts};
ghost use Rattle.request_rules.specs.declared.passed.Passed.{Passed};
ghost use Rattle.request_rules.specs.declared.scanning.Scanning.{Scanning};
ghost use Rattle.request_rules.specs.declared.scanning.ScanStep.TheVariants as scan;
ghost use Rattle.request_rules.specs.declared.taken.Asker.{Asker};
ghost use Rattle.request_rules.specs.declared.taken.Outcome.TheVariants as outcome;
ghost use Rattle.request_rules.specs.declared.taken.Taken.{Taken};
ghost use Rattle.request_rules.specs.Dressing.{with_requests};
ghost use Rattle.request_rules.specs.LineNotes.{noted_requests};
ghost use Rattle.request_rules.specs.ByNumber.{ByNumber};
ghost use Rattle.request_rules.specs.Passing.{given_up, is_giving_up, leaves, with_given_up};
ghost use Rattle.request_rules.specs.Replies.{is_reply, refusal_body};
ghost use Rattle.request_rules.specs.Requests.{NodeRequests};
ghost use Rattle.request_rules.specs.Scans.{IsNextPage, records_after, step_for};
ghost use Rattle.request_rules.specs.TakenUp.{AreTakenOnce, bound_to, keeping, note_taken, outcome_for, owed, same_asker};

/// A node that keeps nothing, with no asker in hand, does what it does without requests by message.
pub fn an_idle_node_does_nothing_more()
    ensures { (r : NodeRequests) → (f : Facts) → (e : Effects)
        → r.taken ≡ []
        → r.passed.waiting ≡ []
        → with_requests r f None e ≡ e }
{}

/// What a node gives up stands right before the first line at which it leaves its view, and nowhere
/// else. All other lines stay, in their order.
pub fn what_is_given_up_stands_before_the_leaving()
    ensures leaving { (ps : ByNumber Passed) → (key : ClusterKey) → (n : ℕ) → (before : List Line)
        → (l : Line) → (behind : List Line)
        → list_any (leaves n) before ≡ false
        → leaves n l ≡ true
        → with_given_up ps key n (before ++ l ∷ behind)
        ≡ before ++ (map (given_up n key) ps ++ l ∷ behind) }
    ensures staying { (ps : ByNumber Passed) → (key : ClusterKey) → (n : ℕ) → (ls : List Line)
        → list_any (leaves n) ls ≡ false
        → with_given_up ps key n ls ≡ ls }
    ensures added { (ps : ByNumber Passed) → (key : ClusterKey) → (n : ℕ) → (ls : List Line)
        → filter (λ l. not (is_giving_up n l)) (with_given_up ps key n ls)
        ≡ filter (λ l. not (is_giving_up n l)) ls }
{}

/// What is given up changes nothing of what is kept, since the line behind it empties all.
pub fn what_is_given_up_changes_nothing_kept()
    ensures { (a : Option Asker) → (w : Option Want) → (r : NodeRequests) → (ps : ByNumber Passed)
        → (key : ClusterKey) → (n : ℕ) → (ls : List Line)
        → noted_requests a w r (with_given_up ps key n ls) ≡ noted_requests a w r ls }
{}

/// What the lines of a step owe are replies alone.
pub fn replies_alone_are_owed()
    ensures { (key : ClusterKey) → (a : Option Asker) → (taken : List Taken) → (ls : List Line)
        → All (λ m. is_reply m.1 ≡ true) (owed key a taken ls) }
{}

/// A request that is taken up is known from then on: its transaction is open, and once that has
/// ended, or the request is refused, its reply is kept. A refusal of the client isn't kept. What is
/// known of other requests stays.
pub fn what_is_taken_up_is_known()
    ensures opened { (a : Asker) → (taken : List Taken) → (n : ℕ) → (key : ClusterKey) → (t : ℕ)
        → (d : List ℕ) → (action : Action)
        → outcome_for taken a ≡ None
        → outcome_for (note_taken (Some a) taken (line.Opened n key t d action)) a
        ≡ Some (outcome.Open t) }
    ensures refused { (a : Asker) → (taken : List Taken) → (n : ℕ) → (d : List ℕ)
        → (cause : Refusal) → (b : ReplyBody)
        → outcome_for taken a ≡ None
        → (a.from == client) ≡ false
        → refusal_body cause ≡ Some b
        → outcome_for (note_taken (Some a) taken (line.Refused n d cause)) a
        ≡ Some (outcome.Kept b) }
    ensures client { (a : Asker) → (taken : List Taken) → (n : ℕ) → (d : List ℕ)
        → (cause : Refusal)
        → (a.from == client) ≡ true
        → note_taken (Some a) taken (line.Refused n d cause) ≡ taken }
    ensures ended { (a : Asker) → (taken : List Taken) → (t : ℕ) → (b : ReplyBody)
        → AreTakenOnce taken
        → bound_to taken t ≡ Some a
        → outcome_for (keeping taken t b) a ≡ Some (outcome.Kept b) }
    ensures others { (a : Asker) → (other : Asker) → (taken : List Taken) → (t : ℕ)
        → (b : ReplyBody)
        → AreTakenOnce taken
        → bound_to taken t ≡ Some a
        → same_asker a other ≡ false
        → outcome_for (keeping taken t b) other ≡ outcome_for taken other }
{}

/// A scan whose pages are the parts of one list of records, each from where the scan has come to, has
/// with each page the part up to there, and with the last page the whole list.
pub fn pages_of_one_list_make_it_whole()
    ensures taken { (rs : List Record) → (so_far : ℕ) → (most : ℕ) → (from : ℕ)
        → (x : Scanning) → (page : ScanPage)
        → IsNextPage rs so_far most from x page
        → step_for (Some x) from page
        ≡ (if page.more then scan.More (length page.records) else scan.Whole rs) }
    ensures records { (rs : List Record) → (so_far : ℕ) → (most : ℕ) → (from : ℕ)
        → (x : Scanning) → (page : ScanPage)
        → IsNextPage rs so_far most from x page
        → records_after x page ≡ take (so_far + most) rs }
{}
