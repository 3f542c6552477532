//! What a reader finds in the lines is what the world has. A call does nothing: what it ensures is the law.
ghost use Rattle.std.specs.Prelude.{◌≡◌, ◌++◌, ℕ, List, true};
ghost use Rattle.std.specs.FinMap as finite;
ghost use Rattle.cluster_types.specs.Distinct.{AreDistinct};
ghost use Rattle.journal_lines.specs.declared.line.Line.{Line};
ghost use Rattle.node_rules.specs.Facts.{view_key};
ghost use Rattle.journal_readings.specs.Contents.{content};
ghost use Rattle.journal_readings.specs.Lines.{has_node};
ghost use Rattle.cluster_rules.specs.Marks.{Mark, after_all, lines_among};
ghost use Rattle.cluster_rules.specs.Opening.{Header, header_lines, declared_factor, declared_policy, declared_nodes};
ghost use Rattle.journal_readings.specs.Settings.{policy_of, factor_of, nodes, clock_of, is_node_up, groups_of, present_role};
ghost use Rattle.journal_readings.specs.Shape.{AreBehind};
ghost use Rattle.journal_readings.specs.Views.{promised_key, last_key, view, some_key};
ghost use Rattle.cluster_rules.specs.World.{opened};

/// What is read of a node in the lines among any marks is what the world after them has of it. Whether it is up is
/// read of declared nodes alone.
pub fn a_node_is_as_it_is_read()
    ensures promised { (h : Header) → (ms : List Mark) → (n : ℕ)
        → promised_key n (lines_among ms) ≡ ((after_all (opened h) ms).facts n).agreement.promised }
    ensures last { (h : Header) → (ms : List Mark) → (n : ℕ)
        → last_key n (lines_among ms) ≡ ((after_all (opened h) ms).facts n).agreement.last }
    ensures view { (h : Header) → (ms : List Mark) → (n : ℕ)
        → view n (lines_among ms) ≡ some_key (view_key ((after_all (opened h) ms).facts n)) }
    ensures up { (h : Header) → (ms : List Mark) → (n : ℕ) → has_node (declared_nodes h) n ≡ true
        → is_node_up n (lines_among ms) ≡ ((after_all (opened h) ms).facts n).up }
    ensures clock { (h : Header) → (ms : List Mark) → (n : ℕ)
        → clock_of n (lines_among ms) ≡ (after_all (opened h) ms).clocks n }
    ensures content { (h : Header) → (ms : List Mark) → (n : ℕ) → (d : List ℕ)
        → content (declared_policy h) n d (lines_among ms)
        ≡ finite.get ((after_all (opened h) ms).facts n).store.content d }
{}

/// What a header declares is read in its lines, whatever lines of other words follow, and holds for the whole run.
pub fn a_header_is_read_as_it_declares()
    ensures policy { (h : Header) → (ls : List Line) → AreBehind ls
        → policy_of (header_lines h ++ ls) ≡ declared_policy h }
    ensures factor { (h : Header) → (ls : List Line) → AreBehind ls
        → factor_of (header_lines h ++ ls) ≡ declared_factor h }
    ensures nodes { (h : Header) → (ls : List Line) → AreBehind ls
        → nodes (header_lines h ++ ls) ≡ declared_nodes h }
    ensures groups { (h : Header) → (ms : List Mark) → AreBehind (lines_among ms)
        → groups_of (header_lines h ++ lines_among ms) ≡ (after_all (opened h) ms).network.groups }
    ensures role { (h : Header) → (ms : List Mark) → (n : ℕ) → AreDistinct (declared_nodes h)
        → AreBehind (lines_among ms)
        → present_role n (header_lines h ++ lines_among ms)
        ≡ ((after_all (opened h) ms).facts n).role }
    ensures policy_stays { (h : Header) → (ms : List Mark) → (n : ℕ)
        → ((after_all (opened h) ms).facts n).store.by ≡ declared_policy h }
    ensures factor_stays { (h : Header) → (ms : List Mark) → (n : ℕ)
        → ((after_all (opened h) ms).facts n).factor ≡ declared_factor h }
{}
