//! The laws, line by line. A call does nothing: what it ensures is the law.
ghost use Rattle.std.specs.Prelude.{◌↔◌, ◌++◌, ◌∷◌, [], ℕ, List, take};
ghost use Rattle.journal_lines.specs.declared.line.Line.{Line};
ghost use Rattle.journal_readings.specs.Claims.{OneMap, ShowsMap, NoLoss, SettledJoin, ReadJoin, JoinsView};
ghost use Rattle.journal_readings.specs.Shape.{Shape};
ghost use Rattle.audit_laws.specs.Fits.{Fits, FitsShape, LosesNothing, JoinsReplicas};
ghost use Rattle.audit_laws.specs.Lawful.{Lawful};

/// A journal with one line more keeps each law exactly where it kept the law before and the line fits it: the shape
/// by itself, and each other law where the journal has its shape.
pub fn each_law_goes_line_by_line()
    ensures shape { (j : List Line) → (l : Line) → Shape (j ++ l ∷ []) ↔ (Shape j × FitsShape j l) }
    ensures one_map { (j : List Line) → (l : Line) → Shape (j ++ l ∷ [])
        → OneMap (j ++ l ∷ []) ↔ (OneMap j × ShowsMap j l) }
    ensures no_loss { (j : List Line) → (l : Line) → Shape (j ++ l ∷ [])
        → NoLoss (j ++ l ∷ []) ↔ (NoLoss j × LosesNothing j l) }
    ensures settled_join { (j : List Line) → (l : Line) → Shape (j ++ l ∷ [])
        → SettledJoin (j ++ l ∷ []) ↔ (SettledJoin j × JoinsReplicas j l) }
    ensures read_join { (j : List Line) → (l : Line) → Shape (j ++ l ∷ [])
        → ReadJoin (j ++ l ∷ []) ↔ (ReadJoin j × JoinsView j j l) }
{}

/// A journal with one line more keeps all laws exactly where it kept them before and the line fits.
pub fn laws_go_line_by_line()
    ensures none { Lawful [] }
    ensures more { (j : List Line) → (l : Line) → Lawful (j ++ l ∷ []) ↔ (Lawful j × Fits j l) }
{}

/// What a journal that keeps all laws begins with keeps them too: a law that failed never comes back.
pub fn fronts_keep_the_laws()
    ensures { (j : List Line) → Lawful j → (i : ℕ) → Lawful (take i j) }
{}
