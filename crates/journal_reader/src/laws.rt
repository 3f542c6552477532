//! What holds of all lines and their text.
ghost use Rattle.std.specs.Prelude.{◌≡◌, ℕ, List, Some, All};
ghost use Rattle.journal_lines.specs.declared.line.Line.{Line};
ghost use Rattle.journal_lines.specs.Proper.{IsProper};
ghost use Rattle.journal_reader.specs.Reading.{read_line};
ghost use Rattle.journal_text.specs.Text.{line_text, text};

/// A line whose parts are in their ranges is read back from its text.
pub fn text_is_read_back()
    ensures { (l : Line) → IsProper l → read_line (line_text l) ≡ Some l }
{}

/// What is read as a line is the line's text, and the line's parts are in their ranges.
pub fn what_is_read_is_written_so()
    ensures { (bytes : List ℕ) (l : Line) → read_line bytes ≡ Some l
        → (line_text l ≡ bytes) × IsProper l }
{}

/// Lines of one text are one line.
pub fn text_is_injective()
    ensures { (l m : Line) → IsProper l → IsProper m → line_text l ≡ line_text m → l ≡ m }
{}

/// Journals of one text have the same lines.
pub fn journal_text_is_injective()
    ensures { (ls ms : List Line) → All IsProper ls → All IsProper ms → text ls ≡ text ms
        → ls ≡ ms }
{}
