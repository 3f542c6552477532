//! Short lists of lines.
ghost use Rattle.std.specs.Prelude.{◌≡◌, ◌∷◌, [], IfOk};

use cluster_types::NoMemory;
use journal_text::{Line, LineList};
use std::alloc::Global;

/// That line alone.
pub(crate) fn one_line(alloc: Global, line: Line) -> Result<LineList, NoMemory>
    ensures { IfOk result (λ lines. lines ≡ line ∷ []) }
{
    let mut lines = LineList::new(alloc);
    lines.push(line)?;
    Ok(lines)
}

/// Those two lines.
pub(crate) fn two_lines(alloc: Global, first: Line, second: Line) -> Result<LineList, NoMemory>
    ensures { IfOk result (λ lines. lines ≡ first ∷ second ∷ []) }
{
    let mut lines = one_line(alloc, first)?;
    lines.push(second)?;
    Ok(lines)
}

/// The line, and behind it the others.
pub(crate) fn line_before(line: Line, others: LineList) -> Result<LineList, NoMemory>
    ensures { IfOk result (λ lines. lines ≡ line ∷ others) }
{
    let mut lines = others;
    lines.push_first(line)?;
    Ok(lines)
}
