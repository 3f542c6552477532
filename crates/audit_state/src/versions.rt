//! Versions that stand for themselves by their places: the place of the `apply` or `merge` line with
//! the version.
ghost use Rattle.std.specs.Prelude.{◌≡◌, ◌↔◌, IsTrue, is_some};
ghost use Rattle.std.specs.Option.{option_copied};
ghost use Rattle.conflict_order.specs.Join as order;
ghost use Rattle.audit_state.specs.Places.{is_at_most, placed, placed_version, brought_version};

use conflict_order::{Policy, Version};
use journal_lines::Line;

/// The lines of a journal, whose versions are compared by a policy.
#[derive(Clone, Copy)]
pub struct Versions<'a> {
    pub lines: &'a [Line],
    pub by: Policy,
}

impl<'a> Versions<'a> {
    /// The version at that place.
    pub fn at(&self, place: usize) -> Option<&'a Version>
        ensures { option_copied result ≡ placed_version self.now.lines.now place }
    {
        match self.lines.get(place) {
            None => None,
            Some(line) => version_of(line),
        }
    }

    /// The version at a place, if any.
    pub fn found(&self, place: Option<usize>) -> Option<&'a Version>
        ensures { option_copied result ≡ placed self.now.lines.now place }
    {
        match place {
            None => None,
            Some(place) => self.at(place),
        }
    }

    /// Whether there is a version at the place, if any.
    pub fn has(&self, place: Option<usize>) -> bool
        ensures { result ≡ is_some (placed self.now.lines.now place) }
    {
        self.found(place).is_some()
    }

    /// Whether the first is at most the second; nothing is below every version.
    pub fn at_most(&self, a: Option<usize>, b: Option<usize>) -> bool
        ensures { result
            ≡ is_at_most self.now.by (placed self.now.lines.now a) (placed self.now.lines.now b) }
    {
        match self.found(a) {
            None => true,
            Some(a) => !a.is_newer(self.found(b), self.by),
        }
    }

    /// Whether both are the same version, or both nothing.
    pub fn are_equal(&self, a: Option<usize>, b: Option<usize>) -> bool
        ensures { IsTrue result ↔ (placed self.now.lines.now a ≡ placed self.now.lines.now b) }
    {
        self.at_most(a, b) && self.at_most(b, a)
    }

    /// The greater of both; the first where they are equal.
    pub fn join(&self, a: Option<usize>, b: Option<usize>) -> Option<usize>
        ensures { placed self.now.lines.now result
            ≡ order.join self.now.by (placed self.now.lines.now a) (placed self.now.lines.now b) }
    {
        if self.at_most(b, a) { a } else { b }
    }
}

/// The version that the line brings.
fn version_of(line: &Line) -> Option<&Version>
    ensures { option_copied result ≡ brought_version line.now }
{
    match line {
        Line::Apply { version, .. } => Some(version.get()),
        Line::Merge { version, .. } => Some(version.get()),
        _ => None,
    }
}
