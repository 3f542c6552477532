//! What a node gives up as it leaves its view.
ghost use Rattle.std.specs.Prelude.{◌≡◌, ◌<◌, ◌++◌, ◌∷◌, [], Some, not, ◌&&◌, ◌||◌, length, map, slice_get, IfOk, OnOk};
ghost use Rattle.std.specs.List.{list_any};
ghost use Rattle.journal_lines.specs.declared.line.Line.{Line};
ghost use Rattle.request_rules.specs.Passing.{leaves, with_given_up};
ghost use Rattle.node_requests.specs.Leaving.{given_up_lines, lines_if, with_lines_of};

use cluster_types::{ClusterKey, NoMemory, NodeId};
use item_lists::CopyList;
use journal_text::{Line, LineList, copy_line};
use proxy_path::Proxies;
use std::alloc::Global;

/// What a node gives up as it leaves the view of that key: the requests of these numbers.
#[derive(Drop)]
pub(crate) struct GivenUp {
    pub node: NodeId,
    pub key: ClusterKey,
    pub numbers: CopyList<u32>,
}

/// The lines of a step with those of what the node gives up: all that waits, right before the first
/// line at which it leaves its view. A step that doesn't leave it keeps its lines, without memory.
pub(crate) fn with_given_up(
    alloc: Global,
    proxies: &Proxies,
    node: NodeId,
    key: ClusterKey,
    lines: LineList,
) -> Result<LineList, NoMemory>
    ensures { IfOk result
        (λ ls. ls ≡ with_given_up proxies.now.passed.waiting key node lines) }
{
    if proxies.is_idle() || !any_leaves(node, &lines) {
        return Ok(lines);
    }
    let numbers = proxies.numbers(alloc)?;
    let given_up = GivenUp { node, key, numbers };
    if given_up.numbers.is_empty() {
        return Ok(lines);
    }
    given_up.with_lines_of(alloc, &lines)
}

/// Whether the node leaves its view at one of the lines.
fn any_leaves(node: NodeId, lines: &LineList) -> bool
    ensures { result ≡ list_any (leaves node) lines.now }
{
    for i in 0..lines.len() {
        if leaves_at(node, lines, i) {
            return true;
        }
    }
    false
}

/// Whether the node leaves its view at the line at that place.
fn leaves_at(node: NodeId, lines: &LineList, i: usize) -> bool
    requires { i < length lines.now }
    ensures { (l : Line) → slice_get lines.now i ≡ Some l → result ≡ leaves node l }
{
    match lines.get(i) {
        Some(line) => leaves(node, line),
        None => false,
    }
}

/// Whether the node leaves its view at the line.
fn leaves(node: NodeId, line: &Line) -> bool
    ensures { result ≡ leaves node line.now }
{
    match line {
        Line::Enter { node: entered, .. } => *entered == node,
        Line::Stop { node: stopped } => *stopped == node,
        _ => false,
    }
}

impl GivenUp {
    /// The lines of a step with those of what is given up.
    fn with_lines_of(&self, alloc: Global, lines: &LineList) -> Result<LineList, NoMemory>
        ensures { IfOk result (λ ls. ls ≡ with_lines_of self.now lines.now) }
    {
        let mut told = LineList::new(alloc);
        let mut left = false;
        for i in 0..lines.len() {
            if let Some(line) = lines.get(i) {
                left = self.push_line(alloc, &mut told, left, line)?;
            }
        }
        Ok(told)
    }

    /// Adds a copy of the line, and before it, if it is the first at which the node leaves its view,
    /// the lines of what is given up. The answer is whether the node has left the view by then.
    fn push_line(
        &self,
        alloc: Global,
        told: &mut LineList,
        left: bool,
        line: &Line,
    ) -> Result<bool, NoMemory>
        ensures left { IfOk result (λ b. b ≡ (left || leaves self.now.node line.now)) }
        ensures told { OnOk result (told.new
            ≡ (told.old ++ lines_if self.now (not left && leaves self.now.node line.now))
            ++ line.now ∷ []) }
    {
        let leaving = leaves(self.node, line);
        self.push_if(told, !left && leaving)?;
        told.push(copy_line(alloc, line)?)?;
        Ok(left || leaving)
    }

    /// Adds the lines of what is given up, where the test says so.
    fn push_if(&self, told: &mut LineList, gives_up: bool) -> Result<(), NoMemory>
        ensures { OnOk result (told.new ≡ told.old ++ lines_if self.now gives_up) }
    {
        if gives_up {
            return self.push_given_up(told);
        }
        Ok(())
    }

    /// Adds the lines of what is given up.
    fn push_given_up(&self, told: &mut LineList) -> Result<(), NoMemory>
        ensures { OnOk result (told.new ≡ told.old ++ given_up_lines self.now) }
    {
        for number in self.numbers.as_slice() {
            told.push(Line::Unproxied {
                node: self.node,
                key: self.key,
                number: *number,
            })?;
        }
        Ok(())
    }
}
