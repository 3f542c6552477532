//! By which views copies are known to be whole.
ghost use Rattle.std.specs.Prelude.{◌≡◌, ◌<◌, ◌^◌, ◌+◌, true, length, OnOk, is_some, slice_get, option_and_then};
ghost use Rattle.audit_state.specs.Histories.{AreUpTo};
ghost use Rattle.audit_core.specs.Known.{node_at, stamps_at};
ghost use Rattle.audit_state.specs.Stamps.{stamped_key, stamping_key_at, stamp_marks, judged_of, wholes_of};
ghost use Rattle.audit_core.specs.Steps.{ChangesStamps, SameStamps, HasMark, HasJudged};
ghost use Rattle.audit_core.specs.Wholes.{AreAscending, JudgesRight, JudgesSome, exchanged_by, makes_whole};

use crate::judge::Judge;
use audit_state::{Stamps, key_at};
use cluster_types::{ClusterKey, NoMemory, NodeId, PartitionId};
use journal_lines::Line;

impl<'a> Judge<'a> {
    /// The copy becomes whole at the line, or nothing is known of it from there on.
    pub fn mark(
        &mut self,
        line: usize,
        node: NodeId,
        p: PartitionId,
        place: Option<usize>,
    ) -> Result<(), NoMemory>
        requires { AreUpTo line (stamp_marks (stamps_at self.old node p)) }
        ensures { OnOk result (ChangesStamps (HasMark line place) node p self.old self.new) }
    {
        self.open_stamps(node, p)?;
        if let Some(stamps) = self.stamps.get_mut(&(node.number(), p.number())) {
            stamps.marks.put(line, place)?;
        }
        Ok(())
    }

    /// Nothing is known yet of the copy where nothing was noted.
    fn open_stamps(&mut self, node: NodeId, p: PartitionId) -> Result<(), NoMemory>
        ensures { OnOk result (ChangesStamps SameStamps node p self.old self.new) }
    {
        let copy = (node.number(), p.number());
        if !self.stamps.contains_key(&copy) {
            self.stamps.insert(copy, Stamps::new(self.alloc))?;
        }
        Ok(())
    }

    /// The key by which the copy was whole after so many lines, of which all `exchanged` lines are
    /// judged.
    pub fn stamp_at(&self, node: NodeId, p: PartitionId, lines: usize) -> Option<ClusterKey>
        ensures { result ≡ stamped_key self.now.lines.now (stamps_at self.now node p) lines }
    {
        match self.stamps.get(&(node.number(), p.number())) {
            None => None,
            Some(stamps) => self.key_by(stamps.stamp_at(lines)),
        }
    }

    /// The key of the view by which the line at that place stamps.
    fn key_by(&self, place: Option<usize>) -> Option<ClusterKey>
        ensures { result ≡ option_and_then (stamping_key_at self.now.lines.now) place }
    {
        match place {
            None => None,
            Some(place) => key_at(self.lines, place),
        }
    }

    /// Judges the `exchanged` lines of the node that weren't judged yet: whether each makes its
    /// copy of the partition whole.
    pub fn judge_exchanged(&mut self, node: NodeId, p: PartitionId) -> Result<(), NoMemory>
        requires rises { AreAscending (exchanged_by (node_at self.old node)) }
        requires right { JudgesRight self.old node p (stamps_at self.old node p) }
        ensures { OnOk result
            (JudgesSome node p (length (exchanged_by (node_at self.old node))) self.old self.new) }
    {
        self.open_stamps(node, p)?;
        for i in self.judged(node, p)..self.exchanged_count(node) {
            self.judge_next(i, node, p)?;
        }
        Ok(())
    }

    /// Judges the node's `exchanged` line of this number, from 0: those before it are judged.
    fn judge_next(&mut self, i: usize, node: NodeId, p: PartitionId) -> Result<(), NoMemory>
        requires rises { AreAscending (exchanged_by (node_at self.old node)) }
        requires right { JudgesRight self.old node p (stamps_at self.old node p) }
        requires judged { judged_of (stamps_at self.old node p) ≡ i }
        requires there { is_some (stamps_at self.old node p) ≡ true }
        requires some { i < length (exchanged_by (node_at self.old node)) }
        requires room { i + 1 < 2 ^ 64 }
        ensures { OnOk result (JudgesSome node p (i + 1) self.old self.new) }
    {
        if let Some(line) = self.exchanged_at(node, i) {
            self.judge_line(line, node, p)?;
        }
        Ok(())
    }

    fn judged(&self, node: NodeId, p: PartitionId) -> usize
        ensures { result ≡ judged_of (stamps_at self.now node p) }
    {
        match self.stamps.get(&(node.number(), p.number())) {
            None => 0,
            Some(stamps) => stamps.judged,
        }
    }

    fn exchanged_count(&self, node: NodeId) -> usize
        ensures { result ≡ length (exchanged_by (node_at self.now node)) }
    {
        match self.nodes.get(&node.number()) {
            None => 0,
            Some(node) => node.exchanged.len(),
        }
    }

    fn exchanged_at(&self, node: NodeId, i: usize) -> Option<usize>
        ensures { result ≡ slice_get (exchanged_by (node_at self.now node)) i }
    {
        self.nodes.get(&node.number())?.exchanged.get(i).copied()
    }

    /// Judges the `exchanged` line at that place.
    fn judge_line(&mut self, line: usize, node: NodeId, p: PartitionId) -> Result<(), NoMemory>
        requires there { is_some (stamps_at self.old node p) ≡ true }
        requires behind { AreUpTo line (wholes_of (stamps_at self.old node p)) }
        requires room { judged_of (stamps_at self.old node p) + 1 < 2 ^ 64 }
        ensures { OnOk result
            (ChangesStamps
            (HasJudged line (makes_whole self.old node p (slice_get self.old.lines.now line))) node
            p self.old self.new) }
    {
        let whole = self.makes_whole(line, node, p);
        if let Some(stamps) = self.stamps.get_mut(&(node.number(), p.number())) {
            stamps.judge(line, whole)?;
        }
        Ok(())
    }

    /// Whether the `exchanged` line at that place makes the node's copy of the partition whole.
    fn makes_whole(&self, line: usize, node: NodeId, p: PartitionId) -> bool
        ensures { result ≡ makes_whole self.now node p (slice_get self.now.lines.now line) }
    {
        match self.lines.get(line) {
            Some(Line::Exchanged { key, .. }) => self.begins_whole(*key, node, p),
            _ => false,
        }
    }
}
