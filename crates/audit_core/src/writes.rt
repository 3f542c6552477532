//! The writes of a view that are open, and what is tried as the last of a partition ends.
//!
//! A write of the list master is open from its `apply` line to the `done` line of its transaction.
ghost use Rattle.std.specs.Prelude.{◌≡◌, ◌<◌, ◌+◌, ◌-◌, ◌^◌, ℕ, Some, IfErr, IfOk, OnOk};
ghost use Rattle.journal_lines.specs.declared.line.Line.TheVariants as lines;
ghost use Rattle.audit_core.specs.Audits.{Comes, AcceptsLine, so_far};
ghost use Rattle.audit_core.specs.Known.{kept_view};
ghost use Rattle.audit_core.specs.Settling.{stand_at, open_from, TakesMasterWrite};
ghost use Rattle.audit_core.specs.Steps.{ChangesView};
ghost use Rattle.audit_core.specs.Trying.{JoinsRecord, KeepsKnown, KeepsStands};
ghost use Rattle.audit_core.specs.Ending.{EndsOne, StopsEnding, TriesDoubts, StopsDoubts, JoinsRecords, PartsOf, PartsOneOf};
ghost use Rattle.audit_core.specs.Verdicts.{StopsRightly};
ghost use Rattle.audit_state.specs.OpenWrites.{EndsWrite, IsToTry, OpensWrite, FinishesWrites};

use crate::judge::Judge;
use crate::verdict::Stop;
use audit_laws::Law;
use audit_state::{Doubts, key_pair};
use cluster_types::{ClusterKey, NoMemory, NodeId, PartitionId};

impl<'a> Judge<'a> {
    /// The list master's write is open, unless its `done` line stands already.
    pub fn open_write(
        &mut self,
        view: ClusterKey,
        node: NodeId,
        transaction: u32,
        p: PartitionId,
    ) -> Result<(), NoMemory>
        requires room { (stand_at self.old view p).open_writes < 2 ^ 64 - 1 }
        ensures { OnOk result (TakesMasterWrite view node transaction p self.old self.new) }
    {
        if !self.is_master(view, node, p) {
            return Ok(());
        }
        self.open_in_view(view, node, transaction, p)
    }

    fn open_in_view(
        &mut self,
        view: ClusterKey,
        node: NodeId,
        transaction: u32,
        p: PartitionId,
    ) -> Result<(), NoMemory>
        requires room { (stand_at self.old view p).open_writes < 2 ^ 64 - 1 }
        ensures { OnOk result (ChangesView (OpensWrite node transaction p) view self.old self.new) }
    {
        let alloc = self.alloc;
        match self.views.get_mut(&key_pair(view)) {
            None => Ok(()),
            Some(view) => view.open_write(alloc, node, transaction, p),
        }
    }

    /// Every other replica has the writes of the transaction.
    pub fn finish(
        &mut self,
        line: usize,
        node: NodeId,
        view: ClusterKey,
        transaction: u32,
    ) -> Result<(), Stop>
        requires comes { Comes self.old line (lines.Done node view transaction) }
        requires room { line < 2 ^ 63 }
        ensures ok { OnOk result
            (AcceptsLine self.old self.new line (lines.Done node view transaction)) }
        ensures err { IfErr result
            (λ stop. StopsRightly stop (so_far self.old line) (lines.Done node view transaction)) }
    {
        let ended = self.close(view, node, transaction)?;
        for p in &ended {
            self.end_write(line, view, *p)?;
        }
        Ok(())
    }

    /// The partitions of the transaction's open writes, which the line ends.
    fn close(
        &mut self,
        view: ClusterKey,
        node: NodeId,
        transaction: u32,
    ) -> Result<Vec<PartitionId>, NoMemory>
        ensures ended { IfOk result
            (λ ended. ended.items ≡ open_from (kept_view self.old view) node transaction) }
        ensures finishes { OnOk result
            (ChangesView (FinishesWrites node transaction) view self.old self.new) }
    {
        let alloc = self.alloc;
        match self.views.get_mut(&key_pair(view)) {
            None => Ok(Vec::new(alloc)),
            Some(view) => view.finish_writes(alloc, node, transaction),
        }
    }

    /// A write of the partition ends. Where it was the last that was open, what changed meanwhile
    /// is tried.
    fn end_write(&mut self, line: usize, view: ClusterKey, p: PartitionId) -> Result<(), Stop>
        requires room { line < 2 ^ 63 }
        requires open { 0 < (stand_at self.old view p).open_writes }
        ensures ok { OnOk result (EndsOne (line + 1) view p self.old self.new) }
        ensures keeps { OnOk result (KeepsKnown self.old self.new) }
        ensures err { IfErr result (λ stop. StopsEnding (line + 1) view p self.old stop) }
    {
        let Some(doubts) = self.count_out(view, p)? else {
            return Ok(());
        };
        self.try_doubts(&doubts, line, view, p)
    }

    /// Demands that each replica in the view holds the fold of each record of the partition that is
    /// in doubt, where the partition is bound.
    fn try_doubts(
        &mut self,
        doubts: &Doubts,
        line: usize,
        view: ClusterKey,
        p: PartitionId,
    ) -> Result<(), Stop>
        requires room { line < 2 ^ 63 }
        ensures ok { OnOk result (TriesDoubts (line + 1) view p doubts.now self.old self.new) }
        ensures keeps { OnOk result (KeepsStands self.old self.new) }
        ensures err { IfErr result (λ stop. StopsDoubts (line + 1) view p self.old stop) }
    {
        if !self.is_bound(view, p) {
            return Ok(());
        }
        if doubts.untried {
            return self.try_all(line, view, p);
        }
        self.try_suspects(doubts.suspects.as_slice(), view, p)
    }

    /// Demands it of each of these records that is one of the partition.
    fn try_suspects(&self, numbers: &[usize], view: ClusterKey, p: PartitionId) -> Result<(), Stop>
        ensures ok { OnOk result (JoinsRecords self.now view numbers.now p) }
        ensures err { IfErr result
            (λ stop. (stop ≡ Stop.Breaks Law.SettledJoin)
            × PartsOneOf self.now view numbers.now p) }
    {
        for number in numbers {
            self.try_suspect(*number, view, p)?;
        }
        Ok(())
    }

    fn try_suspect(&self, number: usize, view: ClusterKey, p: PartitionId) -> Result<(), Stop>
        ensures ok { OnOk result (JoinsRecord self.now view number p) }
        ensures err { IfErr result (λ stop. (stop ≡ Stop.Breaks Law.SettledJoin)
            × PartsOf self.now view number p) }
    {
        if self.records.partition(number) != Some(p) {
            return Ok(());
        }
        self.try_record(view, number, p)
    }

    /// One write of the partition less is open. Where none is left, what is to be tried, of which
    /// nothing is noted any longer.
    fn count_out(&mut self, view: ClusterKey, p: PartitionId) -> Result<Option<Doubts>, NoMemory>
        requires { 0 < (stand_at self.old view p).open_writes }
        ensures doubts { IfOk result (λ doubts. IsToTry (stand_at self.old view p) doubts) }
        ensures ends { OnOk result (ChangesView (EndsWrite p) view self.old self.new) }
    {
        let alloc = self.alloc;
        match self.views.get_mut(&key_pair(view)) {
            None => Ok(None),
            Some(view) => view.end_write(alloc, p),
        }
    }
}
