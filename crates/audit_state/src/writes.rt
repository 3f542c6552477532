//! What writes make of a view, and what is to be tried in its partitions.
//!
//! While a write of a partition's list master is open, what changed is noted: single records are suspects, and a partition
//! that became settled meanwhile is untried as a whole. As the last of the writes ends, that is what is to be tried.
ghost use Rattle.std.specs.Prelude.{◌≡◌, ◌<◌, ◌-◌, ◌^◌, ℕ, Some, None, cond, nat_eq, nat_lt, IfOk, OnOk, OnErr};
ghost use Rattle.std.specs.HashMap as hash;
ghost use Rattle.audit_state.specs.Keys.{pair_eq};
ghost use Rattle.audit_state.specs.OpenWrites.{SetsStand, SettlesPartition, Suspects, Distrusts, EndsWrite, IsLeft, IsToTry, OpensWrite, ListsOpen, FinishesWrites, opened_stand, left_stand, is_done_write, open_of};
ghost use Rattle.audit_state.specs.Written.{WritesRecord, RaisesApplied, ListsRecord, written_of, stand_in, stand_of};

use crate::versions::Versions;
use crate::views::{Partition, View, Write};
use cluster_types::{NoMemory, NodeId, PartitionId};
use std::alloc::Global;

/// What is to be tried of a partition as its last open write ends.
#[derive(Drop)]
pub struct Doubts {
    /// All records: it became settled while a write was open.
    pub untried: bool,
    /// The numbers of the records that changed while a write was open.
    pub suspects: Vec<usize>,
}

impl Partition {
    /// Where no write is open, what is to be tried, of which nothing is noted any longer.
    fn take_doubts(&mut self, alloc: Global) -> Option<Doubts>
        ensures doubts { IsLeft (stand_in (Some self.old)) result }
        ensures stand { stand_in (Some self.new) ≡ left_stand (stand_in (Some self.old)) }
        ensures written { self.new.written.items ≡ self.old.written.items }
    {
        if self.open > 0 {
            return None;
        }
        let untried = self.untried;
        self.untried = false;
        let suspects = std::mem::replace(&mut self.suspects, Vec::new(alloc));
        Some(Doubts { untried, suspects })
    }
}

impl View {
    // ---- open writes

    /// Whether the node's `done` line of the transaction stands.
    fn is_done(&self, node: NodeId, transaction: u32) -> bool
        ensures { result ≡ is_done_write self.now node transaction }
    {
        match self.writes.get(&(node.number(), transaction)) {
            None => false,
            Some(write) => write.done,
        }
    }

    /// A write of the list master is open in the partition, unless its `done` line stands already.
    pub fn open_write(
        &mut self,
        alloc: Global,
        node: NodeId,
        transaction: u32,
        p: PartitionId,
    ) -> Result<(), NoMemory>
        requires room { (stand_of self.old p).open_writes < 2 ^ 64 - 1 }
        ensures opens { OnOk result (OpensWrite node transaction p self.old self.new) }
        ensures refused { OnErr result
            (record self.new { partitions = self.old.partitions; writes = self.old.writes }
            ≡ self.old) }
    {
        if self.is_done(node, transaction) {
            return Ok(());
        }
        self.list_open(alloc, node, transaction, p)?;
        self.count_open(alloc, p)
    }

    fn list_open(
        &mut self,
        alloc: Global,
        node: NodeId,
        transaction: u32,
        p: PartitionId,
    ) -> Result<(), NoMemory>
        ensures lists { OnOk result (ListsOpen node transaction p self.old self.new) }
        ensures refused { OnErr result (record self.new { writes = self.old.writes } ≡ self.old) }
    {
        let mut write = self.take_write(alloc, node, transaction);
        write.open_in.push(p)?;
        self.put_write(node, transaction, write)
    }

    fn count_open(&mut self, alloc: Global, p: PartitionId) -> Result<(), NoMemory>
        requires room { (stand_of self.old p).open_writes < 2 ^ 64 - 1 }
        ensures counts { OnOk result
            (SetsStand p (opened_stand (stand_of self.old p)) self.old self.new) }
        ensures refused { OnErr result
            (record self.new { partitions = self.old.partitions } ≡ self.old) }
    {
        let mut partition = self.take_partition(alloc, p);
        partition.open += 1;
        self.put_partition(p, partition)
    }

    /// The `done` line of the transaction stands. Answers the partitions of its writes that were open as writes of the list
    /// master, once for each write, none of which is open in the transaction any longer.
    pub fn finish_writes(
        &mut self,
        alloc: Global,
        node: NodeId,
        transaction: u32,
    ) -> Result<Vec<PartitionId>, NoMemory>
        ensures ended { IfOk result (λ ended. ended.items ≡ open_of self.old node transaction) }
        ensures finishes { OnOk result (FinishesWrites node transaction self.old self.new) }
        ensures refused { OnErr result (record self.new { writes = self.old.writes } ≡ self.old) }
    {
        let mut write = self.take_write(alloc, node, transaction);
        write.done = true;
        let ended = std::mem::replace(&mut write.open_in, Vec::new(alloc));
        self.put_write(node, transaction, write)?;
        Ok(ended)
    }

    /// One write of the partition less is open. Answers, where none is left, what is to be tried, of which nothing is
    /// noted any longer.
    pub fn end_write(&mut self, alloc: Global, p: PartitionId) -> Result<Option<Doubts>, NoMemory>
        requires { 0 < (stand_of self.old p).open_writes }
        ensures doubts { IfOk result (λ doubts. IsToTry (stand_of self.old p) doubts) }
        ensures ends { OnOk result (EndsWrite p self.old self.new) }
        ensures refused { OnErr result
            (record self.new { partitions = self.old.partitions } ≡ self.old) }
    {
        let mut partition = self.take_partition(alloc, p);
        partition.open -= 1;
        let doubts = partition.take_doubts(alloc);
        self.put_partition(p, partition)?;
        Ok(doubts)
    }

    // ---- what is to be tried

    /// The list master's `settled` line of the partition stands.
    pub fn settle(&mut self, alloc: Global, p: PartitionId) -> Result<(), NoMemory>
        ensures settles { OnOk result (SettlesPartition p self.old self.new) }
        ensures refused { OnErr result
            (record self.new { partitions = self.old.partitions; settled = self.old.settled }
            ≡ self.old) }
    {
        self.settled.push(p)?;
        let mut partition = self.take_partition(alloc, p);
        partition.settled = true;
        self.put_partition(p, partition)
    }

    /// All records of the partition are to be tried once no write is open.
    pub fn distrust(&mut self, alloc: Global, p: PartitionId) -> Result<(), NoMemory>
        ensures distrusts { OnOk result (Distrusts p self.old self.new) }
        ensures refused { OnErr result
            (record self.new { partitions = self.old.partitions } ≡ self.old) }
    {
        let mut partition = self.take_partition(alloc, p);
        partition.untried = true;
        self.put_partition(p, partition)
    }

    /// The record is to be tried once no write is open.
    pub fn suspect(&mut self, alloc: Global, number: usize, p: PartitionId) -> Result<(), NoMemory>
        ensures suspects { OnOk result (Suspects number p self.old self.new) }
        ensures refused { OnErr result
            (record self.new { partitions = self.old.partitions } ≡ self.old) }
    {
        let mut partition = self.take_partition(alloc, p);
        partition.suspects.push(number)?;
        self.put_partition(p, partition)
    }

    // ---- what was written

    /// The write at the line is one of the view.
    pub fn write(
        &mut self,
        alloc: Global,
        versions: Versions<'_>,
        line: usize,
        number: usize,
        p: PartitionId,
    ) -> Result<(), NoMemory>
        ensures writes { OnOk result (WritesRecord versions.entry.by versions.entry.lines.now line
            number p self.old self.new) }
        ensures rest { record self.new {
          applied = self.old.applied;
          written = self.old.written;
          partitions = self.old.partitions;
        }
            ≡ self.old }
    {
        let newest = self.applied.get(&number).copied();
        match newest {
            None => {
                self.list_written(alloc, number, p)?;
                self.raise_applied(versions, line, number, newest)
            }
            Some(_) => self.raise_applied(versions, line, number, newest),
        }
    }

    /// The version at the line is the newest of the record, where none is above it.
    fn raise_applied(
        &mut self,
        versions: Versions<'_>,
        line: usize,
        number: usize,
        newest: Option<usize>,
    ) -> Result<(), NoMemory>
        requires { newest ≡ hash.get nat_eq self.old.applied number }
        ensures applied { OnOk result (RaisesApplied versions.entry.by versions.entry.lines.now line
            number newest self.old self.new) }
        ensures rest { record self.new { applied = self.old.applied } ≡ self.old }
    {
        if versions.at_most(Some(line), newest) {
            return Ok(());
        }
        self.applied.insert(number, line)?;
        Ok(())
    }

    /// Lists a record that is written for the first time.
    fn list_written(&mut self, alloc: Global, number: usize, p: PartitionId) -> Result<(), NoMemory>
        ensures lists { OnOk result (ListsRecord number p self.old self.new) }
        ensures rest { record self.new
            { written = self.old.written; partitions = self.old.partitions }
            ≡ self.old }
    {
        self.written.push(number)?;
        let mut partition = self.take_partition(alloc, p);
        partition.written.push(number)?;
        self.put_partition(p, partition)
    }

    /// Takes the partition out, of which nothing is known where it isn't there.
    fn take_partition(&mut self, alloc: Global, p: PartitionId) -> Partition
        ensures written { result.written.items ≡ written_of self.old p }
        ensures stand { stand_in (Some result) ≡ stand_of self.old p }
        ensures others { (q : ℕ)
            → hash.get nat_eq self.new.partitions q
            ≡ cond (nat_eq p q) None (hash.get nat_eq self.old.partitions q) }
        ensures rest { record self.new { partitions = self.old.partitions } ≡ self.old }
    {
        match self.partitions.remove(&p.number()) {
            None => Partition::new(alloc),
            Some(partition) => partition,
        }
    }

    fn put_partition(&mut self, p: PartitionId, partition: Partition) -> Result<(), NoMemory>
        ensures partition { OnOk result
            ((q : ℕ)
            → hash.get nat_eq self.new.partitions q
            ≡ cond (nat_eq p q) (Some partition) (hash.get nat_eq self.old.partitions q)) }
        ensures rest { record self.new { partitions = self.old.partitions } ≡ self.old }
    {
        self.partitions.insert(p.number(), partition)?;
        Ok(())
    }

    /// Takes the writes of the transaction out, of which nothing is known where they aren't there.
    fn take_write(&mut self, alloc: Global, node: NodeId, transaction: u32) -> Write
        ensures done { result.done ≡ is_done_write self.old node transaction }
        ensures partitions { result.open_in.items ≡ open_of self.old node transaction }
        ensures others { (q : ℕ × ℕ)
            → hash.get pair_eq self.new.writes q
            ≡ cond (pair_eq (node, transaction) q) None (hash.get pair_eq self.old.writes q) }
        ensures rest { record self.new { writes = self.old.writes } ≡ self.old }
    {
        match self.writes.remove(&(node.number(), transaction)) {
            None => Write::new(alloc),
            Some(write) => write,
        }
    }

    fn put_write(&mut self, node: NodeId, transaction: u32, write: Write) -> Result<(), NoMemory>
        ensures write { OnOk result
            ((q : ℕ × ℕ)
            → hash.get pair_eq self.new.writes q ≡ cond (pair_eq (node, transaction) q)
            (Some write) (hash.get pair_eq self.old.writes q)) }
        ensures rest { record self.new { writes = self.old.writes } ≡ self.old }
    {
        self.writes.insert((node.number(), transaction), write)?;
        Ok(())
    }
}
