//! What is tried as a list master finishes exchange, by which those of its partitions are settled
//! that no member had a record of as it entered: each of their records that was applied in the
//! view, or changed at a member since it entered.
ghost use Rattle.std.specs.Prelude.{◌≡◌, ℕ, ◌∷◌, [], length, option_to_list, IfErr, OnOk};
ghost use Rattle.audit_core.specs.Emptied.{is_empty_for, written_list, stay_list, stay_in, moved_in, StopsEmpty, TriesEmpty};
ghost use Rattle.audit_core.specs.Known.{node_at, kept_view};
ghost use Rattle.audit_core.specs.Trying.{KeepsKnown, written_item, changed_item};

use crate::judge::Judge;
use crate::verdict::Stop;
use cluster_types::{ClusterKey, NodeId, PartitionId};

impl<'a> Judge<'a> {
    /// The records that were applied in the view, or changed at a member that is in it, are tried
    /// in it where the list master settles their partition by having finished exchange.
    pub fn try_empty(&mut self, master: NodeId, view: ClusterKey) -> Result<(), Stop>
        ensures ok { OnOk result
            (TriesEmpty master view (moved_in self.old view) self.old self.new) }
        ensures keeps { OnOk result (KeepsKnown self.old self.new) }
        ensures err { IfErr result (λ stop. StopsEmpty self.old stop) }
    {
        self.try_written(master, view)?;
        let Some(members) = self.members_of(view) else {
            return Ok(());
        };
        for m in members.as_slice() {
            self.try_member(master, view, m.id)?;
        }
        Ok(())
    }

    /// Tries the records that were applied in the view.
    fn try_written(&mut self, master: NodeId, view: ClusterKey) -> Result<(), Stop>
        ensures ok { OnOk result
            (TriesEmpty master view (written_list (kept_view self.old view)) self.old self.new) }
        ensures keeps { OnOk result (KeepsKnown self.old self.new) }
        ensures err { IfErr result (λ stop. StopsEmpty self.old stop) }
    {
        for i in 0..self.written_count(view) {
            let number = self.written_at(view, i);
            self.try_item(master, view, number)?;
        }
        Ok(())
    }

    fn written_count(&self, view: ClusterKey) -> usize
        ensures { result ≡ length (written_list (kept_view self.now view)) }
    {
        match self.view_of(view) {
            None => 0,
            Some(view) => view.written.len(),
        }
    }

    fn written_at(&self, view: ClusterKey, i: usize) -> Option<usize>
        ensures { result ≡ written_item (kept_view self.now view) i }
    {
        self.view_of(view)?.written.get(i).copied()
    }

    /// Tries the records that changed at the member since it entered, where it is in the view.
    fn try_member(&mut self, master: NodeId, view: ClusterKey, node: NodeId) -> Result<(), Stop>
        ensures ok { OnOk result
            (TriesEmpty master view (stay_in self.old view node) self.old self.new) }
        ensures keeps { OnOk result (KeepsKnown self.old self.new) }
        ensures err { IfErr result (λ stop. StopsEmpty self.old stop) }
    {
        if !self.is_in_view(node, view) {
            return Ok(());
        }
        self.try_stay(master, view, node)
    }

    /// Tries the records that changed at the node since it entered its view.
    fn try_stay(&mut self, master: NodeId, view: ClusterKey, node: NodeId) -> Result<(), Stop>
        ensures ok { OnOk result
            (TriesEmpty master view (stay_list (node_at self.old node)) self.old self.new) }
        ensures keeps { OnOk result (KeepsKnown self.old self.new) }
        ensures err { IfErr result (λ stop. StopsEmpty self.old stop) }
    {
        for i in 0..self.stay_count(node) {
            let number = self.changed_at(node, i);
            self.try_item(master, view, number)?;
        }
        Ok(())
    }

    fn stay_count(&self, node: NodeId) -> usize
        ensures { result ≡ length (stay_list (node_at self.now node)) }
    {
        match self.nodes.get(&node.number()) {
            None => 0,
            Some(node) => node.stay.len(),
        }
    }

    fn changed_at(&self, node: NodeId, i: usize) -> Option<usize>
        ensures { result ≡ changed_item (node_at self.now node) i }
    {
        self.nodes.get(&node.number())?.stay.get(i).copied()
    }

    /// Tries the record, if it is one.
    fn try_item(
        &mut self,
        master: NodeId,
        view: ClusterKey,
        number: Option<usize>,
    ) -> Result<(), Stop>
        ensures ok { OnOk result
            (TriesEmpty master view (option_to_list number) self.old self.new) }
        ensures keeps { OnOk result (KeepsKnown self.old self.new) }
        ensures err { IfErr result (λ stop. StopsEmpty self.old stop) }
    {
        let Some(number) = number else {
            return Ok(());
        };
        self.try_empty_record(master, view, number)
    }

    /// Tries the record where the list master settles its partition by having finished exchange.
    fn try_empty_record(
        &mut self,
        master: NodeId,
        view: ClusterKey,
        number: usize,
    ) -> Result<(), Stop>
        ensures ok { OnOk result (TriesEmpty master view (number ∷ []) self.old self.new) }
        ensures keeps { OnOk result (KeepsKnown self.old self.new) }
        ensures err { IfErr result (λ stop. StopsEmpty self.old stop) }
    {
        let Some(p) = self.records.partition(number) else {
            return Ok(());
        };
        if !self.is_empty_for(view, master, p) {
            return Ok(());
        }
        self.touch(view, number, p)
    }

    /// Whether the node is the list master, and no member had a record of the partition as it
    /// entered.
    fn is_empty_for(&self, view: ClusterKey, master: NodeId, p: PartitionId) -> bool
        ensures { result ≡ is_empty_for self.now view master p }
    {
        self.is_master(view, master, p) && self.is_empty_everywhere(view, p)
    }
}
