//! What the lines make of the nodes' contents.
ghost use Rattle.std.specs.Prelude.{◌≡◌, ◌↔◌, ◌+◌, ◌<◌, ◌-◌, ◌^◌, ℕ, List, Some, true, IsSome, IsTrue, IfErr, IfOk, OnOk, take, slice_get};
ghost use Rattle.std.specs.Option.{option_copied};
ghost use Rattle.conflict_order.specs.declared.version.Version.{Version};
ghost use Rattle.conflict_order.specs.Next.{next};
ghost use Rattle.cluster_types.specs.declared.cluster_key.ClusterKey.{ClusterKey};
ghost use Rattle.cluster_types.specs.Distinct.{AreDistinct};
ghost use Rattle.cluster_types.specs.Partitions.{partition_of};
ghost use Rattle.journal_lines.specs.declared.line.Line.{Line};
ghost use Rattle.journal_lines.specs.declared.line.Line.TheVariants as lines;
ghost use Rattle.journal_readings.specs.Lines.{has_node};
ghost use Rattle.journal_readings.specs.Settings.{nodes, policy_of};
ghost use Rattle.journal_readings.specs.Entries.{fold_of};
ghost use Rattle.audit_state.specs.declared.views.View.{View};
ghost use Rattle.audit_core.specs.Audits.{Comes, AcceptsLine, so_far};
ghost use Rattle.audit_state.specs.Copies.{StandUpTo};
ghost use Rattle.audit_core.specs.Dropping.{RemovesAll};
ghost use Rattle.audit_core.specs.Folds.{entry_place, folded, folded_in, clock_at, KnowsView};
ghost use Rattle.audit_state.specs.Histories.{AreUpTo, value_after};
ghost use Rattle.audit_core.specs.Holders.{AreHoldersCounted};
ghost use Rattle.audit_core.specs.Known.{view_at, kept_view};
ghost use Rattle.audit_state.specs.Places.{placed, placed_version};
ghost use Rattle.audit_state.specs.Records.{numbered_record, record_digest, AreNumberedRecords, Opens};
ghost use Rattle.audit_core.specs.Steps.{ChangesNode, ChangesView, HasChanged, HaveChanged};
ghost use Rattle.audit_core.specs.Stored.{Knows, SeesStores};
ghost use Rattle.audit_state.specs.Stores.{history_of, held_of, holding_of, changes_of};
ghost use Rattle.audit_core.specs.Trying.{KeepsKnown, TriesRecords, StopsRecords};
ghost use Rattle.audit_core.specs.Verdicts.{StopsRightly};
ghost use Rattle.audit_state.specs.Written.{WritesRecord};
ghost use Rattle.audit_core.specs.Bringing.{AppliesWrite, BringsVersion, BringsHere, KeepsLines, SeesHeld, StoresVersion, RemovesRecord, WritesHere, MergesHere};

use crate::judge::Judge;
use crate::verdict::{Stop, demand};
use audit_laws::Law;
use audit_state::{View, key_pair};
use cluster_types::{ClusterKey, Digest, NoMemory, NodeId, PartitionId, partition_of};
use conflict_order::Version;

impl<'a> Judge<'a> {
    /// A node applies the write at that place.
    pub fn apply(
        &mut self,
        line: usize,
        node: NodeId,
        view: ClusterKey,
        transaction: u32,
        digest: &Digest,
    ) -> Result<(), Stop>
        requires comes { (v : Version)
            × Comes self.old line (lines.Apply node view transaction digest.now v) }
        requires room { line < 2 ^ 63 }
        ensures ok { OnOk result
            ((v : Version) → Comes self.old line (lines.Apply node view transaction digest.now v)
            → AcceptsLine self.old self.new line (lines.Apply node view transaction digest.now v)) }
        ensures err { IfErr result
            (λ stop. (v : Version)
            → Comes self.old line (lines.Apply node view transaction digest.now v)
            → StopsRightly stop (so_far self.old line)
            (lines.Apply node view transaction digest.now v)) }
    {
        let number = self.open_record(digest)?;
        let p = partition_of(digest);
        let follows = self.follows_fold(line, node, view, number);
        self.hold_write(line, node, view, digest, number)?;
        self.note_change(node, number)?;
        self.open_write(view, node, transaction, p)?;
        self.touch(view, number, p)?;
        self.touch_at(node, number, p, Some(view))?;
        demand(follows, Law::ReadJoin)
    }

    /// A version comes to a node from another.
    pub fn merge(&mut self, line: usize, node: NodeId, digest: &Digest) -> Result<(), Stop>
        requires comes { (k : ClusterKey) × (v : Version)
            × Comes self.old line (lines.Merge node k digest.now v) }
        requires room { line < 2 ^ 63 }
        ensures ok { OnOk result
            ((k : ClusterKey) → (v : Version)
            → Comes self.old line (lines.Merge node k digest.now v)
            → AcceptsLine self.old self.new line (lines.Merge node k digest.now v)) }
        ensures err { IfErr result
            (λ stop. (k : ClusterKey) → (v : Version)
            → Comes self.old line (lines.Merge node k digest.now v)
            → StopsRightly stop (so_far self.old line) (lines.Merge node k digest.now v)) }
    {
        let number = self.open_record(digest)?;
        demand(self.was_applied(number, line), Law::NoLoss)?;
        self.hold_merge(line, node, digest, number)?;
        self.note_change(node, number)?;
        self.touch_at(node, number, partition_of(digest), None)
    }

    /// The node's copy of the partition has no record from the line on. Answers those that it had.
    pub fn drop_held(
        &mut self,
        line: usize,
        node: NodeId,
        p: PartitionId,
    ) -> Result<Vec<usize>, NoMemory>
        requires knows { Knows self.old line }
        requires drops { (k : ClusterKey)
            × (slice_get self.old.lines.now line ≡ Some (lines.Drop node k p)) }
        requires declared { IsTrue (has_node (nodes (take line self.old.lines.now)) node) }
        requires room { line < 2 ^ 64 - 1 }
        ensures dropped { IfOk result (λ dropped. dropped.items ≡ held_of self.old.stores node p) }
        ensures stores { OnOk result
            (SeesStores self.new (line + 1) self.old.lines.now
            (take (line + 1) self.old.lines.now)) }
        ensures keeps { OnOk result (KeepsLines self.old self.new) }
    {
        let dropped = self.stores.take_held(self.alloc, line, node, p)?;
        self.remove_all(line, node, p, &dropped)?;
        Ok(dropped)
    }

    fn remove_all(
        &mut self,
        line: usize,
        node: NodeId,
        p: PartitionId,
        dropped: &[usize],
    ) -> Result<(), NoMemory>
        requires there { (r : ℕ) → has_node dropped.now r ≡ true
            → IsSome (numbered_record self.old.records r) }
        requires contents { (r : ℕ) → AreUpTo line (history_of self.old.stores node r) }
        requires changes { StandUpTo line (changes_of self.old.stores node p) }
        requires counted { AreHoldersCounted self.old (nodes (take line self.old.lines.now)) }
        requires distinct { AreDistinct (nodes (take line self.old.lines.now)) }
        requires declared { IsTrue (has_node (nodes (take line self.old.lines.now)) node) }
        requires room { line < 2 ^ 64 - 1 }
        ensures removes { OnOk result (RemovesAll line node p dropped.now self.old self.new) }
        ensures counted { OnOk result
            (AreHoldersCounted self.new (nodes (take line self.old.lines.now))) }
    {
        for number in dropped {
            self.remove(line, node, *number, p)?;
        }
        Ok(())
    }

    /// The records are tried in the node's view.
    pub fn touch_all(&mut self, node: NodeId, p: PartitionId, numbers: &[usize]) -> Result<(), Stop>
        ensures ok { OnOk result
            (TriesRecords (view_at self.old node) numbers.now p self.old self.new) }
        ensures keeps { OnOk result (KeepsKnown self.old self.new) }
        ensures err { IfErr result (λ stop. StopsRecords self.old numbers.now p stop) }
    {
        for number in numbers {
            self.touch_at(node, *number, p, None)?;
        }
        Ok(())
    }

    /// The number of the record, which is new where no line applied or merged it before.
    fn open_record(&mut self, digest: &Digest) -> Result<usize, NoMemory>
        requires { AreNumberedRecords self.old.records }
        ensures opens { IfOk result (λ r. Opens self.old.records self.new.records digest.now r) }
        ensures rest { OnOk result (record self.new { records = self.old.records } ≡ self.old) }
        ensures knows { OnOk result ((i : ℕ) → Knows self.old i → Knows self.new i) }
    {
        let number = self.records.open(digest)?;
        Ok(number)
    }

    /// The write at the line is applied: what nodes hold, and what was written in the view.
    fn hold_write(
        &mut self,
        line: usize,
        node: NodeId,
        view: ClusterKey,
        digest: &Digest,
        number: usize,
    ) -> Result<(), NoMemory>
        requires knows { Knows self.old line }
        requires writes { (t : ℕ) × (v : Version)
            × WritesHere self.old line node number view digest.now t v }
        requires declared { IsTrue (has_node (nodes (take line self.old.lines.now)) node) }
        requires room { line < 2 ^ 64 - 1 }
        ensures stores { OnOk result
            (SeesStores self.new (line + 1) self.old.lines.now
            (take (line + 1) self.old.lines.now)) }
        ensures keeps { OnOk result
            (AppliesWrite self.old self.new line number (partition_of digest.now) view) }
    {
        let versions = self.versions();
        self.records.raise(versions, number, line);
        let p = partition_of(digest);
        self.bring(line, node, number, p)?;
        self.write_in_view(line, view, number, p)
    }

    /// The version at the line is merged: what nodes hold.
    fn hold_merge(
        &mut self,
        line: usize,
        node: NodeId,
        digest: &Digest,
        number: usize,
    ) -> Result<(), NoMemory>
        requires knows { Knows self.old line }
        requires merges { (k : ClusterKey) × (v : Version)
            × MergesHere self.old line node number digest.now k v }
        requires declared { IsTrue (has_node (nodes (take line self.old.lines.now)) node) }
        requires room { line < 2 ^ 64 - 1 }
        ensures stores { OnOk result
            (SeesStores self.new (line + 1) self.old.lines.now
            (take (line + 1) self.old.lines.now)) }
        ensures keeps { OnOk result (KeepsLines self.old self.new) }
    {
        let p = partition_of(digest);
        self.bring(line, node, number, p)
    }

    /// The node holds nothing of the record from the line on.
    fn remove(
        &mut self,
        line: usize,
        node: NodeId,
        number: usize,
        p: PartitionId,
    ) -> Result<(), NoMemory>
        requires there { IsSome (numbered_record self.old.records number) }
        requires contents { AreUpTo line (history_of self.old.stores node number) }
        requires changes { StandUpTo line (changes_of self.old.stores node p) }
        requires counted { AreHoldersCounted self.old (nodes (take line self.old.lines.now)) }
        requires distinct { AreDistinct (nodes (take line self.old.lines.now)) }
        requires declared { IsTrue (has_node (nodes (take line self.old.lines.now)) node) }
        requires room { line < 2 ^ 64 - 1 }
        ensures removes { OnOk result (RemovesRecord self.old self.new line node number p) }
        ensures counted { OnOk result
            (AreHoldersCounted self.new (nodes (take line self.old.lines.now))) }
    {
        let held = self.holds_newest(node, number);
        self.stores.remove(self.alloc, line, node, number, p)?;
        self.records.count(number, held, false);
        Ok(())
    }

    /// The version at the line comes to the node, which keeps the greater one.
    fn bring(
        &mut self,
        line: usize,
        node: NodeId,
        number: usize,
        p: PartitionId,
    ) -> Result<(), NoMemory>
        requires there { IsSome (numbered_record self.old.records number) }
        requires contents { AreUpTo line (history_of self.old.stores node number) }
        requires holding { AreUpTo line (holding_of self.old.stores node p) }
        requires changes { StandUpTo line (changes_of self.old.stores node p) }
        requires counted { AreHoldersCounted self.old (nodes (take line self.old.lines.now)) }
        requires distinct { AreDistinct (nodes (take line self.old.lines.now)) }
        requires declared { IsTrue (has_node (nodes (take line self.old.lines.now)) node) }
        requires room { line < 2 ^ 64 - 1 }
        ensures brings { OnOk result (BringsVersion self.old self.new line node number p) }
        ensures keeps { OnOk result (KeepsLines self.old self.new) }
        ensures sees { OnOk result
            ((l : Line) → (d : List ℕ) → (v : Version)
            → BringsHere self.old line node number p l d v → SeesHeld self.old line
            → SeesHeld self.new (line + 1)) }
        ensures counted { OnOk result
            (AreHoldersCounted self.new (nodes (take line self.old.lines.now))) }
    {
        if self
            .versions()
            .at_most(Some(line), self.content(node, number))
        {
            return Ok(());
        }
        self.store(line, node, number, p)
    }

    /// The node holds the version at the line.
    fn store(
        &mut self,
        line: usize,
        node: NodeId,
        number: usize,
        p: PartitionId,
    ) -> Result<(), NoMemory>
        requires there { IsSome (numbered_record self.old.records number) }
        requires contents { AreUpTo line (history_of self.old.stores node number) }
        requires holding { AreUpTo line (holding_of self.old.stores node p) }
        requires changes { StandUpTo line (changes_of self.old.stores node p) }
        requires counted { AreHoldersCounted self.old (nodes (take line self.old.lines.now)) }
        requires distinct { AreDistinct (nodes (take line self.old.lines.now)) }
        requires declared { IsTrue (has_node (nodes (take line self.old.lines.now)) node) }
        requires room { line < 2 ^ 64 - 1 }
        ensures stores { OnOk result (StoresVersion self.old self.new line node number p) }
        ensures counted { OnOk result
            (AreHoldersCounted self.new (nodes (take line self.old.lines.now))) }
    {
        let held = self.holds_newest(node, number);
        let holds = self.is_newest(number, Some(line));
        self.stores.store(self.alloc, line, node, number, p)?;
        self.records.count(number, held, holds);
        Ok(())
    }

    /// The record may have changed at the node, which has been in its view since.
    fn note_change(&mut self, node: NodeId, number: usize) -> Result<(), NoMemory>
        ensures { OnOk result (ChangesNode (HasChanged number) node self.old self.new) }
    {
        if let Some(known) = self.nodes.get_mut(&node.number()) {
            known.stay.push(number)?;
        }
        Ok(())
    }

    /// These records may have changed at the node.
    pub fn note_changes(&mut self, node: NodeId, numbers: &[usize]) -> Result<(), NoMemory>
        ensures { OnOk result (ChangesNode (HaveChanged numbers.now) node self.old self.new) }
    {
        if let Some(known) = self.nodes.get_mut(&node.number()) {
            known.stay.extend_from_slice(numbers)?;
        }
        Ok(())
    }

    /// The write is one of the view.
    fn write_in_view(
        &mut self,
        line: usize,
        view: ClusterKey,
        number: usize,
        p: PartitionId,
    ) -> Result<(), NoMemory>
        ensures { OnOk result
            (ChangesView
            (WritesRecord self.old.by self.old.lines.now line number p) view self.old self.new) }
    {
        let alloc = self.alloc;
        let versions = self.versions();
        match self.views.get_mut(&key_pair(view)) {
            None => Ok(()),
            Some(view) => view.write(alloc, versions, line, number, p),
        }
    }

    // ---- folds

    /// The fold of the view at the record: the place of the greatest version that a member held on
    /// entry or that was applied in it since.
    pub fn fold(&self, view: ClusterKey, number: usize) -> Option<usize>
        ensures said { placed self.now.lines.now result
            ≡ folded self.now (kept_view self.now view) number }
        ensures reads { (i : ℕ) → (d : List ℕ) → (x : View) → KnowsView self.now i view x
            → record_digest self.now.records number ≡ Some d
            → placed self.now.lines.now result
            ≡ fold_of (policy_of (take i self.now.lines.now)) view d (take i self.now.lines.now) }
    {
        match self.view_of(view) {
            None => None,
            Some(view) => self.fold_in(view, number),
        }
    }

    fn fold_in(&self, view: &View, number: usize) -> Option<usize>
        ensures { placed self.now.lines.now result ≡ folded_in self.now view.now number }
    {
        let mut fold = view.applied.get(&number).copied();
        for m in view.members.as_slice() {
            fold = self
                .versions()
                .join(fold, self.entry_content(view, m.id, number));
        }
        fold
    }

    /// What the node held of the record as it entered the view, if it has entered.
    fn entry_content(&self, view: &View, node: NodeId, number: usize) -> Option<usize>
        ensures { result ≡ entry_place self.now view.now number node }
    {
        match view.entry_of(node) {
            None => None,
            Some(line) => self.stores.content_at(node, number, line),
        }
    }

    /// What the node held of the record after so many lines.
    pub fn content_at(&self, node: NodeId, number: usize, lines: usize) -> Option<usize>
        ensures { result ≡ value_after (history_of self.now.stores node number) lines }
    {
        self.stores.content_at(node, number, lines)
    }

    /// Whether the write at the line is the next version of its view's fold before it.
    fn follows_fold(&self, line: usize, node: NodeId, view: ClusterKey, number: usize) -> bool
        ensures { (i : ℕ) → (d : List ℕ) → (v : Version) → (x : View) → KnowsView self.now i view x
            → record_digest self.now.records number ≡ Some d
            → placed_version self.now.lines.now line ≡ Some v
            → IsTrue result
            ↔ (v ≡ next
            (fold_of (policy_of (take i self.now.lines.now)) view d (take i self.now.lines.now))
            (clock_at self.now node) v.body) }
    {
        let versions = self.versions();
        let fold = versions.found(self.fold(view, number));
        match versions.at(line) {
            None => false,
            Some(version) => is_next(version, fold, self.clock(node)),
        }
    }

    fn clock(&self, node: NodeId) -> u64
        ensures { result ≡ clock_at self.now node }
    {
        match self.nodes.get(&node.number()) {
            None => 0,
            Some(node) => node.clock,
        }
    }

    /// Whether the version that a read found is the fold of its view.
    pub fn is_fold(&self, view: ClusterKey, digest: &Digest, found: &Option<Version>) -> bool
        ensures { (i : ℕ) → (x : View) → KnowsView self.now i view x
            → IsTrue result
            ↔ (found.now
            ≡ fold_of (policy_of (take i self.now.lines.now)) view digest.now
            (take i self.now.lines.now)) }
    {
        is_same(found, self.fold_of(view, digest))
    }

    fn fold_of(&self, view: ClusterKey, digest: &Digest) -> Option<&'a Version>
        ensures { (i : ℕ) → (x : View) → KnowsView self.now i view x
            → option_copied result
            ≡ fold_of (policy_of (take i self.now.lines.now)) view digest.now
            (take i self.now.lines.now) }
    {
        match self.records.number(digest) {
            None => None,
            Some(number) => self.versions().found(self.fold(view, number)),
        }
    }
}

/// Whether both are the same version, or both nothing.
fn is_same(a: &Option<Version>, b: Option<&Version>) -> bool
    ensures { IsTrue result ↔ (a.now ≡ option_copied b.entry) }
{
    match (a, b) {
        (None, None) => true,
        (Some(a), Some(b)) => a == b,
        _ => false,
    }
}

/// Whether the version is the one that a write of its body at that time makes of the best one.
fn is_next(version: &Version, best: Option<&Version>, clock: u64) -> bool
    ensures { IsTrue result
        ↔ (version.now ≡ next (option_copied best.entry) clock version.now.body) }
{
    match best {
        None => version.lut == clock && version.generation == 1,
        Some(best) => {
            version.lut == clock.max(best.lut)
                && version.generation == best.generation.saturating_add(1)
        }
    }
}
