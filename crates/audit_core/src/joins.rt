//! Whether the replicas of settled partitions hold the join of their view.
//!
//! A partition of a view is *bound* while it is settled there and its list master is in the view,
//! and *closed* while no write of the list master is open. Where it is both, each replica in the
//! view is to hold the view's fold of each of its records. Only what a line can have changed is
//! tried; while a write is open it is noted, and tried as the write ends.
ghost use Rattle.std.specs.Prelude.{◌≡◌, ◌↔◌, ◌<◌, ◌≤◌, ◌+◌, ◌-◌, ◌^◌, ℕ, true, false, nat_lt, slice_get, length, take, option_map, option_to_list, Some, IfErr, IfOk, OnOk, IsTrue};
ghost use Rattle.std.specs.List.{list_all};
ghost use Rattle.journal_lines.specs.declared.line.Line.TheVariants as lines;
ghost use Rattle.audit_core.specs.Audits.{Comes, AcceptsLine, so_far};
ghost use Rattle.audit_core.specs.Known.{view_at, kept_view};
ghost use Rattle.audit_core.specs.Sees.{IsBound};
ghost use Rattle.audit_core.specs.Settling.{stand_at, is_master_in, is_settled_in, master_from};
ghost use Rattle.audit_core.specs.Steps.{ChangesView};
ghost use Rattle.audit_core.specs.Covering.{HaveNumber, IsCover, SeesCovers, cover_number, cover_of};
ghost use Rattle.audit_core.specs.Trying.{SeesLines, SeesSettled, joins_at, holds_just, covers_record, JoinsRecord, PartsRecord, TriesRecord, TriesPresent, TriesPartition, JoinsPartition, StopsRecord, StopsTrying, StopsAll, KeepsKnown, KeepsStands, NotesCover, TriesPartitions, settled_list, settled_item};
ghost use Rattle.audit_core.specs.Verdicts.{StopsRightly};
ghost use Rattle.audit_core.specs.Replicas.{TellsCover, TellsChanges, TellsNoMore, TellsNoMoreSince, LearnsCover, JoinsEntry, JoinsEntries, JoinsReplica, JoinsEachReplica, StopsEntry, StopsEntries, StopsReplica, StopsReplicas, covers_change, holds_at_most, holds_change, holds_fold, written_from};
ghost use Rattle.audit_core.specs.Shapes.{entry_in};
ghost use Rattle.audit_state.specs.Stores.{changes_of, touched_of};
ghost use Rattle.audit_state.specs.Written.{written_of};
ghost use Rattle.audit_state.specs.OpenWrites.{SettlesPartition, Suspects, Distrusts};

use crate::judge::Judge;
use crate::verdict::{Stop, demand};
use audit_laws::Law;
use audit_state::{Cover, View, key_pair};
use cluster_types::{ClusterKey, Member, Members, NoMemory, NodeId, PartitionId};

impl<'a> Judge<'a> {
    /// Whether the partition is settled in the view, and its list master is in it.
    pub fn is_bound(&self, view: ClusterKey, p: PartitionId) -> bool
        ensures { (i : ℕ) → SeesLines self.now i → SeesSettled self.now i
            → IsTrue result ↔ IsBound view p (so_far self.now i) }
    {
        match self.master(view, p) {
            None => false,
            Some(master) => { self.is_in_view(master, view) && self.is_settled_by(master, view, p) }
        }
    }

    /// Whether the list master says so, or has finished exchange where no member had a record of
    /// the partition.
    fn is_settled_by(&self, master: NodeId, view: ClusterKey, p: PartitionId) -> bool
        ensures { result ≡ is_settled_in self.now master view p }
    {
        self.has_settled_line(view, p)
            || (self.has_exchanged(view, master) && self.is_empty_everywhere(view, p))
    }

    /// The list master.
    fn master(&self, view: ClusterKey, p: PartitionId) -> Option<NodeId>
        ensures { result ≡ master_from (kept_view self.now view) p }
    {
        match self.view_of(view) {
            None => None,
            Some(view) => view.master(p),
        }
    }

    fn has_settled_line(&self, view: ClusterKey, p: PartitionId) -> bool
        ensures { result ≡ (stand_at self.now view p).settled }
    {
        match self.view_of(view) {
            None => false,
            Some(view) => view.has_settled_line(p),
        }
    }

    fn is_open(&self, view: ClusterKey, p: PartitionId) -> bool
        ensures { result ≡ nat_lt 0 (stand_at self.now view p).open_writes }
    {
        match self.view_of(view) {
            None => false,
            Some(view) => view.is_open(p),
        }
    }

    // ---- single records

    /// The fold of the view at the record, or what a node in the view holds of it, changed.
    pub fn touch(&mut self, view: ClusterKey, number: usize, p: PartitionId) -> Result<(), Stop>
        ensures ok { OnOk result (TriesRecord view number p self.old self.new) }
        ensures keeps { OnOk result (KeepsKnown self.old self.new) }
        ensures err { IfErr result (λ stop. StopsRecord self.old number p stop) }
    {
        if !self.is_bound(view, p) {
            return Ok(());
        }
        if self.is_open(view, p) {
            self.suspect(view, number, p)?;
            return Ok(());
        }
        self.try_record(view, number, p)
    }

    /// What the node holds of the record changed, which is tried in its view where that isn't the
    /// other one.
    pub fn touch_at(
        &mut self,
        node: NodeId,
        number: usize,
        p: PartitionId,
        other: Option<ClusterKey>,
    ) -> Result<(), Stop>
        ensures ok { OnOk result
            (TriesPresent (view_at self.old node) other number p self.old self.new) }
        ensures keeps { OnOk result (KeepsKnown self.old self.new) }
        ensures err { IfErr result (λ stop. StopsRecord self.old number p stop) }
    {
        match self.present_view(node) {
            None => Ok(()),
            Some(view) => {
                if is_key(other, view) {
                    return Ok(());
                }
                self.touch(view, number, p)
            }
        }
    }

    /// Notes that the record is to be tried once no write is open.
    fn suspect(&mut self, view: ClusterKey, number: usize, p: PartitionId) -> Result<(), NoMemory>
        ensures { OnOk result (ChangesView (Suspects number p) view self.old self.new) }
    {
        let alloc = self.alloc;
        match self.views.get_mut(&key_pair(view)) {
            None => Ok(()),
            Some(view) => view.suspect(alloc, number, p),
        }
    }

    /// Demands that each replica in the view holds the fold of the record.
    pub fn try_record(&self, view: ClusterKey, number: usize, p: PartitionId) -> Result<(), Stop>
        ensures ok { OnOk result (JoinsRecord self.now view number p) }
        ensures err { IfErr result
            (λ stop. (stop ≡ Stop.Breaks Law.SettledJoin) × PartsRecord self.now view number p) }
    {
        demand(self.are_joined(view, number, p), Law::SettledJoin)
    }

    /// Whether each replica in the view holds the fold of the record.
    fn are_joined(&self, view: ClusterKey, number: usize, p: PartitionId) -> bool
        ensures joined { result ≡ true → JoinsRecord self.now view number p }
        ensures parted { result ≡ false → PartsRecord self.now view number p }
    {
        let fold = self.fold(view, number);
        match self.view_of(view) {
            None => true,
            Some(known) => self.are_joined_at(known.list(p).as_slice(), view, number, fold),
        }
    }

    /// Whether each of the replicas that is in the view holds the version at that place.
    fn are_joined_at(
        &self,
        list: &[NodeId],
        view: ClusterKey,
        number: usize,
        place: Option<usize>,
    ) -> bool
        ensures { result ≡ list_all (joins_at self.now view number place)
            (take self.now.factor list.now) }
    {
        list.iter()
            .take(usize::from(self.factor))
            .all(|node| self.joins_at(*node, view, number, place))
    }

    fn joins_at(&self, node: NodeId, view: ClusterKey, number: usize, place: Option<usize>) -> bool
        ensures { result ≡ joins_at self.now view number place node }
    {
        !self.is_in_view(node, view) || self.holds_just(node, number, place)
    }

    /// Whether the node holds the version at that place.
    fn holds_just(&self, node: NodeId, number: usize, place: Option<usize>) -> bool
        ensures { result ≡ holds_just self.now number place node }
    {
        let held = self.content(node, number);
        self.is_at_most(held, place) && self.is_at_most(place, held)
    }

    // ---- whole partitions

    /// A node settles a partition.
    pub fn settle(
        &mut self,
        line: usize,
        node: NodeId,
        view: ClusterKey,
        p: PartitionId,
    ) -> Result<(), Stop>
        requires comes { Comes self.old line (lines.Settled node view p) }
        requires room { line < 2 ^ 63 }
        ensures ok { OnOk result (AcceptsLine self.old self.new line (lines.Settled node view p)) }
        ensures err { IfErr result
            (λ stop. StopsRightly stop (so_far self.old line) (lines.Settled node view p)) }
    {
        if !self.is_master(view, node, p) {
            return Ok(());
        }
        if self.has_settled_line(view, p) {
            return Ok(());
        }
        self.note_settled(view, p)?;
        self.begin(line, view, p)
    }

    pub fn is_master(&self, view: ClusterKey, node: NodeId, p: PartitionId) -> bool
        ensures { result ≡ is_master_in (kept_view self.now view) node p }
    {
        match self.view_of(view) {
            None => false,
            Some(view) => view.master(p) == Some(node),
        }
    }

    fn note_settled(&mut self, view: ClusterKey, p: PartitionId) -> Result<(), NoMemory>
        ensures { OnOk result (ChangesView (SettlesPartition p) view self.old self.new) }
    {
        let alloc = self.alloc;
        match self.views.get_mut(&key_pair(view)) {
            None => Ok(()),
            Some(view) => view.settle(alloc, p),
        }
    }

    /// The partition became settled in the view, or another member's entry came to its fold.
    fn begin(&mut self, line: usize, view: ClusterKey, p: PartitionId) -> Result<(), Stop>
        requires room { line < 2 ^ 63 }
        ensures ok { OnOk result (TriesPartition (line + 1) view p self.old self.new) }
        ensures keeps { OnOk result (KeepsKnown self.old self.new) }
        ensures err { IfErr result (λ stop. StopsTrying self.old (line + 1) stop) }
    {
        if !self.is_bound(view, p) {
            return Ok(());
        }
        if self.is_open(view, p) {
            self.distrust(view, p)?;
            return Ok(());
        }
        self.try_all(line, view, p)
    }

    /// Notes that all records are to be tried once no write is open.
    fn distrust(&mut self, view: ClusterKey, p: PartitionId) -> Result<(), NoMemory>
        ensures { OnOk result (ChangesView (Distrusts p) view self.old self.new) }
    {
        let alloc = self.alloc;
        match self.views.get_mut(&key_pair(view)) {
            None => Ok(()),
            Some(view) => view.distrust(alloc, p),
        }
    }

    /// A node entered the view: tries the partitions that were settled in it before.
    pub fn try_settled_before(&mut self, line: usize, view: ClusterKey) -> Result<(), Stop>
        requires room { line < 2 ^ 63 }
        ensures ok { OnOk result
            (TriesPartitions (line + 1) view
            (settled_list (kept_view self.old view)) self.old self.new) }
        ensures keeps { OnOk result (KeepsKnown self.old self.new) }
        ensures err { IfErr result (λ stop. StopsTrying self.old (line + 1) stop) }
    {
        for i in 0..self.settled_count(view) {
            let p = self.settled_at(view, i);
            self.begin_item(line, view, p)?;
        }
        Ok(())
    }

    /// Begins the partition, if it is one.
    fn begin_item(
        &mut self,
        line: usize,
        view: ClusterKey,
        p: Option<PartitionId>,
    ) -> Result<(), Stop>
        requires room { line < 2 ^ 63 }
        ensures ok { OnOk result
            (TriesPartitions (line + 1) view (option_to_list p) self.old self.new) }
        ensures keeps { OnOk result (KeepsKnown self.old self.new) }
        ensures err { IfErr result (λ stop. StopsTrying self.old (line + 1) stop) }
    {
        let Some(p) = p else {
            return Ok(());
        };
        self.begin(line, view, p)
    }

    fn settled_count(&self, view: ClusterKey) -> usize
        ensures { result ≡ length (settled_list (kept_view self.now view)) }
    {
        match self.view_of(view) {
            None => 0,
            Some(view) => view.settled.len(),
        }
    }

    fn settled_at(&self, view: ClusterKey, i: usize) -> Option<PartitionId>
        ensures { result ≡ settled_item (kept_view self.now view) i }
    {
        self.view_of(view)?.settled.get(i).copied()
    }

    pub fn members_of(&self, view: ClusterKey) -> Option<Members>
        ensures { result ≡ option_map (λ x. x.members) (kept_view self.now view) }
    {
        Some(self.view_of(view)?.members)
    }

    /// Demands that each replica in the view holds the fold of every record of the partition.
    pub fn try_all(&mut self, line: usize, view: ClusterKey, p: PartitionId) -> Result<(), Stop>
        requires room { line < 2 ^ 63 }
        ensures ok { OnOk result (JoinsPartition (line + 1) view p self.old self.new) }
        ensures keeps { OnOk result (KeepsStands self.old self.new) }
        ensures err { IfErr result (λ stop. StopsAll (line + 1) view p self.old stop) }
    {
        let Some(known) = self.view_of(view) else {
            return Ok(());
        };
        let list = known.list(p);
        let replicas = first_of(list.as_slice(), usize::from(self.factor));
        self.try_replicas(replicas, line + 1, view, p)
    }

    /// Demands it of those of the nodes that are in the view.
    fn try_replicas(
        &mut self,
        list: &[NodeId],
        now: usize,
        view: ClusterKey,
        p: PartitionId,
    ) -> Result<(), Stop>
        ensures ok { OnOk result (JoinsEachReplica now view list.now p self.old self.new) }
        ensures keeps { OnOk result (KeepsStands self.old self.new) }
        ensures err { IfErr result (λ stop. StopsReplicas now view list.now p self.old stop) }
    {
        for node in list {
            self.try_replica(now, view, *node, p)?;
        }
        Ok(())
    }

    /// Demands that a replica in the view, after so many lines, holds what each member held as it
    /// entered, the fold of each record that was applied in the view, and nothing above the fold of
    /// another.
    fn try_replica(
        &mut self,
        now: usize,
        view: ClusterKey,
        node: NodeId,
        p: PartitionId,
    ) -> Result<(), Stop>
        ensures ok { OnOk result (JoinsReplica now view node p self.old self.new) }
        ensures keeps { OnOk result (KeepsStands self.old self.new) }
        ensures err { IfErr result (λ stop. StopsReplica now view node p self.old stop) }
    {
        if !self.is_in_view(node, view) {
            return Ok(());
        }
        let Some(members) = self.members_of(view) else {
            return Ok(());
        };
        self.try_entries(members.as_slice(), now, view, node, p)?;
        demand(self.holds_written(view, node, p), Law::SettledJoin)?;
        demand(self.holds_no_more(view, node, p), Law::SettledJoin)
    }

    /// Demands that it holds what each of the members held as it entered.
    fn try_entries(
        &mut self,
        members: &[Member],
        now: usize,
        view: ClusterKey,
        node: NodeId,
        p: PartitionId,
    ) -> Result<(), Stop>
        ensures ok { OnOk result (JoinsEntries now view node members.now p self.old self.new) }
        ensures keeps { OnOk result (KeepsStands self.old self.new) }
        ensures err { IfErr result
            (λ stop. StopsEntries now view node members.now p self.old stop) }
    {
        for m in members {
            self.try_entry(m.id, now, view, node, p)?;
        }
        Ok(())
    }

    fn try_entry(
        &mut self,
        member: NodeId,
        now: usize,
        view: ClusterKey,
        node: NodeId,
        p: PartitionId,
    ) -> Result<(), Stop>
        ensures ok { OnOk result (JoinsEntry now view node member p self.old self.new) }
        ensures keeps { OnOk result (KeepsStands self.old self.new) }
        ensures err { IfErr result (λ stop. StopsEntry now view node member p self.old stop) }
    {
        let Some(entry) = self.entry(view, member) else {
            return Ok(());
        };
        let holds = self.covers(now, node, member, entry, p)?;
        demand(holds, Law::SettledJoin)
    }

    /// Whether the node holds the fold of each record that was applied in the view.
    fn holds_written(&self, view: ClusterKey, node: NodeId, p: PartitionId) -> bool
        ensures { result ≡ list_all (holds_fold self.now view node)
            (written_from (kept_view self.now view) p) }
    {
        match self.view_of(view) {
            None => true,
            Some(known) => self.holds_folds(written_of(known, p), view, node),
        }
    }

    fn holds_folds(&self, numbers: &[usize], view: ClusterKey, node: NodeId) -> bool
        ensures { result ≡ list_all (holds_fold self.now view node) numbers.now }
    {
        numbers
            .iter()
            .all(|number| self.holds_fold(view, node, *number))
    }

    fn holds_fold(&self, view: ClusterKey, node: NodeId, number: usize) -> bool
        ensures { result ≡ holds_fold self.now view node number }
    {
        let (held, fold) = (self.content(node, number), self.fold(view, number));
        self.is_at_most(held, fold) && self.is_at_most(fold, held)
    }

    fn holds_at_most(&self, view: ClusterKey, node: NodeId, number: usize) -> bool
        ensures { result ≡ holds_at_most self.now view node number }
    {
        let (held, fold) = (self.content(node, number), self.fold(view, number));
        self.is_at_most(held, fold)
    }

    /// Whether the node holds at most the fold of each record that changed since it entered the
    /// view.
    fn holds_no_more(&self, view: ClusterKey, node: NodeId, p: PartitionId) -> bool
        ensures { TellsNoMoreSince self.now view node (entry_in (kept_view self.now view) node)
            (changes_of self.now.stores node p) result }
    {
        match self.entry(view, node) {
            None => true,
            Some(entry) => self.holds_no_more_since(entry, view, node, p),
        }
    }

    fn holds_no_more_since(
        &self,
        from: usize,
        view: ClusterKey,
        node: NodeId,
        p: PartitionId,
    ) -> bool
        ensures { TellsNoMore self.now view node from (changes_of self.now.stores node p) result }
    {
        let first = self.stores.first_change(node, p, from);
        let last = self.stores.change_count(node, p);
        for i in first..last {
            if !self.holds_no_more_at(i, view, node, p) {
                return false;
            }
        }
        true
    }

    fn holds_no_more_at(&self, place: usize, view: ClusterKey, node: NodeId, p: PartitionId) -> bool
        ensures { result ≡ holds_change self.now view node
            (slice_get (changes_of self.now.stores node p) place) }
    {
        match self.stores.change_at(node, p, place) {
            None => true,
            Some(number) => self.holds_at_most(view, node, number),
        }
    }

    // ---- what a node holds of a member's records

    /// Whether the node, after so many lines, holds at least what the member held of each record of
    /// the partition after `of` lines.
    fn covers(
        &mut self,
        now: usize,
        node: NodeId,
        member: NodeId,
        of: usize,
        p: PartitionId,
    ) -> Result<bool, NoMemory>
        ensures covers { IfOk result
            (λ covers. LearnsCover now node member of p self.old self.new covers) }
        ensures keeps { OnOk result (KeepsStands self.old self.new) }
    {
        if !self.covers_all(now, node, member, of, p) {
            return Ok(false);
        }
        self.note_cover(node, member, Cover { held: now, of }, p)?;
        Ok(true)
    }

    /// Where it was known to do so earlier, only what changed since is compared.
    fn covers_all(
        &self,
        now: usize,
        node: NodeId,
        member: NodeId,
        of: usize,
        p: PartitionId,
    ) -> bool
        ensures { SeesLines self.now now → SeesCovers self.now now → of ≤ now
            → TellsCover self.now node member of p result }
    {
        match self.cover(node, member, p) {
            None => self.covers_touched(node, member, of, p),
            Some(cover) => self.covers_since(cover, now, node, member, of, p),
        }
    }

    fn covers_since(
        &self,
        cover: Cover,
        now: usize,
        node: NodeId,
        member: NodeId,
        of: usize,
        p: PartitionId,
    ) -> bool
        ensures { SeesLines self.now now → IsCover self.now now node member p cover → of ≤ now
            → TellsCover self.now node member of p result }
    {
        let (first, last) = (cover.of.min(of), cover.of.max(of));
        if !self.covers_changes(node, node, cover.held, now, member, of, p) {
            return false;
        }
        self.covers_changes(node, member, first, last, member, of, p)
    }

    fn cover(&self, node: NodeId, member: NodeId, p: PartitionId) -> Option<Cover>
        ensures cover { result ≡ cover_of self.now node member p }
        ensures ranges { HaveNumber node member p }
    {
        self.covers.get(&cover_number(node, member, p)).copied()
    }

    fn note_cover(
        &mut self,
        node: NodeId,
        member: NodeId,
        cover: Cover,
        p: PartitionId,
    ) -> Result<(), NoMemory>
        ensures keeps { OnOk result (KeepsStands self.old self.new) }
        ensures notes { OnOk result (NotesCover node member p cover self.old self.new) }
        ensures ranges { HaveNumber node member p }
    {
        self.covers.insert(cover_number(node, member, p), cover)?;
        Ok(())
    }

    /// Whether the node holds at least what the member held of the record after `of` lines.
    fn covers_record(&self, node: NodeId, member: NodeId, of: usize, number: usize) -> bool
        ensures { result ≡ covers_record self.now node member of number }
    {
        match self.content_at(member, number, of) {
            None => true,
            Some(held) => self.is_at_most(Some(held), self.content(node, number)),
        }
    }

    fn covers_touched(&self, node: NodeId, member: NodeId, of: usize, p: PartitionId) -> bool
        ensures { result ≡ list_all (covers_record self.now node member of)
            (touched_of self.now.stores member p) }
    {
        self.covers_each(self.stores.touched(member, p), node, member, of)
    }

    /// The same of each of these records.
    fn covers_each(&self, numbers: &[usize], node: NodeId, member: NodeId, of: usize) -> bool
        ensures { result ≡ list_all (covers_record self.now node member of) numbers.now }
    {
        numbers
            .iter()
            .all(|number| self.covers_record(node, member, of, *number))
    }

    /// The same of the records that changed at one of them from the one number of lines on to the
    /// other.
    fn covers_changes(
        &self,
        node: NodeId,
        changed: NodeId,
        from: usize,
        to: usize,
        member: NodeId,
        of: usize,
        p: PartitionId,
    ) -> bool
        ensures { TellsChanges self.now node member of from to
            (changes_of self.now.stores changed p) result }
    {
        let first = self.stores.first_change(changed, p, from);
        let last = self.stores.first_change(changed, p, to);
        for i in first..last {
            if !self.covers_change(i, node, changed, member, of, p) {
                return false;
            }
        }
        true
    }

    fn covers_change(
        &self,
        place: usize,
        node: NodeId,
        changed: NodeId,
        member: NodeId,
        of: usize,
        p: PartitionId,
    ) -> bool
        ensures { result ≡ covers_change self.now node member of
            (slice_get (changes_of self.now.stores changed p) place) }
    {
        match self.stores.change_at(changed, p, place) {
            None => true,
            Some(number) => self.covers_record(node, member, of, number),
        }
    }
}

/// Whether that is the key that was given.
fn is_key(given: Option<ClusterKey>, key: ClusterKey) -> bool
    ensures { IsTrue result ↔ (given ≡ Some key) }
{
    match given {
        None => false,
        Some(given) => given == key,
    }
}

/// The first of the nodes, this many or all.
#[tactic(auto, using(std::proofs::lemmas::List::take_min))]
fn first_of(nodes: &[NodeId], count: usize) -> &[NodeId]
    ensures { result.now ≡ take count nodes.now }
{
    &nodes[..count.min(nodes.len())]
}

/// The records of the partition that were applied in the view.
fn written_of(view: &View, p: PartitionId) -> &[usize]
    ensures { result.now ≡ written_of view.now p }
{
    match view.partitions.get(&p.number()) {
        None => &[],
        Some(partition) => partition.written.as_slice(),
    }
}

/// A node, a member and a partition as one number.
fn cover_number(node: NodeId, member: NodeId, p: PartitionId) -> u64
    ensures number { result ≡ cover_number node member p }
    ensures ranges { HaveNumber node member p }
{
    (u64::from(node.number()) * 65_536 + u64::from(member.number())) * 4_096 + u64::from(p.number())
}
