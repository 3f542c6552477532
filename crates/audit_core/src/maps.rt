//! The list and the acting master that a `map` line is to show.
ghost use Rattle.std.specs.Prelude.{◌≡◌, ◌↔◌, ◌==◌, ℕ, true, Some, IfOk, OnOk, IsTrue, find, is_some, take};
ghost use Rattle.std.specs.List.{list_any, list_all};
ghost use Rattle.std.specs.Option.{option_copied};
ghost use Rattle.partition_lists.specs.Lists.{list};
ghost use Rattle.journal_readings.specs.Settings.{factor_of};
ghost use Rattle.journal_lines.specs.declared.line.Line.TheVariants as line;
ghost use Rattle.journal_readings.specs.Claims.{ShowsMap};
ghost use Rattle.journal_readings.specs.Maps.{acting, has_key_above, listed_members, with_roles};
ghost use Rattle.audit_core.specs.Audits.{Audits, KeepsAll, entered_whole, so_far};
ghost use Rattle.audit_core.specs.Known.{kept_view};
ghost use Rattle.audit_state.specs.Views.{entry_line};
ghost use Rattle.audit_core.specs.Shapes.{entry_in};
ghost use Rattle.audit_core.specs.Wholes as wholes;

use crate::judge::Judge;
use audit_state::View;
use cluster_types::{ClusterKey, Member, MemberList, Members, NoMemory, NodeId, PartitionId, Role};

/// A member of a list, and the key by which its copy was whole as it entered, if it was.
#[derive(Clone, Copy, Debug)]
struct Whole {
    node: NodeId,
    key: Option<ClusterKey>,
}

impl<'a> Judge<'a> {
    /// Whether these are the list of the partition, each member with its role in the view, and the
    /// member that acts. All members have entered.
    pub fn shows_map(
        &mut self,
        key: ClusterKey,
        p: PartitionId,
        members: &MemberList,
        acting: NodeId,
    ) -> Result<bool, NoMemory>
        requires audits { (i : ℕ) × Audits self.old i }
        ensures shown { IfOk result
            (λ shown. (i n : ℕ) → Audits self.old i → is_some (kept_view self.old key) ≡ true
            → IsTrue shown ↔ ShowsMap (so_far self.old i) (line.Map n key p members.now acting)) }
        ensures keeps { OnOk result (KeepsAll self.old self.new) }
        ensures audits { OnOk result ((i : ℕ) → Audits self.old i → Audits self.new i) }
    {
        if !self.shows_list(key, p, members.as_slice()) {
            return Ok(false);
        }
        let found = self.acting(key, p)?;
        Ok(is_node(found, acting))
    }

    fn shows_list(&self, key: ClusterKey, p: PartitionId, shown: &[Member]) -> bool
        ensures { (i : ℕ) → Audits self.now i → is_some (kept_view self.now key) ≡ true
            → IsTrue result ↔ (shown.now ≡ listed_members key p (so_far self.now i)) }
    {
        match self.view_of(key) {
            None => false,
            Some(view) => is_list(view, p, shown),
        }
    }

    /// The member that acts: of those whose copies were whole as they entered the one with the
    /// greatest key, the first in the list on a tie; the list master where no copy was whole.
    fn acting(&mut self, view: ClusterKey, p: PartitionId) -> Result<Option<NodeId>, NoMemory>
        requires audits { (i : ℕ) × Audits self.old i }
        ensures acting { IfOk result
            (λ found. (i : ℕ) → Audits self.old i → is_some (kept_view self.old view) ≡ true
            → found ≡ Some (acting (factor_of (so_far self.old i)) view p (so_far self.old i))) }
        ensures keeps { OnOk result (KeepsAll self.old self.new) }
        ensures audits { OnOk result ((i : ℕ) → Audits self.old i → Audits self.new i) }
    {
        let Some(known) = self.view_of(view) else {
            return Ok(None);
        };
        let list = known.list(p);
        let wholes = self.wholes(view, p, list.as_slice())?;
        Ok(first_newest(&wholes))
    }

    /// The members of the list, each with the key by which its copy was whole as it entered.
    fn wholes(
        &mut self,
        view: ClusterKey,
        p: PartitionId,
        list: &[NodeId],
    ) -> Result<Vec<Whole>, NoMemory>
        requires audits { (i : ℕ) × Audits self.old i }
        ensures wholes { IfOk result
            (λ found. (i : ℕ) → Audits self.old i
            → found.items ≡ wholes.with_keys (entered_whole self.old i view p) list.now) }
        ensures keeps { OnOk result (KeepsAll self.old self.new) }
        ensures audits { OnOk result ((i : ℕ) → Audits self.old i → Audits self.new i) }
    {
        let mut found = Vec::new(self.alloc);
        for node in list {
            let key = self.whole_key(view, *node, p)?;
            found.push(Whole { node: *node, key })?;
        }
        Ok(found)
    }

    /// The key by which the member's copy was whole as it entered the view, if it had any record.
    fn whole_key(
        &mut self,
        view: ClusterKey,
        node: NodeId,
        p: PartitionId,
    ) -> Result<Option<ClusterKey>, NoMemory>
        requires audits { (i : ℕ) × Audits self.old i }
        ensures key { IfOk result
            (λ key. (i : ℕ) → Audits self.old i → key ≡ entered_whole self.old i view p node) }
        ensures keeps { OnOk result (KeepsAll self.old self.new) }
        ensures audits { OnOk result ((i : ℕ) → Audits self.old i → Audits self.new i) }
    {
        let Some(entry) = self.entry(view, node) else {
            return Ok(None);
        };
        if !self.held_any_at(node, p, entry) {
            return Ok(None);
        }
        self.judge_exchanged(node, p)?;
        Ok(self.stamp_at(node, p, entry))
    }

    /// The place of the member's `enter` line.
    pub fn entry(&self, view: ClusterKey, node: NodeId) -> Option<usize>
        ensures { result ≡ entry_in (kept_view self.now view) node }
    {
        self.view_of(view)?.entry_of(node)
    }

    /// Whether the node had a record of the partition after so many lines.
    pub fn held_any_at(&self, node: NodeId, p: PartitionId, lines: usize) -> bool
        ensures { result ≡ wholes.held_any self.now node p lines }
    {
        self.stores.held_any_at(node, p, lines)
    }

    /// Whether a member's copy is whole from the start in a view that all have entered: no member
    /// had a record, and it is a replica.
    pub fn begins_whole(&self, view: ClusterKey, node: NodeId, p: PartitionId) -> bool
        ensures { result ≡ wholes.is_whole_at_start self.now view node p }
    {
        self.is_empty_everywhere(view, p) && self.is_replica(view, node, p)
    }

    /// Whether every member has entered the view, and none had a record of the partition as it did.
    pub fn is_empty_everywhere(&self, view: ClusterKey, p: PartitionId) -> bool
        ensures { result ≡ wholes.empty_in self.now p (kept_view self.now view) }
    {
        match self.view_of(view) {
            None => true,
            Some(view) => self.have_entered_empty(view, p),
        }
    }

    fn have_entered_empty(&self, view: &View, p: PartitionId) -> bool
        ensures { result ≡ list_all
            (λ m. wholes.empty_at self.now m.id p (entry_line view.now m.id)) view.now.members }
    {
        view.members
            .as_slice()
            .iter()
            .all(|m| self.entered_empty(view, m.id, p))
    }

    fn entered_empty(&self, view: &View, node: NodeId, p: PartitionId) -> bool
        ensures { result ≡ wholes.empty_at self.now node p (entry_line view.now node) }
    {
        match view.entry_of(node) {
            None => false,
            Some(entry) => !self.held_any_at(node, p, entry),
        }
    }

    /// Whether the member is a replica of the partition.
    pub fn is_replica(&self, view: ClusterKey, node: NodeId, p: PartitionId) -> bool
        ensures { result ≡ wholes.replica_in self.now.factor node p (kept_view self.now view) }
    {
        match self.view_of(view) {
            None => false,
            Some(view) => {
                is_among_first(view.list(p).as_slice(), usize::from(self.factor), node)
            }
        }
    }
}

/// Whether that is the node that was found.
fn is_node(found: Option<NodeId>, node: NodeId) -> bool
    ensures { IsTrue result ↔ (found ≡ Some node) }
{
    match found {
        None => false,
        Some(found) => found == node,
    }
}

/// The first member by whose key no other's is above; the first of all where no copy was whole.
fn first_newest(members: &[Whole]) -> Option<NodeId>
    ensures { result ≡ wholes.first_newest members.now }
{
    match newest(members) {
        Some(whole) => Some(whole.node),
        None => match members.first() {
            None => None,
            Some(first) => Some(first.node),
        },
    }
}

/// The first by whose key no other's is above.
fn newest(members: &[Whole]) -> Option<&Whole>
    ensures { option_copied result ≡ find (λ w. wholes.is_newest members.now w.key) members.now }
{
    members.iter().find(|w| is_newest(members, w.key))
}

/// Whether the node is one of the first of these, this many.
fn is_among_first(ids: &[NodeId], count: usize, node: NodeId) -> bool
    ensures { result ≡ list_any (λ m. m == node) (take count ids.now) }
{
    ids.iter().take(count).any(|n| *n == node)
}

/// Whether it is a key, and no other is above it.
fn is_newest(members: &[Whole], key: Option<ClusterKey>) -> bool
    ensures { result ≡ wholes.is_newest members.now key }
{
    match key {
        None => false,
        Some(key) => !is_any_above(members, key),
    }
}

fn is_any_above(members: &[Whole], key: ClusterKey) -> bool
    ensures { result ≡ list_any (λ w. has_key_above key w.key) members.now }
{
    members.iter().any(|w| is_above(key, w.key))
}

/// Whether the second is a key, and above the first.
fn is_above(key: ClusterKey, other: Option<ClusterKey>) -> bool
    ensures { result ≡ has_key_above key other }
{
    match other {
        None => false,
        Some(other) => key < other,
    }
}

/// Whether these are the list of the partition, each member with its role in the view.
fn is_list(view: &View, p: PartitionId, shown: &[Member]) -> bool
    ensures { IsTrue result ↔ (shown.now ≡ with_roles view.now.members (list view.now.ranks p)) }
{
    let list = view.list(p);
    are_listed(&view.members, list.as_slice(), shown)
}

/// Whether these are the nodes, each with its role among the members.
fn are_listed(members: &Members, ids: &[NodeId], shown: &[Member]) -> bool
    ensures { IsTrue result ↔ (shown.now ≡ with_roles members.now ids.now) }
{
    if ids.len() != shown.len() {
        return false;
    }
    for i in 0..shown.len() {
        if !is_listed(members, ids[i], shown[i]) {
            return false;
        }
    }
    true
}

/// Whether that is the node, with its role among the members.
fn is_listed(members: &Members, id: NodeId, shown: Member) -> bool
    ensures { IsTrue result ↔ (shown ≡ wholes.listed_member members.now id) }
{
    let role = members.role(id).unwrap_or(Role::PLAIN);
    shown.id == id && shown.role == role
}
