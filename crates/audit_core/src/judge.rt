//! What the lines of a journal say, and what each of them changes.
ghost use Rattle.std.specs.Prelude.{◌≡◌, ◌↔◌, ◌+◌, ◌<◌, ◌^◌, ℕ, IsTrue, false, Option, Some, None, OnOk, IfErr, slice_get, take, true};
ghost use Rattle.std.specs.Option.{option_copied};
ghost use Rattle.cluster_types.specs.declared.cluster_key.ClusterKey.{ClusterKey};
ghost use Rattle.journal_readings.specs.Views.{some_key};
ghost use Rattle.journal_readings.specs.Shape.{is_header};
ghost use Rattle.audit_laws.specs.Fits.{Fits};
ghost use Rattle.audit_laws.specs.Lawful.{Lawful};
ghost use Rattle.audit_core.specs.Audits.{Audits, Comes, AcceptsLine, is_idle, so_far};
ghost use Rattle.audit_core.specs.Frames.{KeepsStores};
ghost use Rattle.audit_core.specs.Known.{view_at, kept_view};
ghost use Rattle.audit_core.specs.NextFrames.{NextFrame, finished_in};
ghost use Rattle.audit_core.specs.Sees.{SeesJournal};
ghost use Rattle.audit_core.specs.Steps.{KnowsNothing, ReadsHeader, DeclaresNode, ChangesNode, HasClock, HasView, BeginsStay, HasFinished, OpensView, ChangesView, HasEntry, HasExchanged, EntersView};
ghost use Rattle.audit_core.specs.Verdicts.{StopsRightly};

use crate::shape::is_header;
use crate::verdict::{Stop, demand};
use audit_laws::Law;
use audit_state::{Cover, Entry, Node, Records, Stamps, Stores, Versions, View, key_pair};
use cluster_types::{ClusterKey, Digest, MemberList, Members, NoMemory, NodeId, PartitionId};
use conflict_order::{Policy, Version};
use indexmap::IndexMap;
use journal_lines::Line;
use std::alloc::Global;
use std::collections::HashMap;

/// What the lines so far say.
#[derive(Drop)]
pub(crate) struct Judge<'a> {
    pub alloc: Global,
    pub lines: &'a [Line],
    pub by: Policy,
    pub factor: u8,
    /// Some line is none of a header.
    pub begun: bool,
    /// The declared nodes by their ids.
    pub nodes: HashMap<u16, Node>,
    pub records: Records,
    pub stores: Stores,
    /// The views by their keys.
    pub views: IndexMap<(u64, u16), View>,
    /// What stamps each copy, by its node and its partition.
    pub stamps: HashMap<(u16, u16), Stamps>,
    /// What each node is known to hold of another's records, by both and the partition.
    pub covers: HashMap<u64, Cover>,
}

impl<'a> Judge<'a> {
    pub fn new(alloc: Global, lines: &'a [Line]) -> Judge<'a>
        ensures { KnowsNothing lines.now result }
    {
        Judge {
            alloc,
            lines,
            by: Policy::Time,
            factor: 1,
            begun: false,
            nodes: HashMap::new(alloc),
            records: Records::new(alloc),
            stores: Stores::new(alloc),
            views: IndexMap::new(alloc),
            stamps: HashMap::new(alloc),
            covers: HashMap::new(alloc),
        }
    }

    pub fn versions(&self) -> Versions<'a>
        ensures lines { result.lines.now ≡ self.now.lines.now }
        ensures policy { result.by ≡ self.now.by }
    {
        Versions {
            lines: self.lines,
            by: self.by,
        }
    }

    /// Takes the line at that place, unless it breaks a law.
    pub fn judge(&mut self, line: usize, l: &Line) -> Result<(), Stop>
        requires sees { SeesJournal self.old line self.old.lines.now }
        requires lawful { Lawful (take line self.old.lines.now) }
        requires stands { slice_get self.old.lines.now line ≡ Some l.now }
        requires room { line < 2 ^ 63 }
        ensures lines { OnOk result (self.new.lines.now ≡ self.old.lines.now) }
        ensures fits { OnOk result (Fits (take line self.old.lines.now) l.now) }
        ensures sees { OnOk result (SeesJournal self.new (line + 1) self.old.lines.now) }
        ensures breaks { IfErr result
            (λ stop. StopsRightly stop (take line self.old.lines.now) l.now) }
    {
        if !self.keeps_shape(l) {
            return Err(Stop::Breaks(Law::Shape));
        }
        if is_header(l) {
            self.read_header(l)?;
            return Ok(());
        }
        self.judge_event(line, l)?;
        self.begun = true;
        Ok(())
    }

    /// Takes a line of the header.
    fn read_header(&mut self, l: &Line) -> Result<(), NoMemory>
        ensures { OnOk result (ReadsHeader l.now self.old self.new) }
    {
        match l {
            Line::Factor { factor } => self.factor = *factor,
            Line::Policy { policy } => self.by = *policy,
            Line::Node { node, .. } => self.declare(*node)?,
            _ => {}
        }
        Ok(())
    }

    fn declare(&mut self, node: NodeId) -> Result<(), NoMemory>
        ensures { OnOk result (DeclaresNode node self.old self.new) }
    {
        self.nodes.insert(node.number(), Node::new(self.alloc))?;
        Ok(())
    }

    /// Takes a line behind the header, unless it breaks a law but the shape.
    fn judge_event(&mut self, line: usize, l: &Line) -> Result<(), Stop>
        requires comes { Comes self.old line l.now }
        requires room { line < 2 ^ 63 }
        ensures ok { OnOk result (AcceptsLine self.old self.new line l.now) }
        ensures err { IfErr result (λ stop. StopsRightly stop (so_far self.old line) l.now) }
    {
        match l {
            Line::Clock { node, time } => Ok(self.set_clock(*node, *time)),
            Line::Stop { node } => Ok(self.leave(*node)),
            Line::Enter { node, key, members } => self.enter(line, *node, *key, *members.get()),
            Line::Exchanged { node, key } => self.finish_exchange(line, *node, *key),
            Line::Settled {
                node,
                key,
                partition,
            } => self.settle(line, *node, *key, *partition),
            Line::Learn {
                node,
                partition,
                ..
            } => Ok(self.learn(line, *node, *partition)?),
            Line::Drop {
                node,
                partition,
                ..
            } => self.drop_marked(line, *node, *partition),
            Line::Apply {
                node,
                key,
                transaction,
                digest,
                ..
            } => { self.apply(line, *node, *key, *transaction, digest) }
            Line::Merge { node, digest, .. } => self.merge(line, *node, digest),
            Line::Done {
                node,
                key,
                transaction,
            } => self.finish(line, *node, *key, *transaction),
            Line::Value {
                key,
                digest,
                version,
                ..
            } => self.read(*key, digest, version.get()),
            Line::Map {
                key,
                partition,
                members,
                acting,
                ..
            } => self.show(*key, *partition, members.get(), *acting),
            _ => Ok(self.pass(l)),
        }
    }

    /// Of this line nothing is asked, and it changes nothing.
    fn pass(&self, l: &Line)
        requires { is_idle l.now ≡ true }
        ensures { (i : ℕ) → Comes self.now i l.now → AcceptsLine self.now self.now i l.now }
    {}

    // ---- what lines show

    /// A node reads a record.
    fn read(&self, view: ClusterKey, digest: &Digest, found: &Option<Version>) -> Result<(), Stop>
        ensures ok { OnOk result
            ((i n t : ℕ) → Comes self.now i (Line.Value n view t digest.now found.now)
            → AcceptsLine self.now self.now i (Line.Value n view t digest.now found.now)) }
        ensures err { IfErr result
            (λ stop. (i n t : ℕ) → Comes self.now i (Line.Value n view t digest.now found.now)
            → StopsRightly stop (so_far self.now i) (Line.Value n view t digest.now found.now)) }
    {
        demand(self.is_fold(view, digest, found), Law::ReadJoin)
    }

    /// A node shows the map of a partition.
    fn show(
        &mut self,
        view: ClusterKey,
        p: PartitionId,
        members: &MemberList,
        acting: NodeId,
    ) -> Result<(), Stop>
        requires { (i : ℕ) × Audits self.old i }
        ensures ok { OnOk result
            ((i n : ℕ) → Comes self.old i (Line.Map n view p members.now acting)
            → AcceptsLine self.old self.new i (Line.Map n view p members.now acting)) }
        ensures err { IfErr result
            (λ stop. (i n : ℕ) → Comes self.old i (Line.Map n view p members.now acting)
            → StopsRightly stop (so_far self.old i) (Line.Map n view p members.now acting)) }
    {
        let shown = self.shows_map(view, p, members, acting)?;
        demand(shown, Law::OneMap)
    }

    // ---- nodes

    /// The node's clock stands at the time.
    fn set_clock(&mut self, node: NodeId, time: u64)
        ensures { (i : ℕ) → Comes self.old i (Line.Clock node time)
            → AcceptsLine self.old self.new i (Line.Clock node time) }
    {
        self.note_clock(node, time);
    }

    fn note_clock(&mut self, node: NodeId, time: u64)
        ensures { ChangesNode (HasClock time) node self.old self.new }
    {
        if let Some(known) = self.nodes.get_mut(&node.number()) {
            known.clock = time;
        }
    }

    /// The node has stopped.
    fn leave(&mut self, node: NodeId)
        ensures { (i : ℕ) → Comes self.old i (Line.Stop node)
            → AcceptsLine self.old self.new i (Line.Stop node) }
    {
        self.note_stop(node);
    }

    fn note_stop(&mut self, node: NodeId)
        ensures { ChangesNode (HasView None) node self.old self.new }
    {
        if let Some(known) = self.nodes.get_mut(&node.number()) {
            known.view = None;
        }
    }

    /// Whether the node's view is that one now.
    pub fn is_in_view(&self, node: NodeId, view: ClusterKey) -> bool
        ensures { IsTrue result ↔ (view_at self.now node ≡ Some view) }
    {
        match self.present_view(node) {
            None => false,
            Some(present) => present == view,
        }
    }

    /// The key of the node's view.
    pub fn present_view(&self, node: NodeId) -> Option<ClusterKey>
        ensures { result ≡ view_at self.now node }
    {
        match self.nodes.get(&node.number()) {
            None => None,
            Some(node) => node.view,
        }
    }

    /// The node's copy of the partition is whole from the line on.
    fn learn(&mut self, line: usize, node: NodeId, p: PartitionId) -> Result<(), NoMemory>
        requires { (k : ClusterKey) × Comes self.old line (Line.Learn node k p) }
        ensures { OnOk result
            ((k : ClusterKey) → Comes self.old line (Line.Learn node k p)
            → AcceptsLine self.old self.new line (Line.Learn node k p)) }
    {
        self.mark(line, node, p, Some(line))
    }

    /// The node drops its copy of the partition.
    fn drop_marked(&mut self, line: usize, node: NodeId, p: PartitionId) -> Result<(), Stop>
        requires comes { (k : ClusterKey) × Comes self.old line (Line.Drop node k p) }
        requires room { line < 2 ^ 63 }
        ensures ok { OnOk result
            ((k : ClusterKey) → Comes self.old line (Line.Drop node k p)
            → AcceptsLine self.old self.new line (Line.Drop node k p)) }
        ensures err { IfErr result
            (λ stop. (k : ClusterKey) → Comes self.old line (Line.Drop node k p)
            → StopsRightly stop (so_far self.old line) (Line.Drop node k p)) }
    {
        demand(self.is_held_elsewhere(node, p), Law::NoLoss)?;
        self.mark(line, node, p, None)?;
        let dropped = self.drop_held(line, node, p)?;
        self.note_changes(node, &dropped)?;
        self.touch_all(node, p, &dropped)
    }

    // ---- views

    /// The view of the key.
    pub fn view_of(&self, key: ClusterKey) -> Option<&View>
        ensures { option_copied result ≡ kept_view self.now key }
    {
        self.views.get(&key_pair(key))
    }

    fn enter(
        &mut self,
        line: usize,
        node: NodeId,
        key: ClusterKey,
        members: Members,
    ) -> Result<(), Stop>
        requires comes { Comes self.old line (Line.Enter node key members) }
        requires room { line < 2 ^ 63 }
        ensures ok { OnOk result
            (AcceptsLine self.old self.new line (Line.Enter node key members)) }
        ensures err { IfErr result
            (λ stop. StopsRightly stop (so_far self.old line) (Line.Enter node key members)) }
    {
        self.take_entry(line, node, key, members)?;
        self.try_settled_before(line, key)
    }

    /// The node is in the view from the line on.
    fn take_entry(
        &mut self,
        line: usize,
        node: NodeId,
        key: ClusterKey,
        members: Members,
    ) -> Result<(), NoMemory>
        ensures frame { OnOk result
            (NextFrame line (Line.Enter node key members) self.old self.new) }
        ensures enters { OnOk result (EntersView node line key members self.old self.new) }
    {
        self.open_view(key, members)?;
        self.note_entry(key, node, line)?;
        self.move_to(node, key);
        Ok(())
    }

    /// The key's view is new where nobody has entered it.
    fn open_view(&mut self, key: ClusterKey, members: Members) -> Result<(), NoMemory>
        ensures { OnOk result (OpensView key members self.old self.new) }
    {
        if !self.views.contains_key(&key_pair(key)) {
            self.views
                .insert(key_pair(key), View::new(self.alloc, key, members))?;
        }
        Ok(())
    }

    fn note_entry(&mut self, key: ClusterKey, node: NodeId, line: usize) -> Result<(), NoMemory>
        ensures { OnOk result (ChangesView (HasEntry node line) key self.old self.new) }
    {
        if let Some(view) = self.views.get_mut(&key_pair(key)) {
            view.entered.push(Entry { node, line })?;
        }
        Ok(())
    }

    fn move_to(&mut self, node: NodeId, key: ClusterKey)
        ensures { ChangesNode (BeginsStay (some_key key)) node self.old self.new }
    {
        if let Some(known) = self.nodes.get_mut(&node.number()) {
            known.view = some_key(key);
            known.stay.clear();
        }
    }

    fn finish_exchange(&mut self, line: usize, node: NodeId, key: ClusterKey) -> Result<(), Stop>
        requires comes { Comes self.old line (Line.Exchanged node key) }
        requires room { line < 2 ^ 63 }
        ensures ok { OnOk result (AcceptsLine self.old self.new line (Line.Exchanged node key)) }
        ensures err { IfErr result
            (λ stop. StopsRightly stop (so_far self.old line) (Line.Exchanged node key)) }
    {
        let before = self.has_exchanged(key, node);
        self.take_exchanged(line, node, key)?;
        if before || !self.is_in_view(node, key) {
            return Ok(());
        }
        self.try_empty(node, key)
    }

    /// The node has finished exchange in the view from the line on.
    fn take_exchanged(&mut self, line: usize, node: NodeId, key: ClusterKey) -> Result<(), NoMemory>
        ensures frame { OnOk result (NextFrame line (Line.Exchanged node key) self.old self.new) }
        ensures keeps { OnOk result (KeepsStores self.old self.new) }
    {
        self.note_exchanged(line, node)?;
        if !self.has_exchanged(key, node) {
            self.finish_in_view(key, node)?;
        }
        Ok(())
    }

    fn note_exchanged(&mut self, line: usize, node: NodeId) -> Result<(), NoMemory>
        ensures { OnOk result (ChangesNode (HasFinished line) node self.old self.new) }
    {
        if let Some(known) = self.nodes.get_mut(&node.number()) {
            known.exchanged.push(line)?;
        }
        Ok(())
    }

    pub fn has_exchanged(&self, key: ClusterKey, node: NodeId) -> bool
        ensures { result ≡ finished_in (kept_view self.now key) node }
    {
        match self.view_of(key) {
            None => false,
            Some(view) => view.has_exchanged(node),
        }
    }

    fn finish_in_view(&mut self, key: ClusterKey, node: NodeId) -> Result<(), NoMemory>
        ensures { OnOk result (ChangesView (HasExchanged node) key self.old self.new) }
    {
        if let Some(view) = self.views.get_mut(&key_pair(key)) {
            view.exchanged.push(node)?;
        }
        Ok(())
    }
}

/// A key, where it is one.
fn some_key(key: ClusterKey) -> Option<ClusterKey>
    ensures { result ≡ some_key key }
{
    if key == ClusterKey::NONE {
        None
    } else {
        Some(key)
    }
}
