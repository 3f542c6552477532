//! Whom a node hears.
ghost use Rattle.std.specs.Prelude.{◌≡◌, ◌≢◌, ◌≤◌, ◌||◌, not, length, map};
ghost use Rattle.std.specs.List.{list_all};
ghost use Rattle.cluster_types.specs.Distinct.{IsDescending};
ghost use Rattle.node_rules.specs.Hearing as hearing;
ghost use Rattle.node_rules.specs.Hearing.{deaf, beat_heard, ticked, without_quiet, heard_ids, neighbours_of, is_unchanged, quieter};
ghost use Rattle.node_rules.specs.Keys.{same_key};
ghost use Rattle.heartbeat.specs.Adjacent.{HasRoomFor, heard_limit};
ghost use Rattle.heartbeat.specs.Entries.{entry_names, Falls};

use crate::entries::{Entries, Entry};
use crate::room::members_naming;
use cluster_types::{ClusterKey, Members, NodeId, NodeList, Role};
use node_rules::Beat;
use std::marker::Model;

/// For how many ticks the neighbours must have been the same before a node proposes.
const QUIET_TICKS: u8 = 2;

/// A node with its role, and the last heartbeats of the others.
#[derive(Drop)]
pub struct Adjacency {
    me: NodeId,
    role: Role,
    heard: Entries,
    set: Option<Members>,
    quiet: u8,
}

impl Model for Adjacency {
    ghost use Rattle.node_rules.specs.Codes.{facts_codes};
    ghost use Rattle.heartbeat.specs.Adjacent.{Adjacent, adjacent};
    ghost use Rattle.heartbeat.specs.Entries.{table_of, AreHeardBy};

    ghost Value = { Adjacent };

    ghost coded = { Prim.hlevel facts_codes };

    ghost view = { λ a. adjacent a.me a.role (table_of a.heard) a.set a.quiet };

    ghost invariant = { λ a. AreHeardBy a.me a.heard };
}

impl Adjacency {
    /// A node of that role, which hears nobody.
    pub fn new(me: NodeId, role: Role) -> Adjacency
        ensures { result ≡ record { me = me; role = role; hearing = deaf } }
    {
        Adjacency {
            me,
            role,
            heard: Entries::new(),
            set: None,
            quiet: 0,
        }
    }

    /// An equal one.
    pub fn copy(&self) -> Adjacency
        ensures { result ≡ self.now }
    {
        Adjacency {
            me: self.me,
            role: self.role,
            heard: self.heard,
            set: self.set,
            quiet: self.quiet,
        }
    }

    /// The node has this role from now on.
    pub fn set_role(&mut self, role: Role)
        ensures { self.new ≡ record self.old { role = role } }
    {
        self.role = role;
    }

    /// A heartbeat of another node came: one that is heard already, or one of at most fifteen.
    pub fn heard(&mut self, from: NodeId, beat: &Beat)
        requires other { from ≢ self.old.me }
        requires room { HasRoomFor from self.old.hearing }
        ensures { self.new
            ≡ record self.old { hearing = beat_heard self.old.hearing from beat.now } }
    {
        self.heard.put(&Entry {
            node: from,
            age: 0,
            beat: *beat,
        });
    }

    /// A tick. It answers the neighbours from then on.
    pub fn tick(&mut self) -> Members
        ensures ticked { self.new
            ≡ record self.old { hearing = ticked self.old.me self.old.role self.old.hearing } }
        ensures set { result ≡ neighbours_of self.new.me self.new.role self.new.hearing.heard }
    {
        self.heard.age();
        let set = self.neighbours();
        self.quiet = quieter(self.quiet, is_unchanged(&self.set, &set));
        self.set = Some(set);
        set
    }

    /// A view was entered.
    pub fn entered(&mut self)
        ensures { self.new ≡ record self.old { hearing = without_quiet self.old.hearing } }
    {
        self.quiet = 0;
    }

    /// The node was stopped.
    pub fn stopped(&mut self)
        ensures { self.new ≡ record self.old { hearing = deaf } }
    {
        self.heard = Entries::new();
        self.set = None;
        self.quiet = 0;
    }

    /// The node itself and those that it hears and that hear it.
    pub fn neighbours(&self) -> Members
        ensures { result ≡ neighbours_of self.now.me self.now.role self.now.hearing.heard }
    {
        let naming = members_naming(self.me, self.role, self.heard.as_slice());
        match Members::with_roles(naming.as_slice()) {
            Ok(members) => members,
            Err(_) => unreachable!(),
        }
    }

    /// For how many ticks the neighbours have been the same, at most 2.
    pub fn quiet(&self) -> u8
        ensures { result ≡ self.now.hearing.quiet }
    {
        self.quiet
    }

    /// The nodes that are heard, in descending order.
    pub fn hears(&self) -> NodeList
        ensures value { result ≡ heard_ids self.now.hearing.heard }
        ensures order { IsDescending result }
        ensures limit { length result ≤ heard_limit }
    {
        ids_of(self.heard.as_slice())
    }

    /// How many nodes are heard. None is heard twice.
    pub fn count(&self) -> usize
        ensures value { result ≡ length (heard_ids self.now.hearing.heard) }
        ensures order { IsDescending (heard_ids self.now.hearing.heard) }
        ensures limit { result ≤ heard_limit }
    {
        self.heard.as_slice().len()
    }

    /// Whether every other neighbour shows this key as its view.
    pub fn all_show(&self, key: ClusterKey) -> bool
        ensures { result ≡ hearing.all_show self.now.me self.now.hearing.heard key }
    {
        all_show(self.me, self.heard.as_slice(), key)
    }
}

/// The quiet ticks after one more tick.
fn quieter(quiet: u8, unchanged: bool) -> u8
    ensures { result ≡ quieter quiet unchanged }
{
    if unchanged {
        return quiet.saturating_add(1).min(QUIET_TICKS);
    }
    0
}

/// Whether the neighbours are those of the tick before, if there was one.
fn is_unchanged(before: &Option<Members>, set: &Members) -> bool
    ensures { result ≡ is_unchanged before.now set.now }
{
    match before {
        None => false,
        Some(before) => before == set,
    }
}

/// The nodes of the entries.
fn ids_of(entries: &[Entry]) -> NodeList
    requires limit { length entries.now ≤ 16 }
    requires falls { Falls entries.now }
    ensures { result ≡ map (λ e. e.node) entries.now }
{
    let mut ids = NodeList::new();
    for entry in entries {
        ids.push(entry.node);
    }
    ids
}

fn all_show(me: NodeId, entries: &[Entry], key: ClusterKey) -> bool
    ensures { result ≡ list_all
        (λ e. not (entry_names me e) || same_key e.beat.view key) entries.now }
{
    entries.iter().all(|entry| shows(me, entry, key))
}

fn shows(me: NodeId, entry: &Entry, key: ClusterKey) -> bool
    ensures { result ≡ (not (entry_names me entry.now) || same_key entry.now.beat.view key) }
{
    !entry.beat.hears.contains(me) || entry.beat.view == key
}
