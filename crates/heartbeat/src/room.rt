//! Room for members.
ghost use Rattle.std.specs.Prelude.{◌≡◌, ◌+◌, ◌<◌, ◌≤◌, ◌++◌, ◌∷◌, [], length, filter, map};
ghost use Rattle.heartbeat.specs.Entries.{member_in, entry_names, names_from_above, names_from_below, of_itself, with_one};

use crate::entries::Entry;
use cluster_types::{Member, NodeId, Role};
use std::marker::Model;

/// At most sixteen members.
#[derive(Drop)]
pub(crate) struct Room {
    places: [Member; 16],
    len: usize,
}

impl Model for Room {
    ghost use Rattle.std.specs.Prelude.{List, ◌≡◌, ◌≤◌, length, take};
    ghost use Rattle.cluster_types.specs.declared.member.Member.{Member};

    ghost Value = { List Member };

    ghost view = { λ r. take r.len r.places };

    ghost invariant = { λ r. (r.len ≤ 16) × (length r.places ≡ 16) };
}

impl Room {
    fn new() -> Room
        ensures { result ≡ [] }
    {
        Room {
            places: [Member::plain(NodeId::MIN); 16],
            len: 0,
        }
    }

    pub fn as_slice(&self) -> &[Member]
        ensures { result.now ≡ self.now }
    {
        &self.places[..self.len]
    }

    fn push(&mut self, member: Member)
        requires { length self.old < 16 }
        ensures { self.new ≡ self.old ++ member ∷ [] }
    {
        self.places[self.len] = member;
        self.len += 1;
    }

    /// Adds those above the node that hear it.
    fn add_above(&mut self, me: NodeId, entries: &[Entry])
        requires { length self.old + length (filter (names_from_above me) entries.now) ≤ 16 }
        ensures { self.new ≡ self.old ++ map member_in (filter (names_from_above me) entries.now) }
    {
        for entry in entries {
            if names_from_above(me, entry) {
                self.push(member_in(entry));
            }
        }
    }

    /// Adds those below the node that hear it.
    fn add_below(&mut self, me: NodeId, entries: &[Entry])
        requires { length self.old + length (filter (names_from_below me) entries.now) ≤ 16 }
        ensures { self.new ≡ self.old ++ map member_in (filter (names_from_below me) entries.now) }
    {
        for entry in entries {
            if names_from_below(me, entry) {
                self.push(member_in(entry));
            }
        }
    }
}

/// The node itself and those that hear it, by their order.
pub(crate) fn members_naming(me: NodeId, role: Role, entries: &[Entry]) -> Room
    requires { length entries.now ≤ 15 }
    ensures { result
        ≡ map member_in (filter (entry_names me) (with_one entries.now (of_itself me role))) }
{
    let mut room = Room::new();
    room.add_above(me, entries);
    room.push(Member { id: me, role });
    room.add_below(me, entries);
    room
}

/// Whether one above the node hears it.
fn names_from_above(me: NodeId, entry: &Entry) -> bool
    ensures { result ≡ names_from_above me entry.now }
{
    me < entry.node && entry.beat.hears.contains(me)
}

/// Whether one below the node hears it.
fn names_from_below(me: NodeId, entry: &Entry) -> bool
    ensures { result ≡ names_from_below me entry.now }
{
    entry.node < me && entry.beat.hears.contains(me)
}

/// The node with the role that it told.
fn member_in(entry: &Entry) -> Member
    ensures { result ≡ member_in entry.now }
{
    Member {
        id: entry.node,
        role: entry.beat.role,
    }
}
