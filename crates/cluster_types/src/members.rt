//! The members of a view.
ghost use Rattle.std.specs.Prelude.{◌≡◌, ◌<◌, ◌≤◌, ◌↔◌, ◌==◌, [], ℕ, List, length, map, Some, Err, Contains, IsTrue, IsOk, IsSome, IfOk, IfSome, MatchOption, slice_get, take};
ghost use Rattle.std.specs.Option.{option_copied, option_map};
ghost use Rattle.cluster_types.specs.Distinct.{IsDescending, IsFirstRise};
ghost use Rattle.cluster_types.specs.Members.{AreMembers, ids_of, role_of, plain_member};
ghost use Rattle.std.specs.Cmp.{partial_equiv_from_equiv};
ghost use Rattle.cluster_types.specs.MembersEqual.{same_members, same_members_equiv};
ghost use Rattle.cluster_types.specs.declared.members.MembersFault.TheVariants.{Empty, TooMany, OutOfOrder};

use crate::member::{Member, Role};
use crate::node_id::NodeId;
use crate::node_list::{LIST_LIMIT, NodeList};
use std::fmt;
use std::marker::Model;

/// Why a slice is no list of members.
#[derive(Clone, Copy, Debug, PartialEq, Eq)]
pub enum MembersFault {
    /// There are none.
    Empty,
    /// More than 16: their number.
    TooMany(usize),
    /// The place, from 0, of the first id that isn't below the one before it.
    OutOfOrder(usize),
}

/// The 1 to 16 members of a view, with their roles, in strictly descending order of their ids.
#[derive(Clone, Copy)]
pub struct Members {
    places: [Member; 16],
    len: usize,
}

impl Model for Members {
    ghost use Rattle.std.specs.Prelude.{List, ℕ, length, take};
    ghost use Rattle.cluster_types.specs.declared.member.Member.{Member};
    ghost use Rattle.cluster_types.specs.Filled.{IsFilled, padded, padded-take, length-taken};
    ghost use Rattle.cluster_types.specs.Members.{AreMembers, plain_member};

    ghost Value = { List Member };

    ghost view = { λ m. take m.len m.places };

    ghost invariant = { λ m.
        IsFilled m.places m.len (plain_member 1) × AreMembers (take m.len m.places) };

    ghost inverse = { λ xs. record { places = padded xs (plain_member 1); len = length xs } };

    ghost inverse_ok = { λ a h i.
        record {
          places = padded-take a.places a.len (plain_member 1) h.0 i;
          len = length-taken a.places a.len (plain_member 1) h.0 i;
        } };
}

impl Members {
    /// Members with plain roles. The refusals are those of `with_roles`.
    pub fn from_slice(ids: &[NodeId]) -> Result<Members, MembersFault>
        ensures ok { IfOk result (λ m. m ≡ map plain_member ids.now) }
        ensures valid { IsOk result ↔ AreMembers (map plain_member ids.now) }

        ensures empty { (result ≡ Err Empty) ↔ (length ids.now ≡ 0) }
        ensures too_many { (n : ℕ)
            → (result ≡ Err (TooMany n)) ↔ ((16 < length ids.now) × (n ≡ length ids.now)) }
        ensures out_of_order { (place : ℕ)
            → (result ≡ Err (OutOfOrder place))
            ↔ ((length ids.now ≤ 16) × IsFirstRise ids.now place) }
    {
        if ids.len() > LIST_LIMIT {
            return Err(MembersFault::TooMany(ids.len()));
        }
        let places = plain_places(ids);
        Members::with_roles(&places[..ids.len()])
    }

    /// These members. `Empty` where there are none, then `TooMany` where there are more than 16,
    /// then `OutOfOrder` where an id isn't below the one before it.
    pub fn with_roles(list: &[Member]) -> Result<Members, MembersFault>
        ensures ok { IfOk result (λ m. m ≡ list.now) }
        ensures valid { IsOk result ↔ AreMembers list.now }

        ensures empty { (result ≡ Err Empty) ↔ (length list.now ≡ 0) }
        ensures too_many { (n : ℕ)
            → (result ≡ Err (TooMany n)) ↔ ((16 < length list.now) × (n ≡ length list.now)) }
        ensures out_of_order { (place : ℕ)
            → (result ≡ Err (OutOfOrder place))
            ↔ ((length list.now ≤ 16) × IsFirstRise (ids_of list.now) place) }
    {
        if list.is_empty() {
            return Err(MembersFault::Empty);
        }
        if list.len() > LIST_LIMIT {
            return Err(MembersFault::TooMany(list.len()));
        }
        match first_rise(list) {
            Some(place) => Err(MembersFault::OutOfOrder(place)),
            None => Ok(Members::of(list)),
        }
    }

    fn of(list: &[Member]) -> Members
        requires { AreMembers list.now }
        ensures { result ≡ list.now }
    {
        let mut places = [Member::PLACEHOLDER; LIST_LIMIT];
        places[..list.len()].copy_from_slice(list);
        Members {
            places,
            len: list.len(),
        }
    }

    /// How many members there are: 1 to 16.
    pub fn len(&self) -> usize
        ensures value { result ≡ length self.now }
        ensures range { (0 < result) × (result ≤ 16) }
    {
        self.len
    }

    /// The members in their order.
    pub fn as_slice(&self) -> &[Member]
        ensures same { result.now ≡ self.now }
        ensures valid { AreMembers self.now }
    {
        &self.places[..self.len]
    }

    /// The id at that place, and `None` from the length on.
    pub fn get(&self, i: usize) -> Option<&NodeId>
        ensures { option_copied result ≡ slice_get (ids_of self.now) i }
    {
        match self.as_slice().get(i) {
            Some(member) => Some(&member.id),
            None => None,
        }
    }

    /// The role of that node, and `None` where it isn't a member.
    pub fn role(&self, n: NodeId) -> Option<Role>
        ensures value { result ≡ role_of self.now n }
        ensures member { IsSome result ↔ Contains (ids_of self.now) n }
        ensures listed { IfSome result (λ r. Contains self.now (record { id = n; role = r })) }
    {
        role_in(self.as_slice(), n)
    }

    /// Whether that node is a member.
    pub fn contains(&self, n: NodeId) -> bool
        ensures { IsTrue result ↔ Contains (ids_of self.now) n }
    {
        self.role(n).is_some()
    }

    /// The ids of the members, without their roles.
    pub fn ids(&self) -> NodeList
        ensures { result ≡ ids_of self.now }
    {
        let mut ids = NodeList::new();
        for member in self.as_slice() {
            ids.push(member.id);
        }
        ids
    }
}

impl PartialEq for Members {
    ghost eq = { same_members };

    ghost laws = { partial_equiv_from_equiv same_members_equiv };

    fn eq(&self, other: &Members) -> bool {
        self.as_slice() == other.as_slice()
    }
}

impl Eq for Members {
    ghost laws = { same_members_equiv };
}

impl fmt::Debug for Members {
    fn fmt<W: fmt::Write>(&self, f: &mut fmt::Formatter<W>) -> fmt::Result {
        fmt::Debug::fmt(self.as_slice(), f)
    }
}

/// The role of that node among the members.
fn role_in(list: &[Member], n: NodeId) -> Option<Role>
    ensures value { result ≡ role_of list.now n }
    ensures listed { IfSome result (λ r. Contains list.now (record { id = n; role = r })) }
{
    list.iter().find(|m| m.id == n).map(|m| m.role)
}

/// The first place whose id isn't below the one before it.
fn first_rise(list: &[Member]) -> Option<usize>
    ensures { MatchOption result (IsDescending (ids_of list.now)) (IsFirstRise (ids_of list.now)) }
{
    for i in 1..list.len() {
        let before = list[i - 1].id;
        let id = list[i].id;
        let rises = id >= before;
        if rises {
            return Some(i);
        }
    }
    None
}

/// The nodes with plain roles, in the first places.
fn plain_places(ids: &[NodeId]) -> [Member; 16]
    requires { length ids.now ≤ 16 }
    ensures { take (length ids.now) result ≡ map plain_member ids.now }
{
    let mut places = [Member::PLACEHOLDER; LIST_LIMIT];
    make_plain(ids, &mut places[..ids.len()]);
    places
}

fn make_plain(ids: &[NodeId], places: &mut [Member])
    requires { length ids.now ≡ length places.old }
    ensures { places.new ≡ map plain_member ids.now }
{
    for i in 0..ids.len() {
        places[i] = Member::plain(ids[i]);
    }
}
