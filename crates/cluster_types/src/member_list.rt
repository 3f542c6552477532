//! Lists of members in any order.
ghost use Rattle.std.specs.Prelude.{◌≡◌, ◌<◌, ◌≤◌, ◌↔◌, [], ℕ, length, map, take, Some, Err, IsTrue, IsOk, IfOk, slice_get, MatchOption};
ghost use Rattle.std.specs.Option.{option_copied};
ghost use Rattle.cluster_types.specs.Distinct.{AreDistinct, IsFirstRepeat};
ghost use Rattle.cluster_types.specs.Members.{AreDistinctMembers, ids_of};
ghost use Rattle.std.specs.Cmp.{partial_equiv_from_equiv};
ghost use Rattle.cluster_types.specs.MembersEqual.{same_members, same_members_equiv};
ghost use Rattle.cluster_types.specs.declared.node_list.ListFault.TheVariants.{TooMany, Repeated};

use crate::member::Member;
use crate::node_id::NodeId;
use crate::node_list::{LIST_LIMIT, ListFault, first_repeat};
use std::fmt;
use std::marker::Model;

/// 0 to 16 members with their roles, no node twice, in the order in which they were given.
#[derive(Clone, Copy)]
pub struct MemberList {
    places: [Member; 16],
    len: u8,
}

impl Model for MemberList {
    ghost use Rattle.std.specs.Prelude.{List, ℕ, length, take};
    ghost use Rattle.cluster_types.specs.declared.member.Member.{Member};
    ghost use Rattle.cluster_types.specs.Filled.{IsFilled, padded, padded-take, length-taken};
    ghost use Rattle.cluster_types.specs.Members.{AreDistinctMembers, plain_member};

    ghost Value = { List Member };

    ghost view = { λ m. take m.len m.places };

    ghost invariant = { λ m.
        IsFilled m.places m.len (plain_member 1) × AreDistinctMembers (take m.len m.places) };

    ghost inverse = { λ xs. record { places = padded xs (plain_member 1); len = length xs } };

    ghost inverse_ok = { λ a h i.
        record {
          places = padded-take a.places a.len (plain_member 1) h.0 i;
          len = length-taken a.places a.len (plain_member 1) h.0 i;
        } };
}

impl MemberList {
    /// No members.
    pub fn new() -> MemberList
        ensures { result ≡ [] }
    {
        MemberList {
            places: [Member::PLACEHOLDER; LIST_LIMIT],
            len: 0,
        }
    }

    /// These members in this order. `TooMany` where there are more than 16, and otherwise
    /// `Repeated` where a node stands twice.
    pub fn from_slice(list: &[Member]) -> Result<MemberList, ListFault>
        ensures ok { IfOk result (λ m. m ≡ list.now) }
        ensures valid { IsOk result ↔ AreDistinctMembers list.now }

        ensures too_many { (n : ℕ)
            → (result ≡ Err (TooMany n)) ↔ ((16 < length list.now) × (n ≡ length list.now)) }
        ensures repeated { (place : ℕ)
            → (result ≡ Err (Repeated place))
            ↔ ((length list.now ≤ 16) × IsFirstRepeat (ids_of list.now) place) }
    {
        if list.len() > LIST_LIMIT {
            return Err(ListFault::TooMany(list.len()));
        }
        match first_repeated(list) {
            Some(place) => Err(ListFault::Repeated(place)),
            None => Ok(MemberList::of(list)),
        }
    }

    fn of(list: &[Member]) -> MemberList
        requires { AreDistinctMembers list.now }
        ensures { result ≡ list.now }
    {
        let mut places = [Member::PLACEHOLDER; LIST_LIMIT];
        places[..list.len()].copy_from_slice(list);
        MemberList {
            places,
            len: list.len() as u8,
        }
    }

    /// How many members there are: 0 to 16.
    pub fn len(&self) -> usize
        ensures value { result ≡ length self.now }
        ensures limit { result ≤ 16 }
    {
        usize::from(self.len)
    }

    /// Whether there are none.
    pub fn is_empty(&self) -> bool
        ensures { IsTrue result ↔ (self.now ≡ []) }
    {
        self.len == 0
    }

    /// The members in their order.
    pub fn as_slice(&self) -> &[Member]
        ensures same { result.now ≡ self.now }
        ensures valid { AreDistinctMembers self.now }
    {
        &self.places[..usize::from(self.len)]
    }

    /// The member at that place, and `None` from the length on.
    pub fn get(&self, i: usize) -> Option<&Member>
        ensures { option_copied result ≡ slice_get self.now i }
    {
        self.as_slice().get(i)
    }
}

impl PartialEq for MemberList {
    ghost eq = { same_members };

    ghost laws = { partial_equiv_from_equiv same_members_equiv };

    fn eq(&self, other: &MemberList) -> bool {
        self.as_slice() == other.as_slice()
    }
}

impl Eq for MemberList {
    ghost laws = { same_members_equiv };
}

impl fmt::Debug for MemberList {
    fn fmt<W: fmt::Write>(&self, f: &mut fmt::Formatter<W>) -> fmt::Result {
        fmt::Debug::fmt(self.as_slice(), f)
    }
}

/// The first place whose node stood before.
fn first_repeated(list: &[Member]) -> Option<usize>
    requires { length list.now ≤ 16 }
    ensures { MatchOption result (AreDistinct (ids_of list.now)) (IsFirstRepeat (ids_of list.now)) }
{
    let mut ids = [NodeId::MIN; LIST_LIMIT];
    copy_ids(list, &mut ids[..list.len()]);
    first_repeat(&ids[..list.len()])
}

fn copy_ids(list: &[Member], ids: &mut [NodeId])
    requires { length list.now ≡ length ids.old }
    ensures { ids.new ≡ ids_of list.now }
{
    for i in 0..list.len() {
        ids[i] = list[i].id;
    }
}
