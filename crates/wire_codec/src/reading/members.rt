//! Members are read.
ghost use Rattle.std.specs.Prelude.{◌≡◌, ◌<◌, ◌≤◌, length};
ghost use Rattle.wire_messages.specs.Fields.{items_at};
ghost use Rattle.wire_messages.specs.Nodes as nodes;
ghost use Rattle.wire_messages.specs.Nodes.{nobody_before, with_member, member_at, plain_members_at, members_at};
ghost use Rattle.wire_codec.specs.Reading.{Reads, Fills};

use crate::reading::Reader;
use crate::roles::is_plain;
use cluster_types::{Member, Members, NodeId};
use wire_messages::{Before, FieldFault};

/// No member stands before the first one.
fn nobody_before() -> Before
    ensures { result ≡ nodes.nobody_before }
{
    Before {
        id: None,
        plain: true,
    }
}

/// What stands before the member behind this one.
fn with_member(before: &Before, member: &Member) -> Before
    ensures { result ≡ nodes.with_member before.now member.now }
{
    Before {
        id: Some(member.id),
        plain: before.plain && is_plain(member.role),
    }
}

impl<'a> Reader<'a> {
    /// 1 to 16 members of plain roles.
    #[tactic(auto, unfolding(wire_messages::specs::Nodes::plain_members_at))]
    pub(crate) fn plain_members(&mut self) -> Result<Members, FieldFault>
        ensures { Reads result (plain_members_at self.old.rest.now) self.new.rest.now }
    {
        let ids = self.ids(1, 16)?;
        match Members::from_slice(ids.as_slice()) {
            Ok(members) => Ok(members),
            Err(_) => unreachable!(),
        }
    }

    /// A member behind those before it, with so many after it.
    #[tactic(auto, unfolding(wire_messages::specs::Nodes::member_at))]
    fn member(&mut self, before: &Before, after: usize) -> Result<Member, FieldFault>
        ensures { Reads result (member_at before.now after self.old.rest.now) self.new.rest.now }
    {
        let id = self.id_below(before.id)?;
        let role = self.role(!(before.plain && after == 0))?;
        Ok(Member { id, role })
    }

    /// A member for each place.
    fn fill_members(&mut self, places: &mut [Member]) -> Result<(), FieldFault>
        ensures { Fills result places.new
            (items_at member_at with_member (length places.old) nobody_before self.old.rest.now)
            self.new.rest.now }
    {
        let mut before = nobody_before();
        for i in 0..places.len() {
            let member = self.member(&before, places.len() - i - 1)?;
            before = with_member(&before, &member);
            places[i] = member;
        }
        Ok(())
    }

    /// The members that take these places.
    fn members_in(&mut self, places: &mut [Member]) -> Result<Members, FieldFault>
        requires some { 0 < length places.old }
        requires limit { length places.old ≤ 16 }
        ensures { Reads result
            (items_at member_at with_member (length places.old) nobody_before self.old.rest.now)
            self.new.rest.now }
    {
        self.fill_members(places)?;
        match Members::with_roles(places) {
            Ok(members) => Ok(members),
            Err(_) => unreachable!(),
        }
    }

    /// 1 to 16 members with their roles.
    #[tactic(auto, unfolding(wire_messages::specs::Nodes::members_at))]
    pub(crate) fn members(&mut self) -> Result<Members, FieldFault>
        ensures { Reads result (members_at self.old.rest.now) self.new.rest.now }
    {
        let count = usize::from(self.byte(1, 16)?);
        let mut places = [Member::plain(NodeId::MIN); 16];
        self.members_in(&mut places[..count])
    }
}
