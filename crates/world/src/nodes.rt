//! The declared nodes: where they stand, which of them run, and with which roles.
ghost use Rattle.std.specs.Prelude.{◌≡◌, ◌==◌, nat_lt, false, All, Contains, IfSome, IsNone, filter, length, position};
ghost use Rattle.partition_lists.specs.Lists.{in_order};
ghost use Rattle.cluster_rules.specs.Opening.{declared_nodes};
ghost use Rattle.cluster_rules.specs.World.{is_up, member_now, members_now};
ghost use Rattle.world.specs.Steps.{StandsAt, standing};

use crate::world::World;
use cluster_types::{Member, NodeId, NodeList};

impl World {
    /// Where the declared node stands.
    pub(crate) fn place_of(&self, id: NodeId) -> usize
        requires { Contains (declared_nodes self.now.header) id }
        ensures { StandsAt self.now result id }
    {
        match self.find(id.number()) {
            Some(place) => place,
            None => unreachable!(),
        }
    }

    /// Where the node of that number stands, and `None` where none is declared.
    pub(crate) fn find(&self, number: u16) -> Option<usize>
        ensures found { IfSome result (λ place. StandsAt self.now place number) }
        ensures none { IsNone result → ¬ (Contains (declared_nodes self.now.header) number) }
        ensures down { IsNone result → is_up (standing self.now) number ≡ false }
    {
        place_in(self.ids.as_slice(), number)
    }

    /// Whether the node of that number runs. One that isn't declared doesn't.
    pub(crate) fn is_up(&self, number: u16) -> bool
        ensures { result ≡ is_up (standing self.now) number }
    {
        match self.find(number) {
            None => false,
            Some(place) => self.nodes[place].is_up(),
        }
    }

    /// The declared nodes in the rising order of their ids.
    pub(crate) fn rising_ids(&self) -> NodeList
        ensures { result ≡ in_order nat_lt (declared_nodes self.now.header) }
    {
        self.ids
    }

    /// Those of the nodes that run, in their order.
    pub(crate) fn up_among(&self, ids: &NodeList) -> NodeList
        ensures { result ≡ filter (is_up (standing self.now)) ids.now }
    {
        let mut up = NodeList::new();
        for id in ids.as_slice() {
            if self.is_up(id.number()) {
                up.push(*id);
            }
        }
        up
    }

    /// The declared node with the role that it now has.
    fn member(&self, id: NodeId) -> Member
        requires { Contains (declared_nodes self.now.header) id }
        ensures { result ≡ member_now (standing self.now) id }
    {
        Member {
            id,
            role: self.node(id).role(),
        }
    }

    /// Writes the declared nodes with the roles that they now have.
    pub(crate) fn write_members(&self, ids: &[NodeId], members: &mut [Member])
        requires declared { All (Contains (declared_nodes self.now.header)) ids.now }
        requires size { length ids.now ≡ length members.old }
        ensures { members.new ≡ members_now (standing self.now) ids.now }
    {
        for place in 0..ids.len() {
            members[place] = self.member(ids[place]);
        }
    }
}

/// Where the id of that number stands.
fn place_in(ids: &[NodeId], number: u16) -> Option<usize>
    ensures { result ≡ position (λ id. id == number) ids.now }
{
    ids.iter().position(|id| id.number() == number)
}
