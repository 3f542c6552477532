//! Ids and roles are read.
ghost use Rattle.std.specs.Prelude.{◌≡◌, ◌≤◌, length, IfOk};
ghost use Rattle.cluster_types.specs.Distinct.{IsDescending};
ghost use Rattle.wire_messages.specs.Nodes.{id_below_at, falling_ids_at, ids_at, id_at, role_at};
ghost use Rattle.wire_codec.specs.Reading.{Reads};

use crate::reading::{Reader, bad};
use cluster_types::{NodeId, NodeList, Role};
use wire_messages::FieldFault;

impl<'a> Reader<'a> {
    /// The id of a node.
    #[tactic(auto, unfolding(wire_messages::specs::Fields::field, wire_messages::specs::Numbers::number_at, wire_messages::specs::Nodes::id_at))]
    pub(crate) fn id(&mut self) -> Result<NodeId, FieldFault>
        ensures { Reads result (id_at self.old.rest.now) self.new.rest.now }
    {
        let bytes = self.rest;
        let number = self.u16()?;
        match NodeId::new(number) {
            Some(id) => Ok(id),
            None => Err(bad(bytes)),
        }
    }

    /// An id below the one before it, if there is one.
    #[tactic(auto, unfolding(wire_messages::specs::Fields::field, wire_messages::specs::Numbers::number_at, wire_messages::specs::Nodes::id_at, wire_messages::specs::Nodes::id_below_at))]
    pub(crate) fn id_below(&mut self, before: Option<NodeId>) -> Result<NodeId, FieldFault>
        ensures { Reads result (id_below_at before self.old.rest.now) self.new.rest.now }
    {
        let bytes = self.rest;
        let id = self.id()?;
        if let Some(before) = before {
            if id >= before {
                return Err(bad(bytes));
            }
        }
        Ok(id)
    }

    /// So many ids, each below the one before it.
    fn falling_ids(&mut self, count: u8) -> Result<NodeList, FieldFault>
        requires { count ≤ 16 }
        ensures reads { Reads result (falling_ids_at count self.old.rest.now) self.new.rest.now }
        ensures count { IfOk result (λ ids. length ids ≡ count) }
        ensures order { IfOk result IsDescending }
    {
        let mut ids = NodeList::new();
        let mut before = None;
        for _ in 0..count {
            let id = self.id_below(before)?;
            ids.push(id);
            before = Some(id);
        }
        Ok(ids)
    }

    /// `least` to `most` ids in falling order, behind their number.
    #[tactic(auto, unfolding(wire_messages::specs::Nodes::ids_at))]
    pub(crate) fn ids(&mut self, least: u8, most: u8) -> Result<NodeList, FieldFault>
        requires { most ≤ 16 }
        ensures reads { Reads result (ids_at least most self.old.rest.now) self.new.rest.now }
        ensures count { IfOk result (λ ids. (least ≤ length ids) × (length ids ≤ most)) }
        ensures order { IfOk result IsDescending }
    {
        let count = self.byte(least, most)?;
        self.falling_ids(count)
    }

    /// A rack, and a mark that is 0 or 1. Both may be 0 where `plain` says so.
    #[tactic(auto, unfolding(wire_messages::specs::Fields::field, wire_messages::specs::Nodes::role_at))]
    pub(crate) fn role(&mut self, plain: bool) -> Result<Role, FieldFault>
        ensures { Reads result (role_at plain self.old.rest.now) self.new.rest.now }
    {
        let bytes = self.rest;
        let front = self.take(2)?;
        let (rack, mark) = (front[0], front[1]);
        if mark > 1 || (!plain && rack == 0 && mark == 0) {
            return Err(bad(bytes));
        }
        Ok(Role {
            rack,
            quiesced: mark == 1,
        })
    }
}
