//! Wants, replies and refusals are read.
ghost use Rattle.std.specs.Prelude.{◌≡◌};
ghost use Rattle.wire_messages.specs.Numbers.{byte_at};
ghost use Rattle.wire_codec.specs.Reading.{Reads, ReadsUnlessRefused};
ghost use Rattle.wire_messages.specs.Requests.{is_reply_tag, want_at, reply_at, refusal_at};

use crate::reading::{ReadFault, Reader, bad};
use conflict_order::Want;
use std::alloc::Global;
use wire_messages::{FieldFault, ReplyBody, ScanRefusal};

impl<'a> Reader<'a> {
    /// 0 get, 1 put and the value, 2 del.
    #[tactic(auto, unfolding(wire_messages::specs::Requests::want_at))]
    pub(crate) fn want(&mut self, alloc: Global) -> Result<Want, ReadFault>
        ensures { ReadsUnlessRefused result (want_at self.old.rest.now) self.new.rest.now }
    {
        match self.byte(0, 2)? {
            0 => Ok(Want::Get),
            1 => Ok(Want::Put(self.value(alloc)?)),
            _ => Ok(Want::Del),
        }
    }

    /// The tag of a reply: below 6, and 6 too where there may be no view.
    #[tactic(auto, unfolding(wire_messages::specs::Fields::field, wire_messages::specs::Numbers::byte_at))]
    fn reply_tag(&mut self, no_view: bool) -> Result<u8, FieldFault>
        ensures { Reads result (byte_at (is_reply_tag no_view) self.old.rest.now)
            self.new.rest.now }
    {
        let bytes = self.rest;
        let tag = self.byte(0, 6)?;
        if tag == 6 && !no_view {
            return Err(bad(bytes));
        }
        Ok(tag)
    }

    /// A reply, which may be that there is no view where `no_view` says so.
    #[tactic(auto, unfolding(wire_messages::specs::Requests::reply_at))]
    pub(crate) fn reply(&mut self, alloc: Global, no_view: bool) -> Result<ReplyBody, ReadFault>
        ensures { ReadsUnlessRefused result (reply_at no_view self.old.rest.now) self.new.rest.now }
    {
        match self.reply_tag(no_view)? {
            0 => Ok(ReplyBody::Nothing),
            1 => Ok(ReplyBody::Found(self.version(alloc)?)),
            2 => Ok(ReplyBody::Done),
            3 => Ok(ReplyBody::Exchanging(self.id()?)),
            4 => Ok(ReplyBody::NotMaster(self.id()?)),
            5 => Ok(ReplyBody::Busy(self.positive()?)),
            _ => Ok(ReplyBody::NoView),
        }
    }

    /// Why there is no page.
    #[tactic(auto, unfolding(wire_messages::specs::Requests::refusal_at))]
    pub(crate) fn refusal(&mut self) -> Result<ScanRefusal, FieldFault>
        ensures { Reads result (refusal_at self.old.rest.now) self.new.rest.now }
    {
        match self.byte(1, 5)? {
            1 => Ok(ScanRefusal::NoView),
            2 => Ok(ScanRefusal::Exchanging(self.id()?)),
            3 => Ok(ScanRefusal::NotMaster(self.id()?)),
            4 => Ok(ScanRefusal::NotSettled),
            _ => Ok(ScanRefusal::Open(self.positive()?)),
        }
    }
}
