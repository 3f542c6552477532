//! Each kind of message is read: its fields, behind the byte of the kind.
ghost use Rattle.std.specs.Prelude.{◌≡◌, true, List, ℕ, Result, Some, IsErrOf};
ghost use Rattle.wire_messages.specs.declared.message.Message.{Message};
ghost use Rattle.wire_messages.specs.declared.fault.FieldFault.{FieldFault};
ghost use Rattle.wire_messages.specs.Kinds as kinds;
ghost use Rattle.wire_codec.specs.KindBytes.{byte_of, takes_memory};
ghost use Rattle.wire_codec.specs.Reading.{Reads, ReadsUnlessRefused};

use crate::kind::Kind;
use crate::reading::keys::is_none;
use crate::reading::{ReadFault, Reader};
use cluster_types::Role;
use std::alloc::Global;
use wire_messages::{Batch, FieldFault, MapTable, Message, ScanPage};

impl<'a> Reader<'a> {
    /// A heartbeat of a plain role.
    #[tactic(auto, unfolding(wire_messages::specs::Kinds::heartbeat_at))]
    fn heartbeat(&mut self) -> Result<Message, FieldFault>
        ensures { Reads result (kinds.heartbeat_at self.old.rest.now) self.new.rest.now }
    {
        let view = self.key_or_none()?;
        let promised = self.key_or_none()?;
        let hears = self.ids(0, 15)?;
        Ok(Message::Heartbeat {
            view,
            promised,
            hears,
            role: Role::PLAIN,
        })
    }

    /// A proposal of plain members.
    #[tactic(auto, unfolding(wire_messages::specs::Kinds::propose_at))]
    fn propose(&mut self) -> Result<Message, FieldFault>
        ensures { Reads result (kinds.propose_at self.old.rest.now) self.new.rest.now }
    {
        let key = self.key()?;
        let members = self.plain_members()?;
        Ok(Message::Propose { key, members })
    }

    /// A proposal is accepted.
    #[tactic(auto, unfolding(wire_messages::specs::Kinds::accept_at))]
    fn accept(&mut self) -> Result<Message, FieldFault>
        ensures { Reads result (kinds.accept_at self.old.rest.now) self.new.rest.now }
    {
        let key = self.key()?;
        Ok(Message::Accept { key })
    }

    /// A proposal is refused.
    #[tactic(auto, unfolding(wire_messages::specs::Kinds::refuse_at))]
    fn refuse(&mut self) -> Result<Message, FieldFault>
        ensures { Reads result (kinds.refuse_at self.old.rest.now) self.new.rest.now }
    {
        let refused = self.key()?;
        let promised = self.key()?;
        Ok(Message::Refuse { refused, promised })
    }

    /// A view of plain members is entered.
    #[tactic(auto, unfolding(wire_messages::specs::Kinds::commit_at))]
    fn commit(&mut self) -> Result<Message, FieldFault>
        ensures { Reads result (kinds.commit_at self.old.rest.now) self.new.rest.now }
    {
        let key = self.key()?;
        let members = self.plain_members()?;
        Ok(Message::Commit { key, members })
    }

    /// The states of the copies.
    #[tactic(auto, unfolding(wire_messages::specs::Kinds::state_message_at))]
    fn state_message(&mut self, alloc: Global) -> Result<Message, ReadFault>
        ensures { ReadsUnlessRefused result (kinds.state_message_at self.old.rest.now) self.new.rest.now }
    {
        let key = self.key()?;
        let wants = self.flag()?;
        let row = self.state_row(alloc)?;
        Ok(Message::State { key, wants, row })
    }

    /// A batch of records.
    #[tactic(auto, unfolding(wire_messages::specs::Kinds::batch_at))]
    fn batch(&mut self, alloc: Global) -> Result<Message, ReadFault>
        ensures { ReadsUnlessRefused result (kinds.batch_at self.old.rest.now) self.new.rest.now }
    {
        let key = self.key()?;
        let number = self.positive()?;
        let records = self.records(alloc, 1)?;
        Ok(Message::Batch(Batch {
            key,
            number,
            records,
        }))
    }

    /// A batch came.
    #[tactic(auto, unfolding(wire_messages::specs::Kinds::batch_ack_at))]
    fn batch_ack(&mut self) -> Result<Message, FieldFault>
        ensures { Reads result (kinds.batch_ack_at self.old.rest.now) self.new.rest.now }
    {
        let key = self.key()?;
        let number = self.positive()?;
        Ok(Message::BatchAck { key, number })
    }

    /// How far the copies have come.
    #[tactic(auto, unfolding(wire_messages::specs::Kinds::progress_at))]
    fn progress(&mut self, alloc: Global) -> Result<Message, ReadFault>
        ensures { ReadsUnlessRefused result (kinds.progress_at self.old.rest.now) self.new.rest.now }
    {
        let key = self.key()?;
        let wants = self.flag()?;
        let done = self.row(alloc)?;
        let handed = self.row(alloc)?;
        let settled = self.row(alloc)?;
        Ok(Message::Progress {
            key,
            wants,
            done,
            handed,
            settled,
        })
    }

    /// A write is replicated.
    #[tactic(auto, unfolding(wire_messages::specs::Kinds::repl_at))]
    fn repl(&mut self, alloc: Global) -> Result<Message, ReadFault>
        ensures { ReadsUnlessRefused result (kinds.repl_at self.old.rest.now) self.new.rest.now }
    {
        let key = self.key()?;
        let transaction = self.positive()?;
        let nth = self.positive()?;
        let digest = self.digest()?;
        let version = self.version(alloc)?;
        Ok(Message::Repl {
            key,
            transaction,
            nth,
            digest,
            version,
        })
    }

    /// A write came.
    #[tactic(auto, unfolding(wire_messages::specs::Kinds::repl_ack_at))]
    fn repl_ack(&mut self) -> Result<Message, FieldFault>
        ensures { Reads result (kinds.repl_ack_at self.old.rest.now) self.new.rest.now }
    {
        let key = self.key()?;
        let transaction = self.positive()?;
        Ok(Message::ReplAck { key, transaction })
    }

    /// A version is asked for.
    #[tactic(auto, unfolding(wire_messages::specs::Kinds::ask_at))]
    fn ask(&mut self) -> Result<Message, FieldFault>
        ensures { Reads result (kinds.ask_at self.old.rest.now) self.new.rest.now }
    {
        let key = self.key()?;
        let transaction = self.positive()?;
        let digest = self.digest()?;
        Ok(Message::Ask {
            key,
            transaction,
            digest,
        })
    }

    /// The version that was asked for.
    #[tactic(auto, unfolding(wire_messages::specs::Kinds::answer_at))]
    fn answer(&mut self, alloc: Global) -> Result<Message, ReadFault>
        ensures { ReadsUnlessRefused result (kinds.answer_at self.old.rest.now) self.new.rest.now }
    {
        let key = self.key()?;
        let transaction = self.positive()?;
        let version = self.option_version(alloc)?;
        Ok(Message::Answer {
            key,
            transaction,
            version,
        })
    }

    /// The table is asked for.
    #[tactic(auto, unfolding(wire_messages::specs::Kinds::map_ask_at))]
    fn map_ask(&mut self) -> Result<Message, FieldFault>
        ensures { Reads result (kinds.map_ask_at self.old.rest.now) self.new.rest.now }
    {
        Ok(Message::MapAsk)
    }

    /// The table of acting nodes.
    #[tactic(auto, unfolding(wire_messages::specs::Kinds::map_table_at))]
    fn map_table(&mut self, alloc: Global) -> Result<Message, ReadFault>
        ensures { ReadsUnlessRefused result (kinds.map_table_at self.old.rest.now) self.new.rest.now }
    {
        let key = self.key()?;
        let ids = self.table(alloc)?;
        let moved = self.row(alloc)?;
        Ok(Message::MapTable(MapTable { key, ids, moved }))
    }

    /// A heartbeat of another role.
    #[tactic(auto, unfolding(wire_messages::specs::Kinds::heartbeat_with_role_at))]
    fn heartbeat_with_role(&mut self) -> Result<Message, FieldFault>
        ensures { Reads result (kinds.heartbeat_with_role_at self.old.rest.now) self.new.rest.now }
    {
        let view = self.key_or_none()?;
        let promised = self.key_or_none()?;
        let hears = self.ids(0, 15)?;
        let role = self.role(false)?;
        Ok(Message::Heartbeat {
            view,
            promised,
            hears,
            role,
        })
    }

    /// A proposal of members that aren't all plain.
    #[tactic(auto, unfolding(wire_messages::specs::Kinds::propose_with_roles_at))]
    fn propose_with_roles(&mut self) -> Result<Message, FieldFault>
        ensures { Reads result (kinds.propose_with_roles_at self.old.rest.now) self.new.rest.now }
    {
        let key = self.key()?;
        let members = self.members()?;
        Ok(Message::Propose { key, members })
    }

    /// A view of members that aren't all plain is entered.
    #[tactic(auto, unfolding(wire_messages::specs::Kinds::commit_with_roles_at))]
    fn commit_with_roles(&mut self) -> Result<Message, FieldFault>
        ensures { Reads result (kinds.commit_with_roles_at self.old.rest.now) self.new.rest.now }
    {
        let key = self.key()?;
        let members = self.members()?;
        Ok(Message::Commit { key, members })
    }

    /// A request is passed on.
    #[tactic(auto, unfolding(wire_messages::specs::Kinds::proxy_at))]
    fn proxy(&mut self, alloc: Global) -> Result<Message, ReadFault>
        ensures { ReadsUnlessRefused result (kinds.proxy_at self.old.rest.now) self.new.rest.now }
    {
        let key = self.key()?;
        let number = self.positive()?;
        let digest = self.digest()?;
        let want = self.want(alloc)?;
        Ok(Message::Proxy {
            key,
            number,
            digest,
            want,
        })
    }

    /// The reply to a request that was passed on.
    #[tactic(auto, unfolding(wire_messages::specs::Kinds::proxy_reply_at))]
    fn proxy_reply(&mut self, alloc: Global) -> Result<Message, ReadFault>
        ensures { ReadsUnlessRefused result (kinds.proxy_reply_at self.old.rest.now) self.new.rest.now }
    {
        let key = self.key()?;
        let number = self.positive()?;
        let reply = self.reply(alloc, false)?;
        Ok(Message::ProxyReply { key, number, reply })
    }

    /// A request of the client.
    #[tactic(auto, unfolding(wire_messages::specs::Kinds::call_at))]
    fn call(&mut self, alloc: Global) -> Result<Message, ReadFault>
        ensures { ReadsUnlessRefused result (kinds.call_at self.old.rest.now) self.new.rest.now }
    {
        let number = self.positive()?;
        let digest = self.digest()?;
        let want = self.want(alloc)?;
        Ok(Message::Call {
            number,
            digest,
            want,
        })
    }

    /// The reply to the client.
    #[tactic(auto, unfolding(wire_messages::specs::Kinds::reply_message_at))]
    fn reply_message(&mut self, alloc: Global) -> Result<Message, ReadFault>
        ensures { ReadsUnlessRefused result (kinds.reply_message_at self.old.rest.now) self.new.rest.now }
    {
        let key = self.key_or_none()?;
        let number = self.positive()?;
        let reply = self.reply(alloc, is_none(key))?;
        Ok(Message::Reply { key, number, reply })
    }

    /// A page of a scan is asked for.
    #[tactic(auto, unfolding(wire_messages::specs::Kinds::scan_ask_at))]
    fn scan_ask(&mut self) -> Result<Message, FieldFault>
        ensures { Reads result (kinds.scan_ask_at self.old.rest.now) self.new.rest.now }
    {
        let scan = self.positive()?;
        let partition = self.partition()?;
        let after = self.option_digest()?;
        Ok(Message::ScanAsk {
            scan,
            partition,
            after,
        })
    }

    /// A page of a scan.
    #[tactic(auto, unfolding(wire_messages::specs::Kinds::scan_page_at))]
    fn scan_page(&mut self, alloc: Global) -> Result<Message, ReadFault>
        ensures { ReadsUnlessRefused result (kinds.scan_page_at self.old.rest.now) self.new.rest.now }
    {
        let key = self.key()?;
        let scan = self.positive()?;
        let after = self.option_digest()?;
        let writes = self.u32()?;
        let records = self.records(alloc, 0)?;
        let more = self.flag()?;
        Ok(Message::ScanPage(ScanPage {
            key,
            scan,
            after,
            writes,
            records,
            more,
        }))
    }

    /// There is no page.
    #[tactic(auto, unfolding(wire_messages::specs::Kinds::scan_no_at))]
    fn scan_no(&mut self) -> Result<Message, FieldFault>
        ensures { Reads result (kinds.scan_no_at self.old.rest.now) self.new.rest.now }
    {
        let scan = self.positive()?;
        let refusal = self.refusal()?;
        Ok(Message::ScanNo { scan, refusal })
    }

    /// The fields of a message of that kind.
    pub(crate) fn message(&mut self, alloc: Global, kind: Kind) -> Result<Message, ReadFault>
        ensures reads { (read : List ℕ → Result (Message × List ℕ) FieldFault)
            → kinds.kind_of (byte_of kind) ≡ Some read
            → ReadsUnlessRefused result (read self.old.rest.now) self.new.rest.now }
        ensures memory { IsErrOf result ReadFault.NoMemory → takes_memory kind ≡ true }
    {
        match kind {
            Kind::Heartbeat => Ok(self.heartbeat()?),
            Kind::Propose => Ok(self.propose()?),
            Kind::Accept => Ok(self.accept()?),
            Kind::Refuse => Ok(self.refuse()?),
            Kind::Commit => Ok(self.commit()?),
            Kind::State => self.state_message(alloc),
            Kind::Batch => self.batch(alloc),
            Kind::BatchAck => Ok(self.batch_ack()?),
            Kind::Progress => self.progress(alloc),
            Kind::Repl => self.repl(alloc),
            Kind::ReplAck => Ok(self.repl_ack()?),
            Kind::Ask => Ok(self.ask()?),
            Kind::Answer => self.answer(alloc),
            Kind::MapAsk => Ok(self.map_ask()?),
            Kind::MapTable => self.map_table(alloc),
            Kind::HeartbeatWithRole => Ok(self.heartbeat_with_role()?),
            Kind::ProposeWithRoles => Ok(self.propose_with_roles()?),
            Kind::CommitWithRoles => Ok(self.commit_with_roles()?),
            Kind::Proxy => self.proxy(alloc),
            Kind::ProxyReply => self.proxy_reply(alloc),
            Kind::Call => self.call(alloc),
            Kind::Reply => self.reply_message(alloc),
            Kind::ScanAsk => Ok(self.scan_ask()?),
            Kind::ScanPage => self.scan_page(alloc),
            Kind::ScanNo => Ok(self.scan_no()?),
        }
    }
}
