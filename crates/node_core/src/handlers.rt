//! What a message makes a node do, by kinds.
ghost use Rattle.std.specs.Prelude.{◌≡◌, ◌≢◌, None, is_some, IsTrue, IfOk, IfSome, OnErr, OnOk, if◌then◌else◌};
ghost use Rattle.wire_messages.specs.declared.message.Message.TheVariants as message;
ghost use Rattle.wire_messages.specs.Proper.{IsProper};
ghost use Rattle.node_rules.specs.Messages.{due_message, spent, stale};
ghost use Rattle.node_rules.specs.Notes.{in_view};
ghost use Rattle.node_rules.specs.Steps.{after_message, planning, unplanned};
ghost use Rattle.node_steps.specs.Counts.{HaveNumbers};
ghost use Rattle.node_rules.specs.Senders.{ComesFrom};
ghost use Rattle.node_steps.specs.Spelled.{spelled};
ghost use Rattle.node_steps.specs.Fits.{FitsView};
ghost use Rattle.node_steps.specs.Ranges.{HasRanges};
ghost use Rattle.node_view.specs.Plans as view;
ghost use Rattle.node_steps.specs.Viewing as viewing;
ghost use Rattle.node_view.specs.Views.{IsViewOf};
ghost use Rattle.node_rules.specs.Effects.{nothing};

mod agreement;
mod answers;
mod batches;
mod progress_messages;
mod states;
mod tables;
mod writes;

use crate::node::Node;
use cluster_types::{ClusterKey, NoMemory, NodeId};
use journal_lines::Line;
use node_rules::Beat;
use node_steps::{Effects, Planned};
use node_view::{View, ViewStep};
use std::alloc::Global;
use wire_messages::Message;

impl Node {
    /// Plans what a message makes a running node do. Its fields keep their ranges, counts and
    /// orders; it comes from a peer, and from another member where it is of the node's view, or
    /// from the client, 0, where that asks for a table.
    pub fn receive(
        &mut self,
        alloc: Global,
        from: u16,
        m: &Message,
        clock: u64,
    ) -> Result<Effects, NoMemory>
        requires up { IsTrue self.old.now.up }
        requires proper { IsProper m.now }
        requires sender { ComesFrom self.old.now from m.now }
        requires counts { HaveNumbers self.old.now }
        ensures effects { IfOk result
            (λ e. e ≡ spelled (due_message self.old.now clock from m.now)) }
        ensures planned { OnOk result
            (self.new ≡ planning self.old.now (after_message self.old.now clock from m.now)) }
        ensures err { OnErr result (self.new ≡ unplanned self.old.now) }
    {
        // What comes from a peer comes from a node.
        let _ = &self.me;
        self.give_up();
        match (m, NodeId::new(from)) {
            (Message::MapAsk, _) => self.on_map_ask(alloc),
            (m, Some(from)) => self.from_node(alloc, from, m, clock),
            (_, None) => self.stale(alloc),
        }
    }

    fn from_node(
        &mut self,
        alloc: Global,
        from: NodeId,
        m: &Message,
        clock: u64,
    ) -> Result<Effects, NoMemory>
        requires unplanned { self.old.next ≡ None }
        requires kind { m.now ≢ message.MapAsk }
        requires proper { IsProper m.now }
        requires sender { ComesFrom self.old.now from m.now }
        requires counts { HaveNumbers self.old.now }
        ensures effects { IfOk result
            (λ e. e ≡ spelled (due_message self.old.now clock from m.now)) }
        ensures planned { OnOk result
            (self.new ≡ planning self.old.now (after_message self.old.now clock from m.now)) }
        ensures err { OnErr result (self.new ≡ unplanned self.old.now) }
    {
        match m {
            Message::Heartbeat {
                view,
                promised,
                hears,
                role,
            } => self.on_heartbeat(
                alloc,
                from,
                Beat {
                    view: *view,
                    promised: *promised,
                    hears: *hears,
                    role: *role,
                },
            ),
            Message::Propose { key, members } => self.on_propose(alloc, from, *key, members),
            Message::Accept { key } => self.on_accept(alloc, from, *key),
            Message::Refuse { refused, promised } => self.on_refuse(alloc, *refused, *promised),
            Message::Commit { key, members } => self.on_commit(alloc, *key, members),
            Message::State { key, wants, row } => self.on_state(alloc, from, *key, *wants, row),
            Message::Batch(batch) => self.on_batch(alloc, from, batch),
            Message::BatchAck { key, number } => self.on_batch_ack(alloc, from, *key, *number),
            Message::Progress {
                key,
                wants,
                done,
                handed,
                settled,
            } => self.on_progress(
                alloc,
                from,
                *key,
                *wants,
                done.get(),
                handed.get(),
                settled.get(),
            ),
            Message::Repl {
                key,
                transaction,
                nth,
                digest,
                version,
            } => self.on_repl(alloc, from, *key, *transaction, *nth, digest, version),
            Message::ReplAck { key, transaction } => {
                self.on_repl_ack(alloc, from, *key, *transaction)
            }
            Message::Ask {
                key,
                transaction,
                digest,
            } => self.on_ask(alloc, from, *key, *transaction, digest),
            Message::Answer {
                key,
                transaction,
                version,
            } => self.on_answer(alloc, from, *key, *transaction, version.as_ref(), clock),
            _ => self.stale(alloc),
        }
    }

    /// The node's view, if it is of that key.
    pub(crate) fn view_of(&self, key: ClusterKey) -> Option<&View>
        ensures some { is_some result ≡ in_view self.now.now key }
        ensures view { IfSome result (λ v. IsViewOf self.now.now v.now) }
    {
        let view = self.own_view()?;
        if view.key() == key { Some(view) } else { None }
    }

    /// The message is of another view, or of no use.
    pub(crate) fn stale(&mut self, alloc: Global) -> Result<Effects, NoMemory>
        requires unplanned { self.old.next ≡ None }
        ensures effects { IfOk result (λ e. e ≡ spelled (stale self.old.now)) }
        ensures planned { OnOk result (self.new ≡ planning self.old.now self.old.now) }
        ensures err { OnErr result (self.new ≡ self.old) }
    {
        let endpoint = self.me.number();
        let out = Effects::of_line(alloc, Line::Stale { endpoint })?;
        Ok(self.plan(out, Planned::Nothing))
    }

    /// The message answers nothing that is still open, so that its step changes nothing.
    pub(crate) fn spent(&mut self, alloc: Global, step: ViewStep) -> Result<Effects, NoMemory>
        requires unplanned { self.old.next ≡ None }
        requires fits { FitsView self.old.now step }
        requires ranges { HasRanges self.old.now → HasRanges (view.view_taken self.old.now step) }
        requires room { viewing.NeedsNoRoom step }
        ensures effects { IfOk result (λ e. e ≡ spelled (spent self.old.now)) }
        ensures planned { OnOk result
            (self.new ≡ planning self.old.now (view.view_taken self.old.now step)) }
        ensures err { OnErr result (self.new ≡ self.old) }
    {
        let step = Box::new(alloc, step)?;
        let endpoint = self.me.number();
        let out = Effects::of_line(alloc, Line::Spent { endpoint })?;
        Ok(self.plan(out, Planned::View(step)))
    }

    /// Plans the step of a message without effects of its own. One that isn't awaited is spent.
    pub(crate) fn plan_unless_spent(
        &mut self,
        alloc: Global,
        step: ViewStep,
        is_awaited: bool,
    ) -> Result<Effects, NoMemory>
        requires unplanned { self.old.next ≡ None }
        requires fits { FitsView self.old.now step }
        requires ranges { HasRanges self.old.now → HasRanges (view.view_taken self.old.now step) }
        requires room { viewing.NeedsNoRoom step }
        ensures effects { IfOk result
            (λ e. e ≡ spelled (if is_awaited then nothing else spent self.old.now)) }
        ensures planned { OnOk result
            (self.new ≡ planning self.old.now (view.view_taken self.old.now step)) }
        ensures err { OnErr result (self.new ≡ self.old) }
    {
        if !is_awaited {
            return self.spent(alloc, step);
        }
        // What the node knows keeps its ranges.
        let _ = &self.me;
        self.plan_step(alloc, Effects::new(alloc), step)
    }
}
