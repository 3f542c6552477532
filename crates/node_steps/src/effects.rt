//! What a step does.
ghost use Rattle.std.specs.Prelude.{◌≡◌, ◌++◌, ◌∷◌, [], map, IfOk, OnOk};
ghost use Rattle.wire_messages.specs.Proper.{IsProper};
ghost use Rattle.wire_messages.specs.Spelling.{spelling};
ghost use Rattle.node_steps.specs.Spelled.{with_sends};

use crate::send_list::SendList;
use cluster_types::{Bytes, NoMemory, NodeId};
use journal_text::{Line, LineList};
use std::alloc::Global;
use wire_codec::{Message, encode};

/// What one step of a node does: its lines, and the messages that it sends, in order.
#[derive(Drop)]
pub struct Effects {
    pub lines: LineList,
    pub sends: SendList,
}

impl Effects {
    /// Neither lines nor messages, without memory.
    pub fn new(alloc: Global) -> Effects
        ensures { result ≡ record { lines = []; sends = [] } }
    {
        Effects {
            lines: LineList::new(alloc),
            sends: SendList::new(alloc),
        }
    }

    /// That line alone.
    pub fn of_line(alloc: Global, line: Line) -> Result<Effects, NoMemory>
        ensures { IfOk result (λ e. e ≡ record { lines = line ∷ []; sends = [] }) }
    {
        let mut effects = Effects::new(alloc);
        effects.lines.push(line)?;
        Ok(effects)
    }

    /// Adds a message to an endpoint, 0 for the client.
    pub fn send(&mut self, alloc: Global, to: u16, m: Message) -> Result<(), NoMemory>
        requires { IsProper m }
        ensures { OnOk result (self.new ≡ with_sends self.old ((to, spelling m) ∷ [])) }
    {
        self.send_borrowed(alloc, to, &m)
    }

    /// Adds a message to each of the nodes. It is spelled once.
    pub fn send_to_each(&mut self, alloc: Global, to: &[NodeId], m: Message) -> Result<(), NoMemory>
        requires { IsProper m }
        ensures { OnOk result
            (self.new ≡ with_sends self.old (map (λ n. (n, spelling m)) to.now)) }
    {
        self.send_borrowed_to_each(alloc, to, &m)
    }

    /// Adds a message that is still wanted to an endpoint, 0 for the client.
    pub(crate) fn send_borrowed(
        &mut self,
        alloc: Global,
        to: u16,
        m: &Message,
    ) -> Result<(), NoMemory>
        requires { IsProper m.now }
        ensures { OnOk result (self.new ≡ with_sends self.old ((to, spelling m.now) ∷ [])) }
    {
        self.sends.push((to, encode(alloc, m)?))
    }

    /// Adds a message that is still wanted to each of the nodes. It is spelled once.
    pub(crate) fn send_borrowed_to_each(
        &mut self,
        alloc: Global,
        to: &[NodeId],
        m: &Message,
    ) -> Result<(), NoMemory>
        requires { IsProper m.now }
        ensures { OnOk result
            (self.new ≡ with_sends self.old (map (λ n. (n, spelling m.now)) to.now)) }
    {
        let [others @ .., last] = to else {
            return Ok(());
        };
        let bytes = encode(alloc, m)?;
        copy_to_each(alloc, &mut self.sends, others, &bytes)?;
        self.sends.push((last.number(), bytes))
    }
}

/// Adds a copy of the message for each of the nodes.
fn copy_to_each(
    alloc: Global,
    sends: &mut SendList,
    to: &[NodeId],
    bytes: &Bytes,
) -> Result<(), NoMemory>
    ensures { OnOk result (sends.new ≡ sends.old ++ map (λ n. (n, bytes.now)) to.now) }
{
    for n in to {
        sends.push((n.number(), bytes.copy(alloc)?))?;
    }
    Ok(())
}
