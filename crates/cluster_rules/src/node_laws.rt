//! Laws between the steps of a node and the marks of a world. A call does nothing: what it ensures is the law.
ghost use Rattle.std.specs.Prelude.{ℕ, List, map, None};
ghost use Rattle.conflict_order.specs.declared.want.Want.{Want};
ghost use Rattle.wire_messages.specs.declared.message.Message.{Message};
ghost use Rattle.node_rules.specs.Effects.{Effects};
ghost use Rattle.node_rules.specs.Facts.{Facts};
ghost use Rattle.node_rules.specs.Messages.{due_message_of};
ghost use Rattle.node_rules.specs.Notes.{noted, all_sent};
ghost use Rattle.node_rules.specs.Requests.{due_request, due_stop, due_start};
ghost use Rattle.node_rules.specs.Steps.{after_tick};
ghost use Rattle.node_rules.specs.Tick.{due_tick, tick_of};
ghost use Rattle.request_rules.specs.LineNotes.{all_requests_noted};
ghost use Rattle.cluster_rules.specs.declared.event.Event.TheVariants as event;
ghost use Rattle.cluster_rules.specs.DueEvents.{written};
ghost use Rattle.cluster_rules.specs.Marks.{after_all, event_begun, Writes};
ghost use Rattle.cluster_rules.specs.NodeSteps.{AreOf, AreRead, IsNumbered, Moves, all_sent_in, after_step};
ghost use Rattle.cluster_rules.specs.World.{World};

/// The marks of what a node does make of its facts what the node's own rules make of them, and leave
/// those of all others. Of the requests they make what its lines do, with the asker and the want in hand.
pub fn marks_of_a_node_are_its_own_step()
    ensures step { (w : World) → (n : ℕ) → (e : Effects) → AreOf n e.lines → AreRead e.sends
        → IsNumbered w.network
        → Moves n (all_sent (noted w.want (w.facts n) e.lines) e.sends)
        (all_sent_in w.network n e.sends) (all_requests_noted w.asker w.want w.requests e.lines) w
        (after_all w (map Writes (written w.network n e))) }
    ensures tick { (w : World) → (n : ℕ) → AreOf n (due_tick (w.facts n)).lines
        → AreRead (due_tick (w.facts n)).sends → IsNumbered w.network
        → Moves n (after_tick (w.facts n)) (all_sent_in w.network n (due_tick (w.facts n)).sends)
        (all_requests_noted None None w.requests (due_tick (w.facts n)).lines)
        (event_begun w (event.Tick n)) (after_step w (event.Tick n)) }
{}

/// Each line of what a node does is one of that node, or adds to requests alone, if to anything.
pub fn lines_of_a_node_are_its_own()
    ensures tick { (n : ℕ) → (f : Facts) → AreOf f.me (tick_of n f).lines }
    ensures message { (n : ℕ) → (f : Facts) → (clock : ℕ) → (from : ℕ) → (m : Message)
        → AreOf f.me (due_message_of n f clock from m).lines }
    ensures request { (f : Facts) → (clock : ℕ) → (digest : List ℕ) → (want : Want)
        → AreOf f.me (due_request f clock digest want).lines }
    ensures stop { (f : Facts) → AreOf f.me (due_stop f).lines }
    ensures start { (f : Facts) → AreOf f.me (due_start f).lines }
{}
