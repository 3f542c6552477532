//! What each part of a round makes of the nodes, and how rounds come to calm. A call does nothing:
//! what it ensures is the law.
ghost use Rattle.calm_laws.specs.Claims.{FlowsGo, TicksGo, NearAreHeard, OthersAreForgotten};
ghost use Rattle.calm_laws.specs.Claims.{GroupsAgree, OfAgreed, ExchangeEnds, TransactionsEnd};
ghost use Rattle.calm_laws.specs.Claims.{BatchesArrive, PendingEnds, AllAreDone};
ghost use Rattle.calm_laws.specs.Claims.{GroupsSettle, SchedulesCalm, FewAreBegun, BegunAreWithin};
ghost use Rattle.calm_laws.specs.Claims.{CalmComes, BegunAreInTime, WholeAreInTime, ScriptsCalmInTime};

/// After a flow in which no message lacks a place each node has made what it makes of what came to
/// it, in the order of the flow; and what it sent of that is what comes in the next flow.
pub fn a_flow_goes_node_by_node()
    ensures { FlowsGo }
{}

/// The same of ticks: what was in flight comes in the next flow, and then what the ticks sent.
pub fn ticks_go_node_by_node()
    ensures { TicksGo }
{}

/// In rounds in which no message lacks a place an up node has, from the second on, the beat of that
/// round of each up node near to it, with the role that this now has, and the beat names the
/// hearer; from the eleventh round on it hears nobody that isn't up or is apart from it.
pub fn nodes_hear_their_group()
    ensures near { NearAreHeard }
    ensures others { OthersAreForgotten }
{}

/// From the fifteenth round on all nodes of a group are in one view, whose members are just the
/// group.
pub fn a_group_agrees()
    ensures { GroupsAgree }
{}

/// From the sixteenth round on all nodes of the group have finished the exchange of that view, and
/// no transaction is open at them. No batch is out from the seventeenth on, and nothing is pending
/// after as many rounds more as were the most digests that were pending to one node; then each node
/// is done at each partition.
pub fn a_group_hands_on()
    ensures exchanged { OfAgreed ExchangeEnds }
    ensures closed { OfAgreed TransactionsEnd }
    ensures out { OfAgreed BatchesArrive }
    ensures pending { OfAgreed PendingEnds }
    ensures done { OfAgreed AllAreDone }
{}

/// Where nothing is pending to a node of the group any more, all of it know each partition settled
/// three rounds later.
pub fn a_group_settles()
    ensures { GroupsSettle }
{}

/// In a schedule of calm in which at most so many digests are pending to one node at the end of the
/// seventeenth round, the world is calm after 21 rounds and as many more. So of rounds of calm that
/// are begun no more are such a schedule, from whichever round on it is counted; and they are
/// within the bound, where so many rounds are.
pub fn a_calm_schedule_ends()
    ensures calm { SchedulesCalm }
    ensures few { FewAreBegun }
    ensures within { BegunAreWithin }
{}

/// Calm is reached: whatever steps a run has taken, the world is calm after 21 rounds more, one
/// for each record that is held in any store and one for each transaction that is open, if none
/// of them loses a message for want of a place (`comes`). So rounds of calm that are begun, each
/// where the world isn't calm, are no more than that (`begun`); and whatever was lost, no more
/// than the limit are begun after the last of them in which a message lacked a place. The same
/// holds of a calm that is played whole, and wherever one is begun in a proper script's run.
pub fn calm_is_reached()
    ensures comes { CalmComes }
    ensures begun { BegunAreInTime }
    ensures whole { WholeAreInTime }
    ensures scripts { ScriptsCalmInTime }
{}
