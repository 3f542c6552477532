//! A node's part in agreeing on views.
ghost use Rattle.std.specs.Prelude.{◌≡◌, true, false, None, Some, Contains};
ghost use Rattle.cluster_types.specs.ClusterKeys.{key_lt};
ghost use Rattle.cluster_types.specs.Members.{ids_of};
ghost use Rattle.wire_messages.specs.Keys.{IsKeyField, IsKeyOrNone};
ghost use Rattle.node_rules.specs.Agreement.{agreement_of, others_among, seeing, ticking, voting, counting, refusing, committing, may_enter};
ghost use Rattle.node_rules.specs.Copies.{is_nil};
ghost use Rattle.node_rules.specs.Exchange.{is_member};
ghost use Rattle.clustering.specs.Agreeing.{with_agreement};
ghost use Rattle.clustering.specs.Answers.{IsEnteredBy, accept_if, accept_of, commit_of, refuse_of, sent_of, tick_answer, vote_of};
ghost use Rattle.clustering.specs.Parts.{agreeing_with, agreeing_if_accepted, agreeing_if_alone, answer_if_alone, entered_from};
ghost use Rattle.clustering.specs.Stages.{AreKeys, IsPromised, IsProposing, IsStage, agreement_at, agreement_with, keys_of, stage_proposal};

use crate::stage::{Entered, Keys, Proposing, Stage};
use crate::steps::{AcceptStep, CommitStep, ProposalStep, RefuseStep, Vote};
use cluster_types::{ClusterKey, Members, NodeId};
use std::marker::Model;

/// The keys that a node promised and entered last, and what it proposes.
#[derive(Drop)]
pub struct Agree {
    stage: Stage,
}

impl Model for Agree {
    ghost use Rattle.node_rules.specs.Codes.{facts_codes};
    ghost use Rattle.clustering.specs.Agreeing.{Agreeing};
    ghost use Rattle.clustering.specs.Stages.{seen_at, IsStage};

    ghost Value = { Agreeing };

    ghost coded = { Prim.hlevel facts_codes };

    ghost view = { λ a. seen_at a.stage };

    ghost invariant = { λ a. IsStage a.stage };
}

impl Agree {
    /// A node as it starts, with the keys that it promised and entered last.
    pub fn restart(me: NodeId, promised: ClusterKey, last: ClusterKey) -> Agree
        requires { AreKeys promised last }
        ensures { result ≡ record { me = me; agreement = agreement_of promised last } }
    {
        let keys = Keys {
            me,
            promised,
            last,
            seen: 0,
        };
        Agree {
            stage: keys.at_rest(),
        }
    }

    /// An equal one.
    pub fn copy(&self) -> Agree
        ensures { result ≡ self.now }
    {
        Agree { stage: self.stage }
    }

    /// The key that was promised last, or `NONE`.
    pub fn promised(&self) -> ClusterKey
        ensures value { result ≡ self.now.agreement.promised }
        ensures key { IsKeyOrNone result }
        ensures ordered { key_lt result self.now.agreement.last ≡ false }
    {
        self.stage.keys().promised
    }

    /// The key that was entered last, or `NONE`: at most the promised one.
    pub fn last(&self) -> ClusterKey
        ensures value { result ≡ self.now.agreement.last }
        ensures key { IsKeyOrNone result }
    {
        self.stage.keys().last
    }

    /// Another node told that it promised this key.
    pub fn saw(self, key: ClusterKey) -> Agree
        ensures { result ≡ with_agreement self (seeing self.agreement key) }
    {
        Agree {
            stage: self.stage.seeing(key),
        }
    }

    /// Another node told that it promised this key.
    pub fn see(&mut self, key: ClusterKey)
        ensures { self.new ≡ with_agreement self.old (seeing self.old.agreement key) }
    {
        if self.stage.keys().seen < key.round {
            self.stage = self.stage.seeing(key);
        }
    }

    /// A tick at which the neighbours, the node among them, are these, and the node is a candidate
    /// or not. A proposal of other members is given up. A candidate that then proposes nothing
    /// proposes them, where a round is left for that.
    pub fn on_tick(self, set: Members, candidate: bool) -> (Agree, ProposalStep)
        requires { Contains (ids_of set) self.me }
        ensures agree { result.0
            ≡ with_agreement self (ticking self.me self.agreement set candidate) }
        ensures answer { result.1 ≡ tick_answer self.me self.agreement set candidate }
    {
        let stage = self.stage;
        tick(&stage, &set, candidate)
    }

    /// A Propose came. Its key is refused where it is below the promised one, and else promised.
    pub fn on_propose(self, key: ClusterKey, _members: Members) -> (Agree, Vote)
        requires { IsKeyField key }
        ensures agree { result.0 ≡ with_agreement self (voting self.agreement key) }
        ensures vote { result.1 ≡ vote_of self.agreement key }
    {
        let keys = self.stage.keys();
        if key < keys.promised {
            let promised = keys.promised;
            return (self, Vote::Refuse { key, promised });
        }
        if key == keys.promised {
            return (self, Vote::Accept(key));
        }
        let stage = keys.promising(key).at_rest();
        (Agree { stage }, Vote::Accept(key))
    }

    /// An Accept of the key came from a member.
    pub fn on_accept(self, from: NodeId, key: ClusterKey) -> (Agree, AcceptStep)
        ensures agree { result.0 ≡ with_agreement self (counting self.agreement from key) }
        ensures answer { result.1 ≡ accept_of self.agreement from key }
        ensures member { IsEnteredBy self.me result.1 }
    {
        match self.stage {
            Stage::Proposing(proposing) if proposing.keys.promised == key => {
                enter_or_wait(&proposing.accepted_by(from))
            }
            _ => (self, AcceptStep::Stale),
        }
    }

    /// A Refuse of the key came, with the key that its sender promised, which is seen.
    pub fn on_refuse(self, key: ClusterKey, promised: ClusterKey) -> (Agree, RefuseStep)
        ensures agree { result.0 ≡ with_agreement self (refusing self.agreement key promised) }
        ensures answer { result.1 ≡ refuse_of self.agreement key }
    {
        match self.stage {
            Stage::Proposing(proposing) if proposing.keys.promised == key => {
                let stage = proposing.keys.seeing(promised).at_rest();
                (Agree { stage }, RefuseStep::Stopped)
            }
            _ => (self.saw(promised), RefuseStep::Stale),
        }
    }

    /// A Commit came. Its view is entered exactly where its key is the promised one and above the
    /// last, and the node is a member.
    pub fn on_commit(self, key: ClusterKey, members: Members) -> (Agree, CommitStep)
        ensures agree { result.0
            ≡ with_agreement self (committing self.me self.agreement key members) }
        ensures answer { result.1 ≡ commit_of self.me self.agreement key members }
    {
        let keys = self.stage.keys();
        if may_enter(&keys, key, &members) {
            return (enter(&keys), CommitStep::Enter { key, members });
        }
        (self, CommitStep::Stale)
    }
}

/// A proposal of just these members stands, and any other is given up.
fn tick(stage: &Stage, set: &Members, candidate: bool) -> (Agree, ProposalStep)
    requires stage { IsStage stage.now }
    requires member { Contains (ids_of set.now) (keys_of stage.now).me }
    ensures agree { let a = agreement_at stage.now in
        result.0
        ≡ agreeing_with (keys_of stage.now) (ticking (keys_of stage.now).me a set.now candidate) }
    ensures answer { result.1
        ≡ tick_answer (keys_of stage.now).me (agreement_at stage.now) set.now candidate }
{
    match stage {
        Stage::Proposing(proposing) if proposing.members == *set => {
            let proposal = send(proposing);
            (Agree { stage: *stage }, proposal)
        }
        stage => propose_if(candidate, &stage.keys(), set),
    }
}

/// What is to be sent of a proposal.
fn send(proposing: &Proposing) -> ProposalStep
    ensures { result ≡ sent_of (Some (stage_proposal proposing.now)) }
{
    ProposalStep::Send {
        key: proposing.keys.promised,
        members: proposing.members,
        to: proposing.missing,
    }
}

/// Whether a committed view is entered.
fn may_enter(keys: &Keys, key: ClusterKey, members: &Members) -> bool
    ensures { result ≡ may_enter keys.now.me (agreement_with keys.now None) key members.now }
{
    key == keys.promised && keys.last < key && is_member(members, keys.me)
}

fn is_member(members: &Members, n: NodeId) -> bool
    ensures { result ≡ is_member members.now n }
{
    members.contains(n)
}

/// The view of the promised key is entered.
fn enter(keys: &Keys) -> Agree
    requires { AreKeys keys.now.promised keys.now.last }
    ensures { result ≡ entered_from keys.now }
{
    let stage = Stage::Entered(Entered {
        keys: keys.entering(),
    });
    Agree { stage }
}

/// A candidate without a proposal proposes these members, where a round is left for that.
fn propose_if(candidate: bool, keys: &Keys, set: &Members) -> (Agree, ProposalStep)
    requires keys { AreKeys keys.now.promised keys.now.last }
    requires member { Contains (ids_of set.now) keys.now.me }
    ensures agree { result.0 ≡ agreeing_with keys.now
        (ticking keys.now.me (agreement_with keys.now None) set.now candidate) }
    ensures answer { result.1
        ≡ tick_answer keys.now.me (agreement_with keys.now None) set.now candidate }
{
    match keys.next_key() {
        Some(key) if candidate => propose(&keys.promising(key), set),
        _ => {
            let stage = keys.at_rest();
            (Agree { stage }, ProposalStep::Nothing)
        }
    }
}

/// The node proposes these members under the key that it has just promised, or enters their view
/// where there are no others.
fn propose(keys: &Keys, set: &Members) -> (Agree, ProposalStep)
    requires promised { IsPromised keys.now }
    requires led { keys.now.promised.principal ≡ keys.now.me }
    requires member { Contains (ids_of set.now) keys.now.me }
    ensures agree { result.0 ≡ agreeing_if_alone keys.now set.now
        (others_among keys.now.me set.now) }
    ensures answer { result.1 ≡ answer_if_alone keys.now set.now
        (others_among keys.now.me set.now) }
{
    let key = keys.promised;
    let members = *set;
    let proposing = Proposing::of(keys, set);
    if proposing.missing.is_empty() {
        return (enter(keys), ProposalStep::Enter { key, members });
    }
    let answer = send(&proposing);
    let stage = Stage::Proposing(proposing);
    (Agree { stage }, answer)
}

/// The view is entered once nobody is missing.
fn enter_or_wait(proposing: &Proposing) -> (Agree, AcceptStep)
    requires { IsProposing proposing.now }
    ensures agree { result.0 ≡ agreeing_if_accepted proposing.now (is_nil proposing.now.missing) }
    ensures answer { let s = proposing.now in
        result.1 ≡ accept_if true (is_nil s.missing) s.keys.promised s.members }
    ensures member { IsEnteredBy proposing.now.keys.me result.1 }
{
    let key = proposing.keys.promised;
    let members = proposing.members;
    if proposing.missing.is_empty() {
        return (enter(&proposing.keys), AcceptStep::Enter { key, members });
    }
    let stage = Stage::Proposing(*proposing);
    (Agree { stage }, AcceptStep::Waiting)
}
