//! How far a node has come, as typed states.
ghost use Rattle.std.specs.Prelude.{◌≡◌, ◌<◌, ◌+◌, ◌^◌, ℕ, true, max, None, Some, IfSome, IsTrue, SomeIff, Contains};
ghost use Rattle.cluster_types.specs.Distinct.{without};
ghost use Rattle.cluster_types.specs.ClusterKeys.{key_lt};
ghost use Rattle.cluster_types.specs.Members.{ids_of};
ghost use Rattle.wire_messages.specs.Keys.{IsKeyField};
ghost use Rattle.node_rules.specs.Agreement.{others_among, seeing, has_round, next_key, without_missing};
ghost use Rattle.clustering.specs.Stages.{AreKeys, IsStage, IsPromised, IsProposing, agreement_at, agreement_with, keys_of, stage_proposal, seen_at};

use cluster_types::{ClusterKey, Members, NodeId, NodeList};

/// What a node keeps at every stage.
#[derive(Clone, Copy)]
pub(crate) struct Keys {
    pub me: NodeId,
    /// The key that was promised last, or `NONE`.
    pub promised: ClusterKey,
    /// The key that was entered last, or `NONE`.
    pub last: ClusterKey,
    /// The greatest round of the promised keys that others told since the start.
    pub seen: u64,
}

/// Nothing was promised yet.
#[derive(Clone, Copy)]
pub(crate) struct Idle {
    pub keys: Keys,
}

/// The node proposes a view under the key that it promised.
#[derive(Clone, Copy)]
pub(crate) struct Proposing {
    pub keys: Keys,
    pub members: Members,
    /// The other members that haven't accepted it, in member order.
    pub missing: NodeList,
}

/// The view of the key that was promised hasn't been entered.
#[derive(Clone, Copy)]
pub(crate) struct Promised {
    pub keys: Keys,
}

/// The view of the key that was promised was entered.
#[derive(Clone, Copy)]
pub(crate) struct Entered {
    pub keys: Keys,
}

/// How far a node has come in agreeing on its next view.
#[derive(Clone, Copy)]
pub(crate) enum Stage {
    Idle(Idle),
    Proposing(Proposing),
    Promised(Promised),
    Entered(Entered),
}

impl Keys {
    /// The stage at which a node has these keys and proposes nothing.
    pub fn at_rest(&self) -> Stage
        requires { AreKeys self.now.promised self.now.last }
        ensures keys { keys_of result ≡ self.now }
        ensures agreement { agreement_at result ≡ agreement_with self.now None }
        ensures stage { IsStage result }
    {
        let keys = *self;
        if keys.last != keys.promised {
            return Stage::Promised(Promised { keys });
        }
        if keys.promised == ClusterKey::NONE {
            return Stage::Idle(Idle { keys });
        }
        Stage::Entered(Entered { keys })
    }

    /// The keys once that one was promised.
    pub fn promising(&self, key: ClusterKey) -> Keys
        ensures { result ≡ record self.now { promised = key } }
    {
        Keys {
            me: self.me,
            promised: key,
            last: self.last,
            seen: self.seen,
        }
    }

    /// The keys once the promised one was entered.
    pub fn entering(&self) -> Keys
        ensures { result ≡ record self.now { last = self.now.promised } }
    {
        Keys {
            me: self.me,
            promised: self.promised,
            last: self.promised,
            seen: self.seen,
        }
    }

    /// The keys once another node told that it promised this one.
    pub fn seeing(&self, key: ClusterKey) -> Keys
        ensures { result ≡ record self.now { seen = max self.now.seen key.round } }
    {
        Keys {
            me: self.me,
            promised: self.promised,
            last: self.last,
            seen: self.seen.max(key.round),
        }
    }

    /// The key of a new proposal: its round is above all that were promised or seen. `None` where
    /// that was the last round.
    pub fn next_key(&self) -> Option<ClusterKey>
        ensures round { let a = agreement_with self.now None in
            SomeIff result (IsTrue (has_round a)) (next_key self.now.me a) }
        ensures key { IfSome result IsKeyField }
        ensures above { IfSome result (λ k. key_lt self.now.promised k ≡ true) }
    {
        let round = self.promised.round.max(self.seen).checked_add(1)?;
        ClusterKey::new(round, self.me.number())
    }
}

impl Proposing {
    /// A proposal of these members that nobody has accepted, under the promised key.
    pub fn of(keys: &Keys, members: &Members) -> Proposing
        requires promised { IsPromised keys.now }
        requires led { keys.now.promised.principal ≡ keys.now.me }
        requires member { Contains (ids_of members.now) keys.now.me }
        ensures keys { result.keys ≡ keys.now }
        ensures members { result.members ≡ members.now }
        ensures missing { result.missing ≡ others_among keys.now.me members.now }
        ensures stage { IsProposing result }
    {
        Proposing {
            keys: *keys,
            members: *members,
            missing: members.ids().without(keys.me),
        }
    }

    /// The proposal once that member has accepted it.
    pub fn accepted_by(&self, from: NodeId) -> Proposing
        requires { IsProposing self.now }
        ensures keys { result.keys ≡ self.now.keys }
        ensures proposal { stage_proposal result ≡ without_missing (stage_proposal self.now) from }
        ensures stage { IsProposing result }
    {
        Proposing {
            keys: self.keys,
            members: self.members,
            missing: self.missing.without(from),
        }
    }
}

impl Stage {
    /// What the node keeps.
    pub fn keys(&self) -> Keys
        ensures { result ≡ keys_of self.now }
    {
        match self {
            Stage::Idle(idle) => idle.keys,
            Stage::Proposing(proposing) => proposing.keys,
            Stage::Promised(promised) => promised.keys,
            Stage::Entered(entered) => entered.keys,
        }
    }

    /// The stage once another node told that it promised this key.
    pub fn seeing(&self, key: ClusterKey) -> Stage
        requires { IsStage self.now }
        ensures seen { seen_at result
            ≡ record (seen_at self.now) { agreement = seeing (agreement_at self.now) key } }
        ensures stage { IsStage result }
    {
        match self {
            Stage::Idle(idle) => Stage::Idle(Idle {
                keys: idle.keys.seeing(key),
            }),
            Stage::Proposing(proposing) => Stage::Proposing(Proposing {
                keys: proposing.keys.seeing(key),
                members: proposing.members,
                missing: proposing.missing,
            }),
            Stage::Promised(promised) => Stage::Promised(Promised {
                keys: promised.keys.seeing(key),
            }),
            Stage::Entered(entered) => Stage::Entered(Entered {
                keys: entered.keys.seeing(key),
            }),
        }
    }
}
