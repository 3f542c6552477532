//! The keys of views.
ghost use Rattle.std.specs.Prelude.{◌≡◌, ◌<◌, ◌-◌, ◌^◌, ℕ, Some, SomeIff};
ghost use Rattle.cluster_types.specs.ClusterKeys.{IsKey};
ghost use Rattle.cluster_types.specs.ClusterKeys as keys;
ghost use Rattle.cluster_types.specs.Texts.{key_text};

use crate::node_id::NodeId;
use std::fmt;

/// The key of a view: the round of the agreement that made it, 1 to 2^48 - 1, and the node that led
/// that agreement. Keys are ordered by round, then by principal.
#[derive(Clone, Copy, Debug, PartialEq, Eq, PartialOrd, Ord)]
pub struct ClusterKey {
    pub round: u64,
    pub principal: u16,
}

/// The first round that no key has: 2^48.
const ROUND_LIMIT: u64 = 1 << 48;

impl ClusterKey {
    /// No key. It is below every key.
    pub const NONE: ClusterKey = ClusterKey {
        round: 0,
        principal: 0,
    };

    /// The key of that round and principal. `None` where the round is 0 or at least 2^48, or the
    /// principal is 0.
    pub fn new(round: u64, principal: u16) -> Option<ClusterKey>
        ensures { SomeIff result (IsKey (record { round = round; principal = principal }))
            (record { round = round; principal = principal }) }
    {
        if round == 0 || round >= ROUND_LIMIT || principal == 0 {
            return None;
        }
        Some(ClusterKey { round, principal })
    }

    /// The key of the next round, led by `by`. `None` at the last round, 2^48 - 1; a round above
    /// it, which no key has, has no next one either.
    pub fn next(self, by: NodeId) -> Option<ClusterKey>
        ensures { SomeIff result (self.round < 2 ^ 48 - 1) (keys.next_round_key self by) }
    {
        if self.round >= ROUND_LIMIT - 1 {
            return None;
        }
        Some(ClusterKey {
            round: self.round + 1,
            principal: by.number(),
        })
    }
}

/// Writes `round.principal`, both in decimal.
impl fmt::Display for ClusterKey {
    ghost output = { λ k. Some (key_text k) };

    fn fmt<W: fmt::Write>(&self, f: &mut fmt::Formatter<W>) -> fmt::Result {
        let round = self.round;
        let principal = self.principal;
        write!(f, "{round}.{principal}")
    }
}
