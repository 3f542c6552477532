//! What the calls of `Agree` answer.
use cluster_types::{ClusterKey, Members, NodeList};

/// What a tick says of the proposal.
#[derive(Clone, Copy, Debug, PartialEq)]
pub enum ProposalStep {
    /// There is none.
    Nothing,
    /// It is to be sent to the members that haven't accepted it, in member order.
    Send {
        key: ClusterKey,
        members: Members,
        to: NodeList,
    },
    /// It has no other members: its view is entered.
    Enter {
        key: ClusterKey,
        members: Members,
    },
}

/// The answer to a Propose.
#[derive(Clone, Copy, Debug, PartialEq)]
pub enum Vote {
    /// The key is promised.
    Accept(ClusterKey),
    /// The key is below the one that was promised.
    Refuse {
        key: ClusterKey,
        promised: ClusterKey,
    },
}

/// What became of an Accept.
#[derive(Clone, Copy, Debug, PartialEq)]
pub enum AcceptStep {
    /// Its key isn't proposed.
    Stale,
    /// It counts, and other members haven't accepted yet.
    Waiting,
    /// All have: the view is entered.
    Enter { key: ClusterKey, members: Members },
}

/// What became of a Refuse.
#[derive(Clone, Copy, Debug, PartialEq)]
pub enum RefuseStep {
    /// Its key isn't proposed.
    Stale,
    /// The proposal was given up.
    Stopped,
}

/// What became of a Commit.
#[derive(Clone, Copy, Debug, PartialEq)]
pub enum CommitStep {
    /// Its view isn't to be entered.
    Stale,
    /// The view is entered.
    Enter { key: ClusterKey, members: Members },
}
