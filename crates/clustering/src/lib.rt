//! How nodes agree on views: a node proposes a view under a key of its own, each member promises the
//! greatest key that it is shown, and a view is entered once all its members have promised its key.
//!
//! `Agree` is one node's part in that. Each call takes it and gives the next one, with what the node
//! is to say. No call takes memory, and nothing is cached.
#![tactic(auto)]

mod agree;
mod stage;
mod steps;

pub use agree::Agree;
pub use steps::{AcceptStep, CommitStep, ProposalStep, RefuseStep, Vote};
