//! Commands played in a world: each is one event, a flow of what is in flight, a round, or rounds
//! until the world is calm.
#![tactic(auto)]

mod event_of;
mod rounds;

pub use rounds::{calm, play};
