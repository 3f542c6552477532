//! Whom a node hears, and who its neighbours are.
//!
//! Kept are the last heartbeat of each other node, at most fifteen, with the ticks since it came, and
//! the neighbours as they were at the last tick. Nothing is cached, and no call takes memory.
#![tactic(auto)]

mod adjacency;
mod entries;
mod room;

pub use adjacency::Adjacency;
