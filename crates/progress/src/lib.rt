//! How far the copies of each partition have come in a view, as far as a node knows: which members
//! are done sending, which partitions were handed over, and which are settled.
//!
//! A node's own rows and those that it heard stand on the heap, and beside them, of each partition,
//! the number of other members that are known done, so that a test costs the same for any number
//! of members. `new` alone takes memory.
#![tactic(auto)]

mod counts;
mod progress;
mod row;
mod told;

pub use progress::{Progress, SettledBit};
