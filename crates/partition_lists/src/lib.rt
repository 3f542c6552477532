//! The list of each partition: its nodes in the order in which they are to have its records.
//!
//! A member's rank decides where it stands. Quiesced members stand last; of those that aren't, the
//! first of each rack, and all that have no rack, stand before the others; and beyond that a hash
//! of the node and the partition decides, so that each partition has an order of its own. The
//! first nodes of the list, as many as the factor says, are the partition's replicas.
#![tactic(auto)]

mod hashes;
pub mod laws;
mod lists;
mod ranks;
mod view_lists;

pub use hashes::{fnv1a, one_at_a_time, place};
pub use lists::{is_replica, list, replicas};
pub use ranks::Ranks;
pub use view_lists::Lists;
