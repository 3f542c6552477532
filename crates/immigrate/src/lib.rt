//! The batches of records that come from other nodes.
#![tactic(auto)]

mod merging;

pub use cluster_types::NoMemory;
pub use merging::{Merged, merge_planned, on_batch, plan_batch};
