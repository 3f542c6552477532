//! The writes of transactions: the version that a write makes, how it is applied, and how a
//! replica takes it.
#![tactic(auto)]

mod seen;
mod writes;

pub use cluster_types::NoMemory;
pub use seen::Seen;
pub use writes::{apply, apply_planned, next_version, on_repl};
