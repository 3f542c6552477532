//! Replays a script on many nodes, and writes what happened; or judges what was written.
//!
//! `run` reads the words, and replays by `replay_core` what they ask for: a script or the one that a
//! number stands for, with or without its summary. Where they ask for an audit it reads a transcript
//! instead, and writes whether it keeps the laws. Its contract says what every run ends with, and what
//! holds of the journal however it ended.
#![tactic(auto)]

mod auditing;
mod counting;
mod generating;
mod outcome;
mod replay;
mod summarizing;
mod word_replay;
mod words;

pub use auditing::AuditOutcome;
pub use counting::summary;
pub use generating::generated;
pub use outcome::Outcome;
pub use replay::run;
pub use replay_core::{ReplayOutcome, Status, code, fault_text};
