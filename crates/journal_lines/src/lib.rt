//! The lines of a journal, and the ranges that their parts keep.
#![tactic(auto)]

mod line;
mod message_bytes;
mod refusal;

pub use line::Line;
pub use message_bytes::MessageBytes;
pub use refusal::Refusal;
