//! The rules of a node: what is known of it, what each line and each message adds to that, and what
//! is due of it at a tick, at a message, at a request, at a stop and at a start.
//!
//! The rules are definitions, one file a subject, in this crate's specs/. docs/RULES.md tells them
//! in words and names the definition of each. Beside them stand the types that they and the parts
//! of a node share, and laws whose clauses are computed examples.
#![tactic(auto)]

mod beat;
pub mod laws;
mod member_row;
pub mod step_laws;

pub use beat::Beat;
pub use member_row::MemberRow;
