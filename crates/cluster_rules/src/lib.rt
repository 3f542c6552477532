//! The world of many nodes and its runs, and what holds of the journal of every run.
//!
//! The world stands in `specs/` as a record of what is known of its nodes, its network and its client.
//! It changes mark by mark, what is due of an event is a function of it, and a run is steps. docs/RULES.md
//! tells it in words. How a journal is read stands in journal_readings, apart from these rules. What the
//! functions of this crate ensure are laws and computed examples; a call does nothing.
#![tactic(auto)]

mod event;
pub mod node_laws;
pub mod reading_laws;
pub mod request_laws;
pub mod world_laws;

pub use event::Event;
