//! A node: what it knows, and what it does at a tick, at a message, at a request and at a stop.
//!
//! Each of these calls plans a step and tells its effects; `Node::commit` then takes the step,
//! without memory. So a node that was refused memory is as it was.
#![tactic(auto)]

mod answered;
mod commit;
mod entering;
mod handlers;
mod node;
mod requests;
mod scanning;
mod showing;
mod stopping;
mod tick;

pub use answered::Answered;
pub use node::Node;
pub use node_steps::{Effects, SendList};
