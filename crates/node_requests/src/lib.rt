//! What a node keeps of requests that go as messages, beside the node: a step of the node is dressed
//! by it, and changes it.
#![tactic(auto)]

mod change;
mod leaving;
mod node_requests;
mod planning;

pub use node_requests::NodeRequests;
pub use request_rules::{Asker, Passed};
