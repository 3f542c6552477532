//! The client's requests that go as messages, and may go again.
#![tactic(auto)]

mod once_client;

pub use once_client::{OnceClient, OpenFault};
pub use request_rules::{Call, CallStep};
