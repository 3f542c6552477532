//! The requests of a node that go as messages to another node, or come from one.
#![tactic(auto)]

mod proxies;

pub use proxies::Proxies;
pub use request_rules::{Asker, Passed, ReplyStep};
