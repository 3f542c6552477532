//! The transactions that are open at a node in its view: requests that it accepted, until they are
//! answered or given up.
#![tactic(auto)]

mod closed;
mod counts;
mod slots;
mod txn;
mod txns;
mod walk;

pub use closed::Closed;
pub use cluster_types::NoMemory;
pub use txn::Txn;
pub use txns::{AckedStep, AnswerStep, BeginFault, Txns};
pub use walk::OpenTxns;
