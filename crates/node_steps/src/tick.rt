//! The parts of a tick, by what they see of a node.
pub(crate) mod batches;
pub(crate) mod beat;
pub(crate) mod candidate;
pub(crate) mod progress_messages;
pub(crate) mod rows;
pub(crate) mod settlings;
pub(crate) mod transactions;
