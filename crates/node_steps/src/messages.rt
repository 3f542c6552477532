//! What messages make a node tell and plan, by what they find in its view and its store.
pub(crate) mod agreement;
pub(crate) mod batches;
pub(crate) mod progress_messages;
pub(crate) mod states;
pub(crate) mod tables;
pub(crate) mod writes;
