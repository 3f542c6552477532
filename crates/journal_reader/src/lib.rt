//! Lines read back from the text of a transcript.
#![tactic(auto)]

pub mod laws;
mod reading;

pub use reading::read;
