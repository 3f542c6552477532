//! Scripts: what declares the nodes of a run, and what is done to them, line by line.
#![tactic(auto)]

mod before;
mod bytes;
mod fault;
mod fields;
mod forms;
mod keys;
mod laws;
mod lines;
mod nodes;
mod numbers;
mod reader;
mod script;
mod values;
mod words;

pub use fault::{Cause, ScriptFault};
pub use laws::{spelling_is_read_back, what_is_read_is_proper};
pub use reader::parse;
pub use script::{Command, Commands, Header, HeaderLine, Script};
