//! Replays a script on many nodes, and writes what happened.
//!
//! `replay` reads the whole script, plays it in a world and writes the journal's text. Its contract
//! says what every replay ends with, and its result's type what holds of the journal however it
//! ended. It knows no words of a command line, sums nothing up and judges no transcript.
#![tactic(auto)]

mod outcome;
mod play;
mod reading;
mod replaying;
mod status;
mod writing;

pub use outcome::ReplayOutcome;
pub use reading::{ReadFault, read_all};
pub use replaying::{play_bytes, replay};
pub use status::{Status, code, fault_text};
pub use writing::{WriteFault, write_all};
