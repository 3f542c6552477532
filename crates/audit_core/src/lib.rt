//! Judges a journal, wherever it comes from: whether it keeps the laws that the journal of every
//! run keeps.
//!
//! `lines_of` reads a transcript, and `audit` goes over its lines once. It says of the first place
//! at which the journal so far breaks a law how many lines that are, and which law it is, the first
//! that is broken there. It doesn't replay anything: it knows no script, and looks at nothing but
//! the lines.
#![tactic(auto)]

mod auditing;
mod contents;
mod empties;
mod joins;
mod judge;
mod lines;
mod losses;
mod maps;
mod shape;
mod stamps;
mod verdict;
mod writes;

pub use audit_laws::Law;
pub use auditing::audit;
pub use lines::{TextFault, lines_of};
pub use verdict::Verdict;
