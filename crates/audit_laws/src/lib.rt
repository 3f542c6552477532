//! What the laws of a journal ask of one line more.
//!
//! A journal that comes from anywhere keeps the laws that `journal_readings` claims of the journal of every run, or
//! it doesn't. It can be judged line by line: it keeps them with one line more exactly where it kept them before and the
//! line fits (`specs/Fits.antt`). What the functions of this crate ensure are laws; a call does nothing.
#![tactic(auto)]

mod law;
pub mod laws;

pub use law::Law;
