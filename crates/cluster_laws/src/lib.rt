//! Laws of every run whose lines have their licences.
//!
//! `specs/` says what a line does to a picture of the run (`Picture`, `Effect`, `Changes`) and under what
//! condition it may stand (`Licences`). What the functions of this crate ensure are laws of such runs; a
//! call does nothing.
#![tactic(auto)]

pub mod claims;
pub mod laws;
