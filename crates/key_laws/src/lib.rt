//! The laws of keys: what holds of promised keys, of entered ones and of lists of members at every line
//! of every run.
//!
//! `specs/` says under what condition a line that touches a key may stand (`Licences`), over the world with
//! a history of lists (`Traced`). What the functions of this crate ensure are laws; a call does nothing.
#![tactic(auto)]

pub mod laws;
