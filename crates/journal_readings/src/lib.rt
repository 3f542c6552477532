//! How a journal of many nodes is read, and the claims about it.
//!
//! The readings in `specs/` are small folds over the lines alone: what a node holds, which view it is in, what a
//! view's members held on entry, which copies are whole and which of them are equal, what is settled and what is
//! still on its way. The claims speak of these words and of nothing else, and none of them goes by a rule: not by
//! what is due of a node. docs/READINGS.md tells them in words. What the functions of this crate ensure are laws and
//! computed examples; a call does nothing.
#![tactic(auto)]

pub mod laws;
