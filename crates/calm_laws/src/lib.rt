//! Calm is reached: whatever a script did, rounds of calm come to an end. A flow delivers what is
//! in flight as it begins, and a round is a tick of each up node and four flows. Where no message
//! lacks a place, all that matters of a round is what comes to each node, in its order; the laws
//! here go along the phases of calm: hearing, agreement, the exchange, transactions that end,
//! batches that are handed on, and settling.
#![tactic(auto)]

pub mod laws;
