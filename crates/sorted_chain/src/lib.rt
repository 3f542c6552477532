//! A map from keys of twenty bytes, kept in the order of its keys, in which room for new keys can
//! be made before they come.
//!
//! It is a chain of nodes, each in a box of its own, that leads from each key to the next, beside
//! a row of marks by which the node of a key is found.
#![tactic(auto)]

mod boxes;
mod chain;
mod iter;
mod key;
mod linked_list;
mod marks;

pub use chain::{PutFault, SortedChain};
pub use iter::Iter;
pub use std::alloc::AllocError as NoMemory;
