//! Items that are open under numbers that were given in succession.
#![tactic(auto)]

mod open_table;

pub use open_table::OpenTable;
