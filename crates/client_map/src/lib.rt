//! The client's table: which node it asks for each partition.
//!
//! Nodes tell the client who acts by tables. Of each partition it keeps what the table with the
//! greatest key told, and of tables with one key what one told in which the partition had moved.
//! The tables themselves aren't kept. `new` alone takes memory.
#![tactic(auto)]

mod client_map;

pub use client_map::ClientMap;
