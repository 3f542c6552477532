//! The records of a node and the stamps of its copies.
//!
//! A store holds at most one version for each digest. It keeps a copy for each partition, in the
//! order of the digests, and where a copy was whole once, a stamp that says under which key.
#![tactic(auto)]

mod joined;
mod stamp;
mod store;

pub use cluster_types::NoMemory;
pub use joined::Joined;
pub use stamp::Stamp;
pub use store::RecordStore;
