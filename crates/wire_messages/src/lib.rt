//! The messages that nodes and the client send each other, the bytes that spell them, and what bytes
//! are read as.
#![tactic(auto)]

mod before;
mod boxed_ids;
mod fault;
pub mod laws;
mod message;
mod records;
mod reply;
mod scan;

pub use before::Before;
pub use boxed_ids::BoxedIds;
pub use fault::{DecodeFault, FieldFault};
pub use message::{Batch, MapTable, Message};
pub use records::Records;
pub use reply::{Known, ReplyBody};
pub use scan::{ScanPage, ScanRefusal};
