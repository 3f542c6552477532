//! Messages as bytes, and bytes as messages. The messages themselves, what spells them and what bytes
//! are read as stand in `wire_messages`, and are handed on here.
#![tactic(auto)]

mod codec;
mod kind;
mod reading;
mod roles;
mod writing;

pub use codec::{decode, encode};
pub use wire_messages::{
    Batch, BoxedIds, DecodeFault, Known, MapTable, Message, Records, ReplyBody, ScanPage,
    ScanRefusal,
};
