//! What a node keeps of the requests that it took up for others.
#![tactic(auto)]

mod reply_table;

pub use reply_table::ReplyTable;
