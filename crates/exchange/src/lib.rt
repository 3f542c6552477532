//! The exchange of rows in a view: the members tell one another what states their copies have, and
//! once a node has all rows they give it a map, which is the same at every member.
//!
//! While rows are missing the state is `Exchanging`, and then `Exchanged`. Kept beside the rows are
//! the lists of all partitions, made as the view is entered, and of each partition its acting
//! master and whether all copies were empty, made once as the last row comes. Room for both and for
//! every row is taken by `begin`. Of the other calls `Exchanged::served` alone takes memory: with its
//! copy an exchange from which the last row was taken out again is finished without a second walk
//! over the rows.
#![tactic(auto)]

mod cursors;
mod exchanged;
mod exchanging;
mod served;
mod view_rows;

pub use exchanged::Exchanged;
pub use exchanging::{ExchangeStep, Exchanging, begin, begin_with};
pub use partition_state::MemberRow;
pub use served::ServedTable;
