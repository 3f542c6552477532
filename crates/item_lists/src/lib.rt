//! Lists of items of any type.
//!
//! Items that are copied stand in a `CopyList`, which lends them as a slice, and items that own
//! memory in an `OwnedList`, which is copied where their clones are equal to them (`ExactClone`).
#![tactic(auto)]

mod copy_list;
mod exact_clone;
mod owned_list;

pub use copy_list::CopyList;
pub use exact_clone::ExactClone;
pub use owned_list::OwnedList;
