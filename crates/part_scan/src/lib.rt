//! The client's scans: a partition is read page by page, from one node in one view, as long as
//! nothing is written there.
//!
//! A scan keeps each page as it came, so that one is taken without a copy. A node's refusal of a page
//! changes no scan.
#![tactic(auto)]

pub mod laws;
mod paged;
mod scan;
mod scans;

pub use paged::PagedRecords;
pub use request_rules::FirstPage;
pub use scan::{PageStep, Scan};
pub use scans::Scans;
