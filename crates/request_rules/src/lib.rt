//! The rules of requests that come or go as messages: a node passes a request on to the node that
//! acts, the client sends its requests as messages and may send them again, and it reads a
//! partition page by page.
//!
//! The rules are definitions, one file a subject, in this crate's specs/. Beside them stand the
//! types that the rules and their tables share, and laws whose clauses are computed examples. A
//! world keeps its requests by these rules; no rule reads them yet.
#![tactic(auto)]

mod call;
pub mod examples;
pub mod laws;
mod passed;
mod scanning;
mod taken;

pub use call::{Call, CallStep};
pub use passed::{Passed, ReplyStep};
pub use scanning::{FirstPage, Page, ScanStep, Scanning};
pub use taken::{Asker, Outcome, Taken};
