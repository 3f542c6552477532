//! The versions of a record, how they compare, and which of two remains.
#![tactic(auto)]

pub mod laws;
mod policy;
mod value;
mod version;
mod want;

pub use policy::Policy;
pub use value::{VALUE_LIMIT, ValueBytes, ValueFault};
pub use version::{Body, Version, join};
pub use want::{Action, Want};
