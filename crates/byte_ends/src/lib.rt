//! The two ends of a stream of bytes: where bytes come from and where they go, each with a count
//! of its faults.
#![tactic(auto)]

mod memory;
mod sink;
mod source;
mod standard;
mod sure;

pub use memory::{MemSink, MemSource};
pub use sink::{Pushed, Sink};
pub use source::{Pulled, Source};
pub use standard::{StdSink, StdSource};
pub use sure::{SureSink, SureSource};
