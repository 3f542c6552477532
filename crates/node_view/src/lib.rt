//! What a node keeps for a view: the exchange of rows, how far each partition has come, what is
//! handed on, the open transactions and the writes, all made as the view is entered and gone with
//! it.
//!
//! A step of a view is planned first, as a `ViewStep` that owns all the memory that it takes, and
//! `View::take_step` then takes it without memory.
#![tactic(auto)]

mod here;
mod list_cache;
mod live;
mod notes;
mod planning;
mod settling;
mod showing;
mod steps;
mod view;
mod view_step;
mod writes;

pub use here::Settling;
pub use list_cache::ListCache;
pub use notes::Write;
pub use view::{Entrant, View};
pub use view_step::{Counted, LastRow, Outcome, Progressed, Replicated, ViewStep, Writing};
