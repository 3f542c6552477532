//! The world of a run: the nodes, the network between them and the client, and the journal.
//!
//! `World::step` takes one step: an event with the lines that are due of it. It plans the step,
//! sees that the journal has a place for its lines, makes room, and only then changes anything; so
//! a step that is refused leaves the world as it was.
#![tactic(auto)]

mod acting;
mod arriving;
mod calmness;
mod delivery;
mod fault;
mod history;
mod ledger;
mod lines;
mod nodes;
mod opening;
mod order;
mod parts;
mod requested;
mod sending;
mod settings;
mod showing;
mod taking;
mod world;

pub use cluster_rules::Event;
pub use fault::StepFault;
pub use parts::{Parts, Remains};
pub use world::World;
