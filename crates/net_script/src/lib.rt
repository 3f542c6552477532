//! The network between the nodes and the client: numbered messages in flight, and the groups that
//! can't reach one another.
#![tactic(auto)]

mod net;
mod slots;

pub use net::{FLIGHT_LIMIT, Flying, Net, Posted};
