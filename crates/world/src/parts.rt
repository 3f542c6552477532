//! What a world comes apart into.
use client_map::ClientMap;
use journal_text::Journal;
use net_script::Net;
use node_core::Node;

/// A world that is over: its journal, and all else.
#[derive(Drop)]
pub struct Parts {
    pub journal: Journal,
    pub remains: Remains,
}

/// The nodes of a world that is over with all that they hold, its network and its client.
///
/// It says nothing of the run. It is memory that takes long to give back where many records are
/// held, and that a process which is about to end may forget.
#[derive(Drop)]
pub struct Remains {
    pub(crate) nodes: Vec<Node>,
    pub(crate) net: Net,
    pub(crate) client: ClientMap,
}
