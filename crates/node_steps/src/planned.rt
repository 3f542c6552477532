//! Planned steps.
use cluster_types::NodeId;
use clustering::Agree;
use node_rules::Beat;
use node_view::{Settling, View, ViewStep};
use wire_messages::Batch;

/// What a planned step changes, with all the memory that this takes. What is large is boxed, so that
/// a step moves cheaply.
#[derive(Drop)]
pub enum Planned {
    /// Nothing changes.
    Nothing,
    /// A tick.
    Tick(Box<Ticked>),
    /// The agreement goes on.
    Agreed {
        agree: Box<Agree>,
        entered: Option<Box<View>>,
    },
    /// A heartbeat is heard.
    Heard {
        from: NodeId,
        beat: Beat,
    },
    /// A step of the view.
    View(Box<ViewStep>),
    /// The node stops.
    Stopped,
}

/// A tick. That what is heard ages needs no memory, and isn't planned.
#[derive(Drop)]
pub struct Ticked {
    pub agree: Agree,
    pub entered: Option<Box<View>>,
    /// The batches that are sent, each with its receiver.
    pub batches: Vec<(NodeId, Batch)>,
    /// What becomes of the partitions, in their order.
    pub settlings: Vec<Settling>,
}
