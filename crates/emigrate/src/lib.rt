//! The records that a node hands on to the replicas: what is pending towards each other member,
//! the batches in which it goes, and the copies that are dropped at last.
#![tactic(auto)]

mod collect;
mod counts;
mod emigration;
mod outgoing;
mod pending;
mod permit;
mod target;

pub use cluster_types::NoMemory;
pub use emigration::{AckStep, Emigration};
pub use permit::{DropPermit, drop_copy};
pub use target::{AfterAck, BATCH_LIMIT, Finished, Ready, Sent, TargetStage};
