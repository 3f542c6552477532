//! What an auditor keeps of a journal as it goes over its lines.
//!
//! A *place* is the number of a line, from 0. The place of an `apply` or `merge` line stands for the version that it brings
//! (`Versions`). What changes along the journal is a `History`: its changes with their lines, so what something was after
//! any number of lines is found by a binary search. The auditor numbers the `Records`, and keeps of each the newest version
//! that was applied and how many nodes hold it; in the `Stores`, what each node holds and held of each record, and the
//! records of its copy of each partition; of each `Node` its clock and its view; of each `View` who entered it, what was
//! written in it, and what is still to be tried; and of each copy its `Stamps`, the lines by which it is known to be whole.
//!
//! Each part stands by itself, and knows nothing of the laws. Where memory is refused, what the part knows may no longer be
//! what the lines say, and an audit ends.
#![tactic(auto)]

mod copies;
mod history;
mod nodes;
mod records;
mod stamps;
mod stores;
mod versions;
mod views;
mod writes;

pub use copies::{Cover, Known, PartitionCopy, RecordChange, RecordChanges};
pub use history::{Change, History};
pub use nodes::Node;
pub use records::{Record, Records};
pub use stamps::{Stamps, key_at};
pub use stores::Stores;
pub use versions::Versions;
pub use views::{Entry, Partition, View, Write, key_pair};
pub use writes::Doubts;
