//! The names, lists and bit rows that every layer of the cluster speaks of.
//!
//! A node has a `NodeId`, a part of the data a `PartitionId`, a view a `ClusterKey` and a record a
//! `Digest`. Short lists are copied; `Bytes`, `DigestList`, `IdList` and `StateRow` take memory.
#![tactic(auto)]

mod cluster_key;
mod copy_state;
mod digest;
mod groups;
mod lists;
mod map_view;
mod member;
mod member_list;
mod members;
mod node_id;
mod node_list;
mod partition;
mod row;
mod state_row;

pub use boxed_item::Boxed;
pub use cluster_key::ClusterKey;
pub use copy_state::CopyState;
pub use digest::Digest;
pub use groups::Groups;
pub use lists::{Bytes, DigestList, IdList};
pub use map_view::{MapEntry, MapView};
pub use member::{Member, Role};
pub use member_list::MemberList;
pub use members::{Members, MembersFault};
pub use node_id::NodeId;
pub use node_list::{ListFault, NodeList};
pub use partition::{PARTITIONS, PartitionId, partition_of};
pub use row::Row4096;
pub use state_row::StateRow;
pub use std::alloc::AllocError as NoMemory;
