//! What the states of a partition's copies say: who acts on it, and which copies are equal.
//!
//! The rows of a view's members tell the states that the copies had as the view was entered. A copy
//! that was whole under the greatest key makes its node the acting master. Copies that were whole
//! under one key after equally many writes are equal, and are a class. Nothing is cached, and no
//! call takes memory. One that takes rows costs a search in each row; who asks more of one partition
//! makes its `States` once.
#![tactic(auto)]

mod copies;
mod rows;
mod states;

pub use node_rules::MemberRow;
pub use rows::{acting, all_empty, class_first, same_class};
pub use states::States;
