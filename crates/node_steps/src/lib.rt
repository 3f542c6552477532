//! Steps of a node: what each tells, and what it is to change.
//!
//! The functions here are given a view, a store, or what a tick sees of a node (`Ground`), and never
//! the node. They add to the effects of a step, its lines and messages, and answer what is planned.
#![tactic(auto)]

mod effects;
mod fields;
mod ground;
mod messages;
mod planned;
mod resolving;
mod send_list;
mod tick;

pub use effects::Effects;
pub use fields::{id_fits, ids_fit};
pub use ground::Ground;
pub use messages::agreement::{message_of, tell_commit, tell_proposal};
pub use messages::batches::{batch_effects, is_out};
pub use messages::progress_messages::progress_effects;
pub use messages::states::{plan_row, state_effects};
pub use messages::tables::tell_table;
pub use messages::writes::{acknowledge, merge_effects, plan_merge};
pub use planned::{Planned, Ticked};
pub use resolving::{Resolving, copy_of, plan_opened, plan_outcome};
pub use send_list::SendList;
pub use tick::batches::batches;
pub use tick::beat::beat;
pub use tick::candidate::is_candidate;
pub use tick::progress_messages::progress;
pub use tick::rows::rows;
pub use tick::settlings::settlings;
pub use tick::transactions::transactions;
