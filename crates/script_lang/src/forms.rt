//! The form of each line: what the fields behind its word say.
mod client;
mod commands;
mod counts;
mod group_lists;
mod groups;
mod header;
mod network;
mod node;
mod parts;
mod showing;

pub use commands::command_line;
pub use header::header_line;
