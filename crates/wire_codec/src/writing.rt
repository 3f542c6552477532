//! Fields are written one by one, at the end of the bytes so far.
mod keys;
mod kinds;
mod members;
mod nodes;
mod numbers;
mod requests;
mod rows;
mod versions;

pub(crate) use kinds::put_message;
