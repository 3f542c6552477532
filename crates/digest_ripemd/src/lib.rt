//! RIPEMD-160, and the digests that stand for the keys of records.
#![tactic(auto)]

mod blocks;
mod hasher;
mod rounds;

pub use hasher::{Ripemd160, digest_of};
