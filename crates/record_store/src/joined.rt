//! What became of a version that came to a store.

/// Whether a version is newer than the one that is held, or none is held.
#[derive(Clone, Copy, Debug, PartialEq, Eq)]
pub enum Joined {
    /// It is newer.
    Newer,
    /// It isn't, and what is held stays.
    Kept,
}
