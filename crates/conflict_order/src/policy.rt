//! The conflict policy.

/// Which number decides first between two versions of a record.
#[derive(Clone, Copy, Debug, Default, PartialEq, Eq)]
pub enum Policy {
    /// The last update time, and then the generation.
    #[default]
    Time,
    /// The generation, and then the last update time.
    Generation,
}
