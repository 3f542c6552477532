//! Why a line isn't read.
ghost use Rattle.std.specs.Prelude.{◌≡◌};
ghost use Rattle.journal_reader.specs.declared.reading.unread.Unread.TheVariants as unread;

use cluster_types::NoMemory;

/// Why a line isn't read.
#[derive(Debug, Drop)]
pub enum Unread {
    /// No line is written so.
    NoLine,
    /// The allocator refused.
    NoMemory,
}

impl From<NoMemory> for Unread {
    ghost from_gives = { λ _ fault. fault ≡ unread.NoMemory };

    fn from(_refused: NoMemory) -> Unread {
        Unread::NoMemory
    }
}
