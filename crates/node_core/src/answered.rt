//! What becomes of a request.
use journal_lines::Refusal;

/// What becomes of a request.
#[derive(Clone, Copy, Debug, PartialEq, Eq)]
pub enum Answered {
    /// It was accepted, as the transaction of that number in the node's view.
    Opened(u32),
    /// It was refused, and nothing changed.
    Refused(Refusal),
}
