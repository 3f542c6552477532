//! Requests that a node took up for others.
use wire_messages::ReplyBody;

/// Who asked a node by a message, and under which number.
#[derive(Clone, Copy, Debug, PartialEq, Eq, Hash)]
pub struct Asker {
    /// The id of the node that passed the request on, or 0, which is the client.
    pub from: u16,
    /// The request's number at the asker, at least 1.
    pub number: u32,
}

/// What became of a request that a node took up.
#[derive(Debug, Drop)]
pub enum Outcome {
    /// The transaction of that number is open.
    Open(u32),
    /// It was replied to so, and the reply is kept.
    Kept(ReplyBody),
}

/// A request that a node took up for an asker.
#[derive(Debug, Drop)]
pub struct Taken {
    pub asker: Asker,
    pub outcome: Outcome,
}
