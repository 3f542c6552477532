//! Requests that the client sent as messages.
use cluster_types::Digest;
use conflict_order::Want;

/// A request of the client that has no reply yet, or refusals alone.
#[derive(Debug, Drop)]
pub struct Call {
    pub digest: Digest,
    pub want: Want,
}

/// What became of a reply to a request of the client.
#[derive(Clone, Copy, Debug, PartialEq, Eq)]
pub enum CallStep {
    /// The request has its reply, and is closed.
    Closed,
    /// The reply is a refusal, and the request stays open.
    Refused,
    /// No request of that number is open.
    Spent,
}
