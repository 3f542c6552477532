//! The names of nodes.
ghost use Rattle.std.specs.Prelude.{◌≡◌, ◌<◌, ℕ, Some, SomeIff};
ghost use Rattle.cluster_types.specs.Texts.{node_text};

use std::fmt;
use std::marker::Model;

/// The id of a node: 1 to 65,535.
#[derive(Clone, Copy, Debug, PartialEq, Eq, PartialOrd, Ord)]
pub struct NodeId {
    number: u16,
}

impl Model for NodeId {
    ghost Value = { ℕ };

    ghost view = { λ n. n.number };

    ghost invariant = { λ n. 0 < n.number };

    ghost inverse = { λ n. record { number = n } };
}

impl NodeId {
    /// The least id, 1.
    pub const MIN: NodeId = NodeId { number: 1 };

    /// The id of that number, and `None` at 0.
    pub fn new(n: u16) -> Option<NodeId>
        ensures { SomeIff result (0 < n) n }
    {
        if n == 0 {
            return None;
        }
        Some(NodeId { number: n })
    }

    /// The number that the id was made of.
    pub fn number(self) -> u16
        ensures same { result ≡ self }
        ensures range { 0 < result }
    {
        self.number
    }
}

/// Writes the number in decimal.
impl fmt::Display for NodeId {
    ghost output = { λ n. Some (node_text n) };

    fn fmt<W: fmt::Write>(&self, f: &mut fmt::Formatter<W>) -> fmt::Result {
        let number = self.number;
        write!(f, "{number}")
    }
}
