//! Where bytes come from.
ghost use Rattle.std.specs.Prelude.{◌≡◌, ◌≢◌, ◌≤◌, ℕ, List, Option, length};
ghost use Rattle.byte_ends.specs.Faults.{Rose};
ghost use Rattle.byte_ends.specs.Source.{PullFits, Pulls};

/// The answer to a pull.
#[derive(Clone, Copy, Debug, PartialEq, Eq)]
pub enum Pulled {
    /// So many bytes stand at the front of the piece.
    Got(usize),
    /// Nothing comes.
    End,
    /// A fault: no byte came.
    Failed,
}

/// Bytes that come piece by piece.
pub trait Source {
    /// The bytes still to come, where the source tells them.
    ghost left: { Self → Option (List ℕ) };

    /// How many faults there were, up to 18,446,744,073,709,551,615.
    ghost faults: { Self → ℕ };

    /// Puts the next bytes at the front of `into`: some, where it has room and they are there. The
    /// faults that are counted are those that are answered.
    fn pull(&mut self, into: &mut [u8]) -> Pulled
        ensures fits { PullFits result (length into.old) }
        ensures bytes { Pulls (left self.old) (left self.new) result into.new }
        ensures never_falls { faults self.old ≤ faults self.new }
        ensures cause { result ≡ Pulled.Failed → Rose (faults self.old) (faults self.new) }
        ensures told { result ≢ Pulled.Failed → faults self.new ≡ faults self.old };
}
