//! Where bytes go.
ghost use Rattle.std.specs.Prelude.{◌≡◌, ◌≢◌, ◌≤◌, ℕ, List, Option, length};
ghost use Rattle.byte_ends.specs.Faults.{Rose};
ghost use Rattle.byte_ends.specs.Sink.{PushFits, Pushes};

/// The answer to a push.
#[derive(Clone, Copy, Debug, PartialEq, Eq)]
pub enum Pushed {
    /// So many bytes were taken from the front of the piece.
    Took(usize),
    /// A fault: no byte counts as taken.
    Failed,
}

/// What takes bytes piece by piece.
pub trait Sink {
    /// The bytes taken so far, where the sink tells them.
    ghost taken: { Self → Option (List ℕ) };

    /// How many faults there were, up to 18,446,744,073,709,551,615.
    ghost faults: { Self → ℕ };

    /// Takes bytes from the front of `bytes`: some, where there are any. The faults that are counted
    /// are those that are answered.
    fn push(&mut self, bytes: &[u8]) -> Pushed
        ensures fits { PushFits result (length bytes.now) }
        ensures bytes { Pushes (taken self.old) (taken self.new) result bytes.now }
        ensures never_falls { faults self.old ≤ faults self.new }
        ensures cause { result ≡ Pushed.Failed → Rose (faults self.old) (faults self.new) }
        ensures told { result ≢ Pushed.Failed → faults self.new ≡ faults self.old };
}
