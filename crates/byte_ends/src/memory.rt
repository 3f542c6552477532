//! Ends over memory that fail at chosen calls.
ghost use Rattle.std.specs.Prelude.{◌≡◌, ◌↔◌, ◌+◌, ◌-◌, ◌<◌, ◌≤◌, ◌++◌, ℕ, List, [], Some, take, drop, length, min, vec_capacity, IfOk, IsTrue};
ghost use Rattle.byte_ends.specs.Faults.{counted, counted_if};
ghost use Rattle.byte_ends.specs.Memory.{SourceState, SinkState, NextFails, PushFails};
ghost use Rattle.byte_ends.specs.Sink.{PushFits, pushed_count, push_failed};
ghost use Rattle.byte_ends.specs.Source.{PullFits, pulled_count, pull_failed};

use crate::sink::{Pushed, Sink};
use crate::source::{Pulled, Source};
use std::alloc::{AllocError as NoMemory, Global};
use std::marker::Model;

// Whether the call after `calls` others is among those that fail.
fn next_fails(fails: &[u64], calls: u64) -> bool
    ensures { IsTrue result ↔ NextFails fails.now calls }
{
    match calls.checked_add(1) {
        Some(number) => fails.contains(&number),
        None => false,
    }
}

/// Bytes in memory, given in pieces of at most so many. Chosen calls fail.
///
/// A pull takes time in proportion to the number of calls that are to fail, and no memory.
#[derive(Drop)]
pub struct MemSource {
    bytes: Vec<u8>,
    at: usize,
    piece: usize,
    fails: Vec<u64>,
    calls: u64,
    faults: u64,
}

impl Model for MemSource {
    ghost Value = { SourceState };

    ghost view = { λ s.
        record {
          left = drop s.at s.bytes.items;
          piece = s.piece;
          fails = s.fails.items;
          calls = s.calls;
          faults = s.faults;
        } };

    ghost invariant = { λ s. (0 < s.piece) × (s.at ≤ length s.bytes.items) };
}

impl MemSource {
    /// A source of these bytes, at most `piece` of them in a pull. Of the pulls, counted from 1,
    /// those whose numbers stand in `fails` fail.
    pub fn new(
        alloc: Global,
        bytes: &[u8],
        piece: usize,
        fails: &[u64],
    ) -> Result<MemSource, NoMemory>
        requires { 1 ≤ piece }
        ensures { IfOk result (λ s. s ≡ record
            { left = bytes.now; piece = piece; fails = fails.now; calls = 0; faults = 0 }) }
    {
        let bytes = Vec::from_slice(alloc, bytes)?;
        let fails = Vec::from_slice(alloc, fails)?;
        Ok(MemSource {
            bytes,
            at: 0,
            piece,
            fails,
            calls: 0,
            faults: 0,
        })
    }
}

impl Source for MemSource {
    ghost left = { λ s. Some s.left };

    ghost faults = { λ s. s.faults };

    fn pull(&mut self, into: &mut [u8]) -> Pulled
        ensures fits { PullFits result (length into.old) }
        ensures never_falls { self.old.faults ≤ self.new.faults }
        ensures failed { (result ≡ Pulled.Failed) ↔ NextFails self.old.fails self.old.calls }
        ensures ended { (result ≡ Pulled.End)
            ↔ ((¬ NextFails self.old.fails self.old.calls) × (self.old.left ≡ [])) }
        ensures got { (n : ℕ) → result ≡ Pulled.Got n
            → n ≡ min (min (length into.old) self.old.piece) (length self.old.left) }
        ensures piece { into.new
            ≡ take (pulled_count result) self.old.left ++ drop (pulled_count result) into.old }
        ensures after { self.new ≡ record self.old {
          left = drop (pulled_count result) self.old.left;
          calls = counted self.old.calls;
          faults = counted_if (pull_failed result) self.old.faults;
        } }
    {
        let fails = next_fails(&self.fails, self.calls);
        self.calls = self.calls.saturating_add(1);
        if fails {
            self.faults = self.faults.saturating_add(1);
            return Pulled::Failed;
        }
        if self.at >= self.bytes.len() {
            return Pulled::End;
        }
        let count = into.len().min(self.piece).min(self.bytes.len() - self.at);
        into[..count].copy_from_slice(&self.bytes[self.at..self.at + count]);
        self.at += count;
        Pulled::Got(count)
    }
}

/// Keeps the bytes that it takes, as far as it has room. Chosen calls fail.
///
/// A push takes time in proportion to the number of calls that are to fail, and no memory.
#[derive(Drop)]
pub struct MemSink {
    bytes: Vec<u8>,
    room: usize,
    fails: Vec<u64>,
    calls: u64,
    faults: u64,
}

impl Model for MemSink {
    ghost Value = { SinkState };

    ghost view = { λ s.
        record {
          taken = s.bytes.items;
          room = s.room;
          fails = s.fails.items;
          calls = s.calls;
          faults = s.faults;
        } };

    ghost invariant = { λ s. length s.bytes.items + s.room ≤ vec_capacity s.bytes };
}

impl MemSink {
    /// A sink with room for so many bytes, which it takes at once. Of the pushes, counted from 1,
    /// those whose numbers stand in `fails` fail, and so does a push of bytes where no room is left.
    pub fn new(alloc: Global, room: usize, fails: &[u64]) -> Result<MemSink, NoMemory>
        ensures { IfOk result (λ s.
            s ≡ record { taken = []; room = room; fails = fails.now; calls = 0; faults = 0 }) }
    {
        let bytes = Vec::with_capacity(alloc, room)?;
        let fails = Vec::from_slice(alloc, fails)?;
        Ok(MemSink {
            bytes,
            room,
            fails,
            calls: 0,
            faults: 0,
        })
    }

    // Whether a push of so many bytes fails.
    fn push_fails(&self, size: usize) -> bool
        ensures { IsTrue result ↔ PushFails self.now size }
    {
        next_fails(&self.fails, self.calls) || (0 < size && self.room == 0)
    }

    /// The bytes taken so far.
    pub fn as_slice(&self) -> &[u8]
        ensures { result.now ≡ self.now.taken }
    {
        self.bytes.as_slice()
    }
}

impl Sink for MemSink {
    ghost taken = { λ s. Some s.taken };

    ghost faults = { λ s. s.faults };

    fn push(&mut self, bytes: &[u8]) -> Pushed
        ensures fits { PushFits result (length bytes.now) }
        ensures never_falls { self.old.faults ≤ self.new.faults }
        ensures failed { (result ≡ Pushed.Failed) ↔ PushFails self.old (length bytes.now) }
        ensures took { (n : ℕ) → result ≡ Pushed.Took n → n ≡ min (length bytes.now) self.old.room }
        ensures after { self.new ≡ record self.old {
          taken = self.old.taken ++ take (pushed_count result) bytes.now;
          room = self.old.room - pushed_count result;
          calls = counted self.old.calls;
          faults = counted_if (push_failed result) self.old.faults;
        } }
    {
        let fails = self.push_fails(bytes.len());
        self.calls = self.calls.saturating_add(1);
        if fails {
            self.faults = self.faults.saturating_add(1);
            return Pushed::Failed;
        }
        let count = bytes.len().min(self.room);
        // There is room, so this takes no memory.
        let _ = self.bytes.extend_from_slice(&bytes[..count]);
        self.room -= count;
        Pushed::Took(count)
    }
}

#[cfg(test)]
mod tests {
    use super::*;
    use std::test::Fail;

    #[test]
    fn a_source_gives_pieces_and_its_chosen_call_fails(rt: HostRuntime) -> Result<(), Fail> {
        let mut source = MemSource::new(rt.alloc(), b"hello", 2, &[1, 3])?;
        let mut into = [0; 4];
        let answers = [
            (Pulled::Failed, b"\0\0"),
            (Pulled::Got(2), b"he"),
            (Pulled::Failed, b"he"),
            (Pulled::Got(2), b"ll"),
            (Pulled::Got(1), b"ol"),
            (Pulled::End, b"ol"),
        ];
        for (answer, front) in answers {
            assert_eq!(rt; source.pull(&mut into), answer);
            assert!(rt; into.starts_with(front));
        }
        Ok(())
    }

    #[test]
    fn a_sink_takes_as_much_as_it_has_room_for(rt: HostRuntime) -> Result<(), Fail> {
        let mut sink = MemSink::new(rt.alloc(), 5, &[1])?;
        let pushes = [
            (b"abc", Pushed::Failed),
            (b"abc", Pushed::Took(3)),
            (b"def", Pushed::Took(2)),
            (b"fgh", Pushed::Failed),
        ];
        for (bytes, answer) in pushes {
            assert_eq!(rt; sink.push(bytes), answer);
        }
        assert_eq!(rt; sink.push(&[]), Pushed::Took(0));
        assert!(rt; sink.as_slice() == b"abcde".as_slice());
        Ok(())
    }
}
