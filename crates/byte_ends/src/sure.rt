//! Ends that never fail.
ghost use Rattle.std.specs.Prelude.{◌≡◌, ◌≢◌, ◌↔◌, ◌≤◌, ◌+◌, ◌++◌, ℕ, List, [], Some, None, take, drop, length, min, IfOk};
ghost use Rattle.byte_ends.specs.Faults.{last_count};
ghost use Rattle.byte_ends.specs.Source.{pulled_count};

use crate::sink::{Pushed, Sink};
use crate::source::{Pulled, Source};
use std::alloc::{AllocError as NoMemory, Global};
use std::marker::Model;

/// Bytes in memory, given as fast as they are asked for.
#[derive(Drop)]
pub struct SureSource {
    bytes: Vec<u8>,
    at: usize,
}

impl Model for SureSource {
    ghost Value = { List ℕ };

    ghost view = { λ s. drop s.at s.bytes.items };

    ghost invariant = { λ s. s.at ≤ length s.bytes.items };
}

impl SureSource {
    /// A source of these bytes.
    pub fn new(alloc: Global, bytes: &[u8]) -> Result<SureSource, NoMemory>
        ensures { IfOk result (λ s. s ≡ bytes.now) }
    {
        let bytes = Vec::from_slice(alloc, bytes)?;
        Ok(SureSource { bytes, at: 0 })
    }
}

impl Source for SureSource {
    ghost left = { λ s. Some s };

    ghost faults = { λ _. 0 };

    fn pull(&mut self, into: &mut [u8]) -> Pulled
        ensures ended { (result ≡ Pulled.End) ↔ (self.old ≡ []) }
        ensures got { (n : ℕ) → result ≡ Pulled.Got n
            → n ≡ min (length into.old) (length self.old) }
        ensures never_fails { result ≢ Pulled.Failed }
        ensures piece { into.new
            ≡ take (pulled_count result) self.old ++ drop (pulled_count result) into.old }
        ensures left { self.new ≡ drop (pulled_count result) self.old }
    {
        if self.at >= self.bytes.len() {
            return Pulled::End;
        }
        let count = into.len().min(self.bytes.len() - self.at);
        into[..count].copy_from_slice(&self.bytes[self.at..self.at + count]);
        self.at += count;
        Pulled::Got(count)
    }
}

/// Counts the bytes that it takes, and forgets them.
#[derive(Drop)]
pub struct SureSink {
    count: u64,
}

impl Model for SureSink {
    ghost Value = { ℕ };

    ghost view = { λ s. s.count };
}

impl SureSink {
    /// A sink that has taken nothing.
    pub fn new() -> Self
        ensures { result ≡ 0 }
    {
        SureSink { count: 0 }
    }
}

impl Sink for SureSink {
    ghost taken = { λ _. None };

    ghost faults = { λ _. 0 };

    fn push(&mut self, bytes: &[u8]) -> Pushed
        ensures took { result ≡ Pushed.Took (length bytes.now) }
        ensures counts { self.new ≡ min (self.old + length bytes.now) last_count }
    {
        self.count = self.count.saturating_add(bytes.len() as u64);
        Pushed::Took(bytes.len())
    }
}

#[cfg(test)]
mod tests {
    use super::*;
    use std::test::Fail;

    #[test]
    fn sure_ends_give_and_take_all_at_once(rt: HostRuntime) -> Result<(), Fail> {
        let mut source = SureSource::new(rt.alloc(), b"abc")?;
        let mut sink = SureSink::new();
        let mut into = [0; 4];
        assert_eq!(rt; source.pull(&mut into), Pulled::Got(3));
        assert!(rt; into == *b"abc\0");
        assert_eq!(rt; source.pull(&mut into), Pulled::End);
        assert_eq!(rt; sink.push(&into), Pushed::Took(4));
        Ok(())
    }
}
