//! The trusted edge: the standard library's readers and writers. Of their bytes nothing is told.
ghost use Rattle.std.specs.Prelude.{◌≡◌, ◌≤◌, ℕ, List, None, length, take, IfOk};
ghost use Rattle.std.specs.Io.KnownBytes.{Appends};
ghost use Rattle.byte_ends.specs.Faults.{Rose, counted_if};
ghost use Rattle.byte_ends.specs.Sink.{PushFits, push_failed};
ghost use Rattle.byte_ends.specs.Source.{CountFits, PullFits, Pulls, pull_failed};

use crate::sink::{Pushed, Sink};
use crate::source::{Pulled, Source};
use std::io;
use std::io::{ErrorKind, Read, Write};

/// A reader as a source. Each error of the reader is a fault, `Interrupted` too.
#[derive(Drop)]
pub struct StdSource<R: Read> {
    reader: R,
    faults: u64,
}

impl<R: Read> StdSource<R> {
    /// The reader, with no fault so far.
    pub fn new(reader: R) -> Self
        ensures reader { result.reader ≡ reader }
        ensures faults { result.faults ≡ 0 }
    {
        StdSource { reader, faults: 0 }
    }
}

impl<R: Read> Source for StdSource<R> {
    ghost left = { λ _. None };

    ghost faults = { λ s. s.faults };

    fn pull(&mut self, into: &mut [u8]) -> Pulled
        ensures fits { PullFits result (length into.old) }
        ensures counts { self.new.faults ≡ counted_if (pull_failed result) self.old.faults }
        ensures never_falls { self.old.faults ≤ self.new.faults }
        // A reader that tells its bytes gives these.
        ensures reader { Pulls (R.remaining self.old.reader) (R.remaining self.new.reader) result
            into.new }
    {
        if into.is_empty() {
            return Pulled::Got(0);
        }
        match self.reader.read(into) {
            Ok(0) => Pulled::End,
            Ok(count) => Pulled::Got(count),
            Err(_) => {
                self.faults = self.faults.saturating_add(1);
                Pulled::Failed
            }
        }
    }
}

// Writes from the front of the bytes and flushes. To write none of them is an error.
fn write_through<W: Write>(writer: &mut W, bytes: &[u8]) -> io::Result<usize>
    ensures fits { IfOk result (λ n. CountFits n (length bytes.now)) }
    ensures writer { IfOk result
        (λ n. Appends (W.contents writer.old) (W.contents writer.new) (take n bytes.now)) }
{
    let count = writer.write(bytes)?;
    if count == 0 && !bytes.is_empty() {
        return Err(io::Error::from(ErrorKind::WriteZero));
    }
    writer.flush()?;
    Ok(count)
}

/// A writer as a sink. Each push writes and then flushes; an error of either is a fault,
/// `Interrupted` too, and so is a write that takes no byte of some.
#[derive(Drop)]
pub struct StdSink<W: Write> {
    writer: W,
    faults: u64,
}

impl<W: Write> StdSink<W> {
    /// The writer, with no fault so far.
    pub fn new(writer: W) -> Self
        ensures writer { result.writer ≡ writer }
        ensures faults { result.faults ≡ 0 }
    {
        StdSink { writer, faults: 0 }
    }
}

impl<W: Write> Sink for StdSink<W> {
    ghost taken = { λ _. None };

    ghost faults = { λ s. s.faults };

    fn push(&mut self, bytes: &[u8]) -> Pushed
        ensures fits { PushFits result (length bytes.now) }
        ensures counts { self.new.faults ≡ counted_if (push_failed result) self.old.faults }
        ensures never_falls { self.old.faults ≤ self.new.faults }
        // A writer that tells its bytes has these.
        ensures writer { (n : ℕ) → result ≡ Pushed.Took n
            → Appends (W.contents self.old.writer) (W.contents self.new.writer) (take n bytes.now) }
    {
        match write_through(&mut self.writer, bytes) {
            Ok(count) => Pushed::Took(count),
            Err(_) => {
                self.faults = self.faults.saturating_add(1);
                Pushed::Failed
            }
        }
    }
}

#[cfg(test)]
mod tests {
    use super::*;
    use std::test::Fail;

    // A reader that is interrupted at its second call and gives a byte at any other.
    #[derive(Drop)]
    struct Interrupted(u8);

    impl Read for Interrupted {
        fn read(&mut self, into: &mut [u8]) -> io::Result<usize> {
            self.0 = self.0.saturating_add(1);
            if self.0 == 2 {
                return Err(io::Error::from(ErrorKind::Interrupted));
            }
            let count = into.len().min(1);
            into[..count].copy_from_slice(&b"r"[..count]);
            Ok(count)
        }
    }

    // A writer that takes two bytes at its first call, none at its second and fails at any other,
    // and whose flush fails where the third call is past.
    #[derive(Drop)]
    struct Tired(u8);

    impl Write for Tired {
        fn write(&mut self, bytes: &[u8]) -> io::Result<usize> {
            self.0 = self.0.saturating_add(1);
            match self.0 {
                1 | 4 => Ok(bytes.len().min(2)),
                2 => Ok(0),
                _ => Err(io::Error::from(ErrorKind::BrokenPipe)),
            }
        }

        fn flush(&mut self) -> io::Result<()> {
            if self.0 < 4 {
                return Ok(());
            }
            Err(io::Error::from(ErrorKind::BrokenPipe))
        }
    }

    #[test]
    fn each_error_of_a_reader_is_a_fault(rt: HostRuntime) {
        let mut into = [0; 4];
        let mut source = StdSource::new(b"abc".as_slice());
        assert_eq!(rt; source.pull(&mut into), Pulled::Got(3));
        assert!(rt; into == *b"abc\0");
        assert_eq!(rt; source.pull(&mut into), Pulled::End);
        assert_eq!(rt; source.faults, 0);

        let mut source = StdSource::new(Interrupted(0));
        for (answer, faults) in [
            (Pulled::Got(1), 0),
            (Pulled::Failed, 1),
            (Pulled::Got(1), 1),
        ] {
            assert_eq!(rt; source.pull(&mut into), answer);
            assert_eq!(rt; source.faults, faults);
        }
        assert!(rt; into == *b"rbc\0");
    }

    #[test]
    fn each_error_and_each_empty_write_of_a_writer_is_a_fault(rt: HostRuntime) {
        let mut sink = StdSink::new(Vec::new(rt.alloc()));
        assert_eq!(rt; sink.push(b"abc"), Pushed::Took(3));
        assert_eq!(rt; sink.push(b""), Pushed::Took(0));
        assert!(rt; sink.writer.as_slice() == b"abc".as_slice());
        assert_eq!(rt; sink.faults, 0);

        let mut sink = StdSink::new(Tired(0));
        let pushes = [
            (Pushed::Took(2), 0),
            (Pushed::Failed, 1),
            (Pushed::Failed, 2),
            (Pushed::Failed, 3),
        ];
        for (answer, faults) in pushes {
            assert_eq!(rt; sink.push(b"abc"), answer);
            assert_eq!(rt; sink.faults, faults);
        }
    }
}
