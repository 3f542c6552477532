//! Writes a journal's text to its sink.
ghost use Rattle.std.specs.Prelude.{◌≡◌, ◌≢◌, ◌≤◌, OnOk, OnErr, IsErrOf, Err};
ghost use Rattle.byte_ends.specs.Faults.{Rose};
ghost use Rattle.replay_core.specs.Streams.{WroteBytes, WroteFront};
ghost use Rattle.journal_text.specs.Text as texts;

use byte_ends::{Pushed, Sink};
use journal_text::{Line, TextBuffer};
use std::alloc::{AllocError, Global};

/// The most bytes of one push.
const PIECE: usize = 65_536;

/// Why a text wasn't written.
#[derive(Clone, Copy, Debug, PartialEq, Eq)]
pub enum WriteFault {
    NoMemory,
    Sink,
}

impl From<AllocError> for WriteFault {
    ghost use Rattle.std.specs.Prelude.{◌≡◌};
    ghost use Rattle.replay_core.specs.declared.writing.WriteFault.TheVariants.{NoMemory};

    ghost from_gives = { λ _ fault. fault ≡ NoMemory };

    fn from(_refused: AllocError) -> WriteFault {
        WriteFault::NoMemory
    }
}

/// Writes the text of the lines, and keeps no more of it in memory than two pieces.
pub fn write_lines<K: Sink>(alloc: Global, lines: &[Line], out: &mut K) -> Result<(), WriteFault>
    ensures ok { OnOk result
        (WroteBytes (K.taken out.old) (K.taken out.new) (texts.text lines.now)) }
    ensures front { OnErr result
        (WroteFront (K.taken out.old) (K.taken out.new) (texts.text lines.now)) }

    ensures fault { IsErrOf result WriteFault.Sink → Rose (K.faults out.old) (K.faults out.new) }
    ensures told { result ≢ Err WriteFault.Sink → K.faults out.new ≡ K.faults out.old }
    ensures never_falls { K.faults out.old ≤ K.faults out.new }
{
    let mut text = TextBuffer::new(alloc);
    for line in lines {
        text.push(line)?;
        if text.len() >= PIECE {
            write_all(out, text.as_slice())?;
            text.clear();
        }
    }
    write_all(out, text.as_slice())
}

/// Writes all of the bytes, or fails at a fault of the sink.
pub fn write_all<K: Sink>(out: &mut K, bytes: &[u8]) -> Result<(), WriteFault>
    ensures ok { OnOk result (WroteBytes (K.taken out.old) (K.taken out.new) bytes.now) }
    ensures front { OnErr result (WroteFront (K.taken out.old) (K.taken out.new) bytes.now) }

    ensures only { result ≢ Err WriteFault.NoMemory }
    ensures fault { IsErrOf result WriteFault.Sink → Rose (K.faults out.old) (K.faults out.new) }
    ensures told { result ≢ Err WriteFault.Sink → K.faults out.new ≡ K.faults out.old }
    ensures never_falls { K.faults out.old ≤ K.faults out.new }
{
    let mut at = 0;
    while at < bytes.len() {
        let size = PIECE.min(bytes.len() - at);
        match out.push(&bytes[at..at + size]) {
            Pushed::Took(count) => at += count,
            Pushed::Failed => return Err(WriteFault::Sink),
        }
    }
    Ok(())
}
