//! Reads a source to its end.
ghost use Rattle.std.specs.Prelude.{◌≡◌, ◌≢◌, ◌<◌, ◌≤◌, ◌^◌, length, vec_len, Err, IfSome, IfOk, IsErrOf};
ghost use Rattle.byte_ends.specs.Faults.{Rose};
ghost use Rattle.replay_core.specs.Streams.{GaveAtMost, HadAll, Overlong};

use byte_ends::{Pulled, Source};
use std::alloc::{AllocError, Global};

/// The most bytes of one pull.
const PIECE: usize = 65_536;

/// Why a source wasn't read.
#[derive(Clone, Copy, Debug, PartialEq, Eq)]
pub enum ReadFault {
    NoMemory,
    Source,
    TooLong,
}

impl From<AllocError> for ReadFault {
    ghost use Rattle.std.specs.Prelude.{◌≡◌};
    ghost use Rattle.replay_core.specs.declared.reading.ReadFault.TheVariants.{NoMemory};

    ghost from_gives = { λ _ fault. fault ≡ NoMemory };

    fn from(_refused: AllocError) -> ReadFault {
        ReadFault::NoMemory
    }
}

/// Reads the source to its end, unless a byte more than the limit comes first: then it is `TooLong`,
/// and no other fault hides that.
pub fn read_all<S: Source>(
    alloc: Global,
    source: &mut S,
    limit: usize,
) -> Result<Vec<u8>, ReadFault>
    requires { limit < 2 ^ 60 }
    ensures within { IfOk result (λ bytes. length bytes.items ≤ limit) }
    ensures whole { IfOk result
        (λ bytes. HadAll (S.left source.old) (S.left source.new) bytes.items) }

    ensures fault { IsErrOf result ReadFault.Source
        → Rose (S.faults source.old) (S.faults source.new) }
    ensures too_long { IsErrOf result ReadFault.TooLong
        → IfSome (S.left source.old) (λ bytes. Overlong limit bytes (S.left source.new)) }
    ensures no_more { result ≢ Err ReadFault.TooLong
        → GaveAtMost limit (S.left source.old) (S.left source.new) }
    ensures told { result ≢ Err ReadFault.Source → S.faults source.new ≡ S.faults source.old }
    ensures never_falls { S.faults source.old ≤ S.faults source.new }
{
    let mut bytes = Vec::new(alloc);
    let mut buffer = room_for_a_piece(alloc)?;
    'pieces: loop {
        let room = PIECE.min(limit - bytes.len() + 1);
        let piece = &mut buffer[..room];
        match source.pull(piece) {
            Pulled::Got(count) if count > limit - bytes.len() => return Err(ReadFault::TooLong),
            Pulled::Got(count) => bytes.extend_from_slice(&piece[..count])?,
            Pulled::End => return Ok(bytes),
            Pulled::Failed => return Err(ReadFault::Source),
        }
    }
}

fn room_for_a_piece(alloc: Global) -> Result<Vec<u8>, AllocError>
    ensures { IfOk result (λ room. vec_len room ≡ 65536) }
{
    vec![in alloc; 0u8; PIECE]
}
