//! The bytes of a message in a line.
ghost use Rattle.std.specs.Prelude.{◌≡◌, ◌≤◌, length, IfOk};
ghost use Rattle.journal_lines.specs.MessageBytes.{FitsInline, bytes_of};

use std::alloc::{AllocError, Global};
use std::marker::Model;

/// How many bytes stand in the line itself. With so many it is no longer than other lines.
const INLINE_BYTES: usize = 30;

/// The bytes of a message in a line. Those of most messages stand in the line itself, and take no
/// memory of their own.
#[derive(Drop)]
pub struct MessageBytes {
    storage: Storage,
}

/// Where the bytes are.
#[derive(Drop)]
pub(crate) enum Storage {
    /// The first of these.
    Inline { len: u8, places: [u8; INLINE_BYTES] },
    Heap(Vec<u8>),
}

impl Model for MessageBytes {
    ghost use Rattle.std.specs.Prelude.{List, ℕ};
    ghost use Rattle.journal_lines.specs.MessageBytes.{FitsInline, bytes_of};

    ghost Value = { List ℕ };

    ghost view = { λ b. bytes_of b.storage };

    ghost invariant = { λ b. FitsInline b.storage };
}

impl MessageBytes {
    /// Copies bytes. It fails only where the allocator refuses.
    pub fn from_slice(alloc: Global, bytes: &[u8]) -> Result<MessageBytes, AllocError>
        ensures { IfOk result (λ b. b ≡ bytes.now) }
    {
        let storage = if bytes.len() <= INLINE_BYTES {
            inline(bytes)
        } else {
            Storage::Heap(Vec::from_slice(alloc, bytes)?)
        };
        Ok(MessageBytes { storage })
    }

    /// The same bytes once more. It fails only where the allocator refuses.
    pub fn copy(&self, alloc: Global) -> Result<MessageBytes, AllocError>
        ensures { IfOk result (λ b. b ≡ self.now) }
    {
        MessageBytes::from_slice(alloc, self.as_slice())
    }

    /// How many bytes there are.
    pub fn len(&self) -> usize
        ensures { result ≡ length self.now }
    {
        self.as_slice().len()
    }

    /// The bytes.
    pub fn as_slice(&self) -> &[u8]
        ensures { result.now ≡ self.now }
    {
        match &self.storage {
            Storage::Inline { len, places } => &places[..usize::from(*len)],
            Storage::Heap(bytes) => bytes.as_slice(),
        }
    }
}

/// The bytes, to stand in the line.
fn inline(bytes: &[u8]) -> Storage
    requires { length bytes.now ≤ 30 }
    ensures same { bytes_of result ≡ bytes.now }
    ensures fits { FitsInline result }
{
    let mut places = [0; INLINE_BYTES];
    places[..bytes.len()].copy_from_slice(bytes);
    Storage::Inline {
        len: bytes.len() as u8,
        places,
    }
}
