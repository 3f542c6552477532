//! What a request brings.
ghost use Rattle.std.specs.Prelude.{◌≡◌, IfOk};
ghost use Rattle.wire_messages.specs.Versions.{AreBytes, IsDigest, IsValue};

use cluster_types::{Digest, NoMemory};
use conflict_order::ValueBytes;
use std::alloc::Global;

/// The same digest.
pub(crate) fn same_digest(digest: &Digest) -> Digest
    ensures same { result ≡ digest.now }
    ensures proper { IsDigest digest.now }
{
    let bytes = digest.bytes();
    are_bytes(bytes.as_slice());
    Digest::new(*bytes)
}

/// An equal value.
pub(crate) fn same_value(alloc: Global, value: &ValueBytes) -> Result<ValueBytes, NoMemory>
    ensures same { IfOk result (λ copy. copy ≡ value.now) }
    ensures proper { IsValue value.now }
{
    are_bytes(value.as_slice());
    Ok(value.copy(alloc)?)
}

/// Bytes are below 256. A call does nothing: what it ensures is the law.
fn are_bytes(bytes: &[u8])
    ensures { AreBytes bytes.now }
{
    let _ = bytes;
}
