//! Fields that are keys.
ghost use Rattle.std.specs.Prelude.{◌≡◌};
ghost use Rattle.script_lang.specs.Fields.{IsShort};
ghost use Rattle.script_lang.specs.Values as values;

use crate::bytes::cut;
use crate::fault::Cause;
use crate::fields::Field;
use cluster_types::Digest;
use digest_ripemd::digest_of;
use hex::FromHex;

/// The digest of a key: behind `#` the digest itself, and otherwise a key by name.
pub fn digest(field: &Field) -> Result<Digest, Cause>
    ensures { result ≡ values.digest field.now }
{
    match field.as_slice() {
        [b'#', digits @ ..] => written_digest(digits),
        text => Ok(named_digest(text)),
    }
}

/// Forty hexadecimal digits of either case.
fn written_digest(digits: &[u8]) -> Result<Digest, Cause>
    ensures { result ≡ values.written_digest digits.now }
{
    match <[u8; 20] as FromHex>::from_hex(digits) {
        Ok(bytes) => Ok(Digest::new(bytes)),
        Err(_) => Err(Cause::BadDigest),
    }
}

/// The digest of a key by name. The name of its set stands before the first slash; without one it is empty.
fn named_digest(text: &[u8]) -> Digest
    requires { IsShort text.now }
    ensures { result ≡ values.named_digest text.now }
{
    match cut(text, b'/') {
        None => digest_of(b"", text),
        Some((set_name, key)) => digest_of(set_name, key),
    }
}
