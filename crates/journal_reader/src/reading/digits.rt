//! Bytes that are written as hexadecimal digits in lower case.
ghost use Rattle.std.specs.Prelude.{◌≡◌, IfOk};
ghost use Rattle.std.specs.List.{list_any};
ghost use Rattle.std.specs.Result.{result_ok};
ghost use Rattle.hex.specs.Hex.{decode_of};
ghost use Rattle.journal_reader.specs.Fields as grammar;

use cluster_types::{Digest, NoMemory};
use conflict_order::{ValueBytes, ValueFault};
use hex::{FromHex, FromHexError};
use journal_lines::MessageBytes;
use std::alloc::Global;

/// Any number of bytes.
pub fn bytes_of(alloc: Global, text: &[u8]) -> Result<Option<MessageBytes>, NoMemory>
    ensures { IfOk result (λ bytes. bytes ≡ grammar.parsed_bytes text.now) }
{
    match byte_vec_of(alloc, text)? {
        None => Ok(None),
        Some(bytes) => Ok(Some(MessageBytes::from_slice(alloc, bytes.as_slice())?)),
    }
}

/// Twenty bytes.
#[tactic(auto, unfolding(crate::specs::Fields::parsed_digest))]
pub fn digest_of(text: &[u8]) -> Option<Digest>
    ensures { result ≡ grammar.parsed_digest text.now }
{
    if has_capitals(text) {
        return None;
    }
    match <[u8; 20] as FromHex>::from_hex(text) {
        Ok(bytes) => Some(Digest::new(bytes)),
        Err(_) => None,
    }
}

/// At most 128 bytes.
#[tactic(auto, unfolding(crate::specs::Fields::parsed_value))]
pub fn value_of(alloc: Global, text: &[u8]) -> Result<Option<ValueBytes>, NoMemory>
    ensures { IfOk result (λ value. value ≡ grammar.parsed_value text.now) }
{
    let Some(bytes) = byte_vec_of(alloc, text)? else {
        return Ok(None);
    };
    match ValueBytes::from_slice(alloc, bytes.as_slice()) {
        Ok(value) => Ok(Some(value)),
        Err(ValueFault::TooLong(_)) => Ok(None),
        Err(ValueFault::NoMemory) => Err(NoMemory),
    }
}

#[tactic(auto, unfolding(crate::specs::Fields::parsed_bytes))]
fn byte_vec_of(alloc: Global, text: &[u8]) -> Result<Option<Vec<u8>>, NoMemory>
    ensures { IfOk result (λ bytes. grammar.option_items bytes ≡ grammar.parsed_bytes text.now) }
{
    if has_capitals(text) {
        return Ok(None);
    }
    match hex::decode(alloc, text) {
        Ok(bytes) => Ok(Some(bytes)),
        Err(FromHexError::OutOfMemory) => Err(NoMemory),
        Err(_) => Ok(None),
    }
}

/// Whether a byte is a hexadecimal digit in upper case.
fn has_capitals(text: &[u8]) -> bool
    ensures { result ≡ list_any grammar.is_capital text.now }
{
    text.iter().any(|b| *b >= b'A' && *b <= b'F')
}
