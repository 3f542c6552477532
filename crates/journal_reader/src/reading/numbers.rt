//! Numbers, ids and keys, in decimal digits.
#![tactic(auto, unfolding(crate::specs::Fields::first_field, crate::specs::Fields::with_field, crate::specs::Fields::at_end))]

ghost use Rattle.std.specs.Prelude.{◌≡◌, ◌≤◌, IfSome};
ghost use Rattle.journal_reader.specs.Fields as grammar;
ghost use Rattle.journal_reader.specs.Reading as reading;

use crate::reading::parts::Parts;
use cluster_types::{ClusterKey, NodeId, PartitionId};

/// The number in decimal digits, without a leading zero. `None` where the text is no such number, or
/// stands for one below `least` or above `most`.
#[tactic(auto, unfolding(crate::specs::Fields::number_in))]
fn number_in(text: &[u8], least: u64, most: u64) -> Option<u64>
    ensures value { result ≡ grammar.number_in least most text.now }
    ensures range { IfSome result (λ n. (least ≤ n) × (n ≤ most)) }
{
    let number = any_number(text)?;
    if number < least || number > most {
        return None;
    }
    Some(number)
}

fn any_number(text: &[u8]) -> Option<u64>
    ensures { result ≡ grammar.long_of text.now }
{
    if text == b"0".as_slice() {
        return Some(0);
    }
    // `parse` would take a sign and leading zeros.
    if text.is_empty() || text[0] < b'1' {
        return None;
    }
    let Ok(text) = str::from_utf8(text) else {
        return None;
    };
    let Ok(number) = text.parse::<u64>() else {
        return None;
    };
    Some(number)
}

fn small_number(text: &[u8], least: u64, most: u16) -> Option<u16>
    ensures value { result ≡ grammar.number_in least most text.now }
    ensures range { IfSome result (λ n. (least ≤ n) × (n ≤ most)) }
{
    Some(number_in(text, least, most as u64)? as u16)
}

fn byte(text: &[u8], least: u64, most: u8) -> Option<u8>
    ensures value { result ≡ grammar.number_in least most text.now }
    ensures range { IfSome result (λ n. (least ≤ n) × (n ≤ most)) }
{
    Some(number_in(text, least, most as u64)? as u8)
}

pub fn script_version_of(text: &[u8]) -> Option<u8>
    ensures { result ≡ grammar.script_version_of text.now }
{
    byte(text, 1, 2)
}

pub fn factor_of(text: &[u8]) -> Option<u8>
    ensures { result ≡ grammar.parsed_factor text.now }
{
    byte(text, 1, 4)
}

pub fn rack_of(text: &[u8]) -> Option<u8>
    ensures { result ≡ grammar.rack_of text.now }
{
    byte(text, 0, 255)
}

/// A rack that isn't 0.
pub fn positive_rack_of(text: &[u8]) -> Option<u8>
    ensures { result ≡ grammar.number_in 1 255 text.now }
{
    byte(text, 1, 255)
}

/// The rack of a node, or nothing where no field is left.
#[tactic(auto, unfolding(crate::specs::Reading::declared_rack_of, crate::specs::Fields::first_field, crate::specs::Fields::with_field, crate::specs::Fields::at_end))]
pub fn declared_rack_of(mut fields: Parts) -> Option<Option<u8>>
    ensures { result ≡ reading.declared_rack_of fields.entry }
{
    let Some(rack) = fields.take_first() else {
        return Some(None);
    };
    let rack = rack_of(rack)?;
    if !fields.are_ended() {
        return None;
    }
    Some(Some(rack))
}

pub fn node_of(text: &[u8]) -> Option<NodeId>
    ensures { result ≡ grammar.parsed_node text.now }
{
    let number = small_number(text, 1, 65_535)?;
    NodeId::new(number)
}

/// A node's id, or 0 for the client.
pub fn endpoint_of(text: &[u8]) -> Option<u16>
    ensures { result ≡ grammar.endpoint_of text.now }
{
    small_number(text, 0, 65_535)
}

pub fn partition_of(text: &[u8]) -> Option<PartitionId>
    ensures { result ≡ grammar.parsed_partition text.now }
{
    let number = small_number(text, 0, 4095)?;
    PartitionId::new(number)
}

/// The number of a message, a time or a count.
pub fn long_of(text: &[u8]) -> Option<u64>
    ensures { result ≡ grammar.long_of text.now }
{
    any_number(text)
}

/// The number of a transaction, a proxy, a call or a scan.
pub fn number_of(text: &[u8]) -> Option<u32>
    ensures { result ≡ grammar.number_of text.now }
{
    Some(number_in(text, 1, 4_294_967_295)? as u32)
}

/// How many records a page has.
pub fn count_of(text: &[u8]) -> Option<u32>
    ensures { result ≡ grammar.parsed_count text.now }
{
    Some(number_in(text, 0, 4_294_967_295)? as u32)
}

/// The round and the principal, with a dot between them.
#[tactic(auto, unfolding(crate::specs::Fields::parsed_key, crate::specs::Fields::first_field, crate::specs::Fields::with_field, crate::specs::Fields::at_end))]
pub fn key_of(text: &[u8]) -> Option<ClusterKey>
    ensures { result ≡ grammar.parsed_key text.now }
{
    let mut parts = Parts::of(text, b'.');
    let round = number_in(parts.take_first()?, 1, (1 << 48) - 1)?;
    let principal = small_number(parts.take_first()?, 1, 65_535)?;
    if !parts.are_ended() {
        return None;
    }
    Some(ClusterKey { round, principal })
}
