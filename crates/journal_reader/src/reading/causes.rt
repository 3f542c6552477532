//! Why a node refuses a request, or a page of a scan.
#![tactic(auto, unfolding(crate::specs::Fields::first_field, crate::specs::Fields::with_field, crate::specs::Fields::at_end))]

ghost use Rattle.std.specs.Prelude.{◌≡◌};
ghost use Rattle.journal_reader.specs.Fields as grammar;
ghost use Rattle.journal_reader.specs.Reading as reading;

use crate::reading::numbers::{node_of, number_of};
use crate::reading::parts::Parts;
use journal_lines::Refusal;
use wire_messages::ScanRefusal;

/// The causes for which a node has no map.
#[tactic(auto, unfolding(crate::specs::Reading::mapless_of))]
pub fn mapless_of(fields: Parts) -> Option<Refusal>
    ensures { result ≡ reading.mapless_of fields.entry }
{
    match cause_of(fields)? {
        Refusal::NotMaster(_) | Refusal::Busy(_) => None,
        cause => Some(cause),
    }
}

#[tactic(auto, unfolding(crate::specs::Reading::cause_of, crate::specs::Fields::first_field, crate::specs::Fields::with_field, crate::specs::Fields::at_end))]
pub fn cause_of(mut fields: Parts) -> Option<Refusal>
    ensures { result ≡ reading.cause_of fields.entry }
{
    let name = fields.take_first()?;
    if name == b"down".as_slice() {
        return ended(Refusal::Down, fields);
    }
    if name == b"noview".as_slice() {
        return ended(Refusal::NoView, fields);
    }
    if name == b"exchanging".as_slice() {
        let node = node_of(fields.take_first()?)?;
        return ended(Refusal::Exchanging(node), fields);
    }
    if name == b"notmaster".as_slice() {
        let node = node_of(fields.take_first()?)?;
        return ended(Refusal::NotMaster(node), fields);
    }
    if name == b"busy".as_slice() {
        let transaction = number_of(fields.take_first()?)?;
        return ended(Refusal::Busy(transaction), fields);
    }
    None
}

#[tactic(auto, unfolding(crate::specs::Reading::scan_refusal_of, crate::specs::Fields::first_field, crate::specs::Fields::with_field, crate::specs::Fields::at_end))]
pub fn scan_refusal_of(mut fields: Parts) -> Option<ScanRefusal>
    ensures { result ≡ reading.scan_refusal_of fields.entry }
{
    let name = fields.take_first()?;
    if name == b"noview".as_slice() {
        return ended(ScanRefusal::NoView, fields);
    }
    if name == b"exchanging".as_slice() {
        let node = node_of(fields.take_first()?)?;
        return ended(ScanRefusal::Exchanging(node), fields);
    }
    if name == b"notmaster".as_slice() {
        let node = node_of(fields.take_first()?)?;
        return ended(ScanRefusal::NotMaster(node), fields);
    }
    if name == b"notsettled".as_slice() {
        return ended(ScanRefusal::NotSettled, fields);
    }
    if name == b"open".as_slice() {
        let transaction = number_of(fields.take_first()?)?;
        return ended(ScanRefusal::Open(transaction), fields);
    }
    None
}

/// The value where no field is left.
#[tactic(auto, unfolding(crate::specs::Fields::at_end))]
fn ended<T: Copy>(value: T, fields: Parts) -> Option<T>
    ensures { result ≡ grammar.at_end value fields.entry }
{
    if fields.are_ended() {
        Some(value)
    } else {
        None
    }
}
