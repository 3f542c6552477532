//! Replies to requests.
#![tactic(auto, unfolding(crate::specs::Fields::first_field, crate::specs::Fields::with_field, crate::specs::Fields::at_end))]

ghost use Rattle.std.specs.Prelude.{◌≡◌, IfOk};
ghost use Rattle.journal_reader.specs.Reading as reading;

use crate::reading::causes::cause_of;
use crate::reading::parts::Parts;
use crate::reading::versions::optional_of;
use cluster_types::NoMemory;
use journal_lines::Refusal;
use std::alloc::Global;
use wire_messages::ReplyBody;

/// A reply. Whether it may be that there is no view is said before.
#[tactic(auto, unfolding(crate::specs::Reading::parsed_reply, crate::specs::Fields::first_field, crate::specs::Fields::with_field, crate::specs::Fields::at_end))]
pub fn reply_of(
    alloc: Global,
    no_view: bool,
    mut fields: Parts,
) -> Result<Option<ReplyBody>, NoMemory>
    ensures { IfOk result (λ r. r ≡ reading.parsed_reply no_view fields.entry) }
{
    let Some(name) = fields.take_first() else {
        return Ok(None);
    };
    if name == b"value".as_slice() {
        return found_of(alloc, fields);
    }
    if name == b"done".as_slice() {
        if !fields.are_ended() {
            return Ok(None);
        }
        return Ok(Some(ReplyBody::Done));
    }
    if name == b"refused".as_slice() {
        return Ok(refused_of(no_view, fields));
    }
    Ok(None)
}

fn found_of(alloc: Global, mut fields: Parts) -> Result<Option<ReplyBody>, NoMemory>
    ensures { IfOk result (λ r. r ≡ reading.found_of fields.entry) }
{
    let Some(version) = fields.take_first() else {
        return Ok(None);
    };
    let Some(version) = optional_of(alloc, version)? else {
        return Ok(None);
    };
    if !fields.are_ended() {
        return Ok(None);
    }
    match version {
        None => Ok(Some(ReplyBody::Nothing)),
        Some(version) => Ok(Some(ReplyBody::Found(version))),
    }
}

fn refused_of(no_view: bool, fields: Parts) -> Option<ReplyBody>
    ensures { result ≡ reading.refused_of no_view fields.entry }
{
    match cause_of(fields)? {
        Refusal::Down => None,
        Refusal::NoView => if no_view {
            Some(ReplyBody::NoView)
        } else {
            None
        },
        Refusal::Exchanging(node) => Some(ReplyBody::Exchanging(node)),
        Refusal::NotMaster(node) => Some(ReplyBody::NotMaster(node)),
        Refusal::Busy(transaction) => Some(ReplyBody::Busy(transaction)),
    }
}
