//! Versions.
#![tactic(auto, unfolding(crate::specs::Fields::first_field, crate::specs::Fields::with_field, crate::specs::Fields::at_end))]

ghost use Rattle.std.specs.Prelude.{◌≡◌, IfOk};
ghost use Rattle.journal_reader.specs.Fields as grammar;

use crate::reading::digits::value_of;
use crate::reading::numbers::{long_of, number_of};
use crate::reading::parts::Parts;
use cluster_types::NoMemory;
use conflict_order::{Body, Version};
use std::alloc::Global;

/// A version, or the word for none.
#[tactic(auto, unfolding(crate::specs::Fields::optional_of))]
pub fn optional_of(alloc: Global, text: &[u8]) -> Result<Option<Option<Version>>, NoMemory>
    ensures { IfOk result (λ v. v ≡ grammar.optional_of text.now) }
{
    if text == b"none".as_slice() {
        return Ok(Some(None));
    }
    match version_of(alloc, text)? {
        None => Ok(None),
        Some(version) => Ok(Some(Some(version))),
    }
}

/// The time, and behind a dot the generation and the body.
#[tactic(auto, unfolding(crate::specs::Fields::parsed_version, crate::specs::Fields::first_field, crate::specs::Fields::with_field, crate::specs::Fields::at_end))]
pub fn version_of(alloc: Global, text: &[u8]) -> Result<Option<Version>, NoMemory>
    ensures { IfOk result (λ v. v ≡ grammar.parsed_version text.now) }
{
    let mut parts = Parts::of(text, b'.');
    let Some(lut) = parts.take_first().and_then(long_of) else {
        return Ok(None);
    };
    let Some(stamp) = parts.take_first() else {
        return Ok(None);
    };
    let Some((generation, body)) = stamp_of(alloc, stamp)? else {
        return Ok(None);
    };
    if !parts.are_ended() {
        return Ok(None);
    }
    Ok(Some(Version {
        lut,
        generation,
        body,
    }))
}

/// The generation and the body.
#[tactic(auto, unfolding(crate::specs::Fields::stamp_of))]
fn stamp_of(alloc: Global, text: &[u8]) -> Result<Option<(u32, Body)>, NoMemory>
    ensures { IfOk result (λ s. s ≡ grammar.stamp_of text.now) }
{
    match written_value_of(alloc, text)? {
        Some(stamp) => Ok(Some(stamp)),
        None => Ok(tombstone_of(text)),
    }
}

#[tactic(auto, unfolding(crate::specs::Fields::written_value_of, crate::specs::Fields::first_field, crate::specs::Fields::with_field, crate::specs::Fields::at_end))]
fn written_value_of(alloc: Global, text: &[u8]) -> Result<Option<(u32, Body)>, NoMemory>
    ensures { IfOk result (λ s. s ≡ grammar.written_value_of text.now) }
{
    let mut parts = Parts::of(text, b'=');
    let Some(generation) = parts.take_first().and_then(number_of) else {
        return Ok(None);
    };
    let Some(value) = parts.take_first() else {
        return Ok(None);
    };
    let Some(value) = value_of(alloc, value)? else {
        return Ok(None);
    };
    if !parts.are_ended() {
        return Ok(None);
    }
    Ok(Some((generation, Body::Value(value))))
}

#[tactic(auto, unfolding(crate::specs::Fields::tombstone_of, crate::specs::Fields::first_field, crate::specs::Fields::with_field, crate::specs::Fields::at_end))]
fn tombstone_of(text: &[u8]) -> Option<(u32, Body)>
    ensures { result ≡ grammar.tombstone_of text.now }
{
    let mut parts = Parts::of(text, b'-');
    let generation = number_of(parts.take_first()?)?;
    if !parts.take_first()?.is_empty() {
        return None;
    }
    if !parts.are_ended() {
        return None;
    }
    Some((generation, Body::Tombstone))
}
