//! Members with commas between them.
ghost use Rattle.std.specs.Prelude.{◌≡◌, IfOk};
ghost use Rattle.std.specs.Option.{option_map};
ghost use Rattle.journal_reader.specs.Fields as grammar;

use crate::reading::numbers::{node_of, positive_rack_of, rack_of};
use crate::reading::parts::Parts;
use cluster_types::{Member, MemberList, Members, NoMemory, Role};
use std::alloc::Global;

/// The members of a view: 1 to 16, each id below those before it.
#[tactic(auto, unfolding(crate::specs::Fields::parsed_members))]
pub fn members_of(alloc: Global, text: &[u8]) -> Result<Option<Members>, NoMemory>
    ensures { IfOk result (λ m. m ≡ grammar.parsed_members text.now) }
{
    match some_members_of(alloc, text)? {
        None => Ok(None),
        Some(members) => Ok(in_a_view(members.as_slice())),
    }
}

fn in_a_view(members: &[Member]) -> Option<Members>
    ensures { result ≡ grammar.if_allowed grammar.are_members members.now }
{
    match Members::with_roles(members) {
        Ok(members) => Some(members),
        Err(_) => None,
    }
}

/// At most 16 members in any order, none twice.
#[tactic(auto, unfolding(crate::specs::Fields::list_of))]
pub fn list_of(alloc: Global, text: &[u8]) -> Result<Option<MemberList>, NoMemory>
    ensures { IfOk result (λ m. m ≡ grammar.list_of text.now) }
{
    match some_members_of(alloc, text)? {
        None => Ok(None),
        Some(members) => Ok(in_a_list(members.as_slice())),
    }
}

fn in_a_list(members: &[Member]) -> Option<MemberList>
    ensures { result ≡ grammar.if_allowed grammar.are_distinct_members members.now }
{
    match MemberList::from_slice(members) {
        Ok(members) => Some(members),
        Err(_) => None,
    }
}

/// Members as they stand in the text, or the word for none.
#[tactic(auto, unfolding(crate::specs::Fields::some_members_of))]
fn some_members_of(alloc: Global, text: &[u8]) -> Result<Option<Vec<Member>>, NoMemory>
    ensures { IfOk result (λ m. grammar.option_items m ≡ grammar.some_members_of text.now) }
{
    if text == b"none".as_slice() {
        return Ok(Some(Vec::new(alloc)));
    }
    each_member_of(alloc, Parts::of(text, b','))
}

fn each_member_of(alloc: Global, mut parts: Parts) -> Result<Option<Vec<Member>>, NoMemory>
    ensures { IfOk result
        (λ m. grammar.option_items m ≡ grammar.all_of grammar.parsed_member parts.entry) }
{
    let mut members = Vec::new(alloc);
    while let Some(text) = parts.take_first() {
        let Some(member) = member_of(text) else {
            return Ok(None);
        };
        members.push(member)?;
    }
    Ok(Some(members))
}

/// An id alone, or behind it a slash and the role.
#[tactic(auto, unfolding(crate::specs::Fields::parsed_member, crate::specs::Fields::parsed_member_parts, crate::specs::Fields::first_field, crate::specs::Fields::with_field, crate::specs::Fields::at_end))]
fn member_of(text: &[u8]) -> Option<Member>
    ensures { result ≡ grammar.parsed_member text.now }
{
    let mut parts = Parts::of(text, b'/');
    let id = parts.take_first()?;
    let Some(role) = parts.take_first() else {
        return Some(Member::plain(node_of(id)?));
    };
    let id = node_of(id)?;
    let role = role_of(role)?;
    if !parts.are_ended() {
        return None;
    }
    Some(Member { id, role })
}

/// The rack behind the slash: above 0, or with the mark of a quiesced node.
#[tactic(auto, unfolding(crate::specs::Fields::parsed_role, crate::specs::Fields::role_in, crate::specs::Fields::first_field, crate::specs::Fields::with_field, crate::specs::Fields::at_end))]
fn role_of(text: &[u8]) -> Option<Role>
    ensures { result ≡ grammar.parsed_role text.now }
{
    let mut parts = Parts::of(text, b'q');
    let rack = parts.take_first()?;
    let Some(end) = parts.take_first() else {
        return Some(Role {
            rack: positive_rack_of(rack)?,
            quiesced: false,
        });
    };
    let rack = rack_of(rack)?;
    if !end.is_empty() || !parts.are_ended() {
        return None;
    }
    Some(Role {
        rack,
        quiesced: true,
    })
}
