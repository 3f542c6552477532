//! Groups of ids, with bars between them.
ghost use Rattle.std.specs.Prelude.{◌≡◌, length, nat_lt, IfOk};
ghost use Rattle.std.specs.List.{concat, list_all, slice_split};
ghost use Rattle.journal_reader.specs.Fields as grammar;

use crate::reading::numbers::node_of;
use crate::reading::parts::Parts;
use cluster_types::{Boxed, Groups, NoMemory, NodeId, NodeList};
use std::alloc::Global;

/// 1 to 16 groups, none empty, with at most 16 ids in all and none twice.
#[tactic(auto, unfolding(crate::specs::Fields::parsed_groups))]
pub fn groups_of(alloc: Global, fields: Parts) -> Result<Option<Boxed<Groups>>, NoMemory>
    ensures { IfOk result (λ g. g ≡ grammar.parsed_groups fields.entry) }
{
    let Some(groups) = each_group_of(alloc, fields)? else {
        return Ok(None);
    };
    if !are_groups(alloc, groups.as_slice())? {
        return Ok(None);
    }
    let groups = Groups::from_lists(groups.as_slice());
    Ok(Some(Boxed::new(alloc, groups)?))
}

fn each_group_of(alloc: Global, mut fields: Parts) -> Result<Option<Vec<NodeList>>, NoMemory>
    ensures { IfOk result (λ g.
        grammar.option_items g ≡ grammar.each_group_of (slice_split grammar.is_bar fields.entry)) }
{
    let mut groups = Vec::new(alloc);
    let mut ids: Vec<NodeId> = Vec::new(alloc);
    while let Some(field) = fields.take_first() {
        if field == b"|".as_slice() {
            let Ok(group) = NodeList::from_slice(ids.as_slice()) else {
                return Ok(None);
            };
            groups.push(group)?;
            ids.clear();
        } else {
            let Some(id) = node_of(field) else {
                return Ok(None);
            };
            ids.push(id)?;
        }
    }
    let Ok(group) = NodeList::from_slice(ids.as_slice()) else {
        return Ok(None);
    };
    groups.push(group)?;
    Ok(Some(groups))
}

#[tactic(auto, unfolding(crate::specs::Fields::are_groups))]
fn are_groups(alloc: Global, groups: &[NodeList]) -> Result<bool, NoMemory>
    ensures { IfOk result (λ b. b ≡ grammar.are_groups groups.now) }
{
    if groups.is_empty() || groups.len() > 16 || !have_ids(groups) {
        return Ok(false);
    }
    let ids = all_ids(alloc, groups)?;
    Ok(are_distinct(ids.as_slice()))
}

/// Whether each group has an id.
fn have_ids(groups: &[NodeList]) -> bool
    ensures { result ≡ list_all (λ ids. nat_lt 0 (length ids)) groups.now }
{
    groups.iter().all(|group| group.len() > 0)
}

/// Whether there are at most 16 ids, none twice.
fn are_distinct(ids: &[NodeId]) -> bool
    ensures { result ≡ grammar.are_distinct_ids ids.now }
{
    match NodeList::from_slice(ids) {
        Ok(_) => true,
        Err(_) => false,
    }
}

/// The ids of all groups.
fn all_ids(alloc: Global, groups: &[NodeList]) -> Result<Vec<NodeId>, NoMemory>
    ensures { IfOk result (λ ids. ids.items ≡ concat groups.now) }
{
    let mut ids = Vec::new(alloc);
    for group in groups {
        ids.extend_from_slice(group.as_slice())?;
    }
    Ok(ids)
}
