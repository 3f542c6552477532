//! `groups`, and the ids and bars behind it.
ghost use Rattle.std.specs.Prelude.{◌≡◌};
ghost use Rattle.script_lang.specs.Forms as forms;
ghost use Rattle.script_lang.specs.Outcomes.{map_ok};
ghost use Rattle.script_lang.specs.Reading.{GroupsIds, ReadsOutcome};

use super::group_lists::GroupLists;
use crate::before::Before;
use crate::fault::{Cause, LineFault};
use crate::fields::{Field, Fields};
use crate::nodes::declared_node;
use crate::script::Command;
use cluster_types::{Boxed, Groups, NodeList};
use std::alloc::Global;

/// `groups`, and then ids, with a bar between two groups.
pub fn groups(alloc: Global, before: &Before, fields: Fields) -> Result<Command, LineFault>
    ensures { ReadsOutcome result (forms.groups before.now fields.entry) }
{
    let Some(_) = fields.again().take_first() else {
        return Err(LineFault::Bad(Cause::MissingField));
    };
    check_ids(before, fields.again())?;
    let groups = grouped(before, fields)?;
    let groups = Boxed::new(alloc, groups)?;
    Ok(Command::Groups { groups })
}

fn is_bar(field: &Field) -> bool
    ensures { result ≡ forms.is_bar field.now }
{
    field.as_slice() == b"|".as_slice()
}

/// Every field but the bars is a declared node.
fn check_ids(before: &Before, mut fields: Fields) -> Result<(), Cause>
    ensures { result ≡ map_ok (λ _. tt) (forms.group_ids before.now fields.entry) }
{
    while let Some(field) = fields.take_first() {
        if !is_bar(&field) {
            declared_node(before, &field)?;
        }
    }
    Ok(())
}

/// The groups of ids that are all declared. They need no memory of their own, so bad ones are told whether
/// there is some or not.
fn grouped(before: &Before, mut fields: Fields) -> Result<Groups, Cause>
    ensures { GroupsIds before.now.nodes result (forms.group_ids before.now fields.entry) }
{
    let mut groups = GroupLists::new();
    let mut group = NodeList::new();
    let mut seen = NodeList::new();
    while let Some(field) = fields.take_first() {
        if is_bar(&field) {
            if group.is_empty() {
                return Err(Cause::BadGroups);
            }
            groups.push(group);
            group = NodeList::new();
        } else {
            let id = declared_node(before, &field)?;
            if seen.len() >= before.nodes.len() || seen.contains(id) {
                return Err(Cause::BadGroups);
            }
            seen.push(id);
            group.push(id);
        }
    }
    let ids = seen.as_slice();
    if group.is_empty() || ids.len() != before.nodes.len() {
        return Err(Cause::BadGroups);
    }
    groups.push(group);
    Ok(Groups::from_lists(groups.as_slice()))
}
