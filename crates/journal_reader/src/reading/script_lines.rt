//! Lines that the script sets.
#![tactic(auto, unfolding(crate::specs::Reading::of_word, crate::specs::Fields::with_field, crate::specs::Fields::with_rest, crate::specs::Fields::at_end))]

ghost use Rattle.journal_reader.specs.Reading.{of_word};
ghost use Rattle.journal_reader.specs.Unread.{ReadsFields};
ghost use Rattle.journal_reader.specs.declared.reading.word.Word.TheVariants as word;

use crate::reading::groups::groups_of;
use crate::reading::numbers::declared_rack_of;
use crate::reading::parts::Parts;
use crate::reading::unread::Unread;
use journal_lines::Line;
use std::alloc::Global;

pub fn script_line(mut fields: Parts) -> Result<Line, Unread>
    ensures { ReadsFields result (of_word word.Script fields.entry) }
{
    let version = fields.script_version()?;
    fields.end()?;
    Ok(Line::Script { version })
}

pub fn factor_line(mut fields: Parts) -> Result<Line, Unread>
    ensures { ReadsFields result (of_word word.Factor fields.entry) }
{
    let factor = fields.factor()?;
    fields.end()?;
    Ok(Line::Factor { factor })
}

pub fn node_line(mut fields: Parts) -> Result<Line, Unread>
    ensures { ReadsFields result (of_word word.Node fields.entry) }
{
    let node = fields.node()?;
    let rack = declared_rack_of(fields).ok_or(Unread::NoLine)?;
    Ok(Line::Node { node, rack })
}

pub fn policy_line(mut fields: Parts) -> Result<Line, Unread>
    ensures { ReadsFields result (of_word word.Policy fields.entry) }
{
    let policy = fields.policy()?;
    fields.end()?;
    Ok(Line::Policy { policy })
}

pub fn clock_line(mut fields: Parts) -> Result<Line, Unread>
    ensures { ReadsFields result (of_word word.Clock fields.entry) }
{
    let node = fields.node()?;
    let time = fields.long()?;
    fields.end()?;
    Ok(Line::Clock { node, time })
}

pub fn groups_line(alloc: Global, fields: Parts) -> Result<Line, Unread>
    ensures { ReadsFields result (of_word word.Groups fields.entry) }
{
    let groups = groups_of(alloc, fields)?.ok_or(Unread::NoLine)?;
    Ok(Line::Groups { groups })
}
