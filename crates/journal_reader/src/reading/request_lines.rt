//! Requests at a node.
#![tactic(auto, unfolding(crate::specs::Reading::of_word, crate::specs::Fields::with_field, crate::specs::Fields::with_rest, crate::specs::Fields::at_end))]

ghost use Rattle.journal_reader.specs.Reading.{of_word};
ghost use Rattle.journal_reader.specs.Unread.{ReadsFields};
ghost use Rattle.journal_reader.specs.declared.reading.word.Word.TheVariants as word;

use crate::reading::causes::cause_of;
use crate::reading::parts::Parts;
use crate::reading::unread::Unread;
use cluster_types::Boxed;
use journal_lines::Line;
use std::alloc::Global;

pub fn opened_line(mut fields: Parts) -> Result<Line, Unread>
    ensures { ReadsFields result (of_word word.Opened fields.entry) }
{
    let node = fields.node()?;
    let key = fields.key()?;
    let transaction = fields.number()?;
    let digest = fields.digest()?;
    let action = fields.action()?;
    fields.end()?;
    Ok(Line::Opened {
        node,
        key,
        transaction,
        digest,
        action,
    })
}

pub fn refused_line(mut fields: Parts) -> Result<Line, Unread>
    ensures { ReadsFields result (of_word word.Refused fields.entry) }
{
    let node = fields.node()?;
    let digest = fields.digest()?;
    let cause = cause_of(fields).ok_or(Unread::NoLine)?;
    Ok(Line::Refused {
        node,
        digest,
        cause,
    })
}

pub fn value_line(alloc: Global, mut fields: Parts) -> Result<Line, Unread>
    ensures { ReadsFields result (of_word word.Value fields.entry) }
{
    let node = fields.node()?;
    let key = fields.key()?;
    let transaction = fields.number()?;
    let digest = fields.digest()?;
    let found = fields.optional_version(alloc)?;
    fields.end()?;
    let version = Boxed::new(alloc, found)?;
    Ok(Line::Value {
        node,
        key,
        transaction,
        digest,
        version,
    })
}

pub fn apply_line(alloc: Global, mut fields: Parts) -> Result<Line, Unread>
    ensures { ReadsFields result (of_word word.Apply fields.entry) }
{
    let node = fields.node()?;
    let key = fields.key()?;
    let transaction = fields.number()?;
    let digest = fields.digest()?;
    let version = Boxed::new(alloc, fields.version(alloc)?)?;
    fields.end()?;
    Ok(Line::Apply {
        node,
        key,
        transaction,
        digest,
        version,
    })
}

pub fn done_line(mut fields: Parts) -> Result<Line, Unread>
    ensures { ReadsFields result (of_word word.Done fields.entry) }
{
    let node = fields.node()?;
    let key = fields.key()?;
    let transaction = fields.number()?;
    fields.end()?;
    Ok(Line::Done {
        node,
        key,
        transaction,
    })
}

pub fn aborted_line(mut fields: Parts) -> Result<Line, Unread>
    ensures { ReadsFields result (of_word word.Aborted fields.entry) }
{
    let node = fields.node()?;
    let key = fields.key()?;
    let transaction = fields.number()?;
    fields.end()?;
    Ok(Line::Aborted {
        node,
        key,
        transaction,
    })
}

pub fn doubt_line(mut fields: Parts) -> Result<Line, Unread>
    ensures { ReadsFields result (of_word word.Doubt fields.entry) }
{
    let node = fields.node()?;
    let key = fields.key()?;
    let transaction = fields.number()?;
    fields.end()?;
    Ok(Line::Doubt {
        node,
        key,
        transaction,
    })
}

pub fn merge_line(alloc: Global, mut fields: Parts) -> Result<Line, Unread>
    ensures { ReadsFields result (of_word word.Merge fields.entry) }
{
    let node = fields.node()?;
    let key = fields.key()?;
    let digest = fields.digest()?;
    let version = Boxed::new(alloc, fields.version(alloc)?)?;
    fields.end()?;
    Ok(Line::Merge {
        node,
        key,
        digest,
        version,
    })
}
