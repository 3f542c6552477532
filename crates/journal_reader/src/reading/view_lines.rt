//! Views, and the steps of migration in them.
#![tactic(auto, unfolding(crate::specs::Reading::of_word, crate::specs::Fields::with_field, crate::specs::Fields::with_rest, crate::specs::Fields::at_end))]

ghost use Rattle.journal_reader.specs.Reading.{of_word};
ghost use Rattle.journal_reader.specs.Unread.{ReadsFields};
ghost use Rattle.journal_reader.specs.declared.reading.word.Word.TheVariants as word;

use crate::reading::parts::Parts;
use crate::reading::unread::Unread;
use cluster_types::Boxed;
use journal_lines::Line;
use std::alloc::Global;

pub fn promise_line(mut fields: Parts) -> Result<Line, Unread>
    ensures { ReadsFields result (of_word word.Promise fields.entry) }
{
    let node = fields.node()?;
    let key = fields.key()?;
    fields.end()?;
    Ok(Line::Promise { node, key })
}

pub fn enter_line(alloc: Global, mut fields: Parts) -> Result<Line, Unread>
    ensures { ReadsFields result (of_word word.Enter fields.entry) }
{
    let node = fields.node()?;
    let key = fields.key()?;
    let members = Boxed::new(alloc, fields.members(alloc)?)?;
    fields.end()?;
    Ok(Line::Enter { node, key, members })
}

pub fn exchanged_line(mut fields: Parts) -> Result<Line, Unread>
    ensures { ReadsFields result (of_word word.Exchanged fields.entry) }
{
    let node = fields.node()?;
    let key = fields.key()?;
    fields.end()?;
    Ok(Line::Exchanged { node, key })
}

pub fn handed_line(mut fields: Parts) -> Result<Line, Unread>
    ensures { ReadsFields result (of_word word.Handed fields.entry) }
{
    let node = fields.node()?;
    let key = fields.key()?;
    let partition = fields.partition()?;
    fields.end()?;
    Ok(Line::Handed {
        node,
        key,
        partition,
    })
}

pub fn settled_line(mut fields: Parts) -> Result<Line, Unread>
    ensures { ReadsFields result (of_word word.Settled fields.entry) }
{
    let node = fields.node()?;
    let key = fields.key()?;
    let partition = fields.partition()?;
    fields.end()?;
    Ok(Line::Settled {
        node,
        key,
        partition,
    })
}

pub fn learn_line(mut fields: Parts) -> Result<Line, Unread>
    ensures { ReadsFields result (of_word word.Learn fields.entry) }
{
    let node = fields.node()?;
    let key = fields.key()?;
    let partition = fields.partition()?;
    fields.end()?;
    Ok(Line::Learn {
        node,
        key,
        partition,
    })
}

pub fn drop_line(mut fields: Parts) -> Result<Line, Unread>
    ensures { ReadsFields result (of_word word.Drop fields.entry) }
{
    let node = fields.node()?;
    let key = fields.key()?;
    let partition = fields.partition()?;
    fields.end()?;
    Ok(Line::Drop {
        node,
        key,
        partition,
    })
}
