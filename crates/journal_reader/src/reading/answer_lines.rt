//! What commands show, and the client's table.
#![tactic(auto, unfolding(crate::specs::Reading::of_word, crate::specs::Fields::with_field, crate::specs::Fields::with_rest, crate::specs::Fields::at_end))]

ghost use Rattle.journal_reader.specs.Reading.{of_word};
ghost use Rattle.journal_reader.specs.Unread.{ReadsFields};
ghost use Rattle.journal_reader.specs.declared.reading.word.Word.TheVariants as word;

use crate::reading::causes::mapless_of;
use crate::reading::parts::Parts;
use crate::reading::unread::Unread;
use cluster_types::Boxed;
use journal_lines::Line;
use std::alloc::Global;

pub fn map_line(alloc: Global, mut fields: Parts) -> Result<Line, Unread>
    ensures { ReadsFields result (of_word word.Map fields.entry) }
{
    let node = fields.node()?;
    let key = fields.key()?;
    let partition = fields.partition()?;
    let members = Boxed::new(alloc, fields.list(alloc)?)?;
    let acting = fields.node()?;
    fields.end()?;
    Ok(Line::Map {
        node,
        key,
        partition,
        members,
        acting,
    })
}

pub fn mapless_line(mut fields: Parts) -> Result<Line, Unread>
    ensures { ReadsFields result (of_word word.Mapless fields.entry) }
{
    let node = fields.node()?;
    let cause = mapless_of(fields).ok_or(Unread::NoLine)?;
    Ok(Line::Mapless { node, cause })
}

pub fn place_line(alloc: Global, mut fields: Parts) -> Result<Line, Unread>
    ensures { ReadsFields result (of_word word.Place fields.entry) }
{
    let partition = fields.partition()?;
    let members = Boxed::new(alloc, fields.list(alloc)?)?;
    fields.end()?;
    Ok(Line::Place { partition, members })
}

pub fn hash_line(mut fields: Parts) -> Result<Line, Unread>
    ensures { ReadsFields result (of_word word.Hash fields.entry) }
{
    let digest = fields.digest()?;
    let partition = fields.partition()?;
    fields.end()?;
    Ok(Line::Hash { digest, partition })
}

pub fn holds_line(alloc: Global, mut fields: Parts) -> Result<Line, Unread>
    ensures { ReadsFields result (of_word word.Holds fields.entry) }
{
    let node = fields.node()?;
    let digest = fields.digest()?;
    let version = Boxed::new(alloc, fields.optional_version(alloc)?)?;
    fields.end()?;
    Ok(Line::Holds {
        node,
        digest,
        version,
    })
}

pub fn client_line(mut fields: Parts) -> Result<Line, Unread>
    ensures { ReadsFields result (of_word word.Client fields.entry) }
{
    let node = fields.node()?;
    let digest = fields.digest()?;
    fields.end()?;
    Ok(Line::Client { node, digest })
}

pub fn no_map_line(mut fields: Parts) -> Result<Line, Unread>
    ensures { ReadsFields result (of_word word.NoMap fields.entry) }
{
    let partition = fields.partition()?;
    fields.end()?;
    Ok(Line::NoMap { partition })
}

pub fn table_line(mut fields: Parts) -> Result<Line, Unread>
    ensures { ReadsFields result (of_word word.Table fields.entry) }
{
    let key = fields.key()?;
    fields.end()?;
    Ok(Line::Table { key })
}

pub fn calm_line(mut fields: Parts) -> Result<Line, Unread>
    ensures { ReadsFields result (of_word word.Calm fields.entry) }
{
    let rounds = fields.long()?;
    fields.end()?;
    Ok(Line::Calm { rounds })
}
