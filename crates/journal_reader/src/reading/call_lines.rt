//! Requests that are sent as messages.
#![tactic(auto, unfolding(crate::specs::Reading::of_word, crate::specs::Fields::with_field, crate::specs::Fields::with_rest, crate::specs::Fields::at_end))]

ghost use Rattle.journal_reader.specs.Reading.{of_word};
ghost use Rattle.journal_reader.specs.Unread.{ReadsFields};
ghost use Rattle.journal_reader.specs.declared.reading.word.Word.TheVariants as word;

use crate::reading::parts::Parts;
use crate::reading::replies::reply_of;
use crate::reading::unread::Unread;
use cluster_types::Boxed;
use journal_lines::Line;
use std::alloc::Global;

pub fn proxy_line(mut fields: Parts) -> Result<Line, Unread>
    ensures { ReadsFields result (of_word word.Proxy fields.entry) }
{
    let node = fields.node()?;
    let key = fields.key()?;
    let number = fields.number()?;
    let digest = fields.digest()?;
    let action = fields.action()?;
    let acting = fields.node()?;
    fields.end()?;
    Ok(Line::Proxy {
        node,
        key,
        number,
        digest,
        action,
        acting,
    })
}

pub fn proxied_line(alloc: Global, mut fields: Parts) -> Result<Line, Unread>
    ensures { ReadsFields result (of_word word.Proxied fields.entry) }
{
    let node = fields.node()?;
    let key = fields.key()?;
    let number = fields.number()?;
    let reply = Boxed::new(
        alloc,
        reply_of(alloc, false, fields)?.ok_or(Unread::NoLine)?,
    )?;
    Ok(Line::Proxied {
        node,
        key,
        number,
        reply,
    })
}

pub fn unproxied_line(mut fields: Parts) -> Result<Line, Unread>
    ensures { ReadsFields result (of_word word.Unproxied fields.entry) }
{
    let node = fields.node()?;
    let key = fields.key()?;
    let number = fields.number()?;
    fields.end()?;
    Ok(Line::Unproxied { node, key, number })
}

pub fn call_full_line(mut fields: Parts) -> Result<Line, Unread>
    ensures { ReadsFields result (of_word word.CallFull fields.entry) }
{
    fields.end()?;
    Ok(Line::CallFull)
}

pub fn call_line(mut fields: Parts) -> Result<Line, Unread>
    ensures { ReadsFields result (of_word word.Call fields.entry) }
{
    let number = fields.number()?;
    let node = fields.node()?;
    let digest = fields.digest()?;
    let action = fields.action()?;
    fields.end()?;
    Ok(Line::Call {
        number,
        node,
        digest,
        action,
    })
}

pub fn no_open_line(mut fields: Parts) -> Result<Line, Unread>
    ensures { ReadsFields result (of_word word.NoOpen fields.entry) }
{
    let number = fields.long()?;
    fields.end()?;
    Ok(Line::NoOpen { number })
}

pub fn again_line(mut fields: Parts) -> Result<Line, Unread>
    ensures { ReadsFields result (of_word word.Again fields.entry) }
{
    let number = fields.number()?;
    let node = fields.node()?;
    fields.end()?;
    Ok(Line::Again { number, node })
}

pub fn reply_line(alloc: Global, mut fields: Parts) -> Result<Line, Unread>
    ensures { ReadsFields result (of_word word.Reply fields.entry) }
{
    let number = fields.number()?;
    let node = fields.node()?;
    let reply = Boxed::new(alloc, reply_of(alloc, true, fields)?.ok_or(Unread::NoLine)?)?;
    Ok(Line::Reply {
        number,
        node,
        reply,
    })
}
