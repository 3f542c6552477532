//! Messages on their way.
#![tactic(auto, unfolding(crate::specs::Reading::of_word, crate::specs::Fields::with_field, crate::specs::Fields::with_rest, crate::specs::Fields::at_end))]

ghost use Rattle.journal_reader.specs.Reading.{of_word};
ghost use Rattle.journal_reader.specs.Unread.{ReadsFields};
ghost use Rattle.journal_reader.specs.declared.reading.word.Word.TheVariants as word;

use crate::reading::parts::Parts;
use crate::reading::unread::Unread;
use journal_lines::Line;
use std::alloc::Global;

pub fn deliver_line(mut fields: Parts) -> Result<Line, Unread>
    ensures { ReadsFields result (of_word word.Deliver fields.entry) }
{
    let message = fields.long()?;
    let from = fields.endpoint()?;
    let to = fields.endpoint()?;
    fields.end()?;
    Ok(Line::Deliver { message, from, to })
}

pub fn repeat_line(mut fields: Parts) -> Result<Line, Unread>
    ensures { ReadsFields result (of_word word.Repeat fields.entry) }
{
    let message = fields.long()?;
    let from = fields.endpoint()?;
    let to = fields.endpoint()?;
    fields.end()?;
    Ok(Line::Repeat { message, from, to })
}

pub fn cut_line(mut fields: Parts) -> Result<Line, Unread>
    ensures { ReadsFields result (of_word word.Cut fields.entry) }
{
    let message = fields.long()?;
    let from = fields.endpoint()?;
    let to = fields.endpoint()?;
    let length = fields.long()?;
    fields.end()?;
    Ok(Line::Cut {
        message,
        from,
        to,
        length,
    })
}

pub fn lost_line(mut fields: Parts) -> Result<Line, Unread>
    ensures { ReadsFields result (of_word word.Lost fields.entry) }
{
    let message = fields.long()?;
    fields.end()?;
    Ok(Line::Lost { message })
}

pub fn blocked_line(mut fields: Parts) -> Result<Line, Unread>
    ensures { ReadsFields result (of_word word.Blocked fields.entry) }
{
    let message = fields.long()?;
    fields.end()?;
    Ok(Line::Blocked { message })
}

pub fn no_message_line(mut fields: Parts) -> Result<Line, Unread>
    ensures { ReadsFields result (of_word word.NoMessage fields.entry) }
{
    let message = fields.long()?;
    fields.end()?;
    Ok(Line::NoMessage { message })
}

pub fn sent_line(alloc: Global, mut fields: Parts) -> Result<Line, Unread>
    ensures { ReadsFields result (of_word word.Sent fields.entry) }
{
    let message = fields.long()?;
    let from = fields.endpoint()?;
    let to = fields.endpoint()?;
    let bytes = fields.bytes(alloc)?;
    fields.end()?;
    Ok(Line::Sent {
        message,
        from,
        to,
        bytes,
    })
}

pub fn full_line(mut fields: Parts) -> Result<Line, Unread>
    ensures { ReadsFields result (of_word word.Full fields.entry) }
{
    let message = fields.long()?;
    fields.end()?;
    Ok(Line::Full { message })
}

pub fn short_line(mut fields: Parts) -> Result<Line, Unread>
    ensures { ReadsFields result (of_word word.Short fields.entry) }
{
    let endpoint = fields.endpoint()?;
    fields.end()?;
    Ok(Line::Short { endpoint })
}

pub fn stale_line(mut fields: Parts) -> Result<Line, Unread>
    ensures { ReadsFields result (of_word word.Stale fields.entry) }
{
    let endpoint = fields.endpoint()?;
    fields.end()?;
    Ok(Line::Stale { endpoint })
}

pub fn spent_line(mut fields: Parts) -> Result<Line, Unread>
    ensures { ReadsFields result (of_word word.Spent fields.entry) }
{
    let endpoint = fields.endpoint()?;
    fields.end()?;
    Ok(Line::Spent { endpoint })
}
