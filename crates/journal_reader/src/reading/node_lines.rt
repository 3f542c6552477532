//! What is done to a node.
#![tactic(auto, unfolding(crate::specs::Reading::of_word, crate::specs::Fields::with_field, crate::specs::Fields::with_rest, crate::specs::Fields::at_end))]

ghost use Rattle.journal_reader.specs.Reading.{of_word};
ghost use Rattle.journal_reader.specs.Unread.{ReadsFields};
ghost use Rattle.journal_reader.specs.declared.reading.word.Word.TheVariants as word;

use crate::reading::parts::Parts;
use crate::reading::unread::Unread;
use journal_lines::Line;

pub fn tick_line(mut fields: Parts) -> Result<Line, Unread>
    ensures { ReadsFields result (of_word word.Tick fields.entry) }
{
    let node = fields.node()?;
    fields.end()?;
    Ok(Line::Tick { node })
}

pub fn stop_line(mut fields: Parts) -> Result<Line, Unread>
    ensures { ReadsFields result (of_word word.Stop fields.entry) }
{
    let node = fields.node()?;
    fields.end()?;
    Ok(Line::Stop { node })
}

pub fn start_line(mut fields: Parts) -> Result<Line, Unread>
    ensures { ReadsFields result (of_word word.Start fields.entry) }
{
    let node = fields.node()?;
    fields.end()?;
    Ok(Line::Start { node })
}

pub fn down_line(mut fields: Parts) -> Result<Line, Unread>
    ensures { ReadsFields result (of_word word.Down fields.entry) }
{
    let node = fields.node()?;
    fields.end()?;
    Ok(Line::Down { node })
}

pub fn up_line(mut fields: Parts) -> Result<Line, Unread>
    ensures { ReadsFields result (of_word word.Up fields.entry) }
{
    let node = fields.node()?;
    fields.end()?;
    Ok(Line::Up { node })
}

pub fn quiesce_line(mut fields: Parts) -> Result<Line, Unread>
    ensures { ReadsFields result (of_word word.Quiesce fields.entry) }
{
    let node = fields.node()?;
    fields.end()?;
    Ok(Line::Quiesce { node })
}

pub fn unquiesce_line(mut fields: Parts) -> Result<Line, Unread>
    ensures { ReadsFields result (of_word word.Unquiesce fields.entry) }
{
    let node = fields.node()?;
    fields.end()?;
    Ok(Line::Unquiesce { node })
}
