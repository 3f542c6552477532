//! Scans of a partition.
#![tactic(auto, unfolding(crate::specs::Reading::of_word, crate::specs::Fields::with_field, crate::specs::Fields::with_rest, crate::specs::Fields::at_end))]

ghost use Rattle.journal_reader.specs.Reading.{of_word};
ghost use Rattle.journal_reader.specs.Unread.{ReadsFields};
ghost use Rattle.journal_reader.specs.declared.reading.word.Word.TheVariants as word;

use crate::reading::causes::scan_refusal_of;
use crate::reading::parts::Parts;
use crate::reading::unread::Unread;
use cluster_types::Boxed;
use journal_lines::Line;
use std::alloc::Global;

pub fn scan_line(mut fields: Parts) -> Result<Line, Unread>
    ensures { ReadsFields result (of_word word.Scan fields.entry) }
{
    let scan = fields.number()?;
    let node = fields.node()?;
    let partition = fields.partition()?;
    fields.end()?;
    Ok(Line::Scan {
        scan,
        node,
        partition,
    })
}

pub fn no_scan_line(mut fields: Parts) -> Result<Line, Unread>
    ensures { ReadsFields result (of_word word.NoScan fields.entry) }
{
    let scan = fields.long()?;
    fields.end()?;
    Ok(Line::NoScan { scan })
}

pub fn rescan_line(mut fields: Parts) -> Result<Line, Unread>
    ensures { ReadsFields result (of_word word.Rescan fields.entry) }
{
    let scan = fields.number()?;
    fields.end()?;
    Ok(Line::Rescan { scan })
}

pub fn page_line(mut fields: Parts) -> Result<Line, Unread>
    ensures { ReadsFields result (of_word word.Page fields.entry) }
{
    let scan = fields.number()?;
    let count = fields.count()?;
    fields.end()?;
    Ok(Line::Page { scan, count })
}

pub fn scanned_line(mut fields: Parts) -> Result<Line, Unread>
    ensures { ReadsFields result (of_word word.Scanned fields.entry) }
{
    let scan = fields.number()?;
    let node = fields.node()?;
    let key = fields.key()?;
    let partition = fields.partition()?;
    let count = fields.long()?;
    fields.end()?;
    Ok(Line::Scanned {
        scan,
        node,
        key,
        partition,
        count,
    })
}

pub fn record_line(alloc: Global, mut fields: Parts) -> Result<Line, Unread>
    ensures { ReadsFields result (of_word word.Record fields.entry) }
{
    let scan = fields.number()?;
    let digest = fields.digest()?;
    let version = Boxed::new(alloc, fields.version(alloc)?)?;
    fields.end()?;
    Ok(Line::Record {
        scan,
        digest,
        version,
    })
}

pub fn unscanned_line(mut fields: Parts) -> Result<Line, Unread>
    ensures { ReadsFields result (of_word word.Unscanned fields.entry) }
{
    let scan = fields.number()?;
    let cause = scan_refusal_of(fields).ok_or(Unread::NoLine)?;
    Ok(Line::Unscanned { scan, cause })
}
