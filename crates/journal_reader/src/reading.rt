//! Lines read from their text.
ghost use Rattle.std.specs.Prelude.{◌≡◌, IfOk, IfSome, Some};
ghost use Rattle.journal_reader.specs.Reading as grammar;
ghost use Rattle.journal_lines.specs.declared.line.Line.{Line};
ghost use Rattle.journal_reader.specs.Reading.{of_word, read_line};
ghost use Rattle.journal_reader.specs.Unread.{ReadsFields};
ghost use Rattle.journal_lines.specs.Proper.{IsProper};
ghost use Rattle.journal_text.specs.Text.{line_text};

mod answer_lines;
mod call_lines;
mod causes;
mod digits;
mod fields;
mod groups;
mod members;
mod message_lines;
mod names;
mod node_lines;
mod numbers;
mod parts;
mod replies;
mod request_lines;
mod scan_lines;
mod script_lines;
mod unread;
mod versions;
mod view_lines;
mod word;

use answer_lines::{
    calm_line, client_line, hash_line, holds_line, map_line, mapless_line, no_map_line, place_line,
    table_line,
};
use call_lines::{
    again_line, call_full_line, call_line, no_open_line, proxied_line, proxy_line, reply_line,
    unproxied_line,
};
use cluster_types::NoMemory;
use journal_lines::Line;
use message_lines::{
    blocked_line, cut_line, deliver_line, full_line, lost_line, no_message_line, repeat_line,
    sent_line, short_line, spent_line, stale_line,
};
use node_lines::{
    down_line, quiesce_line, start_line, stop_line, tick_line, unquiesce_line, up_line,
};
use parts::Parts;
use request_lines::{
    aborted_line, apply_line, done_line, doubt_line, merge_line, opened_line, refused_line,
    value_line,
};
use scan_lines::{
    no_scan_line, page_line, record_line, rescan_line, scan_line, scanned_line, unscanned_line,
};
use script_lines::{clock_line, factor_line, groups_line, node_line, policy_line, script_line};
use std::alloc::Global;
use unread::Unread;
use view_lines::{
    drop_line, enter_line, exchanged_line, handed_line, learn_line, promise_line, settled_line,
};
use word::{Word, word_of};

/// The line of that text, of which its line feed is the last byte. `None` where no line whose parts
/// are in their ranges has that text.
pub fn read(alloc: Global, text: &[u8]) -> Result<Option<Line>, NoMemory>
    ensures found { IfOk result (λ l. IfSome l (λ m. (line_text m ≡ text.now) × IsProper m)) }
    ensures only { (l : Line) → IsProper l → line_text l ≡ text.now
        → IfOk result (λ m. m ≡ Some l) }
    ensures exact { IfOk result (λ l. l ≡ read_line text.now) }
{
    line_of_text(alloc, text)
}

#[tactic(auto, unfolding(crate::specs::Reading::read_line))]
fn line_of_text(alloc: Global, text: &[u8]) -> Result<Option<Line>, NoMemory>
    ensures { IfOk result (λ l. l ≡ read_line text.now) }
{
    let mut lines = Parts::of(text, b'\n');
    let Some(line) = lines.take_first() else {
        return Ok(None);
    };
    let Some(behind) = lines.take_first() else {
        return Ok(None);
    };
    if !behind.is_empty() || !lines.are_ended() {
        return Ok(None);
    }
    match line_of(alloc, Parts::of(line, b' ')) {
        Ok(line) => Ok(Some(line)),
        Err(Unread::NoLine) => Ok(None),
        Err(Unread::NoMemory) => Err(NoMemory),
    }
}

#[tactic(auto, unfolding(crate::specs::Reading::parsed_line))]
fn line_of(alloc: Global, mut fields: Parts) -> Result<Line, Unread>
    ensures { ReadsFields result (grammar.parsed_line fields.entry) }
{
    let name = fields.take_first().ok_or(Unread::NoLine)?;
    let word = word_of(name).ok_or(Unread::NoLine)?;
    line_of_word(alloc, word, fields)
}

/// The line of that word with these fields.
fn line_of_word(alloc: Global, word: Word, fields: Parts) -> Result<Line, Unread>
    ensures { ReadsFields result (of_word word fields.entry) }
{
    match word {
        Word::Script => script_line(fields),
        Word::Factor => factor_line(fields),
        Word::Node => node_line(fields),
        Word::Policy => policy_line(fields),
        Word::Clock => clock_line(fields),
        Word::Groups => groups_line(alloc, fields),
        Word::Tick => tick_line(fields),
        Word::Stop => stop_line(fields),
        Word::Start => start_line(fields),
        Word::Down => down_line(fields),
        Word::Up => up_line(fields),
        Word::Quiesce => quiesce_line(fields),
        Word::Unquiesce => unquiesce_line(fields),
        Word::Deliver => deliver_line(fields),
        Word::Repeat => repeat_line(fields),
        Word::Cut => cut_line(fields),
        Word::Lost => lost_line(fields),
        Word::Blocked => blocked_line(fields),
        Word::NoMessage => no_message_line(fields),
        Word::Sent => sent_line(alloc, fields),
        Word::Full => full_line(fields),
        Word::Short => short_line(fields),
        Word::Stale => stale_line(fields),
        Word::Spent => spent_line(fields),
        Word::Promise => promise_line(fields),
        Word::Enter => enter_line(alloc, fields),
        Word::Exchanged => exchanged_line(fields),
        Word::Handed => handed_line(fields),
        Word::Settled => settled_line(fields),
        Word::Learn => learn_line(fields),
        Word::Drop => drop_line(fields),
        Word::Opened => opened_line(fields),
        Word::Refused => refused_line(fields),
        Word::Value => value_line(alloc, fields),
        Word::Apply => apply_line(alloc, fields),
        Word::Done => done_line(fields),
        Word::Aborted => aborted_line(fields),
        Word::Doubt => doubt_line(fields),
        Word::Merge => merge_line(alloc, fields),
        Word::Map => map_line(alloc, fields),
        Word::Mapless => mapless_line(fields),
        Word::Place => place_line(alloc, fields),
        Word::Hash => hash_line(fields),
        Word::Holds => holds_line(alloc, fields),
        Word::Client => client_line(fields),
        Word::NoMap => no_map_line(fields),
        Word::Table => table_line(fields),
        Word::Calm => calm_line(fields),
        Word::Proxy => proxy_line(fields),
        Word::Proxied => proxied_line(alloc, fields),
        Word::Unproxied => unproxied_line(fields),
        Word::CallFull => call_full_line(fields),
        Word::Call => call_line(fields),
        Word::NoOpen => no_open_line(fields),
        Word::Again => again_line(fields),
        Word::Reply => reply_line(alloc, fields),
        Word::Scan => scan_line(fields),
        Word::NoScan => no_scan_line(fields),
        Word::Rescan => rescan_line(fields),
        Word::Page => page_line(fields),
        Word::Scanned => scanned_line(fields),
        Word::Record => record_line(alloc, fields),
        Word::Unscanned => unscanned_line(fields),
    }
}
