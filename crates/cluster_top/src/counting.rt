//! How often each kind of line stands in a journal.
ghost use Rattle.std.specs.Prelude.{◌≡◌, filter, length, string_bytes, IfOk};
ghost use Rattle.serde_json.specs.View.{view};
ghost use Rattle.cluster_top.specs.Transcripts as transcripts;

use cluster_types::{Bytes, NoMemory};
use journal_text::{Journal, Line};
use serde_json::{Value, json};
use std::alloc::Global;

/// How many lines there are of each kind that a summary names, and of all kinds.
#[derive(Clone, Copy, Debug, PartialEq, Eq)]
pub struct Counts {
    pub applied: u64,
    pub drops: u64,
    pub lines: u64,
    pub merges: u64,
    pub nodes: u64,
    pub sent: u64,
    pub settled: u64,
}

/// The journal's summary: one line of compact JSON with the numbers of its `apply`, `drop`,
/// `merge`, `node`, `sent` and `settled` lines and of all its lines, and a line feed.
pub fn summary(alloc: Global, journal: &Journal) -> Result<Bytes, NoMemory>
    ensures { IfOk result (λ text. text ≡ transcripts.summary journal.now.lines) }
{
    let counts = counts_of(journal.as_slice());
    let text = object_of(alloc, counts)?;
    let mut bytes = Bytes::from_slice(alloc, text.as_bytes())?;
    bytes.push(b'\n')?;
    Ok(bytes)
}

fn counts_of(lines: &[Line]) -> Counts
    ensures { result ≡ transcripts.counts_of lines.now }
{
    Counts {
        applied: lines.iter().filter(|line| is_apply(line)).count() as u64,
        drops: lines.iter().filter(|line| is_drop(line)).count() as u64,
        lines: lines.len() as u64,
        merges: lines.iter().filter(|line| is_merge(line)).count() as u64,
        nodes: lines.iter().filter(|line| is_node(line)).count() as u64,
        sent: lines.iter().filter(|line| is_sent(line)).count() as u64,
        settled: lines.iter().filter(|line| is_settled(line)).count() as u64,
    }
}

/// The numbers as an object of compact JSON, with the names in rising order.
fn object_of(alloc: Global, counts: Counts) -> Result<String, NoMemory>
    ensures { IfOk result (λ text. string_bytes text ≡ transcripts.object_of counts) }
{
    let value = value_of(alloc, counts)?;
    value.to_string(alloc)
}

/// The numbers as a value of JSON.
fn value_of(alloc: Global, counts: Counts) -> Result<Value, NoMemory>
    ensures { IfOk result (λ value. view value ≡ transcripts.data_of counts) }
{
    json!(in alloc; {
        "applied": counts.applied,
        "drops": counts.drops,
        "lines": counts.lines,
        "merges": counts.merges,
        "nodes": counts.nodes,
        "sent": counts.sent,
        "settled": counts.settled
    })
}

fn is_apply(line: &Line) -> bool
    ensures { result ≡ transcripts.counts_as_apply line.now }
{
    matches!(line, Line::Apply { .. })
}

fn is_drop(line: &Line) -> bool
    ensures { result ≡ transcripts.counts_as_drop line.now }
{
    matches!(line, Line::Drop { .. })
}

fn is_merge(line: &Line) -> bool
    ensures { result ≡ transcripts.counts_as_merge line.now }
{
    matches!(line, Line::Merge { .. })
}

fn is_node(line: &Line) -> bool
    ensures { result ≡ transcripts.counts_as_node line.now }
{
    matches!(line, Line::Node { .. })
}

fn is_sent(line: &Line) -> bool
    ensures { result ≡ transcripts.counts_as_sent line.now }
{
    matches!(line, Line::Sent { .. })
}

fn is_settled(line: &Line) -> bool
    ensures { result ≡ transcripts.counts_as_settled line.now }
{
    matches!(line, Line::Settled { .. })
}
