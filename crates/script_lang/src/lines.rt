//! What a line says after the lines before it.
ghost use Rattle.std.specs.Prelude.{◌≡◌, ◌∷◌};
ghost use Rattle.script_lang.specs.Fields.{IsShort};
ghost use Rattle.script_lang.specs.Grammar as grammar;
ghost use Rattle.script_lang.specs.Layout as layout;
ghost use Rattle.script_lang.specs.Reading.{ReadsLine};

use crate::before::Before;
use crate::fault::{Cause, LineFault};
use crate::fields::{Field, Fields};
use crate::forms::{command_line, header_line};
use crate::script::{Command, HeaderLine};
use crate::words::{Word, is_served, word_of};
use std::alloc::Global;

/// What a line says.
#[derive(Drop)]
pub enum Line {
    /// It is passed over.
    Nothing,
    Header(HeaderLine),
    Command(Command),
}

/// What the line says after the lines before it.
pub fn line_of(alloc: Global, before: &Before, text: &[u8]) -> Result<Line, LineFault>
    requires { IsShort text.now }
    ensures { ReadsLine result (grammar.line_of before.now text.now) }
{
    let mut fields = Fields::of(text);
    let Some(first) = fields.take_first() else {
        return Ok(Line::Nothing);
    };
    if is_comment(&first) {
        return Ok(Line::Nothing);
    }
    let Ok(_) = str::from_utf8(text) else {
        return Err(LineFault::Bad(Cause::BadUtf8));
    };
    let word = known_word(before, &first)?;
    line_of_word(alloc, before, word, fields)
}

/// Whether the field begins a comment.
fn is_comment(field: &Field) -> bool
    ensures { result ≡ layout.is_comment field.now }
{
    field.as_slice().first() == Some(&b';')
}

/// The field's word, where a line of it may stand.
fn known_word(before: &Before, field: &Field) -> Result<Word, Cause>
    ensures { result ≡ grammar.known_word before.now field.now }
{
    let Some(word) = word_of(before.version, field) else {
        return Err(Cause::UnknownWord);
    };
    if !is_served(word, before.nodes.len()) {
        return Err(Cause::NotBuilt);
    }
    if word.is_header() && before.has_commands {
        return Err(Cause::HeaderLate);
    }
    Ok(word)
}

fn line_of_word(
    alloc: Global,
    before: &Before,
    word: Word,
    fields: Fields,
) -> Result<Line, LineFault>
    ensures { ReadsLine result (grammar.line_of_word before.now word fields.entry) }
{
    match word {
        Word::Header(word) => {
            let said = header_line(before, word, fields)?;
            Ok(Line::Header(said))
        }
        Word::Command(word) => {
            let said = command_line(alloc, before, word, fields)?;
            Ok(Line::Command(said))
        }
    }
}
