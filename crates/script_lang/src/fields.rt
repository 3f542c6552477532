//! The fields of a line.
ghost use Rattle.std.specs.Prelude.{◌≡◌, ◌≤◌, ◌∷◌, [], length, not, position, IfSome, IfNone};
ghost use Rattle.std.specs.List.{position_or_len};
ghost use Rattle.script_lang.specs.Fields.{IsShort};
ghost use Rattle.script_lang.specs.Layout as layout;

use std::marker::Model;

/// A run of bytes other than spaces and tabs.
#[derive(Drop)]
pub struct Field<'a> {
    bytes: &'a [u8],
}

impl<'a> Model for Field<'a> {
    ghost use Rattle.std.specs.Prelude.{List, ℕ};
    ghost use Rattle.script_lang.specs.Fields.{IsShort};

    ghost Value = { List ℕ };

    ghost view = { λ f. f.bytes.now };

    ghost invariant = { λ f. IsShort f.bytes.now };
}

impl<'a> Field<'a> {
    pub fn as_slice(&self) -> &'a [u8]
        ensures same { result.now ≡ self.now }
        ensures short { IsShort result.now }
    {
        self.bytes
    }
}

/// The fields of a line that aren't taken yet.
#[derive(Drop)]
pub struct Fields<'a> {
    rest: &'a [u8],
}

impl<'a> Model for Fields<'a> {
    ghost use Rattle.std.specs.Prelude.{List, ℕ};
    ghost use Rattle.script_lang.specs.Fields.{IsShort, fields_left};

    ghost Value = { List (List ℕ) };

    ghost view = { λ f. fields_left f.rest };

    ghost invariant = { λ f. IsShort f.rest.now };
}

impl<'a> Fields<'a> {
    pub fn of(line: &'a [u8]) -> Self
        requires { IsShort line.now }
        ensures { result ≡ layout.line_fields line.now }
    {
        Fields { rest: line }
    }

    /// Takes the first field out.
    pub fn take_first(&mut self) -> Option<Field<'a>>
        ensures some { IfSome result (λ field. self.old ≡ field ∷ self.new) }
        ensures none { IfNone result ((self.old ≡ []) × (self.new ≡ [])) }
    {
        let start = start_of_field(self.rest)?;
        let (_, text) = self.rest.split_at(start);
        let (field, rest) = text.split_at(end_of_field(text));
        self.rest = rest;
        Some(Field { bytes: field })
    }

    /// The same fields again.
    pub fn again(&self) -> Fields<'a>
        ensures { result ≡ self.now }
    {
        Fields { rest: self.rest }
    }
}

/// The place of the first byte that is no space or tab.
fn start_of_field(text: &[u8]) -> Option<usize>
    ensures { result ≡ position (λ b. not (layout.is_blank b)) text.now }
{
    text.iter().position(|b| !is_blank(*b))
}

/// The place of the first space or tab, and the length where there is none.
fn end_of_field(text: &[u8]) -> usize
    ensures value { result ≡ position_or_len layout.is_blank text.now }
    ensures bound { result ≤ length text.now }
{
    match first_blank(text) {
        Some(place) => place,
        None => text.len(),
    }
}

fn first_blank(text: &[u8]) -> Option<usize>
    ensures { result ≡ position layout.is_blank text.now }
{
    text.iter().position(|b| is_blank(*b))
}

fn is_blank(byte: u8) -> bool
    ensures { result ≡ layout.is_blank byte }
{
    byte == b' ' || byte == b'\t'
}
