//! Texts cut at a byte.
ghost use Rattle.std.specs.Prelude.{◌≡◌, ◌≤◌, ◌<◌, ◌==◌, ◌∷◌, [], length, position, IfSome, IfNone};
ghost use Rattle.std.specs.List.{position_or_len};
ghost use Rattle.journal_reader.specs.Parts.{CutAt};
ghost use Rattle.journal_reader.specs.Fields.{parts_of};

use std::marker::Model;

/// The parts of a text that aren't taken yet, with a byte between two of them.
#[derive(Drop)]
pub struct Parts<'a> {
    rest: Option<&'a [u8]>,
    byte: u8,
}

impl<'a> Model for Parts<'a> {
    ghost use Rattle.std.specs.Prelude.{List, ℕ};

    ghost Value = { List (List ℕ) };

    ghost use Rattle.journal_reader.specs.Parts.{parts_left};

    ghost view = { λ p. parts_left p.byte p.rest };
}

impl<'a> Parts<'a> {
    pub fn of(text: &'a [u8], byte: u8) -> Self
        ensures { result ≡ parts_of byte text.now }
    {
        let rest = Some(text);
        Parts { rest, byte }
    }

    /// Takes the first part out.
    pub fn take_first(&mut self) -> Option<&'a [u8]>
        ensures some { IfSome result (λ part. self.old ≡ part.now ∷ self.new) }
        ensures none { IfNone result ((self.old ≡ []) × (self.new ≡ [])) }
    {
        let text = self.rest?;
        match cut(text, self.byte) {
            None => {
                self.rest = None;
                Some(text)
            }
            Some((part, rest)) => {
                self.rest = Some(rest);
                Some(part)
            }
        }
    }

    /// Whether no part is left.
    pub fn are_ended(&self) -> bool
        ensures { result ≡ (length self.now == 0) }
    {
        self.rest.is_none()
    }
}

/// What stands before the first such byte, and what stands behind it.
fn cut(text: &[u8], byte: u8) -> Option<(&[u8], &[u8])>
    ensures some { IfSome result (λ parts. CutAt byte text.now parts.0.now parts.1.now) }
    ensures none { IfNone result (length text.now ≤ position_or_len (λ b. b == byte) text.now) }
{
    let place = place_of(text, byte)?;
    Some((&text[..place], &text[place + 1..]))
}

fn place_of(text: &[u8], byte: u8) -> Option<usize>
    ensures { result ≡ position (λ b. b == byte) text.now }
{
    text.iter().position(|b| *b == byte)
}
