//! The header's lines.
ghost use Rattle.std.specs.Prelude.{◌≡◌};
ghost use Rattle.script_lang.specs.Forms as forms;

use super::counts::{one, one_or_two};
use crate::before::Before;
use crate::fault::Cause;
use crate::fields::{Field, Fields};
use crate::nodes::new_node;
use crate::script::HeaderLine;
use crate::words::HeaderWord;
use crate::{numbers, values};

/// The header line of that word.
pub fn header_line(before: &Before, word: HeaderWord, fields: Fields) -> Result<HeaderLine, Cause>
    ensures { result ≡ forms.header_line before.now word fields.entry }
{
    match word {
        HeaderWord::Script => script(before, fields),
        HeaderWord::Factor => factor(fields),
        HeaderWord::Node => node(before, fields),
        HeaderWord::Policy => policy(fields),
    }
}

/// `script V`. The version may change only while no line stands that rests on it.
fn script(before: &Before, fields: Fields) -> Result<HeaderLine, Cause>
    ensures { result ≡ forms.script before.now fields.entry }
{
    let field = one(fields)?;
    let version = numbers::version(&field)?;
    if before.is_settled && version != before.version {
        return Err(Cause::VersionLate);
    }
    Ok(HeaderLine::Script { version })
}

/// `factor F`.
fn factor(fields: Fields) -> Result<HeaderLine, Cause>
    ensures { result ≡ forms.factor fields.entry }
{
    let field = one(fields)?;
    let factor = numbers::factor(&field)?;
    Ok(HeaderLine::Factor { factor })
}

/// `node N`, and in version 2 `node N R` too.
fn node(before: &Before, fields: Fields) -> Result<HeaderLine, Cause>
    ensures { result ≡ forms.node before.now fields.entry }
{
    if before.version == 2 {
        racked_node(before, fields)
    } else {
        plain_node(before, fields)
    }
}

fn plain_node(before: &Before, fields: Fields) -> Result<HeaderLine, Cause>
    ensures { result ≡ forms.plain_node before.now fields.entry }
{
    let field = one(fields)?;
    let node = new_node(before, &field)?;
    Ok(HeaderLine::Node { node, rack: None })
}

fn racked_node(before: &Before, fields: Fields) -> Result<HeaderLine, Cause>
    ensures { result ≡ forms.racked_node before.now fields.entry }
{
    let (field, rack) = one_or_two(fields)?;
    let node = new_node(before, &field)?;
    let rack = optional_rack(&rack)?;
    Ok(HeaderLine::Node { node, rack })
}

fn optional_rack(field: &Option<Field>) -> Result<Option<u8>, Cause>
    ensures { result ≡ forms.optional_rack field.now }
{
    match field {
        None => Ok(None),
        Some(field) => {
            let rack = numbers::rack(field)?;
            Ok(Some(rack))
        }
    }
}

/// `policy NAME`.
fn policy(fields: Fields) -> Result<HeaderLine, Cause>
    ensures { result ≡ forms.policy fields.entry }
{
    let field = one(fields)?;
    let policy = values::policy(&field)?;
    Ok(HeaderLine::Policy { policy })
}
