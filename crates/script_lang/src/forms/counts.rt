//! How many fields a form has.
ghost use Rattle.std.specs.Prelude.{◌≡◌};
ghost use Rattle.script_lang.specs.Counts as counts;

use crate::fault::Cause;
use crate::fields::{Field, Fields};

/// No field.
pub fn none(mut fields: Fields) -> Result<(), Cause>
    ensures { result ≡ counts.no_fields fields.entry }
{
    match fields.take_first() {
        None => Ok(()),
        Some(_) => Err(Cause::ExtraField),
    }
}

/// The one field.
pub fn one<'a>(mut fields: Fields<'a>) -> Result<Field<'a>, Cause>
    ensures { result ≡ counts.one fields.entry }
{
    match (fields.take_first(), fields.take_first()) {
        (Some(a), None) => Ok(a),
        (None, _) => Err(Cause::MissingField),
        (_, Some(_)) => Err(Cause::ExtraField),
    }
}

/// A field, and a second one if it is there.
pub fn one_or_two<'a>(mut fields: Fields<'a>) -> Result<(Field<'a>, Option<Field<'a>>), Cause>
    ensures { result ≡ counts.one_or_two fields.entry }
{
    match (
        fields.take_first(),
        fields.take_first(),
        fields.take_first(),
    ) {
        (Some(a), b, None) => Ok((a, b)),
        (None, _, _) => Err(Cause::MissingField),
        (_, _, Some(_)) => Err(Cause::ExtraField),
    }
}

/// The two fields.
pub fn two<'a>(mut fields: Fields<'a>) -> Result<(Field<'a>, Field<'a>), Cause>
    ensures { result ≡ counts.two fields.entry }
{
    match (
        fields.take_first(),
        fields.take_first(),
        fields.take_first(),
    ) {
        (Some(a), Some(b), None) => Ok((a, b)),
        (_, _, Some(_)) => Err(Cause::ExtraField),
        _ => Err(Cause::MissingField),
    }
}

/// The three fields.
pub fn three<'a>(mut fields: Fields<'a>) -> Result<(Field<'a>, Field<'a>, Field<'a>), Cause>
    ensures { result ≡ counts.three fields.entry }
{
    let first = fields.take_first();
    let (second, third, fourth) = (
        fields.take_first(),
        fields.take_first(),
        fields.take_first(),
    );
    match (first, second, third, fourth) {
        (Some(a), Some(b), Some(c), None) => Ok((a, b, c)),
        (_, _, _, Some(_)) => Err(Cause::ExtraField),
        _ => Err(Cause::MissingField),
    }
}
