//! Fields that are numbers.
ghost use Rattle.std.specs.Prelude.{◌≡◌};
ghost use Rattle.std.specs.List.{list_all};
ghost use Rattle.script_lang.specs.Values as values;

use crate::fault::Cause;
use crate::fields::Field;
use cluster_types::PartitionId;

/// The most digits that a number is written with.
const MOST_DIGITS: usize = 20;

/// A number: 1 to 20 decimal digits with a value below 2^64.
pub fn number(field: &Field) -> Result<u64, Cause>
    ensures { result ≡ values.number field.now }
{
    let digits = field.as_slice();
    // `parse` would take a sign, and any number of zeros.
    if digits.len() > MOST_DIGITS || !are_digits(digits) {
        return Err(Cause::BadNumber);
    }
    let Ok(text) = str::from_utf8(digits) else {
        return Err(Cause::BadNumber);
    };
    match text.parse::<u64>() {
        Ok(number) => Ok(number),
        Err(_) => Err(Cause::BadNumber),
    }
}

fn are_digits(text: &[u8]) -> bool
    ensures { result ≡ list_all values.is_digit text.now }
{
    text.iter().all(|b| *b >= b'0' && *b <= b'9')
}

/// A number that fits 16 bits.
pub fn short_number(field: &Field) -> Result<u16, Cause>
    ensures { result ≡ values.number_within 0 65535 field.now }
{
    let number = number(field)?;
    u16::try_from(number).map_err(|_| Cause::BadNumber)
}

/// A rack: 0 to 255.
pub fn rack(field: &Field) -> Result<u8, Cause>
    ensures { result ≡ values.rack field.now }
{
    let number = number(field)?;
    u8::try_from(number).map_err(|_| Cause::BadNumber)
}

/// A version of the language: 1 or 2.
pub fn version(field: &Field) -> Result<u8, Cause>
    ensures { result ≡ values.version field.now }
{
    match number(field)? {
        1 => Ok(1),
        2 => Ok(2),
        _ => Err(Cause::BadNumber),
    }
}

/// A replication factor: 1 to 4.
pub fn factor(field: &Field) -> Result<u8, Cause>
    ensures { result ≡ values.factor field.now }
{
    let number = number(field)?;
    if number < 1 || number > 4 {
        return Err(Cause::BadFactor);
    }
    Ok(number as u8)
}

/// A partition: 0 to 4095.
pub fn partition(field: &Field) -> Result<PartitionId, Cause>
    ensures { result ≡ values.partition field.now }
{
    let number = short_number(field)?;
    PartitionId::new(number).ok_or(Cause::BadNumber)
}

/// A partition that isn't below the other.
pub fn partition_from(from: PartitionId, field: &Field) -> Result<PartitionId, Cause>
    ensures { result ≡ values.partition_from from field.now }
{
    let to = partition(field)?;
    if to.number() < from.number() {
        return Err(Cause::BadNumber);
    }
    Ok(to)
}
