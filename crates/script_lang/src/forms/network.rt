//! The commands over messages.
ghost use Rattle.script_lang.specs.Counts as counts;
ghost use Rattle.script_lang.specs.Forms as forms;
ghost use Rattle.script_lang.specs.Outcomes.{map_ok};
ghost use Rattle.script_lang.specs.Reading.{ReadsOutcome};

use super::counts::{none, two};
use super::parts::number;
use crate::fault::LineFault;
use crate::fields::Fields;
use crate::numbers;
use crate::script::Command;

/// `deliver I`.
pub fn deliver(fields: Fields) -> Result<Command, LineFault>
    ensures { ReadsOutcome result (map_ok (λ n. Command.Deliver n) (forms.number fields.entry)) }
{
    let message = number(fields)?;
    Ok(Command::Deliver { message })
}

/// `repeat I`.
pub fn repeat(fields: Fields) -> Result<Command, LineFault>
    ensures { ReadsOutcome result (map_ok (λ n. Command.Repeat n) (forms.number fields.entry)) }
{
    let message = number(fields)?;
    Ok(Command::Repeat { message })
}

/// `lose I`.
pub fn lose(fields: Fields) -> Result<Command, LineFault>
    ensures { ReadsOutcome result (map_ok (λ n. Command.Lose n) (forms.number fields.entry)) }
{
    let message = number(fields)?;
    Ok(Command::Lose { message })
}

/// `flow`.
pub fn flow(fields: Fields) -> Result<Command, LineFault>
    ensures { ReadsOutcome result (map_ok (λ _. Command.Flow) (counts.no_fields fields.entry)) }
{
    none(fields)?;
    Ok(Command::Flow)
}

/// `round`.
pub fn round(fields: Fields) -> Result<Command, LineFault>
    ensures { ReadsOutcome result (map_ok (λ _. Command.Round) (counts.no_fields fields.entry)) }
{
    none(fields)?;
    Ok(Command::Round)
}

/// `calm`.
pub fn calm(fields: Fields) -> Result<Command, LineFault>
    ensures { ReadsOutcome result (map_ok (λ _. Command.Calm) (counts.no_fields fields.entry)) }
{
    none(fields)?;
    Ok(Command::Calm)
}

/// `cut I LEN`.
pub fn cut(fields: Fields) -> Result<Command, LineFault>
    ensures { ReadsOutcome result (forms.cut fields.entry) }
{
    let (message, length) = two(fields)?;
    let message = numbers::number(&message)?;
    let length = numbers::number(&length)?;
    Ok(Command::Cut { message, length })
}
