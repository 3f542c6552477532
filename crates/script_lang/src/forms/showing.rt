//! The commands that show something.
ghost use Rattle.script_lang.specs.Forms as forms;
ghost use Rattle.script_lang.specs.Outcomes.{map_ok};
ghost use Rattle.script_lang.specs.Reading.{ReadsOutcome};

use super::counts::three;
use super::parts::{key, node_and_key, partition};
use crate::before::Before;
use crate::fault::LineFault;
use crate::fields::Fields;
use crate::nodes::declared_node;
use crate::numbers;
use crate::script::Command;

/// `hash KEY`.
pub fn hash(fields: Fields) -> Result<Command, LineFault>
    ensures { ReadsOutcome result
        (map_ok (λ digest. Command.Hash digest) (forms.key fields.entry)) }
{
    let digest = key(fields)?;
    Ok(Command::Hash { digest })
}

/// `place P`.
pub fn place(fields: Fields) -> Result<Command, LineFault>
    ensures { ReadsOutcome result (map_ok (λ p. Command.Place p) (forms.partition fields.entry)) }
{
    let partition = partition(fields)?;
    Ok(Command::Place { partition })
}

/// `show N KEY`.
pub fn show(before: &Before, fields: Fields) -> Result<Command, LineFault>
    ensures { ReadsOutcome result
        (map_ok (λ p. Command.Show p.0 p.1) (forms.node_and_key before.now fields.entry)) }
{
    let (node, digest) = node_and_key(before, fields)?;
    Ok(Command::Show { node, digest })
}

/// `map N FROM TO`.
pub fn map(before: &Before, fields: Fields) -> Result<Command, LineFault>
    ensures { ReadsOutcome result (forms.map before.now fields.entry) }
{
    let (name, from, to) = three(fields)?;
    let node = declared_node(before, &name)?;
    let from = numbers::partition(&from)?;
    let to = numbers::partition_from(from, &to)?;
    Ok(Command::Map { node, from, to })
}
