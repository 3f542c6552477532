//! The commands of the client.
ghost use Rattle.script_lang.specs.Forms as forms;
ghost use Rattle.script_lang.specs.Outcomes.{map_ok};
ghost use Rattle.script_lang.specs.Reading.{ReadsOutcome};

use super::parts::{at_node, key, key_and_value, number, partition};
use crate::before::Before;
use crate::fault::LineFault;
use crate::fields::Fields;
use crate::script::Command;
use std::alloc::Global;

/// `ask N`.
pub fn ask(before: &Before, fields: Fields) -> Result<Command, LineFault>
    ensures { ReadsOutcome result
        (map_ok (λ id. Command.Ask id) (forms.at_node before.now fields.entry)) }
{
    let node = at_node(before, fields)?;
    Ok(Command::Ask { node })
}

/// `cput KEY VALUE`.
pub fn client_put(alloc: Global, fields: Fields) -> Result<Command, LineFault>
    ensures { ReadsOutcome result
        (map_ok (λ p. Command.ClientPut p.0 p.1) (forms.key_and_value fields.entry)) }
{
    let (digest, value) = key_and_value(alloc, fields)?;
    Ok(Command::ClientPut { digest, value })
}

/// `cget KEY`.
pub fn client_get(fields: Fields) -> Result<Command, LineFault>
    ensures { ReadsOutcome result
        (map_ok (λ digest. Command.ClientGet digest) (forms.key fields.entry)) }
{
    let digest = key(fields)?;
    Ok(Command::ClientGet { digest })
}

/// `cdel KEY`.
pub fn client_del(fields: Fields) -> Result<Command, LineFault>
    ensures { ReadsOutcome result
        (map_ok (λ digest. Command.ClientDel digest) (forms.key fields.entry)) }
{
    let digest = key(fields)?;
    Ok(Command::ClientDel { digest })
}

/// `oput KEY VALUE`.
pub fn call_put(alloc: Global, fields: Fields) -> Result<Command, LineFault>
    ensures { ReadsOutcome result
        (map_ok (λ p. Command.CallPut p.0 p.1) (forms.key_and_value fields.entry)) }
{
    let (digest, value) = key_and_value(alloc, fields)?;
    Ok(Command::CallPut { digest, value })
}

/// `oget KEY`.
pub fn call_get(fields: Fields) -> Result<Command, LineFault>
    ensures { ReadsOutcome result
        (map_ok (λ digest. Command.CallGet digest) (forms.key fields.entry)) }
{
    let digest = key(fields)?;
    Ok(Command::CallGet { digest })
}

/// `odel KEY`.
pub fn call_del(fields: Fields) -> Result<Command, LineFault>
    ensures { ReadsOutcome result
        (map_ok (λ digest. Command.CallDel digest) (forms.key fields.entry)) }
{
    let digest = key(fields)?;
    Ok(Command::CallDel { digest })
}

/// `again Q`.
pub fn call_again(fields: Fields) -> Result<Command, LineFault>
    ensures { ReadsOutcome result (map_ok (λ n. Command.CallAgain n) (forms.number fields.entry)) }
{
    let call = number(fields)?;
    Ok(Command::CallAgain { call })
}

/// `scan P`.
pub fn scan(fields: Fields) -> Result<Command, LineFault>
    ensures { ReadsOutcome result (map_ok (λ p. Command.Scan p) (forms.partition fields.entry)) }
{
    let partition = partition(fields)?;
    Ok(Command::Scan { partition })
}

/// `scannext S`.
pub fn scan_next(fields: Fields) -> Result<Command, LineFault>
    ensures { ReadsOutcome result (map_ok (λ n. Command.ScanNext n) (forms.number fields.entry)) }
{
    let scan = number(fields)?;
    Ok(Command::ScanNext { scan })
}
