//! The commands at a node.
ghost use Rattle.script_lang.specs.Forms as forms;
ghost use Rattle.script_lang.specs.Outcomes.{map_ok};
ghost use Rattle.script_lang.specs.Reading.{ReadsOutcome};

use super::counts::two;
use super::parts::{at_node, node_and_key, node_key_and_value};
use crate::before::Before;
use crate::fault::LineFault;
use crate::fields::Fields;
use crate::nodes::declared_node;
use crate::numbers;
use crate::script::Command;
use std::alloc::Global;

/// `tick N`.
pub fn tick(before: &Before, fields: Fields) -> Result<Command, LineFault>
    ensures { ReadsOutcome result
        (map_ok (λ id. Command.Tick id) (forms.at_node before.now fields.entry)) }
{
    let node = at_node(before, fields)?;
    Ok(Command::Tick { node })
}

/// `stop N`.
pub fn stop(before: &Before, fields: Fields) -> Result<Command, LineFault>
    ensures { ReadsOutcome result
        (map_ok (λ id. Command.Stop id) (forms.at_node before.now fields.entry)) }
{
    let node = at_node(before, fields)?;
    Ok(Command::Stop { node })
}

/// `start N`.
pub fn start(before: &Before, fields: Fields) -> Result<Command, LineFault>
    ensures { ReadsOutcome result
        (map_ok (λ id. Command.Start id) (forms.at_node before.now fields.entry)) }
{
    let node = at_node(before, fields)?;
    Ok(Command::Start { node })
}

/// `put N KEY VALUE`.
pub fn put(alloc: Global, before: &Before, fields: Fields) -> Result<Command, LineFault>
    ensures { ReadsOutcome result
        (map_ok (λ p. Command.Put p.0 p.1 p.2) (forms.node_key_and_value before.now fields.entry)) }
{
    let (node, digest, value) = node_key_and_value(alloc, before, fields)?;
    Ok(Command::Put {
        node,
        digest,
        value,
    })
}

/// `get N KEY`.
pub fn get(before: &Before, fields: Fields) -> Result<Command, LineFault>
    ensures { ReadsOutcome result
        (map_ok (λ p. Command.Get p.0 p.1) (forms.node_and_key before.now fields.entry)) }
{
    let (node, digest) = node_and_key(before, fields)?;
    Ok(Command::Get { node, digest })
}

/// `del N KEY`.
pub fn del(before: &Before, fields: Fields) -> Result<Command, LineFault>
    ensures { ReadsOutcome result
        (map_ok (λ p. Command.Del p.0 p.1) (forms.node_and_key before.now fields.entry)) }
{
    let (node, digest) = node_and_key(before, fields)?;
    Ok(Command::Del { node, digest })
}

/// `quiesce N`.
pub fn quiesce(before: &Before, fields: Fields) -> Result<Command, LineFault>
    ensures { ReadsOutcome result
        (map_ok (λ id. Command.Quiesce id) (forms.at_node before.now fields.entry)) }
{
    let node = at_node(before, fields)?;
    Ok(Command::Quiesce { node })
}

/// `unquiesce N`.
pub fn unquiesce(before: &Before, fields: Fields) -> Result<Command, LineFault>
    ensures { ReadsOutcome result
        (map_ok (λ id. Command.Unquiesce id) (forms.at_node before.now fields.entry)) }
{
    let node = at_node(before, fields)?;
    Ok(Command::Unquiesce { node })
}

/// `pput N KEY VALUE`.
pub fn proxy_put(alloc: Global, before: &Before, fields: Fields) -> Result<Command, LineFault>
    ensures { ReadsOutcome result (map_ok (λ p. Command.ProxyPut p.0 p.1 p.2)
        (forms.node_key_and_value before.now fields.entry)) }
{
    let (node, digest, value) = node_key_and_value(alloc, before, fields)?;
    Ok(Command::ProxyPut {
        node,
        digest,
        value,
    })
}

/// `pget N KEY`.
pub fn proxy_get(before: &Before, fields: Fields) -> Result<Command, LineFault>
    ensures { ReadsOutcome result
        (map_ok (λ p. Command.ProxyGet p.0 p.1) (forms.node_and_key before.now fields.entry)) }
{
    let (node, digest) = node_and_key(before, fields)?;
    Ok(Command::ProxyGet { node, digest })
}

/// `pdel N KEY`.
pub fn proxy_del(before: &Before, fields: Fields) -> Result<Command, LineFault>
    ensures { ReadsOutcome result
        (map_ok (λ p. Command.ProxyDel p.0 p.1) (forms.node_and_key before.now fields.entry)) }
{
    let (node, digest) = node_and_key(before, fields)?;
    Ok(Command::ProxyDel { node, digest })
}

/// `pagain N`.
pub fn proxy_again(before: &Before, fields: Fields) -> Result<Command, LineFault>
    ensures { ReadsOutcome result
        (map_ok (λ id. Command.ProxyAgain id) (forms.at_node before.now fields.entry)) }
{
    let node = at_node(before, fields)?;
    Ok(Command::ProxyAgain { node })
}

/// `clock N T`.
pub fn clock(before: &Before, fields: Fields) -> Result<Command, LineFault>
    ensures { ReadsOutcome result (forms.clock before.now fields.entry) }
{
    let (name, time) = two(fields)?;
    let node = declared_node(before, &name)?;
    let time = numbers::number(&time)?;
    Ok(Command::Clock { node, time })
}
