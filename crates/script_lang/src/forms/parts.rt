//! Fields that several forms have.
ghost use Rattle.std.specs.Prelude.{◌≡◌};
ghost use Rattle.script_lang.specs.Forms as forms;
ghost use Rattle.script_lang.specs.Reading.{ReadsOutcome};

use super::counts::{one, three, two};
use crate::before::Before;
use crate::fault::{Cause, LineFault};
use crate::fields::Fields;
use crate::nodes::declared_node;
use crate::{keys, numbers, values};
use cluster_types::{Digest, NodeId, PartitionId};
use conflict_order::ValueBytes;
use std::alloc::Global;

/// `N`.
pub fn at_node(before: &Before, fields: Fields) -> Result<NodeId, Cause>
    ensures { result ≡ forms.at_node before.now fields.entry }
{
    let field = one(fields)?;
    declared_node(before, &field)
}

/// `N KEY`.
pub fn node_and_key(before: &Before, fields: Fields) -> Result<(NodeId, Digest), Cause>
    ensures { result ≡ forms.node_and_key before.now fields.entry }
{
    let (name, key) = two(fields)?;
    let node = declared_node(before, &name)?;
    let digest = keys::digest(&key)?;
    Ok((node, digest))
}

/// `N KEY VALUE`.
pub fn node_key_and_value(
    alloc: Global,
    before: &Before,
    fields: Fields,
) -> Result<(NodeId, Digest, ValueBytes), LineFault>
    ensures { ReadsOutcome result (forms.node_key_and_value before.now fields.entry) }
{
    let (name, key, value) = three(fields)?;
    let node = declared_node(before, &name)?;
    let digest = keys::digest(&key)?;
    let value = values::value(alloc, &value)?;
    Ok((node, digest, value))
}

/// `KEY`.
pub fn key(fields: Fields) -> Result<Digest, Cause>
    ensures { result ≡ forms.key fields.entry }
{
    let field = one(fields)?;
    keys::digest(&field)
}

/// `KEY VALUE`.
pub fn key_and_value(alloc: Global, fields: Fields) -> Result<(Digest, ValueBytes), LineFault>
    ensures { ReadsOutcome result (forms.key_and_value fields.entry) }
{
    let (key, value) = two(fields)?;
    let digest = keys::digest(&key)?;
    let value = values::value(alloc, &value)?;
    Ok((digest, value))
}

/// The number of a message, call or scan.
pub fn number(fields: Fields) -> Result<u64, Cause>
    ensures { result ≡ forms.number fields.entry }
{
    let field = one(fields)?;
    numbers::number(&field)
}

/// `P`.
pub fn partition(fields: Fields) -> Result<PartitionId, Cause>
    ensures { result ≡ forms.partition fields.entry }
{
    let field = one(fields)?;
    numbers::partition(&field)
}
