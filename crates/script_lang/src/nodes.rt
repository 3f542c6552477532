//! Fields that name a node.
ghost use Rattle.std.specs.Prelude.{◌≡◌};
ghost use Rattle.script_lang.specs.Values as values;

use crate::before::Before;
use crate::fault::Cause;
use crate::fields::Field;
use crate::numbers::short_number;
use cluster_types::NodeId;

/// How many nodes a script may declare.
const MOST_NODES: usize = 16;

/// A node's id: 1 to 65535.
pub fn node(field: &Field) -> Result<NodeId, Cause>
    ensures { result ≡ values.node field.now }
{
    let number = short_number(field)?;
    NodeId::new(number).ok_or(Cause::BadNumber)
}

/// A node that is declared.
pub fn declared_node(before: &Before, field: &Field) -> Result<NodeId, Cause>
    ensures { result ≡ values.declared_node before.now field.now }
{
    let id = node(field)?;
    if !before.nodes.contains(id) {
        return Err(Cause::UnknownNode);
    }
    Ok(id)
}

/// A node that isn't declared yet.
pub fn new_node(before: &Before, field: &Field) -> Result<NodeId, Cause>
    ensures { result ≡ values.new_node before.now field.now }
{
    let id = node(field)?;
    if before.nodes.contains(id) {
        return Err(Cause::RepeatedNode);
    }
    if before.nodes.len() >= MOST_NODES {
        return Err(Cause::TooManyNodes);
    }
    Ok(id)
}
