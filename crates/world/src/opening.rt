//! What a header opens.
ghost use Rattle.std.specs.Prelude.{◌≡◌, ◌∷◌, [], nat_lt, All, IfOk, filter_map, map, replicate, slice_get, unwrap_or};
ghost use Rattle.cluster_types.specs.NodeLists.{IsNodeList};
ghost use Rattle.partition_lists.specs.Lists.{in_order};
ghost use Rattle.script_lang.specs.Proper.{IsProperHeaderLine};
ghost use Rattle.node_rules.specs.Steps.{unplanned};
ghost use Rattle.cluster_rules.specs.Opening as declared;
ghost use Rattle.cluster_rules.specs.World as worlds;
ghost use Rattle.world.specs.Stands.{AreDivided};

use cluster_types::{Groups, NoMemory, NodeId, NodeList, Role};
use conflict_order::Policy;
use journal_text::{Line, LineList};
use net_script::Net;
use node_core::Node;
use script_lang::HeaderLine;
use std::alloc::Global;

/// The header's lines in the journal.
pub(crate) fn header_lines(alloc: Global, header: &[HeaderLine]) -> Result<LineList, NoMemory>
    ensures { IfOk result (λ lines. lines ≡ declared.header_lines header.now) }
{
    let mut lines = LineList::new(alloc);
    for line in header {
        lines.push(line_of(*line))?;
    }
    Ok(lines)
}

fn line_of(line: HeaderLine) -> Line
    ensures { result ≡ declared.journal_header_line line }
{
    match line {
        HeaderLine::Script { version } => Line::Script { version },
        HeaderLine::Factor { factor } => Line::Factor { factor },
        HeaderLine::Node { node, rack } => Line::Node { node, rack },
        HeaderLine::Policy { policy } => Line::Policy { policy },
    }
}

/// The declared nodes, in the order of their lines.
pub(crate) fn declared_ids(header: &[HeaderLine]) -> NodeList
    requires { IsNodeList (declared.declared_nodes header.now) }
    ensures { result ≡ declared.declared_nodes header.now }
{
    let mut ids = NodeList::new();
    for line in header {
        if let HeaderLine::Node { node, .. } = line {
            ids.push(*node);
        }
    }
    ids
}

/// The role in which the node begins: with the rack that its line names, or rack 0.
fn declared_role(header: &[HeaderLine], id: NodeId) -> Role
    ensures { result ≡ declared.declared_role header.now id }
{
    Role {
        rack: declared_rack(header, id),
        quiesced: false,
    }
}

/// The rack that the first line names which names one for the node, or 0.
fn declared_rack(header: &[HeaderLine], id: NodeId) -> u8
    ensures { result ≡ unwrap_or (slice_get (filter_map (declared.rack_in id) header.now) 0) 0 }
{
    for line in header {
        match rack_in(*line, id) {
            Some(rack) => return rack,
            None => {}
        }
    }
    0
}

/// The rack that the line names for the node.
fn rack_in(line: HeaderLine, id: NodeId) -> Option<u8>
    ensures { result ≡ declared.rack_in id line }
{
    match line {
        HeaderLine::Node { node, rack } => { if node == id { rack } else { None } }
        _ => None,
    }
}

/// How many replicas a partition has: as the last line says that names a factor, or 1.
fn declared_factor(header: &[HeaderLine]) -> u8
    ensures { result ≡ declared.declared_factor header.now }
{
    let mut declared = 1;
    for line in header {
        if let HeaderLine::Factor { factor } = line {
            declared = *factor;
        }
    }
    declared
}

/// How versions compare: as the last line says that names a policy, or by time.
fn declared_policy(header: &[HeaderLine]) -> Policy
    ensures { result ≡ declared.declared_policy header.now }
{
    let mut declared = Policy::Time;
    for line in header {
        if let HeaderLine::Policy { policy } = line {
            declared = *policy;
        }
    }
    declared
}

/// The nodes as the header declares them, in the order of their ids.
pub(crate) fn declared_nodes(
    alloc: Global,
    header: &[HeaderLine],
    all: &NodeList,
    ids: &[NodeId],
) -> Result<Vec<Node>, NoMemory>
    requires ranges { All IsProperHeaderLine header.now }
    requires nodes { IsNodeList all.now }
    requires all { all.now ≡ declared.declared_nodes header.now }
    requires ids { ids.now ≡ in_order nat_lt all.now }
    ensures { IfOk result
        (λ nodes. nodes.items ≡ map (λ n. unplanned (worlds.declared header.now n)) ids.now) }
{
    let factor = declared_factor(header);
    let by = declared_policy(header);
    let mut nodes = Vec::new(alloc);
    for id in ids {
        let role = declared_role(header, *id);
        let node = Node::with_role(alloc, *id, role, all.without(*id), factor, by)?;
        nodes.push(node)?;
    }
    Ok(nodes)
}

/// As many clocks, which stand at 0.
pub(crate) fn clocks_at_0(alloc: Global, count: usize) -> Result<Vec<u64>, NoMemory>
    ensures { IfOk result (λ clocks. clocks.items ≡ replicate count 0) }
{
    vec![in alloc; 0u64; count]
}

/// A network on which nothing was sent, with these nodes in one group.
pub(crate) fn undivided_net(alloc: Global, all: &NodeList) -> Net
    requires { IsNodeList all.now }
    ensures sent { result.sent ≡ 0 }
    ensures flying { result.flying ≡ [] }
    ensures groups { AreDivided result.groups (all.now ∷ []) }
{
    let mut net = Net::new(alloc);
    if !all.is_empty() {
        net.set_groups(Groups::from_lists([*all].as_slice()));
    }
    net
}
