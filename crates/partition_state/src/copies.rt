//! Copies with their nodes, and lists of nodes.
ghost use Rattle.std.specs.Prelude.{◌≡◌, ◌<◌, ◌==◌, ◌&&◌, true, not, find, length};
ghost use Rattle.std.specs.List.{list_all};
ghost use Rattle.cluster_types.specs.ClusterKeys.{key_lt};
ghost use Rattle.cluster_types.specs.NodeLists.{IsNodeList};
ghost use Rattle.cluster_types.specs.StateRows.{state_of};
ghost use Rattle.partition_lists.specs.Acting.{acting_by, is_empty, is_wholest_by, whole_key};
ghost use Rattle.partition_state.specs.Copies.{is_copy_at_most, is_under, is_whole_under};
ghost use Rattle.partition_lists.specs.Classes.{asked_among, class_first_by, is_first_by, is_whole_with, same_class_by};

use cluster_types::{ClusterKey, CopyState, NodeId, NodeList};

/// A node with the state of its copy.
type Copy = (NodeId, CopyState);

pub(crate) fn is_empty(state: CopyState) -> bool
    ensures { result ≡ is_empty state }
{
    match state {
        CopyState::Empty => true,
        CopyState::Part => false,
        CopyState::Whole { .. } => false,
    }
}

/// The key under which the copy was whole; `NONE`, which is below every key, where it wasn't.
fn whole_key(state: CopyState) -> ClusterKey
    ensures { result ≡ whole_key state }
{
    match state {
        CopyState::Empty => ClusterKey::NONE,
        CopyState::Part => ClusterKey::NONE,
        CopyState::Whole { key, .. } => key,
    }
}

fn is_below(a: ClusterKey, b: ClusterKey) -> bool
    ensures { result ≡ key_lt a b }
{
    a < b
}

/// Whether the copy was whole under that key after that many writes.
fn is_whole_with(state: CopyState, key: ClusterKey, writes: u32) -> bool
    ensures { result ≡ is_whole_with key writes state }
{
    match state {
        CopyState::Empty => false,
        CopyState::Part => false,
        CopyState::Whole { key: k, writes: w } => key == k && writes == w,
    }
}

/// The state of the node's copy; `Empty` where there is none.
pub(crate) fn state_in(copies: &[Copy], n: NodeId) -> CopyState
    ensures { result ≡ state_of copies.now n }
{
    for copy in copies {
        if copy.0 == n {
            return copy.1;
        }
    }
    CopyState::Empty
}

/// The first node whose copy was whole under the greatest key, and the first one where none was
/// whole.
pub(crate) fn acting(copies: &[Copy], nodes: &[NodeId]) -> NodeId
    requires { 0 < length nodes.now }
    ensures { result ≡ acting_by nodes.now (state_of copies.now) }
{
    match first_wholest(copies, nodes) {
        Some(n) => n,
        None => nodes[0],
    }
}

/// Mostly all copies are those of the nodes: then it is the first under the greatest key of all.
fn first_wholest(copies: &[Copy], nodes: &[NodeId]) -> Option<NodeId>
    ensures { result ≡ find (is_wholest_by nodes.now (state_of copies.now)) nodes.now }
{
    match first_under(copies, nodes, greatest_key(copies)) {
        Some(n) => Some(n),
        // Not all copies are those of the nodes, or none was whole.
        None => first_of_wholest(copies, nodes),
    }
}

/// The greatest key under which a copy was whole; `NONE` where none was.
fn greatest_key(copies: &[Copy]) -> ClusterKey
    ensures { list_all (is_copy_at_most result) copies.now ≡ true }
{
    let mut greatest = ClusterKey::NONE;
    for copy in copies {
        let key = whole_key(copy.1);
        if is_below(greatest, key) {
            greatest = key;
        }
    }
    greatest
}

/// The first of the nodes whose copy was whole under that key.
fn first_under(copies: &[Copy], nodes: &[NodeId], key: ClusterKey) -> Option<NodeId>
    ensures { result ≡ find (is_under key (state_of copies.now)) nodes.now }
{
    for n in nodes {
        if is_whole_under(state_in(copies, *n), key) {
            return Some(*n);
        }
    }
    None
}

/// Whether the copy was whole under that key.
fn is_whole_under(state: CopyState, key: ClusterKey) -> bool
    ensures { result ≡ is_whole_under key state }
{
    match state {
        CopyState::Empty => false,
        CopyState::Part => false,
        CopyState::Whole { key: k, .. } => key == k,
    }
}

/// The same, by a look at all nodes for each of them.
fn first_of_wholest(copies: &[Copy], nodes: &[NodeId]) -> Option<NodeId>
    ensures { result ≡ find (is_wholest_by nodes.now (state_of copies.now)) nodes.now }
{
    for n in nodes {
        if is_wholest(copies, nodes, *n) {
            return Some(*n);
        }
    }
    None
}

/// Whether the node's copy was whole, and none of the nodes' under a greater key.
fn is_wholest(copies: &[Copy], nodes: &[NodeId], n: NodeId) -> bool
    ensures { result ≡ is_wholest_by nodes.now (state_of copies.now) n }
{
    match state_in(copies, n) {
        CopyState::Empty => false,
        CopyState::Part => false,
        CopyState::Whole { key, .. } => is_none_above(copies, nodes, key),
    }
}

fn is_none_above(copies: &[Copy], nodes: &[NodeId], key: ClusterKey) -> bool
    ensures { result
        ≡ list_all (λ m. not (key_lt key (whole_key (state_of copies.now m)))) nodes.now }
{
    nodes.iter().all(|m| is_not_above(copies, *m, key))
}

fn is_not_above(copies: &[Copy], m: NodeId, key: ClusterKey) -> bool
    ensures { result ≡ not (key_lt key (whole_key (state_of copies.now m))) }
{
    !is_below(key, whole_key(state_in(copies, m)))
}

/// Whether `b`'s copy is in the class of `a`'s.
pub(crate) fn same_class(copies: &[Copy], a: NodeId, b: NodeId) -> bool
    ensures { result ≡ same_class_by (state_of copies.now) a b }
{
    match state_in(copies, a) {
        CopyState::Empty => false,
        CopyState::Part => a == b,
        CopyState::Whole { key, writes } => {
            if writes == CopyState::NO_CLASS {
                return a == b;
            }
            is_whole_with(state_in(copies, b), key, writes)
        }
    }
}

/// The first of the nodes whose copy is in the class of `n`'s.
pub(crate) fn class_first(copies: &[Copy], nodes: &[NodeId], n: NodeId) -> Option<NodeId>
    ensures { result ≡ class_first_by nodes.now (state_of copies.now) n }
{
    for other in nodes {
        if same_class(copies, n, *other) {
            return Some(*other);
        }
    }
    None
}

/// Whether the node is the first of its class.
pub(crate) fn is_first(copies: &[Copy], nodes: &[NodeId], n: NodeId) -> bool
    ensures { result ≡ is_first_by nodes.now (state_of copies.now) n }
{
    match class_first(copies, nodes, n) {
        None => false,
        Some(first) => first == n,
    }
}

/// Whether `by` asks the node: it is the first of its class, which isn't that of `by`.
fn is_asked(copies: &[Copy], nodes: &[NodeId], by: NodeId, n: NodeId) -> bool
    ensures { result
        ≡ (is_first_by nodes.now (state_of copies.now) n
        && not (same_class_by (state_of copies.now) by n)) }
{
    is_first(copies, nodes, n) && !same_class(copies, by, n)
}

/// The first of each class but that of `by`.
pub(crate) fn asked_by(copies: &[Copy], nodes: &[NodeId], by: NodeId) -> NodeList
    requires { IsNodeList nodes.now }
    ensures { result ≡ asked_among nodes.now (state_of copies.now) by }
{
    let mut asked = NodeList::new();
    for n in nodes {
        if is_asked(copies, nodes, by, *n) {
            asked.push(*n);
        }
    }
    asked
}
