// Writes into the tree, and the outcome of a search.
ghost use Rattle.std.specs.Prelude.{◌≡◌, ◌&&◌, if◌then◌else◌, nat_le, length, map, IfOk};
ghost use Rattle.branch_tree.specs.Growth.{has_open, has_unsettled, is_open, is_unsettled, least_bound, lower_bound, outcome_of, settled, state_of, turned};

use crate::keeping::Kept;
use crate::leaves::copied;
use duty_plan::{Node, NodeState, Outcome, State};
use minute_line::{Many, Memory};
use std::alloc::Global;

/// The node, branched at that cost.
pub(crate) fn turned_node(alloc: Global, node: &Node, cost: u64) -> Result<Node, Memory>
    ensures { IfOk result (λ turned_node. turned_node ≡ turned cost node.now) }
{
    Ok(Node {
        parent: node.parent,
        decision: node.decision,
        prices: copied(alloc, &node.prices)?,
        bound: node.bound,
        seen: cost,
        state: NodeState::Branched,
    })
}

/// The state of a node at the end.
fn settled_state(node: &Node, cost: u64) -> NodeState
    ensures { result ≡ (if is_unsettled node.now.state && nat_le cost node.now.bound then NodeState.Closed else node.now.state) }
{
    if is_unsettled(node.state) && cost <= node.bound {
        NodeState::Closed
    } else {
        node.state
    }
}

/// The node at the end.
fn settled_node(alloc: Global, node: &Node, cost: u64) -> Result<Node, Memory>
    ensures { IfOk result (λ end. end ≡ settled cost node.now) }
{
    Ok(Node {
        parent: node.parent,
        decision: node.decision,
        prices: copied(alloc, &node.prices)?,
        bound: node.bound,
        seen: node.seen,
        state: settled_state(node, cost),
    })
}

/// The tree at the end: each open or spent leaf whose bound has reached the cost is closed.
fn settle(alloc: Global, tree: &[Node], cost: u64) -> Result<Many<Node>, Memory>
    ensures { IfOk result (λ end. end ≡ map (settled cost) tree.now) }
{
    let mut end = Many::new(alloc);
    for node in tree {
        end.push(settled_node(alloc, node, cost)?)?;
    }
    Ok(end)
}

/// The lesser of a bound so far and that of the node, where it is an open or spent leaf.
fn lower(least: u64, node: &Node) -> u64
    ensures { result ≡ lower_bound least node.now }
{
    if is_unsettled(node.state) && node.bound <= least {
        node.bound
    } else {
        least
    }
}

/// The least of the cost and the bounds of the open and spent leaves.
fn least(tree: &[Node], cost: u64) -> u64
    ensures { result ≡ least_bound cost tree.now }
{
    let mut least = cost;
    let mut left = tree.len();
    while left > 0 {
        left -= 1;
        least = lower(least, &tree[left]);
    }
    least
}

fn is_unsettled(state: NodeState) -> bool
    ensures { result ≡ is_unsettled state }
{
    matches!(state, NodeState::Open | NodeState::Spent)
}

fn is_open(state: NodeState) -> bool
    ensures { result ≡ is_open state }
{
    matches!(state, NodeState::Open)
}

fn any_open(tree: &[Node]) -> bool
    ensures { result ≡ has_open tree.now }
{
    for node in tree {
        if is_open(node.state) {
            return true;
        }
    }
    false
}

fn any_unsettled(tree: &[Node]) -> bool
    ensures { result ≡ has_unsettled tree.now }
{
    for node in tree {
        if is_unsettled(node.state) {
            return true;
        }
    }
    false
}

/// How the search ended.
pub(crate) fn ended(tree: &[Node]) -> State
    ensures { result ≡ state_of tree.now }
{
    if any_open(tree) {
        State::OpenNodes
    } else if any_unsettled(tree) {
        State::OpenLabels
    } else {
        State::Proved
    }
}

/// The outcome of a grown tree.
pub(crate) fn finish(alloc: Global, kept: Kept, tree: &[Node]) -> Result<Outcome, Memory>
    ensures { IfOk result (λ outcome. outcome ≡ outcome_of kept.plan kept.cost (map (settled kept.cost) tree.now)) }
{
    let end = settle(alloc, tree, kept.cost)?;
    let bound = least(end.as_slice(), kept.cost);
    let state = ended(end.as_slice());
    let Kept { plan, cost, .. } = kept;
    Ok(Outcome {
        plan,
        cost,
        bound,
        tree: end,
        state,
    })
}
