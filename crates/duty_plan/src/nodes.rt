// The nodes of a search.
use crate::{Pairs, Prices};

/// What a node decides, beside all that its parent does.
#[derive(Clone, Copy, PartialEq, Eq, Debug)]
pub enum Decision {
    /// Nothing: the node is the root.
    Root,
    /// This driver serves this order, and no other driver does.
    Forced(u32, u32),
    /// This driver does not serve this order.
    Barred(u32, u32),
}

/// How a node ended.
#[derive(Clone, Copy, PartialEq, Eq, Debug)]
pub enum NodeState {
    /// It has two children.
    Branched,
    /// A leaf whose bound is at least the plan's cost.
    Closed,
    /// A leaf with a driver who has no lawful duty inside its pairs.
    Empty,
    /// A leaf with a Free pair and a bound below the plan's cost.
    Open,
    /// A leaf without a Free pair, whose last round wanted labels, with a bound below the plan's cost.
    Spent,
}

/// With what a node begins.
#[derive(Drop)]
pub struct NodeStart {
    /// What its path decides of each driver and order.
    pub pairs: Pairs,
    /// Its parent's bound, in cents, 0 for the root.
    pub bound: u64,
    /// Its parent's prices, for the root what a subcontractor takes for each order.
    pub prices: Prices,
}

/// A node of a search's tree. Nodes are numbered from 1.
#[derive(Drop)]
pub struct Node {
    /// The number of its parent, 0 for the root.
    pub parent: u32,
    pub decision: Decision,
    /// The prices of the first round that gave its bound.
    pub prices: Prices,
    /// No lawful plan inside its pairs costs less, in cents.
    pub bound: u64,
    /// What the kept plan cost when the node was branched, in cents, 0 for a leaf.
    pub seen: u64,
    pub state: NodeState,
}
