// What a search may spend, and what it finds.
use crate::{Node, Plan};
use minute_line::Many;

/// How a search ended.
#[derive(Clone, Copy, PartialEq, Eq, Debug)]
pub enum State {
    /// The bound is the cost: no lawful plan costs less.
    Proved,
    /// Every leaf with a bound below the cost is decided and wanted labels.
    OpenLabels,
    /// A leaf with a bound below the cost has a Free pair, and no two more nodes fit.
    OpenNodes,
}

/// A plan with its cost, a bound that no lawful plan beats, and the tree that shows the bound.
#[derive(Drop)]
pub struct Outcome {
    pub plan: Plan,
    /// What the plan costs, in cents.
    pub cost: u64,
    /// No lawful plan costs less, in cents.
    pub bound: u64,
    /// The nodes in the order of their numbers.
    pub tree: Many<Node>,
    pub state: State,
}

/// What a search may spend.
#[derive(Clone, Copy, PartialEq, Eq, Debug)]
pub struct Limits {
    /// Labels that are stored at a time, 0 to 2,097,152.
    pub labels: u32,
    /// Nodes of the tree, 1 to 4,095.
    pub nodes: u32,
    /// Rounds of each node, 1 to 100.
    pub rounds: u32,
}
