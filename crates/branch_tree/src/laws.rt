// Laws on nodes and outcomes: each is the contract of a function that does nothing.
ghost use Rattle.branch_tree.specs.Laws.{HasRightOutcome, IsNoCheaper, KeepsRuns, NodesForceOnce, SplitsPlans};
ghost use Rattle.branch_tree.specs.PathLaws.{DecidedHasNoFree, PathsForceOnce, PathsLast};
ghost use Rattle.branch_tree.specs.GrowthLaws.{BranchingGrows, GrownIsRight, GrowthLasts, RootGrows};

/// A lawful plan inside a node is inside just one of two children that force and bar a driver and an order that are Free
/// at the node.
pub fn splits_plans()
    ensures { SplitsPlans }
{}

/// No node of a tree forces an order for two drivers, nor does any path that decides only what is Free.
pub fn forces_once()
    ensures nodes { NodesForceOnce }
    ensures paths { PathsForceOnce }
{}

/// More nodes change no path of a node that is there; and the pairs of a path are decided just where nothing is Free at its node.
pub fn paths_last()
    ensures grown { PathsLast }
    ensures decided { DecidedHasNoFree }
{}

/// A run towards a cost is one towards any smaller cost, as the kept plan's cost falls.
pub fn keeps_runs()
    ensures { KeepsRuns }
{}

/// No lawful plan costs less than the bound of a right outcome.
pub fn no_cheaper()
    ensures { IsNoCheaper }
{}

/// A week without drivers has a right outcome: all orders are given away, at the bound.
pub fn without_drivers()
    ensures { HasRightOutcome }
{}

/// The root alone, after its rounds, is a tree that may grow.
pub fn root_grows()
    ensures { RootGrows }
{}

/// A tree that may grow may grow when the kept cost has fallen.
pub fn growth_lasts()
    ensures { GrowthLasts }
{}

/// A branching keeps a tree growing.
pub fn branching_grows()
    ensures { BranchingGrows }
{}

/// A grown tree, with its leaves settled, shows that the outcome is right.
pub fn grown_is_right()
    ensures { GrownIsRight }
{}
