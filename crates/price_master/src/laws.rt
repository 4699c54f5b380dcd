// Laws on the Lagrangian value: each is the contract of a function that does nothing.
ghost use Rattle.price_master.specs.Laws.{ChildTightens, CostsAlone, CostsAtStart, IsBelowPlans, IsExactWhenDecided, NeverFalls, NeverFallsBelow};

/// The Lagrangian value is at most the cost of every lawful plan inside the pairs.
pub fn below_plans()
    ensures { IsBelowPlans }
{}

/// At decided pairs that force no order for two drivers, the plan of least duties is lawful and costs the Lagrangian
/// value.
pub fn is_exact()
    ensures { IsExactWhenDecided }
{}

/// A child keeps what its parent decides; and at the same prices the Lagrangian value never falls from a node to any node that
/// keeps what it decides, and so from a node to its child.
pub fn never_falls()
    ensures keeps { ChildTightens }
    ensures below { NeverFallsBelow }
    ensures child { NeverFalls }
{}

/// A plan of one duty costs that duty and what subcontractors take for the orders that it does not serve: at the start prices,
/// what they take for all orders, and the duty's value.
pub fn costs_alone()
    ensures cost { CostsAlone }
    ensures at_start { CostsAtStart }
{}
