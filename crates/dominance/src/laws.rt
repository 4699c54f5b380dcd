// What may follow a list of steps: each law is the contract of a function that does nothing.
ghost use Rattle.dominance.specs.Completions.{KeepsCompletions, ListsCompletions, Shifts, Simulates};
ghost use Rattle.dominance.specs.Forgetting.{MayForget, MayForgetWithin, ShiftKeepsValue};
ghost use Rattle.dominance.specs.PricedOut.{PricesOut};
ghost use Rattle.dominance.specs.Reaching.{DominatesWithinAny, KeepsCompletionsWithin, LabelReaches, LabelReachesOpen, ListsWithin, ReachesBoth, ReachesByLegs, ReachesOpen, SimulatesWithin};

/// The law that where one label betters another of the same driver, both after an act, whatever may follow the steps of
/// the worse may follow the steps of the better, once the minutes between the two are added to the Ready minutes of the
/// first stay; and so each completion of the worse gives one of the better.
pub fn simulate()
    ensures steps { Simulates }
    ensures completions { KeepsCompletions }
{}

/// The law that whatever may follow some steps can be done with listed stays, with the same acts and at the same cost; and so
/// each completion of them has one with listed stays, of the same value at all prices and inside the same pairs.
pub fn shift()
    ensures steps { Shifts }
    ensures completions { ListsCompletions }
    ensures value { ShiftKeepsValue }
{}

/// The law that where one label betters another within a set of orders, lawful steps after the worse that serve only orders
/// of the set may follow the better, so delayed; and so, where the set is an upper bound of what may be served after the
/// worse, each completion of the worse gives one of the better.
pub fn simulate_within()
    ensures steps { SimulatesWithin }
    ensures completions { KeepsCompletionsWithin }
{}

/// The law that upper bounds of what may be served after a partial duty are the orders whose windows close no earlier than it
/// ends, those whose places, by lower bounds on lists of legs, can be reached before they close, and what two upper bounds
/// both have.
pub fn reach()
    ensures windows { ReachesOpen }
    ensures legs { ReachesByLegs }
    ensures labels { LabelReaches }
    ensures labels_windows { LabelReachesOpen }
    ensures both { ReachesBoth }
{}

/// The law that a label which betters another does so within any set of orders; and so labels that were tested within such
/// sets are a label list.
pub fn lists_within()
    ensures betters { DominatesWithinAny }
    ensures lists { ListsWithin }
{}

/// The law that a partial duty which another betters may be forgotten: each of its completions inside gives one of the other, with
/// listed stays, of as many steps, inside and of no larger value. So it is within what completions inside of the worse serve.
pub fn bettered_may_be_forgotten()
    ensures any { MayForget }
    ensures within { MayForgetWithin }
{}

/// The law that where each label of a label list, tested within reach, is bettered by another, or all its listed steps were tried,
/// no lawful duty inside is worth less than what is known.
pub fn exhausted_labels_price_out()
    ensures { PricesOut }
{}
