// What the refusals of a step and the prune mean: each law is the contract of a function that does nothing.
ghost use Rattle.duty_label.specs.Children.{NamedAsJudged, NamedForDuties};
ghost use Rattle.duty_label.specs.Pruning.{KeepsHopeful, KeepsOnTime, PrunesSoundly};

/// The law that the fault which `child` names for a step is the one that the judge of duties names, with the step's own number,
/// but for the way home: the judge asks for it before the hours rules, and a step need not end there.
pub fn named_as_judged()
    ensures partial { NamedAsJudged }
    ensures duty { NamedForDuties }
{}

/// The law that nothing is lost by a label that is hopeless by lower bounds: no way home makes its steps a lawful duty inside that is
/// worth less than what is known. And a label that isn't hopeless is as those of a label list are: it serves each Forced order
/// whose window has closed, and its completion bound is below what is known.
pub fn prune()
    ensures sound { PrunesSoundly }
    ensures on_time { KeepsOnTime }
    ensures hopeful { KeepsHopeful }
{}
