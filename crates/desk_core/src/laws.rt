// What the desk reads and tells of the drivers, in its own words: laws, whose functions do nothing.
ghost use Rattle.desk_core.specs.Laws.{EachHasItsHistory, FirstWithoutIsNamed, FirstRefusedIsTold, LinesAreVerdicts};
ghost use Rattle.desk_core.specs.Completing.{WhatMayBeIsDone};
ghost use Rattle.desk_core.specs.Playing.{IssuesStand, PublishedOnce, HistoriesStand, RepliesAreItsSteps};

/// The law that the histories of a case are one for each driver, in their order, each what that driver's rows make.
pub fn each_has_its_history()
    ensures { EachHasItsHistory }
{}

/// The law that a refusal for want of a history names the first driver without history rows, and comes only where no
/// driver's rows are refused.
pub fn first_without_is_named()
    ensures { FirstWithoutIsNamed }
{}

/// The law that rows which make no history are refused at the first driver who has such rows.
pub fn first_refused_is_told()
    ensures { FirstRefusedIsTold }
{}

/// The law that a check tells one line a driver, in their order, and that line k is the judge's verdict on what driver k
/// drove after the history of driver k's rows.
pub fn lines_are_verdicts()
    ensures { LinesAreVerdicts }
{}

/// The law that a command which nothing refuses, over tables that are told, is done unless the keeper fails or memory is wanted.
pub fn what_may_be_is_done()
    ensures { WhatMayBeIsDone }
{}

/// The law that an issue stands, as it is, after every list of commands.
pub fn issues_stand()
    ensures { IssuesStand }
{}

/// The law that a week is published at most once: whatever was played since, a further publication is refused with the first one's
/// receipt, and changes nothing.
pub fn published_once()
    ensures { PublishedOnce }
{}

/// The law that what is kept of drivers changes at a publication that is done, and nowhere else.
pub fn histories_stand()
    ensures { HistoriesStand }
{}

/// The law that the replies to a list of commands over tables that are told, each done or refused, are the machine's, and so are the
/// tables after them.
pub fn replies_are_its_steps()
    ensures { RepliesAreItsSteps }
{}
