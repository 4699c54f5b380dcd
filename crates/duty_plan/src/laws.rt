// Laws over the definitions: each is the contract of a function that does nothing.
ghost use Rattle.duty_plan.specs.Laws.{HasItsMinutes, IsRestFree, HasEachOrderOnce, IsNeverOverloaded};
ghost use Rattle.duty_plan.specs.LabelLaws.{HasNoRepeat, HasOneLabel, HasServedBits, HasTestBits, IsListAlone};
ghost use Rattle.duty_plan.specs.PricingLaws.{BoundsCompletions, LeastIsSmall, ListsStayInReach, ServesInTime};
ghost use Rattle.duty_plan.specs.SharedRounds.{JoinedIsRound, JoinedLicence, LoneLicence};
ghost use Rattle.duty_plan.specs.Twins.{TwinsAnswerAlike, TwinsAreAlike, TwinsShareLists, TwinsStoreAlike};

/// The stints that a duty's steps give have the minutes of its line.
pub fn stints_are_minutes()
    ensures { HasItsMinutes }
{}

/// The Off minutes that fill the week after a duty's steps break no hours rule.
pub fn rest_is_free()
    ensures { IsRestFree }
{}

/// In a lawful plan each order is served just once, from inside its window, or stands just once among those given away.
pub fn each_order_once()
    ensures { HasEachOrderOnce }
{}

/// In a lawful plan no lorry carries more than its capacity at any step since its last load.
pub fn never_overloaded()
    ensures { IsNeverOverloaded }
{}

/// The bits of a label's served orders are the orders that its steps serve.
pub fn served_bits()
    ensures { HasServedBits }
{}

/// The bits of a number made of tests, as of a driver's forced orders, are the numbers at which the test holds.
pub fn test_bits()
    ensures { HasTestBits }
{}

/// A list of steps has one label.
pub fn one_label()
    ensures { HasOneLabel }
{}

/// The empty list of steps has a label that alone is a label list.
pub fn list_alone()
    ensures { IsListAlone }
{}

/// No label stands twice in a label list.
pub fn no_repeat()
    ensures { HasNoRepeat }
{}

/// No lawful duty inside that begins with some steps has a value below their completion bound; and the window of an order that
/// a later step serves closes no earlier than the steps end.
pub fn completions_are_bounded()
    ensures value { BoundsCompletions }
    ensures window { ServesInTime }
{}

/// A label list is no longer than the list of all labels that its driver can reach.
pub fn lists_stay_in_reach()
    ensures { ListsStayInReach }
{}

/// The least value of a driver, in cents, lies far within 2^40 either way.
pub fn least_values_are_small()
    ensures { LeastIsSmall }
{}

/// Twins, who are alike in capacity, fee, what stands before Monday and what is decided, have the same lawful steps, labels,
/// choices and least values.
pub fn twins_are_alike()
    ensures { TwinsAreAlike }
{}

/// A label list, a number of stored labels and a right answer of one twin are those of the other.
pub fn twins_share_label_lists()
    ensures lists { TwinsShareLists }
    ensures stored { TwinsStoreAlike }
    ensures answers { TwinsAnswerAlike }
{}

/// The answers that workers found who shared chunks of labels, and of whom each priced one driver for all of his twins, are a round.
pub fn shared_rounds_are_rounds()
    ensures { JoinedIsRound }
{}

/// Where workers who shared chunks of labels have ended, and one of them had to ask for a chunk past the last while all of his own
/// were full, any answer of the round may be that the labels are spent. So it is where a driver's list alone fills all chunks.
pub fn spent_seats_are_licensed()
    ensures joined { JoinedLicence }
    ensures lone { LoneLicence }
{}
