// What the definitions come to, in the words of the regulation: laws, whose functions do nothing.
ghost use Rattle.hours_rules.specs.Laws.{FortyFiveEnds, FifteenThenThirtyEnds, ThirtyThenFifteenGoesOn, FaultIsFirst, SpansBegin, DayFollowsRest};
ghost use Rattle.hours_rules.specs.Order.{OrderLasts, ReadyCatchesUp, LastKeepsLimits};

/// The law that an off run of 45 minutes always ends the driving period (Art. 7).
pub fn forty_five_ends_a_period()
    ensures { FortyFiveEnds }
{}

/// The law that 15 to 44 minutes and then 30 end the driving period (Art. 7).
pub fn fifteen_then_thirty_end_a_period()
    ensures { FifteenThenThirtyEnds }
{}

/// The law that 30 minutes and then 15 don't (Art. 7).
pub fn thirty_then_fifteen_end_none()
    ensures { ThirtyThenFifteenGoesOn }
{}

/// The law that a fault from a minute on is the least rule of the first minute from there on at which one fails, and that all
/// rules hold from there on where there is none.
pub fn fault_is_first()
    ensures { FaultIsFirst }
{}

/// The law that a span of a line begins at the last minute at which its test holds, or at the line's start, and that a line
/// which has a minute has one in its span.
pub fn spans_begin()
    ensures { SpansBegin }
{}

/// The law that the work day of a minute begins after the last daily or weekly rest that ended before it.
pub fn day_follows_rest()
    ensures { DayFollowsRest }
{}

/// The law that minutes which break no rule after a line break none after a line whose clock is as good.
pub fn order_lasts()
    ensures { OrderLasts }
{}

/// The law that Ready minutes bring an earlier clock that is as good to the later one's minute.
pub fn ready_catches_up()
    ensures { ReadyCatchesUp }
{}

/// The law that a clock is within the limits that are judged at any minute on duty, where its last minute was one and broke no rule.
pub fn last_keeps_limits()
    ensures { LastKeepsLimits }
{}
