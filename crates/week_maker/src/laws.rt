// Laws on made weeks, whose functions do nothing.
ghost use Rattle.std.specs.Prelude.{ℕ};
ghost use Rattle.week_maker.specs.Ranges.{IsWeekInRange};
ghost use Rattle.week_maker.specs.Stamps.{IsWeekReadBack};

/// The law that the week of each seed has 148 rows, legs of 30 to 179 minutes to the depot and of 20 to 79 between places, and orders
/// that one driver can load, whose windows open before they close, on one of five days.
pub fn made_weeks_are_in_range()
    ensures { (seed : ℕ) → IsWeekInRange seed }
{}

/// The law that the week begins on a Monday, that the stamps of each order are read as the minutes of its window,
/// and that the drivers' rest ended 2880 minutes before.
pub fn made_stamps_are_read_back()
    ensures { (seed : ℕ) → IsWeekReadBack seed }
{}
