// Drivers who are alike, so that one of them is priced for all.
ghost use Rattle.std.specs.Prelude.{◌≡◌, ◌<◌, ◌↔◌, length, IsTrue};
ghost use Rattle.minute_line.specs.Histories.{fields_of};
ghost use Rattle.duty_plan.specs.Duties.{IsCase};
ghost use Rattle.duty_plan.specs.Twins.{AreAlikeDrivers};

use crate::plans::Case;
use minute_line::{History, Stint};
use week_book::Driver;

/// Whether the stints are equal.
fn are_same_stints(one: &[Stint], other: &[Stint]) -> bool
    ensures { IsTrue result ↔ (one.now ≡ other.now) }
{
    one == other
}

/// Whether the minutes of the weeks before are equal.
fn are_same_weeks(one: &[u32], other: &[u32]) -> bool
    ensures { IsTrue result ↔ (one.now ≡ other.now) }
{
    one == other
}

/// Whether the histories are equal in each field.
fn are_same_histories(one: &History, other: &History) -> bool
    ensures { IsTrue result ↔ (fields_of one.now ≡ fields_of other.now) }
{
    one.prev_weekly == other.prev_weekly
        && one.open_off == other.open_off
        && one.prev_drive == other.prev_drive
        && one.owed == other.owed
        && one.due == other.due
        && are_same_weeks(&one.work16, &other.work16)
        && are_same_stints(one.stints.stints.as_slice(), other.stints.stints.as_slice())
}

/// Whether the drivers' lorries carry the same, at the same fee.
fn have_same_lorries(one: &Driver, other: &Driver) -> bool
    ensures { IsTrue result ↔ ((one.now.capacity ≡ other.now.capacity) × (one.now.fee ≡ other.now.fee)) }
{
    one.capacity == other.capacity && one.fee == other.fee
}

/// Whether two drivers have equal capacities, fees and histories: they are alike in all but their names.
pub fn are_alike(case: &Case, one: u32, other: u32) -> bool
    requires case { IsCase case.now }
    requires one { one < length case.now.week.drivers }
    requires other { other < length case.now.week.drivers }
    ensures { IsTrue result ↔ AreAlikeDrivers case.now one other }
{
    let drivers = case.week.drivers.as_slice();
    let past = case.past.as_slice();
    have_same_lorries(&drivers[one as usize], &drivers[other as usize])
        && are_same_histories(&past[one as usize], &past[other as usize])
}
