// The history and the week's line that a driver's rows say.
ghost use Rattle.std.specs.Prelude.{◌≡◌, ◌≤◌, ◌<◌, length, option_map, IfOk, IfSome};
ghost use Rattle.minute_line.specs.Answers.{Gives};
ghost use Rattle.minute_line.specs.Histories.{fields_of};
ghost use Rattle.minute_line.specs.Minutes.{total_of};
ghost use Rattle.week_book.specs.Pasts.{HasPastRows};
ghost use Rattle.driver_history.specs.declared.errors.HistoryError.TheVariants.{Memory as NoHistoryMemory};
ghost use Rattle.driver_history.specs.declared.errors.LineError.TheVariants.{Memory as NoLineMemory};
ghost use Rattle.driver_history.specs.Reading.{sum_fault, past_fault, history_said, by_rows, past_said, line_said};
ghost use Rattle.driver_history.specs.Finding.{ArePast, IsRestInRange, IsPastWorkingTime};

use crate::activities::{
    Activity, did_rows, find_late_weekly, find_second_off, minutes, past_rows, stints, trailing,
};
use crate::carrying::SinceWeeklyRest;
use crate::errors::{HistoryError, LineError};
use crate::rests::{Rest, Worked, find_rest, find_worked};
use minute_line::{History, Line, Many, Name, PAST_LIMIT, WEEK_MINUTES};
use std::alloc::Global;
use week_book::Row;

/// What the minutes of past rows say against a history.
fn find_sum_fault(rest: &Rest, activities: &[Activity]) -> Option<HistoryError>
    requires rest { IsRestInRange rest.now }
    requires activities { ArePast activities.now }
    ensures { result ≡ sum_fault rest.now activities.now }
{
    let sum = minutes(activities);
    let needed = rest.minutes_to_monday();
    if sum != needed {
        return Some(HistoryError::NotToMonday(sum, needed));
    }
    let before = sum - trailing(activities);
    if before > PAST_LIMIT as u64 {
        return Some(HistoryError::OverLong(before));
    }
    None
}

/// Why past rows make no history after a rest: the first cause in its order.
fn find_past_fault(rest: &Rest, activities: &[Activity]) -> Option<HistoryError>
    requires rest { IsRestInRange rest.now }
    requires activities { ArePast activities.now }
    ensures { result ≡ past_fault rest.now activities.now }
{
    if let Some(row) = find_late_weekly(activities) {
        return Some(HistoryError::LateWeekly(row));
    }
    if let Some(row) = find_second_off(activities) {
        return Some(HistoryError::TwoOffs(row));
    }
    find_sum_fault(rest, activities)
}

/// The history of a driver with a rest row and a worked row.
fn history_after(
    alloc: Global,
    rest: &Rest,
    worked: &Worked,
    activities: &[Activity],
) -> Result<History, HistoryError>
    requires rest { IsRestInRange rest.now }
    requires worked { IsPastWorkingTime worked.now }
    requires activities { ArePast activities.now }
    ensures { Gives NoHistoryMemory fields_of result (history_said rest.now worked.now activities.now) }
{
    match find_past_fault(rest, activities) {
        Some(fault) => return Err(fault),
        None => {}
    }
    let past = stints(alloc, activities)?;
    let left = SinceWeeklyRest::after(alloc, rest.length()).carry_all(alloc, &past)?;
    let history = left.into_history(worked.last_week(), worked.sixteen_weeks())?;
    Ok(history.with_rest_debt(rest.length(), rest.minutes_to_monday()))
}

/// The history of a driver with these rows, or none where there is no row.
fn history_by_rows(
    alloc: Global,
    rest: Option<Rest>,
    worked: Option<Worked>,
    activities: &[Activity],
) -> Result<Option<History>, HistoryError>
    requires rest { IfSome rest IsRestInRange }
    requires worked { IfSome worked IsPastWorkingTime }
    requires activities { ArePast activities.now }
    ensures { Gives NoHistoryMemory (option_map fields_of) result (by_rows rest worked activities.now) }
{
    match (rest, worked) {
        (None, None) if activities.is_empty() => Ok(None),
        (None, _) => Err(HistoryError::NoRest),
        (Some(_), None) => Err(HistoryError::NoWorked),
        (Some(rest), Some(worked)) => Ok(Some(history_after(alloc, &rest, &worked, activities)?)),
    }
}

/// The history that the rows say of a driver, or none where the driver has no rest row, worked row or past row.
pub fn read_past(
    alloc: Global,
    rows: &Many<Row>,
    driver: &Name,
) -> Result<Option<History>, HistoryError>
    requires { HasPastRows rows.now }
    ensures { Gives NoHistoryMemory (option_map fields_of) result (past_said driver.now rows.now) }
{
    let rows = rows.as_slice();
    let name = driver.as_slice();
    let activities = past_rows(alloc, rows, name)?;
    let rest = find_rest(rows, name);
    let worked = find_worked(rows, name);
    history_by_rows(alloc, rest, worked, &activities)
}

/// The line of the week that the did rows of a driver say, one stint a row. It has at most the week's 10,080 minutes.
pub fn read_line(alloc: Global, rows: &Many<Row>, driver: &Name) -> Result<Line, LineError>
    requires { HasPastRows rows.now }
    ensures said { Gives NoLineMemory (λ line. line.stints) result (line_said driver.now rows.now) }
    ensures week { IfOk result (λ line. total_of line.stints ≤ WEEK_MINUTES) }
{
    let activities = did_rows(alloc, rows.as_slice(), driver.as_slice())?;
    match find_second_off(&activities) {
        Some(row) => return Err(LineError::TwoOffs(row)),
        None => {}
    }
    let sum = minutes(&activities);
    if sum > WEEK_MINUTES as u64 {
        return Err(LineError::TooLong(sum));
    }
    Ok(Line {
        stints: Many::from_vec(stints(alloc, &activities)?),
    })
}
