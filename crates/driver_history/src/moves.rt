// A history moved on by a judged week, and by idle weeks.
ghost use Rattle.std.specs.Prelude.{◌≡◌, ◌+◌, ◌≤◌, ◌<◌, ◌^◌, ◌++◌, ◌∷◌, [], drop, None, IfOk};
ghost use Rattle.minute_line.specs.Minutes.{total_of};
ghost use Rattle.minute_line.specs.Histories.{fields_of};
ghost use Rattle.hours_rules.specs.Rules.{fault};
ghost use Rattle.hours_rules.specs.Verdicts.{past_of, week_minutes};
ghost use Rattle.driver_history.specs.Advancing.{drive_total, work_total, left_of, advance_of, idle_of};
ghost use Rattle.driver_history.specs.Owing.{owed_left};
ghost use Rattle.driver_history.specs.Keeping.{seen};

use crate::carrying::SinceWeeklyRest;
use crate::owing::{Owed, Owing};
use minute_line::{History, Kind, Line, Many, Memory, Stint, WEEK_MINUTES, copy_history};
use std::alloc::Global;

/// The minutes of some stints.
fn total(stints: &[Stint]) -> u32
    requires { total_of stints.now < 2 ^ 32 }
    ensures { result ≡ total_of stints.now }
{
    stints.iter().map(|stint| stint.minutes).sum()
}

/// The Drive minutes of some stints.
fn drive(stints: &[Stint]) -> u32
    requires { drive_total stints.now < 2 ^ 32 }
    ensures { result ≡ drive_total stints.now }
{
    stints
        .iter()
        .map(|stint| if stint.mark.is_drive() {
            stint.minutes
        } else {
            0
        })
        .sum()
}

/// The working minutes of some stints.
fn work(stints: &[Stint]) -> u32
    requires { work_total stints.now < 2 ^ 32 }
    ensures { result ≡ work_total stints.now }
{
    stints
        .iter()
        .map(|stint| if stint.mark.is_working() {
            stint.minutes
        } else {
            0
        })
        .sum()
}

/// The sixteen weeks after one more: the oldest falls away.
fn later(weeks: &[u32; 16], last: u32) -> [u32; 16]
    ensures { result ≡ drop 1 weeks.now ++ last ∷ [] }
{
    let [_, b, c, d, e, f, g, h, i, j, k, l, m, n, o, p] = *weeks;
    [b, c, d, e, f, g, h, i, j, k, l, m, n, o, p, last]
}

/// What is left of the line of a history and a week.
fn left_after(alloc: Global, history: &History, line: &[Stint]) -> Result<SinceWeeklyRest, Memory>
    requires { total_of line.now ≤ WEEK_MINUTES }
    ensures { IfOk result (λ left. seen left ≡ left_of (fields_of history.now) line.now) }
{
    let past = SinceWeeklyRest::after(alloc, history.prev_weekly).carry_all(
        alloc,
        history.stints.stints.as_slice(),
    )?;
    let monday = past.rest(history.open_off, Kind::Plain);
    let week = monday.carry_all(alloc, line)?;
    Ok(week.rest(WEEK_MINUTES - total(line), Kind::Plain))
}

/// The debt where the line begins that is left of a history and a week.
fn owed_after(history: &History, line: &[Stint]) -> Owed
    requires { total_of line.now ≤ WEEK_MINUTES }
    ensures { result ≡ owed_left (fields_of history.now) line.now }
{
    let begun = Owed {
        owed: history.owed,
        due: history.due,
    };
    let past = Owing::from_start(begun).carry_all(history.stints.stints.as_slice());
    let week = past.on_monday(history.open_off).carry_all(line);
    week.begun
}

/// The history after a week that was judged lawful, or want of memory; the old history is read alone.
///
/// It states what is left of the old history's line and the week's, with Off to the week's end, after the last weekly rest that
/// ended in the week, or all of it where none ended. The Off at its end is the open run, held at 20,160 minutes; on-duty stints of
/// one mark that stand side by side are joined. What is owed is the debt where that line begins, due in weeks from the next Monday
/// on. So the next week is judged as after the whole line (`advance_lasts`).
pub fn advance(alloc: Global, history: &History, line: &Line) -> Result<History, Memory>
    requires total { total_of line.now.stints ≤ WEEK_MINUTES }
    requires lawful { fault (past_of history.now) (week_minutes line.now) ≡ None }
    ensures { IfOk result (λ next. fields_of next ≡ advance_of (fields_of history.now) line.now.stints) }
{
    let week = line.stints.as_slice();
    let left = left_after(alloc, history, week)?;
    let next = left.into_history(drive(week), later(&history.work16, work(week)))?;
    let owed = owed_after(history, week);
    Ok(next.with_debt(owed.owed, owed.weeks_from_next_monday()))
}

/// The line of a week in which nothing is done.
fn idle_line(alloc: Global) -> Line
    ensures { result.stints ≡ [] }
{
    Line {
        stints: Many::new(alloc),
    }
}

/// The history after a week in which nothing is done.
fn idle_week(alloc: Global, history: &History) -> Result<History, Memory>
    ensures { IfOk result (λ next. fields_of next ≡ advance_of (fields_of history.now) []) }
{
    let line = idle_line(alloc);
    advance(alloc, history, &line)
}

/// The history after so many weeks in which nothing is done, or want of memory. More than sixteen give what sixteen give, so the
/// work does not grow past them.
pub fn idle(alloc: Global, history: &History, weeks: u32) -> Result<History, Memory>
    ensures { IfOk result (λ next. fields_of next ≡ idle_of weeks (fields_of history.now)) }
{
    let mut now = copy_history(alloc, history)?;
    for _ in 0..weeks.min(16) {
        now = idle_week(alloc, &now)?;
    }
    Ok(now)
}
