// A week's line against the rules, and the clock of a history.
ghost use Rattle.std.specs.Prelude.{◌≡◌, ◌≤◌, ◌<◌, ◌^◌, sum, false, []};
ghost use Rattle.minute_line.specs.declared.lines.TheConstants.{PAST_LIMIT, WEEK_MINUTES};
ghost use Rattle.minute_line.specs.Minutes.{total_of};
ghost use Rattle.hours_rules.specs.Rules.{fault};
ghost use Rattle.hours_rules.specs.Standing.{Stands, IsClock};
ghost use Rattle.hours_rules.specs.Machine.{at_monday};
ghost use Rattle.hours_rules.specs.Bounds.{IsWithin};
ghost use Rattle.hours_rules.specs.Verdicts.{past_of, week_minutes, verdict_of};
ghost use Rattle.hours_rules.specs.Stints.{AnswersStint, StandsAfter, TakesKind};

use crate::going::on_duty;
use crate::{Broken, Clock, Verdict};
use minute_line::{History, Kind, Line, Stint, WEEK_MINUTES};

/// What the off run before the next stint is declared to be.
fn declared_after(stint: &Stint) -> Kind
    ensures { TakesKind stint.now result }
{
    if stint.mark.is_off() {
        stint.kind
    } else {
        Kind::Plain
    }
}

/// The clock after a stint that isn't judged.
fn pass(clock: &Clock, declared: Kind, stint: &Stint) -> Clock
    requires within { IsWithin 80000 clock.now }
    requires few { stint.now.minutes ≤ PAST_LIMIT }
    ensures { StandsAfter clock.now declared stint.now result }
{
    if stint.mark.is_off() {
        return clock.add_off(stint.minutes);
    }
    if stint.minutes == 0 {
        return *clock;
    }
    clock.end_run(declared).tick(stint.mark, stint.minutes)
}

/// The clock after a stint, or the first fault in it.
fn judged(clock: &Clock, declared: Kind, stint: &Stint) -> Result<Clock, Broken>
    requires within { IsWithin 80000 clock.now }
    requires few { stint.now.minutes ≤ 20000 }
    ensures { AnswersStint clock.now declared stint.now result }
{
    if stint.mark.is_off() {
        return Ok(clock.add_off(stint.minutes));
    }
    on_duty(clock, stint.mark, declared, stint.minutes)
}

/// The clock at Monday, of a line that was counted from its own start.
fn to_monday(clock: &Clock) -> Clock
    requires within { IsWithin 80000 clock.now }
    ensures { result ≡ at_monday clock.now }
{
    Clock {
        at: 0,
        day_from: clock.day_from - clock.at as i32,
        rest_from: clock.rest_from - clock.at as i32,
        long_days: 0,
        drive_week: 0,
        work_week: 0,
        ..*clock
    }
}

/// The sum of some weeks' minutes.
fn sum_of_weeks(weeks: &[u32]) -> u32
    requires { sum weeks.now < 2 ^ 32 }
    ensures { result ≡ sum weeks.now }
{
    weeks.iter().sum()
}

/// The clock of a history at Monday 00:00. It takes no memory, and time grows with the history's stints.
pub fn start(history: &History) -> Clock
    ensures line { Stands result (past_of history.now) [] }
    ensures clock { IsClock result }
{
    let mut clock = Clock {
        at: 0,
        off: 0,
        day_from: 0,
        rest_from: 0,
        period: 0,
        half: false,
        drive_day: 0,
        long_days: 0,
        split: false,
        reduced: 0,
        prev_weekly: history.prev_weekly,
        work_run: 0,
        work_day: 0,
        pause_day: 0,
        drive_week: 0,
        work_week: 0,
        prev_drive: history.prev_drive,
        work_before: sum_of_weeks(&history.work16),
        owed: history.owed,
        due: (history.due * WEEK_MINUTES) as i32,
    };
    let mut declared = Kind::Plain;
    for stint in history.stints.stints.as_slice() {
        clock = pass(&clock, declared, stint);
        declared = declared_after(stint);
    }
    let sunday = clock.add_off(history.open_off);
    to_monday(&sunday)
}

/// What the rules say of a week's line after a history: the first minute at which one fails, with the least rule there.
///
/// The line has at most 10,080 minutes, and what is missing is Off. It takes no memory, and time grows with the stints.
pub fn judge(history: &History, line: &Line) -> Verdict
    requires { total_of line.now.stints ≤ WEEK_MINUTES }
    ensures { result ≡ verdict_of (fault (past_of history.now) (week_minutes line.now)) }
{
    let mut clock = start(history);
    let mut declared = Kind::Plain;
    for stint in line.stints.as_slice() {
        match judged(&clock, declared, stint) {
            Ok(next) => clock = next,
            Err(broken) => return Verdict::Broken(broken),
        }
        declared = declared_after(stint);
    }
    Verdict::Lawful
}
