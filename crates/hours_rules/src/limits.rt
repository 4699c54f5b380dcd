// How many on-duty minutes the rules let follow a clock, and which rule fails at the next one.
ghost use Rattle.std.specs.Prelude.{◌≡◌, ◌+◌, ◌-◌, ◌^◌, ◌≤◌, ◌<◌, ◌≤ℤ◌, ◌+ℤ◌, pos, nat_lt, min, if◌then◌else◌};
ghost use Rattle.hours_rules.specs.Machine.{room, short_here, debt_room, limit_if, left_until, least_room, fault_after, fault_within, IsDutyRoom, work_room, drive_room};
ghost use Rattle.hours_rules.specs.Rules.{least_rest, all_rules};
ghost use Rattle.hours_rules.specs.declared.thresholds.TheConstants.{BRIEFLY_PAUSED_WORK, DAY_DRIVE, DAY_LENGTH, LONG_DAY_DRIVE, LONG_DAYS, LONG_PAUSES, SEVENTEEN_WEEKS_WORK, SHORT_PAUSES, UNPAUSED_WORK, WEEK_WORK, WEEKLY_SPAN};
ghost use Rattle.hours_rules.specs.Bounds.{IsWithin};

use crate::thresholds::{
    BRIEFLY_PAUSED_WORK, DAILY_REST, DAY_DRIVE, DAY_LENGTH, FORTNIGHT_DRIVE, LONG_DAY_DRIVE,
    LONG_DAYS, LONG_PAUSES, PERIOD_DRIVE, REDUCED_RESTS, REGULAR_DAILY_REST, SEVENTEEN_WEEKS_WORK,
    SHORT_PAUSES, UNPAUSED_WORK, WEEK_DRIVE, WEEK_WORK, WEEKLY_SPAN,
};
use crate::{Broken, Clock, Rule};
use minute_line::{Kind, Mark, REGULAR_WEEKLY_REST, WEEKLY_REST};

/// More minutes than a week has: the room by a rule that does not judge such minutes.
const UNLIMITED: u32 = 20000;

/// The rules in the order in which they are named.
const RULES: [Rule; 12] = [
    Rule::H1,
    Rule::H2,
    Rule::H3,
    Rule::H4,
    Rule::H5,
    Rule::H6,
    Rule::H7,
    Rule::H8,
    Rule::H9,
    Rule::H10,
    Rule::H11,
    Rule::H12,
];

/// How many minutes an off run that is declared so must have, after a weekly rest of so many minutes and where so many are owed
/// (Art. 4, 8(6)).
#[inline]
pub fn least_run(kind: Kind, weekly: u32, owed: u32) -> u32
    ensures { result ≡ least_rest kind weekly owed }
{
    match kind {
        Kind::Plain => 0,
        Kind::Daily => DAILY_REST,
        Kind::Weekly if weekly < REGULAR_WEEKLY_REST || owed > 0 => REGULAR_WEEKLY_REST,
        Kind::Weekly => WEEKLY_REST,
    }
}

/// A limit that stands only where the test holds.
fn limit_if(test: bool, limit: u32) -> u32
    ensures { result ≡ limit_if test limit }
{
    if test { limit } else { UNLIMITED }
}

/// How many minutes are left until so many from where a span began.
#[inline]
fn left_until(limit: u32, from: i32, at: u32) -> u32
    requires limit { limit ≤ 10000 }
    requires at { at ≤ 100000 }
    requires low { pos 0 ≤ℤ (from +ℤ pos 200000) }
    requires high { from ≤ℤ pos 200000 }
    ensures { result ≡ left_until limit from at }
{
    let used = at as i32 - from;
    if used <= limit as i32 {
        (limit as i32 - used).unsigned_abs()
    } else {
        0
    }
}

impl Clock {
    /// How many minutes are left of the first 900 of the work day.
    #[inline]
    fn day_left(&self) -> u32
        requires { IsWithin 100000 self.now }
        ensures { result ≡ left_until DAY_LENGTH self.now.day_from self.now.at }
    {
        left_until(DAY_LENGTH, self.day_from, self.at)
    }

    /// How many minutes are left of the first 8,640 after the last weekly rest.
    #[inline]
    fn rest_left(&self) -> u32
        requires { IsWithin 100000 self.now }
        ensures { result ≡ left_until WEEKLY_SPAN self.now.rest_from self.now.at }
    {
        left_until(WEEKLY_SPAN, self.rest_from, self.at)
    }

    /// How many Drive minutes are left of the work day: 540, or 600 on two days of the week.
    #[inline]
    fn drive_left(&self) -> u32
        ensures { result ≡ (if nat_lt self.now.long_days LONG_DAYS then LONG_DAY_DRIVE else DAY_DRIVE) - self.now.drive_day }
    {
        let limit = if self.long_days < LONG_DAYS {
            LONG_DAY_DRIVE
        } else {
            DAY_DRIVE
        };
        limit.saturating_sub(self.drive_day)
    }

    /// How many working minutes are left of the week, and of the four months.
    #[inline]
    fn work_left(&self) -> u32
        requires { IsWithin 100000 self.now }
        ensures { result ≡ min (WEEK_WORK - self.now.work_week) (SEVENTEEN_WEEKS_WORK - (self.now.work_week + self.now.work_before)) }
    {
        let four_months = SEVENTEEN_WEEKS_WORK.saturating_sub(self.work_week + self.work_before);
        WEEK_WORK.saturating_sub(self.work_week).min(four_months)
    }

    /// How many working minutes are left until the work day wants more pauses than it has.
    #[inline]
    fn pause_left(&self) -> u32
        ensures { result ≡ limit_if (nat_lt self.now.pause_day LONG_PAUSES) ((if nat_lt self.now.pause_day SHORT_PAUSES then UNPAUSED_WORK else BRIEFLY_PAUSED_WORK) - self.now.work_day) }
    {
        if self.pause_day >= LONG_PAUSES {
            return UNLIMITED;
        }
        let limit = if self.pause_day < SHORT_PAUSES {
            UNPAUSED_WORK
        } else {
            BRIEFLY_PAUSED_WORK
        };
        limit.saturating_sub(self.work_day)
    }

    /// Whether the open run is too short for what it is declared to be.
    #[inline]
    fn is_short(&self, kind: Kind) -> bool
        ensures { result ≡ short_here self.now kind }
    {
        self.off >= 1 && self.off < least_run(kind, self.prev_weekly, self.owed)
    }

    /// How many minutes are left until the last one at which a rest that pays what is owed can begin: one of 660 minutes and
    /// the debt, which is to end by the time when it is due (Art. 8(6), 8(7)).
    #[inline]
    fn debt_left(&self) -> u32
        requires { IsWithin 100000 self.now }
        ensures { result ≡ debt_room self.now }
    {
        if self.owed == 0 {
            return UNLIMITED;
        }
        let last = self.due - (REGULAR_DAILY_REST + self.owed) as i32;
        UNLIMITED.min(left_until(0, last, self.at))
    }

    /// How many on-duty minutes of one mark may follow by one rule, where `ended` is this clock once its run has ended.
    fn room(&self, ended: &Clock, mark: Mark, kind: Kind, rule: Rule) -> u32
        requires within { IsWithin 100000 ended.now }
        ensures { result ≡ room self.now ended.now mark kind rule }
    {
        let drive = mark.is_drive();
        let working = mark.is_working();
        match rule {
            Rule::H1 => limit_if(drive, PERIOD_DRIVE.saturating_sub(ended.period)),
            Rule::H2 => limit_if(drive, ended.drive_left()),
            Rule::H3 => ended.day_left(),
            Rule::H4 => limit_if(ended.reduced > REDUCED_RESTS, 0),
            Rule::H5 => limit_if(self.is_short(kind), 0),
            Rule::H6 => ended.rest_left(),
            Rule::H7 => limit_if(drive, WEEK_DRIVE.saturating_sub(ended.drive_week)),
            Rule::H8 => limit_if(
                drive,
                FORTNIGHT_DRIVE.saturating_sub(ended.drive_week + ended.prev_drive),
            ),
            Rule::H9 => limit_if(working, ended.work_left()),
            Rule::H10 => limit_if(working, UNPAUSED_WORK.saturating_sub(ended.work_run)),
            Rule::H11 => limit_if(working, ended.pause_left()),
            Rule::H12 => ended.debt_left(),
        }
    }

    /// How many on-duty minutes the rules allow that are judged at each of them: H3 to H6, and H12.
    #[inline]
    fn duty_room(&self, ended: &Clock, kind: Kind) -> u32
        requires within { IsWithin 100000 ended.now }
        ensures { IsDutyRoom self.now ended.now kind result }
    {
        if ended.reduced > REDUCED_RESTS || self.is_short(kind) {
            return 0;
        }
        ended
            .day_left()
            .min(ended.rest_left())
            .min(ended.debt_left())
    }

    /// How many working minutes the rules on working time allow: H9 to H11.
    #[inline]
    fn work_room(&self) -> u32
        requires { IsWithin 100000 self.now }
        ensures { result ≡ work_room self.now }
    {
        self.work_left()
            .min(UNPAUSED_WORK.saturating_sub(self.work_run))
            .min(self.pause_left())
    }

    /// How many Drive minutes the rules on driving allow: H1, H2, H7 and H8.
    #[inline]
    fn drive_room(&self) -> u32
        requires { IsWithin 100000 self.now }
        ensures { result ≡ drive_room self.now }
    {
        let week = WEEK_DRIVE.saturating_sub(self.drive_week);
        let fortnight = FORTNIGHT_DRIVE.saturating_sub(self.drive_week + self.prev_drive);
        PERIOD_DRIVE
            .saturating_sub(self.period)
            .min(self.drive_left())
            .min(week)
            .min(fortnight)
    }

    /// How many of some on-duty minutes all rules allow.
    #[inline]
    fn least_room(&self, ended: &Clock, mark: Mark, kind: Kind, minutes: u32) -> u32
        requires within { IsWithin 100000 ended.now }
        requires few { minutes ≤ 20000 }
        ensures { result ≡ least_room (room self.now ended.now mark kind) minutes all_rules }
    {
        let duty = minutes.min(self.duty_room(ended, kind));
        if !mark.is_working() {
            return duty;
        }
        let work = duty.min(ended.work_room());
        if !mark.is_drive() {
            return work;
        }
        work.min(ended.drive_room())
    }

    /// The least rule that allows no more than so many minutes, with the minute that they lead to.
    #[cold]
    fn fault_after(&self, ended: &Clock, mark: Mark, kind: Kind, least: u32) -> Option<Broken>
        requires within { IsWithin 100000 ended.now }
        requires end { self.now.at + least < 2 ^ 32 }
        ensures { result ≡ fault_after (room self.now ended.now mark kind) self.now.at least }
    {
        for rule in RULES.iter() {
            if self.room(ended, mark, kind, *rule) <= least {
                return Some(Broken {
                    rule: *rule,
                    minute: self.at + least,
                });
            }
        }
        None
    }

    /// The first fault in some on-duty minutes.
    #[inline]
    pub(crate) fn first_fault(
        &self,
        ended: &Clock,
        mark: Mark,
        kind: Kind,
        minutes: u32,
    ) -> Option<Broken>
        requires within { IsWithin 100000 ended.now }
        requires at { self.now.at ≤ 100000 }
        requires few { minutes ≤ 20000 }
        ensures { result ≡ fault_within (room self.now ended.now mark kind) self.now.at minutes }
    {
        let least = self.least_room(ended, mark, kind, minutes);
        if minutes <= least {
            return None;
        }
        self.fault_after(ended, mark, kind, least)
    }
}
