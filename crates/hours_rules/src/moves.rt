// How a clock moves on: a run ends, on-duty minutes go by, Off minutes go by.
ghost use Rattle.std.specs.Prelude.{◌≡◌, ◌≤◌, ◌<◌, ◌-◌, if◌then◌else◌, nat_le, ◌||◌, true, false, pos, ◌-ℤ◌};
ghost use Rattle.minute_line.specs.declared.debts.TheConstants.{REGULAR_WEEKLY_REST};
ghost use Rattle.hours_rules.specs.declared.thresholds.TheConstants.{FIRST_PART, SPLIT_REST};
ghost use Rattle.hours_rules.specs.Debts.{third_week_end};
ghost use Rattle.hours_rules.specs.Machine.{rest_here, weekly_here, break_here, long_here, reduced_here, paying_here, owing_here, run_ended, ticked, rested};
ghost use Rattle.hours_rules.specs.Bounds.{IsWithin};

use crate::Clock;
use crate::thresholds::{
    DAY_BEFORE_REST, DAY_DRIVE, FIRST_PART, FULL_BREAK, LONG_PAUSES, PAUSE, REGULAR_DAILY_REST,
    SECOND_PART, SPLIT_REST,
};
use minute_line::{Kind, Mark, REGULAR_WEEKLY_REST, WEEK_MINUTES};

/// `count` where the test holds, or else none.
#[inline]
fn if_so(test: bool, count: u32) -> u32
    ensures { result ≡ (if test then count else 0) }
{
    if test { count } else { 0 }
}

/// None where the test holds, or else `count`.
#[inline]
fn unless(test: bool, count: u32) -> u32
    ensures { result ≡ (if test then 0 else count) }
{
    if test { 0 } else { count }
}

/// The end of the third calendar week after the week of the minute before `at`, as a week minute.
#[inline]
fn third_week_end(at: u32) -> i32
    requires { at ≤ 100000 }
    ensures { result ≡ third_week_end (pos at -ℤ pos 1) }
{
    ((at.div_ceil(WEEK_MINUTES) + 3) * WEEK_MINUTES) as i32
}

impl Clock {
    /// Whether the open run, declared to be of this kind, ends as a rest.
    #[inline]
    fn ends_rest(&self, kind: Kind) -> bool
        ensures { result ≡ rest_here self.now kind }
    {
        self.off >= 1 && kind.is_rest()
    }

    /// Whether it ends as a weekly rest.
    #[inline]
    fn ends_weekly(&self, kind: Kind) -> bool
        ensures { result ≡ weekly_here self.now kind }
    {
        self.off >= 1 && kind.is_weekly()
    }

    /// Whether it ends as a full break: 45 minutes, or 30 after a first part of 15 (Art. 7).
    #[inline]
    fn ends_break(&self) -> bool
        ensures { result ≡ break_here self.now }
    {
        self.off >= FULL_BREAK || (self.off >= SECOND_PART && self.half)
    }

    /// Whether it ends a long day that counts: more than 540 Drive minutes, and the rest begins within the week.
    #[inline]
    fn ends_long(&self, kind: Kind) -> bool
        ensures { result ≡ long_here self.now kind }
    {
        self.ends_rest(kind) && self.drive_day > DAY_DRIVE && self.off < self.at
    }

    /// Whether it ends as a reduced daily rest: no run of 180 lies before it in its day, and it is shorter than 660 or
    /// begins after 780 minutes of the day (Art. 8(2)).
    #[inline]
    fn ends_reduced(&self, kind: Kind) -> bool
        requires { IsWithin 100000 self.now }
        ensures { result ≡ reduced_here self.now kind }
    {
        self.off >= 1
            && kind.is_daily()
            && !self.split
            && (self.off < REGULAR_DAILY_REST
                || self.at as i32 - self.day_from - self.off as i32 > DAY_BEFORE_REST as i32)
    }

    /// Whether it ends as a rest that pays what is owed: a regular daily or weekly rest that is longer by the debt (Art. 8(7)).
    #[inline]
    fn ends_paying(&self, kind: Kind) -> bool
        requires { IsWithin 100000 self.now }
        ensures { result ≡ paying_here self.now kind }
    {
        match kind {
            Kind::Plain => false,
            Kind::Daily => self.off >= REGULAR_DAILY_REST + self.owed,
            Kind::Weekly => self.off >= REGULAR_WEEKLY_REST + self.owed,
        }
    }

    /// Whether it ends as a reduced weekly rest where nothing is owed yet (Art. 8(6)).
    #[inline]
    fn ends_owing(&self, kind: Kind) -> bool
        ensures { result ≡ owing_here self.now kind }
    {
        self.ends_weekly(kind) && self.off < REGULAR_WEEKLY_REST && self.owed == 0
    }

    /// What is owed once it has ended.
    #[inline]
    fn owed_after(&self, paying: bool, owing: bool) -> u32
        requires { owing ≡ true → self.now.off < REGULAR_WEEKLY_REST }
        ensures { result ≡ (if paying then 0 else (if owing then REGULAR_WEEKLY_REST - self.now.off else self.now.owed)) }
    {
        if paying {
            0
        } else if owing {
            REGULAR_WEEKLY_REST - self.off
        } else {
            self.owed
        }
    }

    /// When that is due.
    #[inline]
    fn due_after(&self, paying: bool, owing: bool) -> i32
        requires { IsWithin 100000 self.now }
        ensures { result ≡ (if paying then pos 0 else (if owing then third_week_end (pos self.now.at -ℤ pos 1) else self.now.due)) }
    {
        if paying {
            0
        } else if owing {
            third_week_end(self.at)
        } else {
            self.due
        }
    }

    /// Where the work day begins, which is here after a rest.
    #[inline]
    fn day_start(&self, rest: bool) -> i32
        requires { IsWithin 100000 self.now }
        ensures { result ≡ (if rest then pos self.now.at else self.now.day_from) }
    {
        if rest { self.at as i32 } else { self.day_from }
    }

    /// Where the last weekly rest ended, which is here after one.
    #[inline]
    fn rest_start(&self, weekly: bool) -> i32
        requires { IsWithin 100000 self.now }
        ensures { result ≡ (if weekly then pos self.now.at else self.now.rest_from) }
    {
        if weekly {
            self.at as i32
        } else {
            self.rest_from
        }
    }

    /// The length of the last weekly rest, which may be the open run.
    #[inline]
    fn weekly_length(&self, weekly: bool) -> u32
        ensures { result ≡ (if weekly then self.now.off else self.now.prev_weekly) }
    {
        if weekly { self.off } else { self.prev_weekly }
    }

    /// Whether the driving period has a first part of 15, unless a full break ends it.
    #[inline]
    fn keeps_part(&self, full: bool) -> bool
        ensures { result ≡ (if full then false else (nat_le FIRST_PART self.now.off || self.now.half)) }
    {
        !full && (self.off >= FIRST_PART || self.half)
    }

    /// Whether the work day has a run of 180, unless a rest ends it.
    #[inline]
    fn keeps_split(&self, rest: bool) -> bool
        ensures { result ≡ (if rest then false else (nat_le SPLIT_REST self.now.off || self.now.split)) }
    {
        !rest && (self.off >= SPLIT_REST || self.split)
    }

    /// The clock once its open run, declared to be of this kind, has ended.
    #[inline(always)]
    pub(crate) fn end_run(&self, kind: Kind) -> Clock
        requires { IsWithin 100000 self.now }
        ensures { result ≡ run_ended self.now kind }
    {
        if self.off == 0 {
            return *self;
        }
        let rest = self.ends_rest(kind);
        let weekly = self.ends_weekly(kind);
        let full = self.ends_break();
        let long = self.ends_long(kind);
        let reduced = self.ends_reduced(kind);
        let part = self.off >= PAUSE;
        let paused = if_so(part, self.off) + self.pause_day;
        let paying = self.ends_paying(kind);
        let owing = self.ends_owing(kind);
        Clock {
            off: 0,
            day_from: self.day_start(rest),
            rest_from: self.rest_start(weekly),
            period: unless(full, self.period),
            half: self.keeps_part(full),
            drive_day: unless(rest, self.drive_day),
            long_days: if_so(long, 1) + self.long_days,
            split: self.keeps_split(rest),
            reduced: unless(weekly, if_so(reduced, 1) + self.reduced),
            prev_weekly: self.weekly_length(weekly),
            work_run: unless(part, self.work_run),
            work_day: unless(rest, self.work_day),
            pause_day: unless(rest, paused.min(LONG_PAUSES)),
            owed: self.owed_after(paying, owing),
            due: self.due_after(paying, owing),
            ..*self
        }
    }

    /// The clock after more on-duty minutes of one mark.
    #[inline]
    pub(crate) fn tick(&self, mark: Mark, minutes: u32) -> Clock
        requires within { IsWithin 100000 self.now }
        requires few { minutes ≤ 100000 }
        ensures { result ≡ ticked self.now mark minutes }
    {
        let driven = if_so(mark.is_drive(), minutes);
        let worked = if_so(mark.is_working(), minutes);
        Clock {
            at: self.at + minutes,
            period: driven + self.period,
            drive_day: driven + self.drive_day,
            drive_week: driven + self.drive_week,
            work_run: worked + self.work_run,
            work_day: worked + self.work_day,
            work_week: worked + self.work_week,
            ..*self
        }
    }

    /// The clock after more Off minutes.
    #[inline]
    pub(crate) fn add_off(&self, minutes: u32) -> Clock
        requires within { IsWithin 100000 self.now }
        requires few { minutes ≤ 100000 }
        ensures { result ≡ rested self.now minutes }
    {
        Clock {
            at: self.at + minutes,
            off: self.off + minutes,
            ..*self
        }
    }
}
