// When one clock is at least as good as another. The comparisons are joined with `&`, so that there is no branch: which of
// them fails is hard to foretell, and a branch that is foretold wrongly costs more than all the comparisons.
ghost use Rattle.std.specs.Prelude.{◌≡◌, ◌≤◌, ◌<◌, ◌≤ℤ◌, ◌↔◌, true};
ghost use Rattle.minute_line.specs.declared.debts.TheConstants.{REGULAR_WEEKLY_REST};
ghost use Rattle.hours_rules.specs.Order.{ClockDominates};

use crate::Clock;
use minute_line::REGULAR_WEEKLY_REST;

impl Clock {
    /// Whether this clock's work day began as late as another's, and its last weekly rest ended as late.
    #[inline(always)]
    fn began_as_late(&self, other: &Clock) -> bool
        ensures { result ≡ true ↔ (other.now.day_from ≤ℤ self.now.day_from) × (other.now.rest_from ≤ℤ self.now.rest_from) }
    {
        (self.day_from >= other.day_from) & (self.rest_from >= other.rest_from)
    }

    /// Whether it is no later than the other, and has no more driving and working minutes in each span.
    #[inline(always)]
    fn did_as_little(&self, other: &Clock) -> bool
        ensures { result ≡ true ↔ (self.now.at ≤ other.now.at)
            × (self.now.period ≤ other.now.period) × (self.now.drive_day ≤ other.now.drive_day)
            × (self.now.work_run ≤ other.now.work_run) × (self.now.work_day ≤ other.now.work_day)
            × (self.now.drive_week ≤ other.now.drive_week) × (self.now.work_week ≤ other.now.work_week) }
    {
        (self.at <= other.at)
            & (self.period <= other.period)
            & (self.drive_day <= other.drive_day)
            & (self.work_run <= other.work_run)
            & (self.work_day <= other.work_day)
            & (self.drive_week <= other.drive_week)
            & (self.work_week <= other.work_week)
    }

    /// Whether it has a first part of a break where the other has one and only there, as many breaks in its work day, as long
    /// a weekly rest behind it as the rules ask, and no more long days and reduced rests.
    #[inline(always)]
    fn rested_as_well(&self, other: &Clock) -> bool
        ensures { result ≡ true ↔ (self.now.half ≡ other.now.half)
            × (other.now.pause_day ≤ self.now.pause_day) × (other.now.split ≡ true → self.now.split ≡ true)
            × (self.now.long_days ≤ other.now.long_days) × (self.now.reduced ≤ other.now.reduced)
            × (REGULAR_WEEKLY_REST ≤ other.now.prev_weekly → REGULAR_WEEKLY_REST ≤ self.now.prev_weekly) }
    {
        (self.half == other.half)
            & (self.pause_day >= other.pause_day)
            & (self.split | !other.split)
            & (self.long_days <= other.long_days)
            & (self.reduced <= other.reduced)
            & ((self.prev_weekly >= REGULAR_WEEKLY_REST)
                | (other.prev_weekly < REGULAR_WEEKLY_REST))
    }

    /// Whether it owes no more than the other, and what it owes is due no sooner.
    #[inline(always)]
    fn owes_no_more(&self, other: &Clock) -> bool
        ensures { result ≡ true ↔ (self.now.owed ≤ other.now.owed) × (0 < self.now.owed → other.now.due ≤ℤ self.now.due) }
    {
        (self.owed <= other.owed) & ((self.owed == 0) | (self.due >= other.due))
    }

    /// Whether this clock is at least as good as another, which may be later: what breaks no rule after the other's line
    /// breaks none after its own.
    #[inline(always)]
    pub fn dominates(&self, other: &Clock) -> bool
        ensures { result ≡ true ↔ ClockDominates self.now other.now }
    {
        self.began_as_late(other)
            & self.did_as_little(other)
            & self.rested_as_well(other)
            & self.owes_no_more(other)
    }
}
