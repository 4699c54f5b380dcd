//! The hours rules: a clock that stands for a line of minutes, and the judge of a week. All times are whole minutes; a
//! week minute counts from Monday 00:00 UTC.
#![tactic(auto)]

mod clocks;
mod comparing;
mod going;
mod judging;
mod laws;
mod limits;
mod moves;
#[cfg(test)]
mod plain;
mod rules;
#[cfg(test)]
mod tests;
mod thresholds;

pub use clocks::{Clock, Stay};
pub use going::go;
pub use judging::{judge, start};
pub use laws::{
    day_follows_rest, fault_is_first, fifteen_then_thirty_end_a_period, forty_five_ends_a_period,
    last_keeps_limits, order_lasts, ready_catches_up, spans_begin, thirty_then_fifteen_end_none,
};
pub use limits::least_run;
pub use rules::{Broken, Rule, Verdict, number};
pub use thresholds::{
    BRIEFLY_PAUSED_WORK, DAILY_REST, DAY_BEFORE_REST, DAY_DRIVE, DAY_LENGTH, FIRST_PART,
    FORTNIGHT_DRIVE, FULL_BREAK, LONG_DAY_DRIVE, LONG_DAYS, LONG_PAUSES, PAUSE, PERIOD_DRIVE,
    REDUCED_RESTS, REGULAR_DAILY_REST, SECOND_PART, SEVENTEEN_WEEKS_WORK, SHORT_PAUSES, SPLIT_REST,
    UNPAUSED_WORK, WEEK_DRIVE, WEEK_WORK, WEEKLY_SPAN,
};
