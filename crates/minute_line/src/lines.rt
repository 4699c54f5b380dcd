// The stints of a week, and what a driver brings into it.
ghost use Rattle.std.specs.Prelude.{◌≡◌, ◌≤◌, ◌-◌, true, false, length};
ghost use Rattle.minute_line.specs.declared.debts.TheConstants.{REGULAR_WEEKLY_REST, WEEKLY_REST};
ghost use Rattle.minute_line.specs.declared.lines.TheConstants.{PAST_LIMIT, WEEK_MINUTES};
ghost use Rattle.minute_line.specs.Minutes.{total_of};
ghost use Rattle.minute_line.specs.Stints.{is_line, is_past, all_up_to};

use crate::many::Many;
use crate::marks::Stint;

/// The minutes of a week.
pub const WEEK_MINUTES: u32 = 10_080;
/// The most minutes of the stints of a history, and of its open off run: two weeks.
pub const PAST_LIMIT: u32 = 20_160;

/// The stints of a driver's week, one after another from Monday 00:00; what is missing at its end is Off.
///
/// No two neighbours are Off, an on-duty stint is Plain, and each has at least one minute. The first stint alone may
/// be Off with 0 minutes: it declares the kind of the off run that was open on Monday.
#[derive(Drop)]
pub struct Line {
    pub stints: Many<Stint>,
    pub ghost shape: { is_line stints ≡ true },
}

/// What stands before a driver's Monday, from the end of the last weekly rest on.
#[derive(Drop)]
pub struct History {
    /// The minutes of that weekly rest, 1,440 to 1,000,000.
    pub prev_weekly: u32,
    /// The stints after it, at most 20,160 minutes, up to the last on-duty minute. None is Weekly.
    pub stints: Line,
    /// The minutes of the off run that is open on Monday 00:00, held at 20,160.
    pub open_off: u32,
    /// Last week's Drive minutes, at most 10,080.
    pub prev_drive: u32,
    /// The working minutes of the sixteen weeks before, the oldest first, each at most 10,080.
    pub work16: [u32; 16],
    /// The minutes of rest that the driver owes for a reduced weekly rest, at most 1,260 (Art. 8(6)).
    pub owed: u32,
    /// The end of the week by which they are due, in weeks from Monday, at most 3, and 0 where none are owed.
    pub due: u32,
    pub ghost rest: { (WEEKLY_REST ≤ prev_weekly) × (prev_weekly ≤ 1000000) },
    pub ghost shape: { is_past false stints.stints ≡ true },
    pub ghost total: { total_of stints.stints ≤ PAST_LIMIT },
    pub ghost run: { open_off ≤ PAST_LIMIT },
    pub ghost drive: { prev_drive ≤ WEEK_MINUTES },
    pub ghost sixteen: { length work16 ≡ 16 },
    pub ghost weeks: { all_up_to WEEK_MINUTES work16 ≡ true },
    pub ghost debt: { owed ≤ REGULAR_WEEKLY_REST - WEEKLY_REST },
    pub ghost deadline: { due ≤ 3 },
    pub ghost no_debt: { owed ≡ 0 → due ≡ 0 },
}
