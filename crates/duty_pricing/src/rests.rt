// Which rests are tried before an act: those that are long enough, until the last turn of the grid at which the act may start.
ghost use Rattle.std.specs.Prelude.{◌≡◌, ◌<◌, ◌≤◌, ◌+◌, ◌-◌, ◌*◌, ◌/◌, ℕ, false};
ghost use Rattle.minute_line.specs.declared.lines.TheConstants.{WEEK_MINUTES};
ghost use Rattle.hours_rules.specs.Rules.{least_rest};
ghost use Rattle.duty_plan.specs.Acts.{may_start};
ghost use Rattle.duty_pricing.specs.Asking.{IsAsked};
ghost use Rattle.duty_pricing.specs.Listing.{rest_stay};

use crate::asking::Asked;
use duty_plan::Act;
use hours_rules::{Clock, Stay, least_run};
use minute_line::{Kind, WEEK_MINUTES};

/// The listed rest of a kind from a week minute until another.
pub(crate) fn rest_stay(at: u32, kind: Kind, start: u32) -> Stay
    ensures { result ≡ rest_stay at kind start }
{
    Stay {
        ready: 0,
        off: start.saturating_sub(at),
        kind,
    }
}

/// The first turn of the grid until which a rest after a clock is long enough, with the off run that is open there.
pub(crate) fn first_turn(asked: &Asked, clock: &Clock, kind: Kind) -> u32
    requires asked { IsAsked asked.now }
    ensures { (turn : ℕ) → turn < result → clock.now.at ≤ turn * asked.now.case.now.week.grid →
        clock.now.off + (turn * asked.now.case.now.week.grid - clock.now.at) < least_rest kind clock.now.prev_weekly clock.now.owed }
{
    let shortest = least_run(kind, clock.prev_weekly, clock.owed);
    let end = clock.at.saturating_add(shortest.saturating_sub(clock.off));
    end.div_ceil(asked.case.week.grid)
}

/// How many turns of the grid have a minute at which an act may start.
pub(crate) fn turns(asked: &Asked, act: Act) -> u32
    requires asked { IsAsked asked.now }
    ensures closed { (turn : ℕ) → result ≤ turn → turn * asked.now.case.now.week.grid < WEEK_MINUTES →
        may_start asked.now.case.now.week act (turn * asked.now.case.now.week.grid) ≡ false }
    ensures most { result ≤ WEEK_MINUTES / asked.now.case.now.week.grid }
{
    let grid = asked.case.week.grid;
    let all = WEEK_MINUTES / grid;
    match act {
        Act::Serve(order) => match asked.case.week.orders.get(order as usize) {
            Some(order) => (order.closes / grid + 1).min(all),
            None => all,
        },
        Act::Leg(_) | Act::Load => all,
    }
}
