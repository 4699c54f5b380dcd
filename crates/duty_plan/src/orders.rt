// How often an order stands in a plan.
ghost use Rattle.std.specs.Prelude.{◌≡◌, ◌<◌, ◌≤◌, length, reverse};
ghost use Rattle.week_book.specs.Weeks.{IsWeek};
ghost use Rattle.duty_plan.specs.Acts.{serves_order};
ghost use Rattle.duty_plan.specs.PartialDuties.{serves};
ghost use Rattle.duty_plan.specs.Duties.{EachOf, carried, times_placed, price_of, times, worth};
ghost use Rattle.duty_plan.specs.Verdicts.{first_twice, first_lost};
ghost use Rattle.duty_plan.specs.DutyChecks.{ServesOnce};

use crate::duties::{Act, Duty, Step};
use crate::plans::Plan;
use week_book::Week;

/// Whether the act serves the order.
fn is_service(act: Act, order: u32) -> bool
    ensures { result ≡ serves_order order act }
{
    match act {
        Act::Serve(served) => order == served,
        Act::Leg(_) | Act::Load => false,
    }
}

/// Whether a step serves the order.
pub fn serves(steps: &[Step], order: u32) -> bool
    ensures { result ≡ serves order (reverse steps.now) }
{
    for step in steps {
        if is_service(step.act, order) {
            return true;
        }
    }
    false
}

/// How many of the duties serve the order, each at most once.
fn times_served(duties: &[Duty], order: u32) -> u64
    requires few { length duties.now ≤ 16 }
    requires once { EachOf ServesOnce duties.now }
    ensures times { result ≡ times order (carried duties.now) }
    ensures few { result ≤ 16 }
{
    let mut count = 0;
    for duty in duties {
        count += u64::from(serves(duty.steps.as_slice(), order));
    }
    count
}

/// How often the order is given away.
fn times_out(out: &[u32], order: u32) -> u64
    ensures times { result ≡ times order out.now }
    ensures few { result ≤ length out.now }
{
    let mut count = 0;
    for other in out {
        count += u64::from(order == *other);
    }
    count
}

/// In how many places the order is.
fn places(plan: &Plan, order: u32) -> u64
    requires few { length plan.now.duties ≤ 16 }
    requires once { EachOf ServesOnce plan.now.duties }
    ensures { result ≡ times_placed plan.now order }
{
    times_served(plan.duties.as_slice(), order) + times_out(plan.out.as_slice(), order)
}

/// The first order in two places or more.
pub(crate) fn twice(week: &Week, plan: &Plan) -> Option<u32>
    requires week { IsWeek week.now }
    requires few { length plan.now.duties ≤ 16 }
    requires once { EachOf ServesOnce plan.now.duties }
    ensures { result ≡ first_twice week.now plan.now }
{
    for order in 0..week.orders.len() as u32 {
        if places(plan, order) >= 2 {
            return Some(order);
        }
    }
    None
}

/// The first order in no place.
pub(crate) fn lost(week: &Week, plan: &Plan) -> Option<u32>
    requires week { IsWeek week.now }
    requires few { length plan.now.duties ≤ 16 }
    requires once { EachOf ServesOnce plan.now.duties }
    ensures { result ≡ first_lost week.now plan.now }
{
    for order in 0..week.orders.len() as u32 {
        if places(plan, order) == 0 {
            return Some(order);
        }
    }
    None
}

/// What subcontractors take for an order.
fn price(week: &Week, order: u32) -> u64
    requires week { IsWeek week.now }
    ensures price { result ≡ price_of week.now order }
    ensures bound { result ≤ 100000000 }
{
    match week.orders.get(order as usize) {
        Some(order) => order.price,
        None => 0,
    }
}

/// What subcontractors take for the orders that are given away.
pub(crate) fn price_of_all(week: &Week, out: &[u32]) -> u64
    requires week { IsWeek week.now }
    requires few { length out.now ≤ 120 }
    ensures worth { result ≡ worth (price_of week.now) out.now }
    ensures bound { result ≤ 12000000000 }
{
    let mut cents = 0;
    for order in out {
        cents += price(week, *order);
    }
    cents
}
