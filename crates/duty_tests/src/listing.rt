// The trips of the week of three orders, one by one: a load, the leg to P, up to two services and the leg back. The first stay is
// of any kind, and each stay but the last, which is none, is one of those that leave time for a service. Whatever else a duty does
// costs no less, and serves no other orders.
ghost use Rattle.std.specs.Prelude.{◌<◌, length};
ghost use Rattle.duty_plan.specs.Duties.{IsCase};

use duty_plan::{Act, Case, Duty, Pair, Step, check_duty};
use duty_pricing::Found;
use hours_rules::Stay;
use minute_line::{Kind, Many, Memory};
use std::alloc::Global;

/// So many trips: nine first stays, three stays before the leg and before each service, and an order or none in each of two places.
const TRIPS: u32 = 3888;

/// The number of no order.
const NO_ORDER: u32 = 3;

/// What is decided of three orders, and their prices.
#[derive(Clone, Copy, Debug)]
pub(crate) struct Offer {
    pub(crate) pairs: [Pair; 3],
    pub(crate) cents: [u32; 3],
}

fn minutes(number: u32) -> u32 {
    match number % 3 {
        0 => 0,
        1 => 15,
        _ => 30,
    }
}

fn kind(number: u32) -> Kind {
    match number % 3 {
        0 => Kind::Weekly,
        1 => Kind::Daily,
        _ => Kind::Plain,
    }
}

fn step(off: u32, kind: Kind, act: Act) -> Step {
    let ready = 0;
    Step {
        stay: Stay { ready, off, kind },
        act,
    }
}

/// Adds the service of an order, where it is one.
fn push_service(steps: &mut Many<Step>, off: u32, order: u32) -> Result<(), Memory> {
    if order < NO_ORDER {
        steps.push(step(off, Kind::Plain, Act::Serve(order)))?;
    }
    Ok(())
}

/// The orders that the trip of that number serves.
fn orders(number: u32) -> [u32; 2] {
    [number / 243 % 4, number / 972 % 4]
}

/// The trip of that number.
fn trip(alloc: Global, number: u32) -> Result<Duty, Memory> {
    let [first, second] = orders(number);
    let mut steps = Many::new(alloc);
    steps.push(step(minutes(number), kind(number / 3), Act::Load))?;
    steps.push(step(minutes(number / 9), Kind::Plain, Act::Leg(1)))?;
    push_service(&mut steps, minutes(number / 27), first)?;
    push_service(&mut steps, minutes(number / 81), second)?;
    steps.push(step(0, Kind::Plain, Act::Leg(0)))?;
    Ok(Duty { steps })
}

/// Whether an order that is served, or is not, is so inside.
fn is_kept(pair: Pair, is_served: bool) -> bool {
    match pair {
        Pair::Free => true,
        Pair::Forced => is_served,
        Pair::Barred => !is_served,
    }
}

fn is_among(orders: [u32; 2], order: u32) -> bool {
    let [first, second] = orders;
    first == order || second == order
}

/// Whether a duty that serves just these orders is inside.
fn is_inside(pairs: [Pair; 3], orders: [u32; 2]) -> bool {
    let [a, b, c] = pairs;
    is_kept(a, is_among(orders, 0))
        && is_kept(b, is_among(orders, 1))
        && is_kept(c, is_among(orders, 2))
}

fn price(cents: u32, is_served: bool) -> u32 {
    if is_served { cents } else { 0 }
}

/// The prices of these orders together.
fn brought(cents: [u32; 3], orders: [u32; 2]) -> u64 {
    let [a, b, c] = cents;
    u64::from(price(a, is_among(orders, 0)))
        + u64::from(price(b, is_among(orders, 1)))
        + u64::from(price(c, is_among(orders, 2)))
}

/// What is least of what was found and of that value.
fn lesser(least: Found, value: i64) -> Found {
    match least {
        Found::Least(known) if known <= value => least,
        _ => Found::Least(value),
    }
}

/// The value of a trip, where it is lawful and inside.
fn lawful_value(case: &Case, offer: &Offer, number: u32, duty: &Duty) -> Option<i64>
    requires case { IsCase case.now }
    requires driver { 0 < length case.now.week.drivers }
{
    let orders = orders(number);
    let Ok(cost) = check_duty(case, 0, duty) else {
        return None;
    };
    if !is_inside(offer.pairs, orders) {
        return None;
    }
    i64::try_from(i128::from(cost) - i128::from(brought(offer.cents, orders))).ok()
}

/// The least value of staying at home and of all trips.
pub(crate) fn least_listed(alloc: Global, case: &Case, offer: &Offer) -> Result<Found, Memory>
    requires case { IsCase case.now }
    requires driver { 0 < length case.now.week.drivers }
{
    let mut least = if is_inside(offer.pairs, [NO_ORDER; 2]) {
        Found::Least(0)
    } else {
        Found::NoDuty
    };
    for number in 0..TRIPS {
        let duty = trip(alloc, number)?;
        if let Some(value) = lawful_value(case, offer, number, &duty) {
            least = lesser(least, value);
        }
    }
    Ok(least)
}
