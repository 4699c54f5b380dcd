// A driver's trip with one order, and whether it may be given to the driver.
ghost use Rattle.std.specs.Prelude.{◌≡◌, ◌<◌, true, false, length, IfSome};
ghost use Rattle.duty_plan.specs.Duties.{IsCase, IsLawful, cost_after, partial_of};
ghost use Rattle.duty_plan.specs.PartialDuties.{serves};
ghost use Rattle.duty_plan.specs.Values.{IsChoice, IsInside, IsPairs};

use duty_plan::{Act, Case, Duty, Pair, Pairs, Step, check_duty, serves};
use hours_rules::Stay;
use minute_line::{Kind, Many, Memory};
use std::alloc::Global;
use week_book::Week;

/// The act after a weekly rest of so many minutes, or after none.
fn step(rest: u32, act: Act) -> Step {
    let kind = if rest == 0 { Kind::Plain } else { Kind::Weekly };
    Step {
        stay: Stay {
            ready: 0,
            off: rest,
            kind,
        },
        act,
    }
}

fn place_of(week: &Week, order: u32) -> u32 {
    match week.orders.get(order as usize) {
        Some(order) => order.place,
        None => 0,
    }
}

/// The trip with the order alone, which is at the depot, place 0, or an hour away: its service starts on Monday at 08:00.
pub(crate) fn trip(alloc: Global, week: &Week, order: u32) -> Result<Duty, Memory> {
    let place = place_of(week, order);
    let mut steps = Many::new(alloc);
    if place == 0 {
        steps.push(step(465, Act::Load))?;
        steps.push(step(0, Act::Serve(order)))?;
    } else {
        steps.push(step(405, Act::Load))?;
        steps.push(step(0, Act::Leg(place)))?;
        steps.push(step(0, Act::Serve(order)))?;
        steps.push(step(0, Act::Leg(0)))?;
    }
    Ok(Duty { steps })
}

/// Whether a driver keeps what is decided of an order whom he serves or not.
fn keeps(pair: Pair, is_served: bool) -> bool
    ensures forced { result ≡ true → pair ≡ Pair.Forced → is_served ≡ true }
    ensures barred { result ≡ true → pair ≡ Pair.Barred → is_served ≡ false }
{
    match pair {
        Pair::Free => true,
        Pair::Forced => is_served,
        Pair::Barred => !is_served,
    }
}

/// Whether the duty serves each order that is Forced for the driver, and none that is Barred.
fn is_inside(case: &Case, pairs: &Pairs, driver: u32, duty: &Duty) -> bool
    requires case { IsCase case.now }
    requires pairs { IsPairs case.now.week pairs.now }
    requires driver { driver < length case.now.week.drivers }
    ensures { result ≡ true → IsInside case.now.week pairs.now driver (partial_of duty.now) }
{
    for order in 0..case.week.orders.len() as u32 {
        let pair = pairs.pair(&case.week, driver, order);
        if !keeps(pair, serves(duty.steps.as_slice(), order)) {
            return false;
        }
    }
    true
}

/// The duty, where the driver may be given it.
pub(crate) fn choice(case: &Case, pairs: &Pairs, driver: u32, duty: Duty) -> Option<Duty>
    requires case { IsCase case.now }
    requires pairs { IsPairs case.now.week pairs.now }
    requires driver { driver < length case.now.week.drivers }
    ensures { IfSome result (IsChoice case.now driver pairs.now) }
{
    if check_duty(case, driver, &duty).is_ok() && is_inside(case, pairs, driver, &duty) {
        Some(duty)
    } else {
        None
    }
}

/// Whether the duty is lawful, serves order 0, and costs so many cents.
pub(crate) fn carries_for(case: &Case, driver: u32, duty: &Duty, cents: u64) -> bool
    requires case { IsCase case.now }
    requires driver { driver < length case.now.week.drivers }
    ensures lawful { result ≡ true → IsLawful case.now driver duty.now }
    ensures cost { result ≡ true → cost_after case.now driver (partial_of duty.now) ≡ cents }
    ensures serves { result ≡ true → serves 0 (partial_of duty.now) ≡ true }
{
    match check_duty(case, driver, duty) {
        Ok(cost) => cost == cents && serves(duty.steps.as_slice(), 0),
        Err(_) => false,
    }
}
