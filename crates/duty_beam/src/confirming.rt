// Whether steps are a lawful duty inside, and what it is worth.
ghost use Rattle.std.specs.Prelude.{◌≡◌, ◌<◌, true, reverse, length, IfSome};
ghost use Rattle.week_book.specs.Weeks.{IsWeek};
ghost use Rattle.duty_plan.specs.Duties.{IsCase, orders_of, worth};
ghost use Rattle.duty_plan.specs.Values.{IsInside, IsPairs, IsPrices, price_at};
ghost use Rattle.duty_beam.specs.Finding.{IsDutyOf, KeepsPair};

use duty_label::price_of_act;
use duty_plan::{Case, Pair, Pairs, Prices, Step, check_steps, serves};
use week_book::Week;

/// Whether the steps serve an order if it is Forced for the driver, and don't if it is Barred.
fn keeps_pair(week: &Week, driver: u32, pairs: &Pairs, steps: &[Step], order: u32) -> bool
    requires week { IsWeek week.now }
    requires driver { driver < length week.now.drivers }
    requires pairs { IsPairs week.now pairs.now }
    requires order { order < length week.now.orders }
    ensures { result ≡ true → KeepsPair pairs.now driver (reverse steps.now) order }
{
    match pairs.pair(week, driver, order) {
        Pair::Free => true,
        Pair::Forced => serves(steps, order),
        Pair::Barred => !serves(steps, order),
    }
}

/// Whether the steps serve each order that is Forced for the driver, and none that is Barred.
fn is_inside(week: &Week, driver: u32, pairs: &Pairs, steps: &[Step]) -> bool
    requires week { IsWeek week.now }
    requires driver { driver < length week.now.drivers }
    requires pairs { IsPairs week.now pairs.now }
    ensures { result ≡ true → IsInside week.now pairs.now driver (reverse steps.now) }
{
    for order in 0..week.orders.len() as u32 {
        if !keeps_pair(week, driver, pairs, steps, order) {
            return false;
        }
    }
    true
}

/// The prices of the orders that the steps serve, in cents. None where they are too many to be counted.
fn prices_of(week: &Week, prices: &Prices, steps: &[Step]) -> Option<u64>
    requires week { IsWeek week.now }
    requires prices { IsPrices week.now prices.now }
    ensures { IfSome result (λ cents. cents ≡ worth (price_at prices.now) (orders_of (reverse steps.now))) }
{
    let mut cents = 0u64;
    for step in steps {
        cents = cents.checked_add(price_of_act(week, prices, step.act))?;
    }
    Some(cents)
}

/// The value of the steps, in cents: their cost less the prices of their orders. None where they are no lawful duty inside.
pub(crate) fn value_of(
    case: &Case,
    driver: u32,
    pairs: &Pairs,
    prices: &Prices,
    steps: &[Step],
) -> Option<i64>
    requires case { IsCase case.now }
    requires driver { driver < length case.now.week.drivers }
    requires pairs { IsPairs case.now.week pairs.now }
    requires prices { IsPrices case.now.week prices.now }
    ensures { IfSome result (IsDutyOf case.now driver pairs.now prices.now steps.now) }
{
    let cost = check_steps(case, driver, steps).ok()?;
    if !is_inside(&case.week, driver, pairs, steps) {
        return None;
    }
    let brought = prices_of(&case.week, prices, steps)?;
    i64::try_from(i128::from(cost) - i128::from(brought)).ok()
}
