// What duties save at prices, and who serves what.
ghost use Rattle.std.specs.Prelude.{◌≡◌, ◌<◌, ◌≤◌, length, IfOk};
ghost use Rattle.duty_plan.specs.Duties.{IsCase};
ghost use Rattle.duty_plan.specs.Values.{IsPairs, IsPrices};

use duty_plan::{Case, Duty, Pair, Pairs, Prices, check_duty};
use minute_line::{Many, Memory};
use price_master::serves_in;
use std::alloc::Global;

/// The price, or nothing.
fn price_if(is_served: bool, price: u64) -> u64
    requires { price ≤ 100000000 }
    ensures { result ≤ 100000000 }
{
    if is_served { price } else { 0 }
}

/// The prices of the orders that the duty serves, together.
fn worth(case: &Case, duty: &Duty, prices: &Prices) -> u64
    requires case { IsCase case.now }
    requires prices { IsPrices case.now.week prices.now }
    ensures { result ≤ 12800000000 }
{
    let mut worth = 0;
    for order in 0..case.week.orders.len() as u32 {
        worth += price_if(
            serves_in(duty, order),
            prices.cents.as_slice()[order as usize],
        );
    }
    worth
}

/// How far the prices of the orders that a lawful duty serves are above what it costs, in cents; 0 where they aren't.
pub(crate) fn saving(case: &Case, driver: u32, duty: &Duty, prices: &Prices) -> u64
    requires case { IsCase case.now }
    requires driver { driver < length case.now.week.drivers }
    requires prices { IsPrices case.now.week prices.now }
    ensures { result ≤ 12800000000 }
{
    match check_duty(case, driver, duty) {
        Ok(cost) => worth(case, duty, prices).saturating_sub(cost),
        Err(_) => 0,
    }
}

/// What the drivers' duties save together.
fn savings(case: &Case, duties: &[Duty], prices: &Prices) -> u64
    requires case { IsCase case.now }
    requires duties { length duties.now ≡ length case.now.week.drivers }
    requires prices { IsPrices case.now.week prices.now }
{
    let mut cents = 0;
    for driver in 0..duties.len() as u32 {
        cents += saving(case, driver, &duties[driver as usize], prices);
    }
    cents
}

/// The prices of the orders that are Free for the driver, together.
fn free_worth(case: &Case, pairs: &Pairs, driver: u32, prices: &Prices) -> u64
    requires case { IsCase case.now }
    requires pairs { IsPairs case.now.week pairs.now }
    requires driver { driver < length case.now.week.drivers }
    requires prices { IsPrices case.now.week prices.now }
{
    let mut cents = 0;
    for order in 0..case.week.orders.len() as u32 {
        let is_free = pairs.pair(&case.week, driver, order) == Pair::Free;
        cents += price_if(is_free, prices.cents.as_slice()[order as usize]);
    }
    cents
}

/// What the guessed duties leave of the prices of the orders that are Free for the driver, in cents, and at least 0: were the
/// guesses least duties, no plan of the freed drivers would cost less for these orders.
pub(crate) fn value(
    case: &Case,
    pairs: &Pairs,
    driver: u32,
    prices: &Prices,
    guessed: &[Duty],
) -> u64
    requires case { IsCase case.now }
    requires pairs { IsPairs case.now.week pairs.now }
    requires driver { driver < length case.now.week.drivers }
    requires prices { IsPrices case.now.week prices.now }
    requires guessed { length guessed.now ≡ length case.now.week.drivers }
{
    free_worth(case, pairs, driver, prices).saturating_sub(savings(case, guessed, prices))
}

/// How many of the duties serve the order.
fn carriers_of(duties: &[Duty], order: u32) -> u32
    requires few { length duties.now ≤ 16 }
{
    let mut count = 0;
    for duty in duties {
        if serves_in(duty, order) {
            count += 1;
        }
    }
    count
}

/// How many of the duties serve each order.
pub(crate) fn carriers(alloc: Global, case: &Case, duties: &[Duty]) -> Result<Many<u32>, Memory>
    requires case { IsCase case.now }
    requires few { length duties.now ≤ 16 }
    ensures { IfOk result (λ counts. length counts ≡ length case.now.week.orders) }
{
    let mut counts = Many::new(alloc);
    for order in 0..case.week.orders.len() as u32 {
        counts.push(carriers_of(duties, order))?;
    }
    Ok(counts)
}

/// Whether each of the duties is empty.
pub(crate) fn are_empty(duties: &[Duty]) -> bool {
    for duty in duties {
        if !duty.steps.is_empty() {
            return false;
        }
    }
    true
}
