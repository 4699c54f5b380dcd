// The Lagrangian value.
ghost use Rattle.std.specs.Prelude.{◌≡◌, ◌<◌, ◌≤◌, length, pos, neg_ℤ, ◌≤ℤ◌, ◌*◌};
ghost use Rattle.week_book.specs.Weeks.{IsWeek};
ghost use Rattle.duty_plan.specs.Sums.{total_below};
ghost use Rattle.duty_plan.specs.Values.{IsPairs, IsPrices, barred_for_all, lagrangian_term, lagrangian, sum_of};
ghost use Rattle.price_master.specs.Valuing.{AreModest};

use crate::reading::{is_barred, most, price};
use duty_plan::{Pairs, Prices};
use minute_line::Many;
use week_book::Week;

/// Whether the order is Barred for all drivers.
fn is_barred_for_all(week: &Week, pairs: &Pairs, order: u32) -> bool
    requires week { IsWeek week.now }
    requires pairs { IsPairs week.now pairs.now }
    requires order { order < length week.now.orders }
    ensures { result ≡ barred_for_all week.now pairs.now order }
{
    for driver in 0..week.drivers.len() as u32 {
        if !is_barred(week, pairs, driver, order) {
            return false;
        }
    }
    true
}

/// What an order adds to the value: its price, or what a subcontractor takes where it is Barred for all drivers.
fn term_of(week: &Week, pairs: &Pairs, prices: &Prices, order: u32) -> u64
    requires week { IsWeek week.now }
    requires pairs { IsPairs week.now pairs.now }
    requires prices { IsPrices week.now prices.now }
    requires order { order < length week.now.orders }
    ensures value { result ≡ lagrangian_term week.now pairs.now prices.now order }
    ensures bound { result ≤ 100000000 }
{
    if is_barred_for_all(week, pairs, order) {
        most(week, order)
    } else {
        price(week, prices, order)
    }
}

/// What all orders add to the value.
fn lagrangian_terms(week: &Week, pairs: &Pairs, prices: &Prices) -> u64
    requires week { IsWeek week.now }
    requires pairs { IsPairs week.now pairs.now }
    requires prices { IsPrices week.now prices.now }
    ensures value { result ≡ total_below (lagrangian_term week.now pairs.now prices.now) (length week.now.orders) }
    ensures bound { result ≤ 12000000000 }
{
    let mut cents = 0;
    for order in 0..week.orders.len() as u32 {
        cents += term_of(week, pairs, prices, order);
    }
    cents
}

/// The sum of the least values.
fn sum(least: &[i64]) -> i64
    requires few { length least.now ≤ 16 }
    requires modest { AreModest least.now }
    ensures value { result ≡ sum_of least.now }
    ensures low { neg_ℤ (pos 17592186044416) ≤ℤ result }
    ensures high { result ≤ℤ pos 17592186044416 }
{
    let mut cents = 0;
    for value in least {
        cents += *value;
    }
    cents
}

/// The larger of 0 and the sum of all orders' Lagrangian terms and the drivers' least values, each from -2^40 to 2^40: no lawful
/// plan inside the pairs costs less.
pub fn lagrange(week: &Week, pairs: &Pairs, prices: &Prices, least: &Many<i64>) -> u64
    requires week { IsWeek week.now }
    requires pairs { IsPairs week.now pairs.now }
    requires prices { IsPrices week.now prices.now }
    requires drivers { length least.now ≡ length week.now.drivers }
    requires modest { AreModest least.now }
    ensures { result ≡ lagrangian week.now pairs.now prices.now least.now }
{
    (lagrangian_terms(week, pairs, prices) as i64 + sum(least.as_slice())).max(0) as u64
}
