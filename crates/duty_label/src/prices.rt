// What is decided of an act's order, and what it is worth.
ghost use Rattle.std.specs.Prelude.{◌≡◌, ◌<◌, ◌≤◌, ◌+ℤ◌, ◌-ℤ◌, pos, if◌then◌else◌, length};
ghost use Rattle.week_book.specs.Weeks.{IsWeek};
ghost use Rattle.duty_plan.specs.Acts.{order_of_act};
ghost use Rattle.duty_plan.specs.Duties.{worth};
ghost use Rattle.duty_plan.specs.Values.{IsPairs, IsPrices, price_at};
ghost use Rattle.duty_label.specs.Children.{IsSmallValue, serves_barred};

use duty_plan::{Act, Pair, Pairs, Prices};
use week_book::{Driver, Week};

/// Whether the act serves an order of the week that is Barred for the driver.
pub(crate) fn is_barred(week: &Week, pairs: &Pairs, driver: u32, act: Act) -> bool
    requires week { IsWeek week.now }
    requires pairs { IsPairs week.now pairs.now }
    requires driver { driver < length week.now.drivers }
    ensures { result ≡ serves_barred week.now pairs.now driver act }
{
    match act {
        Act::Serve(order) if order < pairs.orders => {
            matches!(pairs.pair(week, driver, order), Pair::Barred)
        }
        Act::Leg(_) | Act::Serve(_) | Act::Load => false,
    }
}

/// The price of the order that the act serves, in cents.
pub fn price_of_act(week: &Week, prices: &Prices, act: Act) -> u64
    requires week { IsWeek week.now }
    requires prices { IsPrices week.now prices.now }
    ensures price { result ≡ worth (price_at prices.now) (order_of_act act) }
    ensures bound { result ≤ 100000000 }
{
    match act {
        Act::Serve(order) => match prices.cents.get(order as usize) {
            Some(cents) => *cents,
            None => 0,
        },
        Act::Leg(_) | Act::Load => 0,
    }
}

/// What a step adds of the driver's fee, in cents: all of it where it is the first step.
pub(crate) fn fee_due(paid: bool, lorry: &Driver) -> u64
    ensures { result ≡ (if paid then 0 else lorry.now.fee) }
{
    if paid { 0 } else { lorry.fee }
}

/// A value after one step more, in cents: what the step costs is added, and the price of its order taken off.
pub(crate) fn value_with(value: i64, cents: u64, price: u64) -> i64
    requires value { IsSmallValue value }
    requires cents { cents ≤ 100000000 }
    requires price { price ≤ 100000000 }
    ensures { result ≡ value +ℤ pos cents -ℤ pos price }
{
    value + cents as i64 - price as i64
}
