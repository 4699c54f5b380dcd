// The orders that are Forced for a driver.
ghost use Rattle.std.specs.Prelude.{◌≡◌, ◌<◌, ◌+◌, ◌*◌, ◌^◌, if◌then◌else◌, length};
ghost use Rattle.duty_plan.specs.Duties.{IsCase};
ghost use Rattle.duty_plan.specs.Values.{IsPairs, pair_at};
ghost use Rattle.duty_plan.specs.Labels.{forced_orders, is_forced};

use duty_plan::{Case, Pair, Pairs};

/// What is decided of a driver and an order.
fn pair(pairs: &Pairs, driver: u32, order: u32) -> Pair
    requires { driver * pairs.now.orders + order < 4294967296 }
    ensures { result ≡ pair_at pairs.now driver order }
{
    match pairs.cells.get((driver * pairs.orders + order) as usize) {
        Some(pair) => *pair,
        None => Pair::Free,
    }
}

/// The bit of an order, if it is Forced.
fn forced_bit(pair: Pair, order: u32) -> u128
    requires { order < 128 }
    ensures { result ≡ (if is_forced pair then 2 ^ order else 0) }
{
    match pair {
        Pair::Forced => 1 << order,
        Pair::Free | Pair::Barred => 0,
    }
}

/// The orders that are Forced for a driver; order n is the bit n.
pub(crate) fn forced(case: &Case, driver: u32, pairs: &Pairs) -> u128
    requires case { IsCase case.now }
    requires driver { driver < length case.now.week.drivers }
    requires pairs { IsPairs case.now.week pairs.now }
    ensures { result ≡ forced_orders case.now.week pairs.now driver }
{
    let mut bits = 0;
    for order in 0..case.week.orders.len() as u32 {
        bits |= forced_bit(pair(pairs, driver, order), order);
    }
    bits
}
