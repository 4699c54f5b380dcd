// How a price moves after a round.
ghost use Rattle.std.specs.Prelude.{◌≡◌, ◌≤◌, length, slice_index};
ghost use Rattle.week_book.specs.Weeks.{IsWeek};
ghost use Rattle.duty_plan.specs.Values.{IsPrices};
ghost use Rattle.duty_plan.specs.Rounds.{AreNextPrices, next_price, price_step};

use crate::reading::most;
use duty_plan::Prices;
use minute_line::Many;
use week_book::Week;

/// How far a price moves after round `k`, in cents, for an order for which a subcontractor takes `most` cents.
fn step_of(k: u32, most: u64) -> u64
    requires { most ≤ 100000000 }
    ensures value { result ≡ price_step k most }
    ensures small { result ≤ 100000000 }
{
    (most / (4 * (u64::from(k) + 1))).max(1)
}

/// The price of an order after round `k`, counted from 0, whose duties carry it `count` times, in cents. It rises where
/// nobody carries it, to at most the `most` cents that a subcontractor takes, stays where one duty does, and falls for
/// each further one, to at least 0.
pub fn subgradient_step(k: u32, most: u64, count: u32, price: u64) -> u64
    requires most { most ≤ 100000000 }
    requires price { price ≤ most }
    ensures { result ≡ next_price k most count price }
{
    let step = step_of(k, most);
    if count == 0 {
        (price + step).min(most)
    } else {
        price.saturating_sub(step * u64::from(count - 1))
    }
}

/// The prices after round `k`, counted from 0, by the number of that round's duties that carry each order.
pub fn next_prices(week: &Week, prices: &mut Prices, carriers: &Many<u32>, k: u32)
    requires week { IsWeek week.now }
    requires prices { IsPrices week.now prices.old }
    requires carriers { length carriers.now ≡ length week.now.orders }
    ensures { AreNextPrices week.now k (λ order. slice_index carriers.now order) prices.old prices.new }
{
    for order in 0..week.orders.len() as u32 {
        let count = carriers.as_slice()[order as usize];
        let price = prices.cents.as_slice()[order as usize];
        prices.cents.set(
            order as usize,
            subgradient_step(k, most(week, order), count, price),
        );
    }
}
