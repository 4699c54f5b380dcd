// The prices from which a dive begins.
ghost use Rattle.std.specs.Prelude.{◌≤◌, IfOk};
ghost use Rattle.week_book.specs.Weeks.{IsWeek};
ghost use Rattle.duty_plan.specs.Values.{IsPrices};

use duty_plan::Prices;
use minute_line::{Many, Memory};
use std::alloc::Global;
use week_book::Week;

/// A part, in percent, of what a subcontractor takes for each order.
#[tactic(auto, using(crate::proofs::Parts::part_prices))]
pub(crate) fn part_of_prices(alloc: Global, week: &Week, percent: u64) -> Result<Prices, Memory>
    requires week { IsWeek week.now }
    requires part { percent ≤ 100 }
    ensures { IfOk result (IsPrices week.now) }
{
    let mut cents = Many::new(alloc);
    for order in week.orders.as_slice() {
        cents.push(order.price * percent / 100)?;
    }
    Ok(Prices { cents })
}
