// The week of the tests of both sides, and the prices that a search of a week begins with.
ghost use Rattle.std.specs.Prelude.{IfOk};
ghost use Rattle.duty_plan.specs.Values.{IsPrices};

use duty_plan::Prices;
use minute_line::Memory;
use price_master::start_prices;
use std::alloc::Global;
use week_book::Week;

/// Drivers who are alike, and three orders, of which a lorry carries two. A load and the leg to P take 75 minutes, so that a service
/// can start at 75 and at 105, the last minute of the windows, and there is no time for a second trip.
pub(crate) const ALIKE: &str = "week,2026-03-02,15,3000,15
place,HUB
place,P
leg,HUB,P,60,3000
leg,P,HUB,60,3000
driver,D1,24000,2000
driver,D2,24000,2000
order,A,P,2026-03-02T00:00,2026-03-02T01:45,30,12000,9000
order,B,P,2026-03-02T00:00,2026-03-02T01:45,30,12000,9000
order,C,P,2026-03-02T00:00,2026-03-02T01:45,30,12000,9000
";

/// What subcontractors take.
pub(crate) fn prices_of(alloc: Global, week: &Week) -> Result<Prices, Memory>
    ensures { IfOk result (IsPrices week.now) }
{
    start_prices(alloc, week)
}
