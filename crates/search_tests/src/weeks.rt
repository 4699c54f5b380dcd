// Weeks by hand. The place P is an hour and 3,000 cents from the depot either way, and each service begins from 08:00 to 09:00 on
// Monday.

/// A driver, and no order.
pub(crate) const NO_ORDER: &str = "week,2026-03-02,15,3000,15
place,HUB
place,P
leg,HUB,P,60,3000
leg,P,HUB,60,3000
driver,D1,24000,2000
";

/// A driver, and an order at the depot, for which a subcontractor takes 9,000 cents.
pub(crate) const ONE_ORDER: &str = "week,2026-03-02,15,3000,15
place,HUB
place,P
leg,HUB,P,60,3000
leg,P,HUB,60,3000
driver,D1,24000,2000
order,A,HUB,2026-03-02T08:00,2026-03-02T09:00,30,12000,9000
";

/// Two drivers alike, and two such orders.
pub(crate) const TWO_ORDERS: &str = "week,2026-03-02,15,3000,15
place,HUB
place,P
leg,HUB,P,60,3000
leg,P,HUB,60,3000
driver,D1,24000,2000
driver,D2,24000,2000
order,A,HUB,2026-03-02T08:00,2026-03-02T09:00,30,12000,9000
order,B,HUB,2026-03-02T08:00,2026-03-02T09:00,30,12000,9000
";

/// Two drivers alike, and an order at the depot, which either serves for the fee of 2,000 cents, and a subcontractor for 3,000.
pub(crate) const ALIKE: &str = "week,2026-03-02,15,3000,15
place,HUB
place,P
leg,HUB,P,60,3000
leg,P,HUB,60,3000
driver,D1,24000,2000
driver,D2,24000,2000
order,A,HUB,2026-03-02T08:00,2026-03-02T09:00,30,12000,3000
";

/// Three drivers, of whom the first may carry each of three orders at one time, the second the two lighter ones, and the third the
/// lightest alone. A trip costs 6,000 cents and the fee, and nobody carries two: both services begin within an hour.
pub(crate) const UNLIKE: &str = "week,2026-03-02,15,3000,15
place,HUB
place,P
leg,HUB,P,60,3000
leg,P,HUB,60,3000
driver,D1,24000,2000
driver,D2,18000,3000
driver,D3,12000,4000
order,A,P,2026-03-02T08:00,2026-03-02T09:00,30,12000,20000
order,B,P,2026-03-02T08:00,2026-03-02T09:00,30,18000,18000
order,C,P,2026-03-02T08:00,2026-03-02T09:00,30,24000,16000
";
