// Weeks of one driver and of orders at P, an hour and 3,000 cents from the depot either way, for each of which a subcontractor takes
// 9,500.

/// One order, of half a lorry.
pub(crate) const ONE_ORDER: &str = "week,2026-03-02,15,3000,15
driver,D1,24000,2000
place,HUB
place,P
leg,HUB,P,60,3000
leg,P,HUB,60,3000
order,A,P,2026-03-02T08:00,2026-03-02T12:00,30,12000,9500
";

/// Three orders, of which the lorry carries A and B together and C alone. A load and the leg to P take 75 minutes, so that A can
/// be served after B and not before it, and there is no time for a second trip.
pub(crate) const THREE_ORDERS: &str = "week,2026-03-02,15,3000,15
driver,D1,24000,2000
place,HUB
place,P
leg,HUB,P,60,3000
leg,P,HUB,60,3000
order,A,P,2026-03-02T00:00,2026-03-02T01:45,30,12000,9500
order,B,P,2026-03-02T00:00,2026-03-02T01:15,30,12000,9500
order,C,P,2026-03-02T00:00,2026-03-02T01:45,30,24000,9500
";
