// The choice of pooled duties, prices that move, and a bound. By hand: a trip costs the fee of 2,000 and two legs of 3,000,
// however many orders it serves, and a subcontractor takes 9,000 for each of the three orders.
ghost use Rattle.std.specs.Prelude.{◌≡◌, length, IfOk, OnOk};
ghost use Rattle.duty_plan.specs.Duties.{IsCase};
ghost use Rattle.price_master.specs.Pools.{IsPool};
ghost use Rattle.price_master.specs.Valuing.{AreModest};

use crate::cases::{ALIKE, prices_of};
use duty_plan::{Act, Case, Duty, Pair, Step, check_duty};
use hours_rules::Stay;
use minute_line::{Kind, Many, Memory};
use price_master::{Picked, Pool, empty_pool, lagrange, next_prices, pick};
use sample_weeks::{all_pairs, case_of_text};
use std::alloc::Global;
use std::test::Fail;

/// A driver's trip, with the orders that it serves.
#[derive(Clone, Copy)]
struct Trip(u32, &'static [u32]);

/// What a plan costs, and the orders that it gives away.
#[derive(Drop)]
struct Choice {
    cost: u64,
    out: Many<u32>,
}

fn step(off: u32, kind: Kind, act: Act) -> Step {
    let ready = 0;
    Step {
        stay: Stay { ready, off, kind },
        act,
    }
}

/// The trip that serves these orders, one after another, as early as may be.
fn duty_of(alloc: Global, orders: &[u32]) -> Result<Duty, Memory> {
    let mut steps = Many::new(alloc);
    steps.push(step(0, Kind::Weekly, Act::Load))?;
    steps.push(step(0, Kind::Plain, Act::Leg(1)))?;
    for order in orders {
        steps.push(step(0, Kind::Plain, Act::Serve(*order)))?;
    }
    steps.push(step(0, Kind::Plain, Act::Leg(0)))?;
    Ok(Duty { steps })
}

/// Keeps the trip, where it is lawful for the driver.
fn add_trip(alloc: Global, case: &Case, pool: &mut Pool, trip: &Trip) -> Result<(), Fail>
    requires case { IsCase case.now }
    requires pool { IsPool case.now pool.old }
    ensures { OnOk result (IsPool case.now pool.new) }
{
    let Trip(driver, orders) = *trip;
    if driver as usize >= case.week.drivers.len() {
        return Err(Fail::new("no driver"));
    }
    let duty = duty_of(alloc, orders)?;
    if check_duty(case, driver, &duty).is_err() {
        return Err(Fail::new("no lawful trip"));
    }
    pool.add(case, driver, duty)?;
    Ok(())
}

/// A pool of these trips.
fn pool_of(alloc: Global, case: &Case, trips: &[Trip]) -> Result<Pool, Fail>
    requires { IsCase case.now }
    ensures { IfOk result (IsPool case.now) }
{
    let mut pool = empty_pool(alloc, case.week.drivers.len() as u32)?;
    for trip in trips {
        add_trip(alloc, case, &mut pool, trip)?;
    }
    Ok(pool)
}

/// What is picked of these trips.
fn picked(alloc: Global, trips: &[Trip]) -> Result<Choice, Fail> {
    let case = case_of_text(alloc, ALIKE)?;
    let pool = pool_of(alloc, &case, trips)?;
    match pick(alloc, &case, &pool)? {
        Picked::Least(plan, cost) => Ok(Choice {
            cost,
            out: plan.out,
        }),
        Picked::Cut(_, _) => Err(Fail::new("a search that was cut")),
    }
}

/// Trips, and the cost and the orders given away of the cheapest choice of them, where a trip costs 8,000. Each driver has a trip;
/// alike drivers share theirs; the first driver is best at home, since his trip saves 1,000 and the other's 10,000; two trips that
/// save 1,000 each; and nobody has a trip.
const PICKED: [(&[Trip], u64, &[u32]); 5] = [
    (
        &[Trip(0, &[0, 1]), Trip(1, &[1, 2]), Trip(1, &[2])],
        16_000,
        &[],
    ),
    (
        &[
            Trip(0, &[0, 1]),
            Trip(0, &[2]),
            Trip(1, &[0, 1]),
            Trip(1, &[2]),
        ],
        16_000,
        &[],
    ),
    (&[Trip(0, &[0]), Trip(1, &[0, 1])], 17_000, &[2]),
    (&[Trip(0, &[0]), Trip(1, &[1])], 25_000, &[2]),
    (&[], 27_000, &[0, 1, 2]),
];

#[test]
fn the_cheapest_choice_is_picked(rt: HostRuntime) -> Result<(), Fail> {
    for (trips, cost, out) in PICKED {
        let choice = picked(rt.alloc(), trips)?;
        assert_eq!(rt; choice.cost, cost, "{out:?}");
        assert_eq!(rt; choice.out.as_slice(), out, "{cost}");
    }
    Ok(())
}

/// The prices after the first round, where so many duties carry each order.
fn moved(alloc: Global, carriers: &[u32]) -> Result<Many<u64>, Fail> {
    let case = case_of_text(alloc, ALIKE)?;
    let carriers = Many::from_slice(alloc, carriers)?;
    if case.week.orders.len() != carriers.len() {
        return Err(Fail::new("not one number for each order"));
    }
    let mut prices = prices_of(alloc, &case.week)?;
    next_prices(&case.week, &mut prices, &carriers, 0);
    Ok(prices.cents)
}

/// The step is a quarter of 9,000. A has one carrier too many and C two, and B is as dear as it may be.
#[test]
fn each_price_moves_by_its_own_carriers(rt: HostRuntime) -> Result<(), Fail> {
    let prices = moved(rt.alloc(), &[2, 0, 3])?;
    assert_eq!(rt; prices.as_slice(), [6750, 9000, 4500].as_slice());
    Ok(())
}

/// The least values of two drivers, of whom each has two orders: 8,000 less 18,000.
fn least_values(alloc: Global) -> Result<Many<i64>, Memory>
    ensures { IfOk result (λ values. (length values ≡ 2) × AreModest values) }
{
    Many::from_slice(alloc, &[-10_000, -10_000])
}

/// The bound of the first round.
fn first_bound(alloc: Global) -> Result<u64, Fail> {
    let case = case_of_text(alloc, ALIKE)?;
    let values = least_values(alloc)?;
    if case.week.drivers.len() != values.len() {
        return Err(Fail::new("not two drivers"));
    }
    let pairs = all_pairs(alloc, &case.week, Pair::Free)?;
    let prices = prices_of(alloc, &case.week)?;
    Ok(lagrange(&case.week, &pairs, &prices, &values))
}

/// 27,000 for the orders less twice 10,000.
#[test]
fn the_first_bound_is_worked_out(rt: HostRuntime) -> Result<(), Fail> {
    assert_eq!(rt; first_bound(rt.alloc())?, 7000);
    Ok(())
}
