// The pricing definitions on weeks of one driver, by hand. A trip to P and home costs the fee of 2,000 cents and two legs of
// 3,000 each, 8,000 in all, and no duty that serves an order costs less. At prices of what subcontractors take, the trip with
// order A is worth 8,000 - 9,000 = -1,000 and the one with A and B 8,000 - 9,000 - 4,500 = -5,500; the bound is 8,000 for both.
ghost use Rattle.std.specs.Prelude.{◌≡◌, ◌<◌, IsTrue, IfOk, All, true, false, [], ◌∷◌, length, map, pos, negsuc};
ghost use Rattle.week_book.specs.declared.weeks.Week.{Week};
ghost use Rattle.week_book.specs.Weeks.{AreNames, IsOrder, order_of};
ghost use Rattle.duty_plan.specs.PartialDuties.{PartialDuty, at_after, serves};
ghost use Rattle.duty_plan.specs.Duties.{EachOf, IsCase, partial_of, price_of};
ghost use Rattle.duty_plan.specs.Values.{IsLeast, lagrangian, reduced_cost};
ghost use Rattle.duty_plan.specs.Labels.{closes_of, is_listed, opens_of};
ghost use Rattle.duty_plan.specs.LabelLists.{completion_bound};

use duty_plan::{Act, Case, Duty, Pair, Step, check_duty};
use minute_line::{Kind, Many, Memory, Name, read_monday};
use sample_weeks::{HOME, LOAD, NONE, OUT, SERVE, case_of, duty, orders};
use std::alloc::Global;
use std::test::Fail;
use week_book::Order;

/// An order at P, to be served from minute 480 to 720, in 30 minutes.
fn order(name: Name, kg: u32, price: u64) -> Order
    ensures { result ≡ record { name = name; place = 1; opens = 480; closes = 720; service = 30; kg = kg; price = price } }
{
    Order {
        name,
        place: 1,
        opens: 480,
        closes: 720,
        service: 30,
        kg,
        price,
    }
}

/// Order A, and order B of 6,000 kg that a subcontractor takes for 4,500 cents.
fn two_orders(alloc: Global) -> Result<Many<Order>, Memory>
    ensures { IfOk result (λ orders. (length orders ≡ 2) × All (IsOrder 2) orders
        × AreNames (map (λ order. order.name) orders) × EachOf (λ n order. order.place ≡ 1) orders) }
{
    let mut orders = Many::new(alloc);
    orders.push(order(Many::from_slice(alloc, b"A")?, 12_000, 9000))?;
    orders.push(order(Many::from_slice(alloc, b"B")?, 6000, 4500))?;
    Ok(orders)
}

/// Where order A alone is there, and Barred, the empty duty is the driver's least, worth nothing, and the bound is what the
/// subcontractor takes.
fn barred_by_hand()
    ensures least { (case : Case) → length case.week.orders ≡ 1 →
        IsLeast case 0 (record { orders = 1; cells = Pair.Barred ∷ [] }) (record { cents = 9000 ∷ [] }) (pos 0) (record { steps = [] }) }
    ensures bound { (week : Week) → length week.drivers ≡ 1 → length week.orders ≡ 1 → price_of week 0 ≡ 9000 →
        lagrangian week (record { orders = 1; cells = Pair.Barred ∷ [] }) (record { cents = 9000 ∷ [] }) (pos 0 ∷ []) ≡ 9000 }
{}

/// After the load, at minute 420, the order's service waits until it opens at 480: 60 minutes, or what a break leaves of them.
/// Before a leg nobody waits, nor before a daily or weekly rest.
fn listed_by_hand()
    ensures waits { (week : Week) (partial : PartialDuty) → opens_of (order_of week 0) ≡ 480 → at_after week partial ≡ 420 →
        is_listed week (record { stay = record { ready = 60; off = 0; kind = Kind.Plain }; act = Act.Serve 0 }) partial ≡ true }
    ensures breaks { (week : Week) (partial : PartialDuty) → opens_of (order_of week 0) ≡ 480 → at_after week partial ≡ 420 →
        is_listed week (record { stay = record { ready = 15; off = 45; kind = Kind.Plain }; act = Act.Serve 0 }) partial ≡ true }
    ensures no_longer { (week : Week) (partial : PartialDuty) → opens_of (order_of week 0) ≡ 480 → at_after week partial ≡ 420 →
        is_listed week (record { stay = record { ready = 61; off = 0; kind = Kind.Plain }; act = Act.Serve 0 }) partial ≡ false }
    ensures late { (week : Week) (partial : PartialDuty) → opens_of (order_of week 0) ≡ 480 → at_after week partial ≡ 500 →
        is_listed week (record { stay = record { ready = 0; off = 0; kind = Kind.Plain }; act = Act.Serve 0 }) partial ≡ true }
    ensures drives { (week : Week) (partial : PartialDuty) →
        is_listed week (record { stay = record { ready = 1; off = 0; kind = Kind.Plain }; act = Act.Leg 1 }) partial ≡ false }
    ensures rests { (week : Week) (partial : PartialDuty) →
        is_listed week (record { stay = record { ready = 1; off = 660; kind = Kind.Daily }; act = Act.Serve 0 }) partial ≡ false }
{}

/// After the load the driver may still hope for order A: 2,000 - 9,000 = -7,000 cents, until its window closes at 720; and for
/// nothing where the order is Barred.
fn completion_bound_by_hand()
    ensures open { (case : Case) (partial : PartialDuty) → length case.week.orders ≡ 1 → closes_of (order_of case.week 0) ≡ 720 → serves 0 partial ≡ false →
        at_after case.week partial ≡ 720 → reduced_cost case 0 (record { cents = 9000 ∷ [] }) partial ≡ pos 2000 →
        completion_bound case 0 (record { orders = 1; cells = Pair.Free ∷ [] }) (record { cents = 9000 ∷ [] }) partial ≡ negsuc 6999 }
    ensures closed { (case : Case) (partial : PartialDuty) → length case.week.orders ≡ 1 → closes_of (order_of case.week 0) ≡ 720 → serves 0 partial ≡ false →
        at_after case.week partial ≡ 721 → reduced_cost case 0 (record { cents = 9000 ∷ [] }) partial ≡ pos 2000 →
        completion_bound case 0 (record { orders = 1; cells = Pair.Free ∷ [] }) (record { cents = 9000 ∷ [] }) partial ≡ pos 2000 }
    ensures barred { (case : Case) (partial : PartialDuty) → length case.week.orders ≡ 1 → serves 0 partial ≡ false →
        reduced_cost case 0 (record { cents = 9000 ∷ [] }) partial ≡ pos 2000 →
        completion_bound case 0 (record { orders = 1; cells = Pair.Barred ∷ [] }) (record { cents = 9000 ∷ [] }) partial ≡ pos 2000 }
{}

/// Whether the duty is lawful for 8,000 cents. With order A it is then the driver's least duty, worth -1,000 cents, where the
/// order is Free or Forced, and the bound is 8,000.
fn is_least_with_one(case: &Case, duty: &Duty) -> bool
    requires case { IsCase case.now }
    requires driver { length case.now.week.drivers ≡ 1 }
    requires roads { EachOf (λ n leg. leg.cents ≡ 3000) case.now.week.legs }
    requires fee { EachOf (λ n driver. driver.fee ≡ 2000) case.now.week.drivers }
    requires order { length case.now.week.orders ≡ 1 }
    requires orders { EachOf (λ n order. order.place ≡ 1) case.now.week.orders }
    requires serves { serves 0 (partial_of duty.now) ≡ true }
    ensures free { IsTrue result → IsLeast case.now 0 (record { orders = 1; cells = Pair.Free ∷ [] }) (record { cents = 9000 ∷ [] }) (negsuc 999) duty.now }
    ensures forced { IsTrue result → IsLeast case.now 0 (record { orders = 1; cells = Pair.Forced ∷ [] }) (record { cents = 9000 ∷ [] }) (negsuc 999) duty.now }
    ensures bound { lagrangian case.now.week (record { orders = 1; cells = Pair.Free ∷ [] }) (record { cents = 9000 ∷ [] }) (negsuc 999 ∷ []) ≡ 8000 }
{
    match check_duty(case, 0, duty) {
        Ok(cents) => cents == 8000,
        Err(_) => false,
    }
}

/// Whether the duty is lawful for 8,000 cents. With orders A and B it is then the driver's least duty, worth -5,500 cents, where
/// both are Free, and the bound is 8,000.
fn is_least_with_two(case: &Case, duty: &Duty) -> bool
    requires case { IsCase case.now }
    requires driver { length case.now.week.drivers ≡ 1 }
    requires roads { EachOf (λ n leg. leg.cents ≡ 3000) case.now.week.legs }
    requires fee { EachOf (λ n driver. driver.fee ≡ 2000) case.now.week.drivers }
    requires order { length case.now.week.orders ≡ 2 }
    requires orders { EachOf (λ n order. order.place ≡ 1) case.now.week.orders }
    requires serves_a { serves 0 (partial_of duty.now) ≡ true }
    requires serves_b { serves 1 (partial_of duty.now) ≡ true }
    ensures free { IsTrue result → IsLeast case.now 0 (record { orders = 2; cells = Pair.Free ∷ Pair.Free ∷ [] }) (record { cents = 9000 ∷ 4500 ∷ [] }) (negsuc 5499) duty.now }
    ensures bound { lagrangian case.now.week (record { orders = 2; cells = Pair.Free ∷ Pair.Free ∷ [] }) (record { cents = 9000 ∷ 4500 ∷ [] }) (negsuc 5499 ∷ []) ≡ 8000 }
{
    match check_duty(case, 0, duty) {
        Ok(cents) => cents == 8000,
        Err(_) => false,
    }
}

/// The trip with order A: loaded from minute 405 on, and served at 480.
fn trip_with_one(alloc: Global) -> Result<Duty, Memory>
    ensures { IfOk result (λ duty. serves 0 (partial_of duty) ≡ true) }
{
    duty(alloc, &[LOAD, OUT, SERVE, HOME])
}

/// The trip with orders A and B.
fn trip_with_two(alloc: Global) -> Result<Duty, Memory>
    ensures { IfOk result (λ duty. (serves 0 (partial_of duty) ≡ true) × (serves 1 (partial_of duty) ≡ true)) }
{
    let serve_b = Step {
        stay: NONE,
        act: Act::Serve(1),
    };
    duty(alloc, &[LOAD, OUT, SERVE, serve_b, HOME])
}

#[test]
fn a_trip_is_the_least_duty_with_one_order(rt: HostRuntime) -> Result<(), Fail> {
    let alloc = rt.alloc();
    let monday = read_monday("2026-03-02").ok_or("no Monday")?;
    let case = case_of(alloc, monday, orders(alloc, 480, 720)?)?;
    assert!(rt; is_least_with_one(&case, &trip_with_one(alloc)?));
    Ok(())
}

#[test]
fn a_trip_with_both_is_the_least_duty_with_two_orders(rt: HostRuntime) -> Result<(), Fail> {
    let alloc = rt.alloc();
    let monday = read_monday("2026-03-02").ok_or("no Monday")?;
    let case = case_of(alloc, monday, two_orders(alloc)?)?;
    assert!(rt; is_least_with_two(&case, &trip_with_two(alloc)?));
    Ok(())
}
