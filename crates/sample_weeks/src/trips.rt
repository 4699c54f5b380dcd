// A week of one driver, by hand: a leg between HUB and P is 60 minutes and 3,000 cents either way, the fee 2,000, a night 3,000, a
// load 15 minutes; the order at P takes 30 minutes and 12,000 kg, and its price is 9,000. The history is an open off run of 2,880
// minutes.
ghost use Rattle.std.specs.Prelude.{◌≡◌, ◌<◌, ◌≤◌, ◌∷◌, [], All, IfOk, length, map, slice_get};
ghost use Rattle.std.specs.List.{IsDistinct};
ghost use Rattle.week_book.specs.Weeks.{AreNames, IsLeg, IsDriver, IsOrder, same_ends};
ghost use Rattle.duty_plan.specs.Duties.{EachOf, IsCase, price_of, price_or_none};
ghost use Rattle.duty_plan.specs.Values.{IsPairs, IsPrices};

use crate::desks::Desk;
use duty_plan::{Act, Case, Duty, Pair, Pairs, Prices, Step};
use hours_rules::Stay;
use minute_line::{History, Kind, Line, Many, Memory, Monday, Name};
use std::alloc::Global;
use week_book::{Driver, Leg, Order, Week};

/// The depot HUB and the place P.
fn places(alloc: Global) -> Result<Many<Name>, Memory>
    ensures { IfOk result (λ places. (length places ≡ 2) × AreNames places) }
{
    let mut places = Many::new(alloc);
    places.push(Many::from_slice(alloc, b"HUB")?)?;
    places.push(Many::from_slice(alloc, b"P")?)?;
    Ok(places)
}

/// The road between HUB and P, either way.
fn leg(from: u32, to: u32) -> Leg
    ensures { result ≡ record { from = from; to = to; minutes = 60; cents = 3000 } }
{
    Leg {
        from,
        to,
        minutes: 60,
        cents: 3000,
    }
}

/// The legs there and back.
fn legs(alloc: Global) -> Result<Many<Leg>, Memory>
    ensures { IfOk result (λ legs. (length legs ≡ 2) × All (IsLeg 2) legs × IsDistinct same_ends legs
        × EachOf (λ n leg. leg.cents ≡ 3000) legs) }
{
    let mut legs = Many::new(alloc);
    legs.push(leg(0, 1))?;
    legs.push(leg(1, 0))?;
    Ok(legs)
}

/// One driver with a lorry of 24,000 kg.
fn drivers(alloc: Global) -> Result<Many<Driver>, Memory>
    ensures { IfOk result (λ drivers. (length drivers ≡ 1) × All IsDriver drivers
        × AreNames (map (λ driver. driver.name) drivers) × EachOf (λ n driver. driver.fee ≡ 2000) drivers) }
{
    let mut drivers = Many::new(alloc);
    drivers.push(Driver {
        name: Many::from_slice(alloc, b"D1")?,
        capacity: 24_000,
        fee: 2000,
    })?;
    Ok(drivers)
}

/// One order of 12,000 kg at P, for 9,000 cents, whose service may start from one minute of the week until another.
pub fn orders(alloc: Global, opens: u32, closes: u32) -> Result<Many<Order>, Memory>
    requires window { opens ≤ closes }
    requires end { closes ≤ 10079 }
    ensures { IfOk result (λ orders. (length orders ≡ 1) × All (IsOrder 2) orders
        × AreNames (map (λ order. order.name) orders) × EachOf (λ n order. order.place ≡ 1) orders
        × (price_or_none (slice_get orders 0) ≡ 9000)) }
{
    let mut orders = Many::new(alloc);
    orders.push(Order {
        name: Many::from_slice(alloc, b"A")?,
        place: 1,
        opens,
        closes,
        service: 30,
        kg: 12_000,
        price: 9000,
    })?;
    Ok(orders)
}

/// The week of one driver with these orders, and a history that ends in an open off run of two days.
pub fn case_of(alloc: Global, monday: Monday, orders: Many<Order>) -> Result<Case, Memory>
    requires few { length orders ≤ 120 }
    requires orders { All (IsOrder 2) orders }
    requires names { AreNames (map (λ order. order.name) orders) }
    ensures case { IfOk result (λ case. IsCase case × (length case.week.drivers ≡ 1) × (case.week.orders ≡ orders)) }
    ensures roads { IfOk result (λ case. EachOf (λ n leg. leg.cents ≡ 3000) case.week.legs) }
    ensures fee { IfOk result (λ case. EachOf (λ n driver. driver.fee ≡ 2000) case.week.drivers) }
{
    let mut past = Many::new(alloc);
    past.push(History {
        prev_weekly: 2700,
        stints: Line {
            stints: Many::new(alloc),
        },
        open_off: 2880,
        prev_drive: 0,
        work16: [0; 16],
        owed: 0,
        due: 0,
    })?;
    let week = Week {
        monday,
        load: 15,
        night: 3000,
        grid: 15,
        places: places(alloc)?,
        legs: legs(alloc)?,
        drivers: drivers(alloc)?,
        orders,
    };
    Ok(Case { week, past })
}

/// The week of one driver with the one order, whose service may start from one minute of the week until another.
pub fn case(alloc: Global, monday: Monday, opens: u32, closes: u32) -> Result<Case, Memory>
    requires window { opens ≤ closes }
    requires end { closes ≤ 10079 }
    ensures { IfOk result (λ case. IsCase case × (length case.week.drivers ≡ 1) × (length case.week.orders ≡ 1)
        × (price_of case.week 0 ≡ 9000)) }
{
    case_of(alloc, monday, orders(alloc, opens, closes)?)
}

/// What is decided of the driver and the order.
fn pairs(alloc: Global, pair: Pair) -> Result<Pairs, Memory>
    ensures { IfOk result (λ pairs. (pairs.orders ≡ 1) × (length pairs.cells ≡ 1)) }
{
    Ok(Pairs {
        orders: 1,
        cells: Many::from_slice(alloc, &[pair])?,
    })
}

/// The order's price.
fn prices(alloc: Global) -> Result<Prices, Memory>
    ensures { IfOk result (λ prices. prices.cents ≡ 9000 ∷ []) }
{
    Ok(Prices {
        cents: Many::from_slice(alloc, &[9000])?,
    })
}

/// The driver's desk, where that is decided of the order, at what a subcontractor takes for it. The order's service may start from
/// one minute of the week until another.
pub fn prepared(
    alloc: Global,
    monday: Monday,
    pair: Pair,
    opens: u32,
    closes: u32,
) -> Result<Desk, Memory>
    requires window { opens ≤ closes }
    requires end { closes ≤ 10079 }
    ensures { IfOk result (λ desk. IsCase desk.case × (0 < length desk.case.week.drivers) × IsPairs desk.case.week desk.pairs
        × IsPrices desk.case.week desk.prices) }
{
    Ok(Desk {
        case: case(alloc, monday, opens, closes)?,
        pairs: pairs(alloc, pair)?,
        prices: prices(alloc)?,
    })
}

/// The duty of those steps.
pub fn duty(alloc: Global, steps: &[Step]) -> Result<Duty, Memory>
    ensures { IfOk result (λ duty. duty.steps ≡ steps.now) }
{
    Ok(Duty {
        steps: Many::from_slice(alloc, steps)?,
    })
}

/// No stay.
pub const NONE: Stay = Stay {
    ready: 0,
    off: 0,
    kind: Kind::Plain,
};

/// The load after a weekly rest to minute 405, the first step of the trip.
pub const LOAD: Step = Step {
    stay: Stay {
        ready: 0,
        off: 405,
        kind: Kind::Weekly,
    },
    act: Act::Load,
};

/// The leg to P, where the driver is at minute 480 after the load.
pub const OUT: Step = Step {
    stay: NONE,
    act: Act::Leg(1),
};

/// The service of the order, right after the step before.
pub const SERVE: Step = Step {
    stay: NONE,
    act: Act::Serve(0),
};

/// The leg home.
pub const HOME: Step = Step {
    stay: NONE,
    act: Act::Leg(0),
};
