// One driver is priced, and the answer is that of all trips of the week, listed one by one, and one that was worked out by hand:
// each trip costs the fee of 2,000 and two legs of 3,000, and is paid the prices of its orders.
ghost use Rattle.std.specs.Prelude.{◌<◌, ◌≤◌, length, IfOk};
ghost use Rattle.duty_plan.specs.Duties.{IsCase};
ghost use Rattle.duty_plan.specs.Values.{IsPairs, IsPrices};

use crate::listing::{Offer, least_listed};
use crate::weeks::{ONE_ORDER, THREE_ORDERS};
use duty_plan::Pair::{self, Barred, Forced, Free};
use duty_pricing::{Found, give_back, make_scratch, price_driver};
use label_arena::Arena;
use minute_line::Memory;
use sample_weeks::{Desk, desk_of_text};
use std::alloc::Global;
use std::process::Abort;
use std::test::Fail;

/// What a pricing finds with so many chunks and a beam so wide.
fn priced(alloc: Global, desk: &Desk, chunks: u32, widest: u32) -> Result<Found, Memory>
    requires case { IsCase desk.now.case }
    requires driver { 0 < length desk.now.case.week.drivers }
    requires pairs { IsPairs desk.now.case.week desk.now.pairs }
    requires prices { IsPrices desk.now.case.week desk.now.prices }
    requires few { chunks ≤ 2048 }
{
    let mut scratch = make_scratch(alloc)?;
    scratch.widest = widest;
    let (round, seats) = Arena::make(alloc, chunks)?.open_round(alloc, 1)?;
    let mut seats = seats.into_vec();
    let Some(mut seat) = seats.pop() else {
        unreachable!()
    };
    let found = price_driver(
        &desk.case,
        0,
        &desk.pairs,
        &desk.prices,
        &round,
        &mut seat,
        &mut scratch,
    );
    give_back(&round, &mut seat, &mut scratch);
    Ok(found)
}

/// The desk of three orders.
fn desk_of_three(alloc: Global, offer: &Offer) -> Result<Desk, Fail>
    ensures { IfOk result (λ desk. IsCase desk.case × (0 < length desk.case.week.drivers) × IsPairs desk.case.week desk.pairs
        × IsPrices desk.case.week desk.prices) }
{
    let [a, b, c] = offer.cents;
    let cents = [u64::from(a), u64::from(b), u64::from(c)];
    desk_of_text(alloc, THREE_ORDERS, &offer.pairs, &cents)
}

/// The least value of the trips that are listed.
fn listed(alloc: Global, offer: &Offer) -> Result<Found, Fail> {
    let desk = desk_of_three(alloc, offer)?;
    Ok(least_listed(alloc, &desk.case, offer)?)
}

/// What is found of three orders, with a beam so wide.
fn found(alloc: Global, offer: &Offer, widest: u32) -> Result<Found, Fail> {
    let desk = desk_of_three(alloc, offer)?;
    Ok(priced(alloc, &desk, 64, widest)?)
}

/// Asserts that the list of trips, a pricing without a beam and one with the widest all come to that.
fn assert_found(
    rt: &impl Abort,
    alloc: Global,
    offer: &Offer,
    expected: Found,
) -> Result<(), Fail> {
    assert_eq!(rt; listed(alloc, offer)?, expected);
    assert_eq!(rt; found(alloc, offer, 0)?, expected);
    assert_eq!(rt; found(alloc, offer, 64)?, expected);
    Ok(())
}

#[test]
fn a_trip_serves_both_orders_that_fit(rt: HostRuntime) -> Result<(), Fail> {
    let offer = Offer {
        pairs: [Free, Free, Free],
        cents: [9000, 9000, 9500],
    };
    assert_found(&rt, rt.alloc(), &offer, Found::Least(-10_000))
}

#[test]
fn one_dear_order_is_better_than_two_cheap_ones(rt: HostRuntime) -> Result<(), Fail> {
    let offer = Offer {
        pairs: [Free, Free, Free],
        cents: [4000, 4500, 9000],
    };
    assert_found(&rt, rt.alloc(), &offer, Found::Least(-1000))
}

#[test]
fn a_barred_order_is_left_out(rt: HostRuntime) -> Result<(), Fail> {
    let offer = Offer {
        pairs: [Free, Barred, Free],
        cents: [9000, 9000, 9500],
    };
    assert_found(&rt, rt.alloc(), &offer, Found::Least(-1500))
}

#[test]
fn a_forced_order_is_served_at_a_loss(rt: HostRuntime) -> Result<(), Fail> {
    let offer = Offer {
        pairs: [Forced, Free, Free],
        cents: [100, 4000, 9500],
    };
    assert_found(&rt, rt.alloc(), &offer, Found::Least(3900))
}

#[test]
fn two_forced_orders_that_do_not_fit_leave_no_duty(rt: HostRuntime) -> Result<(), Fail> {
    let offer = Offer {
        pairs: [Forced, Free, Forced],
        cents: [9000, 9000, 9500],
    };
    assert_found(&rt, rt.alloc(), &offer, Found::NoDuty)
}

/// What is found of one order for 9,000.
fn found_of_one(alloc: Global, pair: Pair, chunks: u32) -> Result<Found, Fail>
    requires { chunks ≤ 2048 }
{
    let desk = desk_of_text(alloc, ONE_ORDER, &[pair], &[9000])?;
    Ok(priced(alloc, &desk, chunks, 64)?)
}

#[test]
fn one_trip_is_worth_its_price(rt: HostRuntime) -> Result<(), Fail> {
    let found = found_of_one(rt.alloc(), Free, 64)?;
    assert_eq!(rt; found, Found::Least(-1000));
    Ok(())
}

#[test]
fn without_a_chunk_no_label_is_stored(rt: HostRuntime) -> Result<(), Fail> {
    let found = found_of_one(rt.alloc(), Free, 0)?;
    assert_eq!(rt; found, Found::Spent(0));
    Ok(())
}

#[test]
fn one_chunk_is_enough_to_stay_at_home(rt: HostRuntime) -> Result<(), Fail> {
    let found = found_of_one(rt.alloc(), Barred, 1)?;
    assert_eq!(rt; found, Found::Least(0));
    Ok(())
}
