// What pooled duties bid: the orders that they serve, and what they save.
ghost use Rattle.std.specs.Prelude.{◌≡◌, ◌+◌, ◌<◌, ◌≤◌, ◌^◌, length, if◌then◌else◌, IfOk};
ghost use Rattle.duty_plan.specs.Duties.{EachOf, IsCase};
ghost use Rattle.price_master.specs.Pools.{IsEntry, IsPool};
ghost use Rattle.price_master.specs.Bids.{AreBids, AreBidsOfAll, bid_by};

use crate::completing::serves_in;
use crate::pooling::{Pool, Pooled};
use crate::reading::most;
use duty_plan::Case;
use minute_line::{Many, Memory};
use std::alloc::Global;

/// The place of no duty: it stands for the empty one.
pub(crate) const HOME: u32 = u32::MAX;

/// A duty that a driver may be given, told by its place in the driver's list: the orders that it serves, order n as the bit
/// n, and what it saves beside giving them away, in cents.
#[derive(Clone, Copy, PartialEq, Eq)]
pub(crate) struct Bid {
    pub place: u32,
    pub served: u128,
    pub saving: u64,
}

/// The bid of the empty duty.
const NO_DUTY: Bid = Bid {
    place: HOME,
    served: 0,
    saving: 0,
};

/// The bit of the order, or none.
fn bit_of(order: u32, is_in: bool) -> u128
    requires { order < 128 }
    ensures { result ≡ (if is_in then 2 ^ order else 0) }
{
    if is_in { 1 << order } else { 0 }
}

/// The price, or nothing.
fn price_if(is_in: bool, price: u64) -> u64
    requires { price ≤ 100000000 }
    ensures value { result ≡ (if is_in then price else 0) }
    ensures bound { result ≤ 100000000 }
{
    if is_in { price } else { 0 }
}

/// What the duty at that place of the driver's list bids.
fn bid_of(case: &Case, driver: u32, place: u32, entry: &Pooled) -> Bid
    requires case { IsCase case.now }
    requires entry { IsEntry case.now driver entry.now }
    ensures value { result ≡ bid_by case.now.week place entry.now }
    ensures small { result.saving ≤ 1099511627776 }
{
    let mut served = 0;
    let mut worth = 0;
    for order in 0..case.week.orders.len() as u32 {
        let is_in = serves_in(&entry.duty, order);
        served |= bit_of(order, is_in);
        worth += price_if(is_in, most(&case.week, order));
    }
    Bid {
        place,
        served,
        saving: worth.saturating_sub(entry.cost),
    }
}

/// The bids of a driver's duties that save anything, and last that of the empty duty.
fn bids_of_driver(
    alloc: Global,
    case: &Case,
    driver: u32,
    pooled: &[Pooled],
) -> Result<Many<Bid>, Memory>
    requires case { IsCase case.now }
    requires few { length pooled.now ≤ 64 }
    requires entries { EachOf (λ n entry. IsEntry case.now driver entry) pooled.now }
    ensures { IfOk result (λ bids. AreBids case.now.week pooled.now bids) }
{
    let mut bids = Vec::new(alloc);
    for place in 0..pooled.len() as u32 {
        let bid = bid_of(case, driver, place, &pooled[place as usize]);
        if bid.saving > 0 {
            bids.push(bid)?;
        }
    }
    bids.push(NO_DUTY)?;
    Ok(Many::from_vec(bids))
}

/// The bids for each driver.
pub(crate) fn bids_of(alloc: Global, case: &Case, pool: &Pool) -> Result<Many<Many<Bid>>, Memory>
    requires case { IsCase case.now }
    requires pool { IsPool case.now pool.now }
    ensures { IfOk result (λ bids. AreBidsOfAll case.now.week pool.now bids) }
{
    let mut bids = Many::new(alloc);
    for driver in 0..case.week.drivers.len() as u32 {
        bids.push(bids_of_driver(alloc, case, driver, pool.of(driver))?)?;
    }
    Ok(bids)
}
