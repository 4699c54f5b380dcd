// Plans in the making.
ghost use Rattle.std.specs.Prelude.{◌≡◌, ◌<◌, ◌≤◌, ◌*◌, length, IfOk, MatchOption};
ghost use Rattle.duty_plan.specs.Duties.{IsCase};
ghost use Rattle.duty_plan.specs.Values.{IsPairs};
ghost use Rattle.cheap_plans.specs.Drafts.{IsDraft};

use duty_plan::{Case, Duty, Pair, Pairs, copied_duty};
use minute_line::{Many, Memory};
use price_master::serves_in;
use std::alloc::Global;

/// A duty for each driver, and whether the driver is freed: a freed one may be given another duty, of orders that no driver
/// who isn't freed serves.
#[derive(Drop)]
pub(crate) struct Draft {
    pub duties: Many<Duty>,
    pub freed: Many<bool>,
}

/// The duty without a step.
pub(crate) fn no_duty(alloc: Global) -> Duty {
    Duty {
        steps: Many::new(alloc),
    }
}

/// Empty duties for drivers who are all freed.
pub(crate) fn no_duties(alloc: Global, case: &Case) -> Result<Draft, Memory>
    ensures { IfOk result (IsDraft case.now) }
{
    let mut duties = Many::new(alloc);
    let mut freed = Many::new(alloc);
    for _driver in case.week.drivers.as_slice() {
        duties.push(no_duty(alloc))?;
        freed.push(true)?;
    }
    Ok(Draft { duties, freed })
}

/// Copies of the duties.
pub(crate) fn copied_duties(alloc: Global, duties: &[Duty]) -> Result<Many<Duty>, Memory>
    ensures { IfOk result (λ copies. length copies ≡ length duties.now) }
{
    let mut copies = Many::new(alloc);
    for duty in duties {
        copies.push(copied_duty(alloc, duty)?)?;
    }
    Ok(copies)
}

/// For each driver whether it is this one.
pub(crate) fn alone(alloc: Global, drivers: u32, driver: u32) -> Result<Many<bool>, Memory>
    ensures { IfOk result (λ freed. length freed ≡ drivers) }
{
    let mut freed = Many::new(alloc);
    for other in 0..drivers {
        freed.push(other == driver)?;
    }
    Ok(freed)
}

/// The first freed driver.
pub(crate) fn first_freed(freed: &[bool]) -> Option<u32>
    requires few { length freed.now ≤ 16 }
    ensures { MatchOption result Unit (λ driver. driver < length freed.now) }
{
    for driver in 0..freed.len() as u32 {
        if freed[driver as usize] {
            return Some(driver);
        }
    }
    None
}

/// Whether the duty of a driver who isn't freed serves the order.
fn is_taken(case: &Case, draft: &Draft, order: u32) -> bool
    requires case { IsCase case.now }
    requires draft { IsDraft case.now draft.now }
{
    for driver in 0..draft.duties.len() {
        if !draft.freed.as_slice()[driver] && serves_in(&draft.duties.as_slice()[driver], order) {
            return true;
        }
    }
    false
}

/// For each order whether the duty of a driver who isn't freed serves it.
fn taken_orders(alloc: Global, case: &Case, draft: &Draft) -> Result<Many<bool>, Memory>
    requires case { IsCase case.now }
    requires draft { IsDraft case.now draft.now }
    ensures { IfOk result (λ taken. length taken ≡ length case.now.week.orders) }
{
    let mut taken = Many::new(alloc);
    for order in 0..case.week.orders.len() as u32 {
        taken.push(is_taken(case, draft, order))?;
    }
    Ok(taken)
}

fn pair(is_free: bool) -> Pair {
    if is_free { Pair::Free } else { Pair::Barred }
}

/// For each freed driver the orders that no driver serves who isn't freed are Free, and all else is Barred.
pub(crate) fn freed_pairs(alloc: Global, case: &Case, draft: &Draft) -> Result<Pairs, Memory>
    requires case { IsCase case.now }
    requires draft { IsDraft case.now draft.now }
    ensures { IfOk result (IsPairs case.now.week) }
{
    let taken = taken_orders(alloc, case, draft)?;
    let orders = case.week.orders.len() as u32;
    let drivers = case.week.drivers.len() as u32;
    let mut cells = Many::new(alloc);
    for cell in 0..drivers * orders {
        let is_freed = draft.freed.as_slice()[(cell / orders) as usize];
        let is_taken = taken.as_slice()[(cell % orders) as usize];
        cells.push(pair(is_freed && !is_taken))?;
    }
    Ok(Pairs { orders, cells })
}
