// The cheapest plan of pooled duties.
ghost use Rattle.std.specs.Prelude.{◌<◌, IfOk, Some};
ghost use Rattle.duty_plan.specs.Duties.{IsCase};
ghost use Rattle.price_master.specs.Pools.{IsPicked, IsPool};
ghost use Rattle.price_master.specs.Completing.{IsRest};
ghost use Rattle.price_master.specs.Placing.{AreDutiesAt, IsDutyAt};

use crate::bidding::bids_of;
use crate::completing::rest;
use crate::exploring::best_choice;
use crate::hoping::Places;
use crate::pooling::{Pool, Pooled};
use duty_plan::{Case, Duty, Plan, check_plan, copied_duty};
use minute_line::{Many, Memory};
use std::alloc::Global;

/// A plan of pooled duties, and what it costs in cents.
#[derive(Drop)]
pub enum Picked {
    /// No plan of pooled duties costs less.
    Least(Plan, u64),
    /// The search for such a plan was cut after 20,000 turns, each of which fixes one driver's duty.
    Cut(Plan, u64),
}

/// A copy of the duty at that place, or the empty duty.
fn duty_at(alloc: Global, pooled: &[Pooled], place: u32) -> Result<Duty, Memory>
    ensures { IfOk result (λ duty. IsDutyAt pooled.now place duty) }
{
    match pooled.get(place as usize) {
        Some(entry) => copied_duty(alloc, &entry.duty),
        None => Ok(Duty {
            steps: Many::new(alloc),
        }),
    }
}

/// The drivers' duties at these places.
fn duties_at(alloc: Global, case: &Case, pool: &Pool, places: Places) -> Result<Many<Duty>, Memory>
    requires case { IsCase case.now }
    requires pool { IsPool case.now pool.now }
    ensures { IfOk result (λ duties. AreDutiesAt pool.now places duties) }
{
    let mut duties = Many::new(alloc);
    for driver in 0..case.week.drivers.len() as u32 {
        duties.push(duty_at(alloc, pool.of(driver), places[driver as usize])?)?;
    }
    Ok(duties)
}

/// The plan of the duties at these places, with the rest given away.
fn plan_at(alloc: Global, case: &Case, pool: &Pool, places: Places) -> Result<Plan, Memory>
    requires case { IsCase case.now }
    requires pool { IsPool case.now pool.now }
    ensures duties { IfOk result (λ plan. AreDutiesAt pool.now places plan.duties) }
    ensures rest { IfOk result (λ plan. IsRest case.now plan.duties plan.out) }
{
    let duties = duties_at(alloc, case, pool, places)?;
    let out = rest(alloc, case, duties.as_slice())?;
    Ok(Plan { duties, out })
}

/// The cheapest of the plans that give each driver a duty of the pool or the empty one, serve no order twice and give the
/// rest away. Where it is cut, the plan costs no more than any plan of at most one pooled duty.
pub fn pick(alloc: Global, case: &Case, pool: &Pool) -> Result<Picked, Memory>
    requires case { IsCase case.now }
    requires pool { IsPool case.now pool.now }
    ensures { IfOk result (λ picked. IsPicked case.now pool.now picked) }
{
    let bids = bids_of(alloc, case, pool)?;
    let found = best_choice(alloc, bids.as_slice())?;
    let plan = plan_at(alloc, case, pool, found.places)?;
    let cost = match check_plan(case, &plan) {
        Ok(cost) => cost,
        Err(_) => unreachable!(),
    };
    if found.is_cut {
        Ok(Picked::Cut(plan, cost))
    } else {
        Ok(Picked::Least(plan, cost))
    }
}
