// The cheapest plan so far.
ghost use Rattle.std.specs.Prelude.{◌≡◌, ◌<◌, ◌≤◌, ◌^◌, length};
ghost use Rattle.duty_plan.specs.Duties.{EachOf, IsCase};
ghost use Rattle.duty_plan.specs.Trees.{IsPlanAtCost};
ghost use Rattle.price_master.specs.Pools.{IsPool};

use crate::drafts::copied_duties;
use duty_plan::{Case, Duty, Plan, check_plan};
use minute_line::Memory;
use price_master::{Picked, Pool, pick, rest};
use std::alloc::Global;

/// The cheapest plan so far, and what it costs in cents.
#[derive(Drop)]
pub struct Incumbent {
    pub plan: Plan,
    pub cost: u64,
}

/// Takes the plan in place of the one so far, where it is lawful and costs less.
fn offer(case: &Case, incumbent: &mut Incumbent, plan: Plan)
    requires case { IsCase case.now }
    requires lawful { IsPlanAtCost case.now incumbent.old.plan incumbent.old.cost }
    requires out { EachOf (λ n order. order < length case.now.week.orders) plan.out }
    requires few { length plan.duties < 2 ^ 32 }
    ensures lawful { IsPlanAtCost case.now incumbent.new.plan incumbent.new.cost }
    ensures falls { incumbent.new.cost ≤ incumbent.old.cost }
{
    let cost = match check_plan(case, &plan) {
        Ok(cost) => cost,
        Err(_) => return,
    };
    if cost < incumbent.cost {
        incumbent.plan = plan;
        incumbent.cost = cost;
    }
}

/// Offers the plan of these duties, which gives the orders away that none of them serves.
pub(crate) fn offer_duties(
    alloc: Global,
    case: &Case,
    incumbent: &mut Incumbent,
    duties: &[Duty],
) -> Result<(), Memory>
    requires case { IsCase case.now }
    requires lawful { IsPlanAtCost case.now incumbent.old.plan incumbent.old.cost }
    requires duties { length duties.now ≡ length case.now.week.drivers }
    ensures lawful { IsPlanAtCost case.now incumbent.new.plan incumbent.new.cost }
    ensures falls { incumbent.new.cost ≤ incumbent.old.cost }
{
    let out = rest(alloc, case, duties)?;
    let duties = copied_duties(alloc, duties)?;
    offer(case, incumbent, Plan { duties, out });
    Ok(())
}

/// Offers the plan that is picked from the pool.
pub(crate) fn offer_picked(
    alloc: Global,
    case: &Case,
    incumbent: &mut Incumbent,
    pool: &Pool,
) -> Result<(), Memory>
    requires case { IsCase case.now }
    requires lawful { IsPlanAtCost case.now incumbent.old.plan incumbent.old.cost }
    requires pool { IsPool case.now pool.now }
    ensures lawful { IsPlanAtCost case.now incumbent.new.plan incumbent.new.cost }
    ensures falls { incumbent.new.cost ≤ incumbent.old.cost }
{
    match pick(alloc, case, pool)? {
        Picked::Least(plan, _) | Picked::Cut(plan, _) => offer(case, incumbent, plan),
    }
    Ok(())
}
