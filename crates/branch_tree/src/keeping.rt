// The cheapest plan so far.
ghost use Rattle.std.specs.Prelude.{◌≡◌, ◌<◌, ◌≤◌, ◌^◌, [], length, replicate, IfOk};
ghost use Rattle.duty_plan.specs.Duties.{EachOf, IsCase, IsLawfulPlan, cost_of_plan};
ghost use Rattle.price_master.specs.Pools.{IsPool};
ghost use Rattle.branch_tree.specs.Growth.{IsKept};
ghost use Rattle.branch_tree.specs.Keeping.{AreAllOrders};

use duty_plan::{Case, Duty, Plan, check_plan};
use minute_line::{Many, Memory};
use price_master::{Pool, empty_pool};
use std::alloc::Global;
use week_book::Driver;

/// What a search keeps from round to round: the cheapest plan so far, what it costs in cents, and the duties of whole rounds.
#[derive(Drop)]
pub(crate) struct Kept {
    pub plan: Plan,
    pub cost: u64,
    pub pool: Pool,
}

/// Keeps the plan in place of the one so far, where it is lawful and costs less.
pub(crate) fn offer(case: &Case, kept: &mut Kept, plan: Plan)
    requires case { IsCase case.now }
    requires kept { IsKept case.now kept.old.plan kept.old.cost }
    requires out { EachOf (λ n order. order < length case.now.week.orders) plan.out }
    requires few { length plan.duties < 2 ^ 32 }
    ensures kept { IsKept case.now kept.new.plan kept.new.cost }
    ensures falls { kept.new.cost ≤ kept.old.cost }
    ensures taken { IsLawfulPlan case.now plan → kept.new.cost ≤ cost_of_plan case.now plan }
    ensures pool { kept.new.pool ≡ kept.old.pool }
{
    let cost = match check_plan(case, &plan) {
        Ok(cost) => cost,
        Err(_) => return,
    };
    if cost < kept.cost {
        kept.plan = plan;
        kept.cost = cost;
    }
}

/// An empty duty for each driver.
fn homes(alloc: Global, drivers: &[Driver]) -> Result<Many<Duty>, Memory>
    ensures { IfOk result (λ duties. duties ≡ replicate (length drivers.now) (record { steps = [] })) }
{
    let mut duties = Many::new(alloc);
    for _driver in drivers {
        duties.push(Duty {
            steps: Many::new(alloc),
        })?;
    }
    Ok(duties)
}

/// The numbers of all orders.
fn all_orders(alloc: Global, orders: u32) -> Result<Many<u32>, Memory>
    ensures { IfOk result (λ out. AreAllOrders orders out) }
{
    let mut out = Many::new(alloc);
    for order in 0..orders {
        out.push(order)?;
    }
    Ok(out)
}

/// The plan that gives all orders away, and no duties.
pub(crate) fn first_kept(alloc: Global, case: &Case) -> Result<Kept, Memory>
    requires case { IsCase case.now }
    ensures kept { IfOk result (λ kept. IsKept case.now kept.plan kept.cost) }
    ensures pool { IfOk result (λ kept. IsPool case.now kept.pool) }
{
    let duties = homes(alloc, case.week.drivers.as_slice())?;
    let out = all_orders(alloc, case.week.orders.len() as u32)?;
    let pool = empty_pool(alloc, case.week.drivers.len() as u32)?;
    let plan = Plan { duties, out };
    match check_plan(case, &plan) {
        Ok(cost) => Ok(Kept { plan, cost, pool }),
        Err(_) => unreachable!(),
    }
}
