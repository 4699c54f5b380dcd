// The judges of a duty and of a plan.
ghost use Rattle.std.specs.Prelude.{◌≡◌, ◌<◌, ◌≤◌, ◌^◌, ◌↔◌, IsOk, IfOk, length, reverse};
ghost use Rattle.duty_plan.specs.Duties.{EachOf, IsCase, IsLawful, IsLawfulPlan, partial_of, cost_after, cost_of_plan, duty_cost_limit, plan_cost_limit};
ghost use Rattle.duty_plan.specs.Verdicts.{duty_verdict, plan_verdict};
ghost use Rattle.duty_plan.specs.DutyChecks.{AnswersDuties};

use crate::duties::{Duty, Step};
use crate::duty_checks::DutyCheck;
use crate::faults::{DutyFault, PlanFault};
use crate::orders::{lost, price_of_all, twice};
use crate::plans::{Case, Plan};

/// As `check_duty`, of a driver's steps, from the first on.
pub fn check_steps(case: &Case, driver: u32, steps: &[Step]) -> Result<u64, DutyFault>
    requires case { IsCase case.now }
    requires driver { driver < length case.now.week.drivers }
    ensures verdict { result ≡ duty_verdict case.now driver (record { steps = steps.now }) }
    ensures lawful { IsOk result ↔ IsLawful case.now driver (record { steps = steps.now }) }
    ensures cost { IfOk result (λ cents. cents ≡ cost_after case.now driver (reverse steps.now)) }
{
    let history = &case.past.as_slice()[driver as usize];
    let lorry = &case.week.drivers.as_slice()[driver as usize];
    let mut check = DutyCheck::begin(history);
    for step in steps {
        match check.after(&case.week, lorry, history, step) {
            Ok(next) => check = next,
            Err(fault) => return Err(fault),
        }
    }
    check.end(lorry.fee)
}

/// The cost of a driver's duty, in cents, where it is lawful: the driver's fee, its legs, and a night for each daily rest
/// away from the depot; 0 where it has no step. Else its first fault.
///
/// The steps are tried in order, each by the tests in the order of `DutyFault`; then the way home, then the hours rules.
/// A duty may hold any numbers. The work grows with the number of steps.
pub fn check_duty(case: &Case, driver: u32, duty: &Duty) -> Result<u64, DutyFault>
    requires case { IsCase case.now }
    requires driver { driver < length case.now.week.drivers }
    ensures verdict { result ≡ duty_verdict case.now driver duty.now }
    ensures lawful { IsOk result ↔ IsLawful case.now driver duty.now }
    ensures cost { IfOk result (λ cents. cents ≡ cost_after case.now driver (partial_of duty.now)) }
    ensures limit { IfOk result (λ cents. cents ≤ duty_cost_limit) }
{
    check_steps(case, driver, duty.steps.as_slice())
}

/// The cost of the duties, where each is lawful for the driver of its number.
fn check_duties(case: &Case, duties: &[Duty]) -> Result<u64, PlanFault>
    requires case { IsCase case.now }
    requires few { length duties.now ≤ length case.now.week.drivers }
    ensures { AnswersDuties case.now duties.now result }
{
    let mut cents = 0;
    for (driver, duty) in duties.iter().enumerate() {
        match check_duty(case, driver as u32, duty) {
            Ok(cost) => cents += cost,
            Err(fault) => return Err(PlanFault::Duty(driver as u32, fault)),
        }
    }
    Ok(cents)
}

/// The cost of a plan, in cents, where it is lawful: its duties' costs and what subcontractors take. Else its first
/// fault, in this order: the number of duties, the first driver's duty that isn't lawful, the first order in two places,
/// the first in none.
///
/// Orders that are given away are orders of the week. The duties may hold any numbers.
pub fn check_plan(case: &Case, plan: &Plan) -> Result<u64, PlanFault>
    requires case { IsCase case.now }
    requires out { EachOf (λ n order. order < length case.now.week.orders) plan.now.out }
    requires few { length plan.now.duties < 2 ^ 32 }
    ensures verdict { result ≡ plan_verdict case.now plan.now }
    ensures lawful { IsOk result ↔ IsLawfulPlan case.now plan.now }
    ensures cost { IfOk result (λ cents. cents ≡ cost_of_plan case.now plan.now) }
    ensures limit { IfOk result (λ cents. cents ≤ plan_cost_limit) }
{
    let duties = plan.duties.as_slice();
    if duties.len() != case.week.drivers.len() {
        return Err(PlanFault::Duties(duties.len() as u32));
    }
    let cents = match check_duties(case, duties) {
        Ok(cents) => cents,
        Err(fault) => return Err(fault),
    };
    if let Some(order) = twice(&case.week, plan) {
        return Err(PlanFault::Twice(order));
    }
    if let Some(order) = lost(&case.week, plan) {
        return Err(PlanFault::Lost(order));
    }
    Ok(cents + price_of_all(&case.week, plan.out.as_slice()))
}
