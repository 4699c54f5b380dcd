// What duties serve, and what they leave to be given away.
ghost use Rattle.std.specs.Prelude.{◌≡◌, ◌≤◌, true, false, IfOk};
ghost use Rattle.duty_plan.specs.Acts.{serves_order};
ghost use Rattle.duty_plan.specs.Duties.{IsCase, carried, partial_of, times};
ghost use Rattle.duty_plan.specs.PartialDuties.{serves};
ghost use Rattle.price_master.specs.Completing.{IsRest};

use duty_plan::{Act, Case, Duty};
use minute_line::{Many, Memory};
use std::alloc::Global;

/// Whether the act serves the order.
fn is_service(act: Act, order: u32) -> bool
    ensures { result ≡ serves_order order act }
{
    match act {
        Act::Serve(served) => order == served,
        Act::Leg(_) | Act::Load => false,
    }
}

/// Whether a step of the duty serves the order.
pub fn serves_in(duty: &Duty, order: u32) -> bool
    ensures { result ≡ serves order (partial_of duty.now) }
{
    for step in duty.steps.as_slice() {
        if is_service(step.act, order) {
            return true;
        }
    }
    false
}

/// Whether a duty serves the order.
fn is_served(duties: &[Duty], order: u32) -> bool
    ensures served { result ≡ true → 1 ≤ times order (carried duties.now) }
    ensures none { result ≡ false → times order (carried duties.now) ≡ 0 }
{
    for duty in duties {
        if serves_in(duty, order) {
            return true;
        }
    }
    false
}

/// The orders that none of the duties serves.
pub fn rest(alloc: Global, case: &Case, duties: &[Duty]) -> Result<Many<u32>, Memory>
    requires case { IsCase case.now }
    ensures { IfOk result (λ out. IsRest case.now duties.now out) }
{
    let mut out = Many::new(alloc);
    for order in 0..case.week.orders.len() as u32 {
        if !is_served(duties, order) {
            out.push(order)?;
        }
    }
    Ok(out)
}
