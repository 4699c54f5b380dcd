// Who serves an order, and when.
ghost use Rattle.std.specs.Prelude.{◌≡◌, ◌+◌, ◌<◌, ◌≤◌, if◌then◌else◌, Some, IfSome, length};
ghost use Rattle.duty_plan.specs.Acts.{serves_order};
ghost use Rattle.duty_plan.specs.Duties.{EachOf, partial_of};
ghost use Rattle.desk_report.specs.Services.{service_start, service_from};
ghost use Rattle.desk_report.specs.Steps.{StaysInWeek};

use crate::steps::Whereabouts;
use duty_plan::{Act, Duty, Step};
use week_book::Week;

/// A service of an order: the driver's number, and the week minute at which it starts.
#[derive(Clone, Copy)]
pub(crate) struct Service {
    pub(crate) driver: u32,
    pub(crate) start: u32,
}

/// Whether the act serves the order.
fn is_service(act: Act, order: u32) -> bool
    ensures { result ≡ serves_order order act }
{
    match act {
        Act::Serve(served) => order == served,
        Act::Leg(_) | Act::Load => false,
    }
}

/// The start of a step that serves the order, or what was found before it.
fn start_at(found: Option<u32>, here: Whereabouts, step: &Step, order: u32) -> Option<u32>
    requires { here.at + step.now.stay.ready + step.now.stay.off < 10080 }
    ensures { result ≡ (if serves_order order step.now.act then Some (here.at + step.now.stay.ready + step.now.stay.off) else found) }
{
    if is_service(step.act, order) {
        Some(here.start(step))
    } else {
        found
    }
}

/// The week minute at which a duty starts to serve an order.
fn start_in(week: &Week, duty: &Duty, order: u32) -> Option<u32>
    requires { StaysInWeek week.now (partial_of duty.now) }
    ensures start { result ≡ service_start week.now order (partial_of duty.now) }
    ensures in_week { IfSome result (λ start. start < 10080) }
{
    let mut here = Whereabouts::on_monday();
    let mut found = None;
    for step in duty.steps.as_slice() {
        found = start_at(found, here, step, order);
        here = here.after(week, step);
    }
    found
}

/// The service of an order by the first of the duties that serves it.
pub(crate) fn service_of(week: &Week, duties: &[Duty], order: u32) -> Option<Service>
    requires few { length duties.now ≤ 16 }
    requires in_week { EachOf (λ driver duty. StaysInWeek week.now (partial_of duty)) duties.now }
    ensures service { result ≡ service_from week.now 0 duties.now order }
    ensures in_week { IfSome result (λ service. service.start < 10080) }
{
    for (driver, duty) in duties.iter().enumerate() {
        if let Some(start) = start_in(week, duty, order) {
            return Some(Service {
                driver: driver as u32,
                start,
            });
        }
    }
    None
}
