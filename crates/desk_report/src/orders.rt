// The lines of the orders.
ghost use Rattle.std.specs.Prelude.{◌≡◌, ◌∷◌, [], ◌<◌, ◌≤◌, OnOk, length, codes, Some, None, IfSome};
ghost use Rattle.std.specs.Fmt.{decimal};
ghost use Rattle.duty_plan.specs.Duties.{EachOf, partial_of};
ghost use Rattle.desk_report.specs.Lines.{add_line, with_lines};
ghost use Rattle.desk_report.specs.Reports.{order_line, orders_lines};
ghost use Rattle.desk_report.specs.Steps.{StaysInWeek};

use crate::drivers::driver_name;
use crate::services::{Service, service_of};
use crate::steps::Days;
use duty_plan::Duty;
use minute_line::{Bytes, Memory, push_number, push_word, stamp_in};
use week_book::{Order, Week};

/// Adds the line of an order that a driver serves.
fn push_by(
    text: &mut Bytes,
    days: &Days,
    week: &Week,
    order: &Order,
    service: Service,
) -> Result<(), Memory>
    requires { service.start < 10080 }
    ensures { OnOk result (text.new ≡ add_line text.old (order_line days.now week.now order.now (Some service))) }
{
    text.extend_from_slice(b"order")?;
    push_word(text, order.name.as_slice())?;
    push_word(text, b"by")?;
    push_word(text, driver_name(week, service.driver))?;
    push_word(text, &stamp_in(days, service.start))?;
    text.push(b'\n')
}

/// Adds the line of a subcontracted order.
fn push_out(text: &mut Bytes, order: &Order) -> Result<(), Memory>
    ensures { OnOk result (text.new ≡ add_line text.old (codes "order" ∷ order.now.name ∷ codes "out" ∷ decimal order.now.price ∷ [])) }
{
    text.extend_from_slice(b"order")?;
    push_word(text, order.name.as_slice())?;
    push_word(text, b"out")?;
    push_number(text, order.price)?;
    text.push(b'\n')
}

/// Adds the line of an order.
fn push_order(
    text: &mut Bytes,
    days: &Days,
    week: &Week,
    order: &Order,
    service: Option<Service>,
) -> Result<(), Memory>
    requires { IfSome service (λ service. service.start < 10080) }
    ensures { OnOk result (text.new ≡ add_line text.old (order_line days.now week.now order.now service)) }
{
    match service {
        Some(service) => push_by(text, days, week, order, service),
        None => push_out(text, order),
    }
}

/// Adds the lines of the orders, in their order.
pub(crate) fn push_orders(
    text: &mut Bytes,
    days: &Days,
    week: &Week,
    duties: &[Duty],
) -> Result<(), Memory>
    requires few { (length duties.now ≤ 16) × (length week.now.orders ≤ 120) }
    requires in_week { EachOf (λ driver duty. StaysInWeek week.now (partial_of duty)) duties.now }
    ensures { OnOk result (text.new ≡ with_lines text.old (orders_lines days.now week.now duties.now 0 week.now.orders)) }
{
    for (number, order) in week.orders.as_slice().iter().enumerate() {
        let service = service_of(week, duties, number as u32);
        push_order(text, days, week, order, service)?;
    }
    Ok(())
}
