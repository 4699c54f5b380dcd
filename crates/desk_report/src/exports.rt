// The export of an outcome.
ghost use Rattle.std.specs.Prelude.{◌≡◌, ◌++◌, ◌∷◌, [], ◌≤◌, OnOk, IfOk, length};
ghost use Rattle.duty_plan.specs.Duties.{EachOf, IsCase, IsLawfulPlan, partial_of};
ghost use Rattle.desk_report.specs.Exports.{out_rows, outs_rows, IsExportOf};
ghost use Rattle.desk_report.specs.Steps.{StaysInWeek};

use crate::duty_rows::add_duties;
use crate::node_rows::add_nodes;
use crate::rows::{Row, write_rows};
use crate::services::{Service, service_of};
use crate::steps::Days;
use duty_plan::{Case, Duty, Outcome};
use minute_line::{Bytes, Many, Memory, week_days};
use std::alloc::Global;
use week_book::{Order, Week};

/// Adds the row of an order, where no duty serves it.
fn add_out(
    alloc: Global,
    rows: &mut Many<Row>,
    order: &Order,
    service: Option<Service>,
) -> Result<(), Memory>
    ensures { OnOk result (rows.new ≡ rows.old ++ out_rows order.now service) }
{
    if service.is_some() {
        return Ok(());
    }
    rows.push(
        Row::of(alloc, b"out")?
            .field(order.name.as_slice())?
            .number(alloc, order.price)?,
    )
}

/// Adds the rows of the subcontracted orders, in the order of the week.
fn add_outs(alloc: Global, rows: &mut Many<Row>, week: &Week, duties: &[Duty]) -> Result<(), Memory>
    requires few { (length duties.now ≤ 16) × (length week.now.orders ≤ 120) }
    requires in_week { EachOf (λ driver duty. StaysInWeek week.now (partial_of duty)) duties.now }
    ensures { OnOk result (rows.new ≡ rows.old ++ outs_rows week.now duties.now 0 week.now.orders) }
{
    for (number, order) in week.orders.as_slice().iter().enumerate() {
        let service = service_of(week, duties, number as u32);
        add_out(alloc, rows, order, service)?;
    }
    Ok(())
}

/// The export of an outcome whose plan is lawful, as rows of comma-separated fields: the week, the lines of each duty, the
/// subcontracted orders, and each node of the tree with its prices. Its time grows with the length of the text, and with the
/// number of orders times that of the steps.
pub fn export(alloc: Global, case: &Case, outcome: &Outcome) -> Result<Bytes, Memory>
    requires case { IsCase case.now }
    requires lawful { IsLawfulPlan case.now outcome.now.plan }
    ensures { IfOk result (IsExportOf case.now outcome.now) }
{
    let days: Days = week_days(case.week.monday);
    let duties = outcome.plan.duties.as_slice();
    let mut rows = Many::new(alloc);
    rows.push(Row::of(alloc, b"week")?.field(&days[0])?)?;
    add_duties(alloc, &mut rows, &days, &case.week, duties)?;
    add_outs(alloc, &mut rows, &case.week, duties)?;
    add_nodes(alloc, &mut rows, &case.week, outcome.tree.as_slice())?;
    write_rows(alloc, rows.as_slice())
}
