// The rows of the duties.
ghost use Rattle.std.specs.Prelude.{◌≡◌, ◌++◌, ◌∷◌, [], ◌+◌, ◌<◌, ◌≤◌, OnOk, IfOk, length};
ghost use Rattle.std.specs.Fmt.{decimal};
ghost use Rattle.minute_line.specs.DateWriting.{stamp_text};
ghost use Rattle.duty_plan.specs.Acts.{minutes_of};
ghost use Rattle.duty_plan.specs.Duties.{EachOf, partial_of};
ghost use Rattle.desk_report.specs.Exports.{duty_row, ready_rows, off_rows, act_row, step_rows, duty_rows, duties_rows};
ghost use Rattle.desk_report.specs.Steps.{StaysInWeek};

use crate::drivers::driver_name;
use crate::rows::Row;
use crate::steps::{Days, Whereabouts, kind_word, order_name, place_name};
use duty_plan::{Act, Duty, Step, minutes_at};
use minute_line::{Kind, Many, Memory, stamp_in};
use std::alloc::Global;
use week_book::Week;

/// A row of a driver's duty, at the stamp of its first minute.
fn duty_row(
    alloc: Global,
    days: &Days,
    driver: &[u8],
    at: u32,
    what: &[u8],
    name: &[u8],
    minutes: u32,
) -> Result<Row, Memory>
    requires { at < 10080 }
    ensures { IfOk result (λ row. row ≡ duty_row days.now driver.now at what.now name.now minutes) }
{
    Row::of(alloc, b"duty")?
        .field(driver)?
        .field(&stamp_in(days, at))?
        .field(what)?
        .field(name)?
        .number(alloc, minutes as u64)
}

/// Adds the row of Ready minutes, where there are some.
fn add_ready(
    alloc: Global,
    rows: &mut Many<Row>,
    days: &Days,
    driver: &[u8],
    at: u32,
    ready: u32,
) -> Result<(), Memory>
    requires { at < 10080 }
    ensures { OnOk result (rows.new ≡ rows.old ++ ready_rows days.now driver.now at ready) }
{
    if ready == 0 {
        return Ok(());
    }
    rows.push(duty_row(alloc, days, driver, at, b"ready", b"", ready)?)
}

/// Adds the row of Off minutes, where there are some or they are a rest.
fn add_off(
    alloc: Global,
    rows: &mut Many<Row>,
    days: &Days,
    driver: &[u8],
    at: u32,
    off: u32,
    kind: Kind,
) -> Result<(), Memory>
    requires { at < 10080 }
    ensures { OnOk result (rows.new ≡ rows.old ++ off_rows days.now driver.now at off kind) }
{
    if off == 0 && !kind.is_rest() {
        return Ok(());
    }
    rows.push(duty_row(alloc, days, driver, at, kind_word(kind), b"", off)?)
}

/// The row of an act that starts at a minute.
fn act_row(
    alloc: Global,
    days: &Days,
    week: &Week,
    driver: &[u8],
    start: u32,
    minutes: u32,
    act: Act,
) -> Result<Row, Memory>
    requires { start < 10080 }
    ensures { IfOk result (λ row. row ≡ act_row days.now week.now driver.now start minutes act) }
{
    match act {
        Act::Leg(to) => {
            let place = place_name(week, to);
            duty_row(alloc, days, driver, start, b"drive", place, minutes)
        }
        Act::Serve(order) => {
            let order = order_name(week, order);
            duty_row(alloc, days, driver, start, b"serve", order, minutes)
        }
        Act::Load => duty_row(alloc, days, driver, start, b"load", b"", minutes),
    }
}

/// Adds the rows of a step.
fn add_step(
    alloc: Global,
    rows: &mut Many<Row>,
    days: &Days,
    week: &Week,
    driver: &[u8],
    here: Whereabouts,
    step: &Step,
) -> Result<(), Memory>
    requires { here.at + step.now.stay.ready + step.now.stay.off < 10080 }
    ensures { OnOk result (rows.new ≡ rows.old ++ step_rows days.now week.now driver.now here.at here.place step.now) }
{
    let stay = step.stay;
    let minutes = minutes_at(week, here.place, step.act);
    add_ready(alloc, rows, days, driver, here.at, stay.ready)?;
    add_off(
        alloc,
        rows,
        days,
        driver,
        here.at + stay.ready,
        stay.off,
        stay.kind,
    )?;
    rows.push(act_row(
        alloc,
        days,
        week,
        driver,
        here.start(step),
        minutes,
        step.act,
    )?)
}

/// Adds the rows of a duty.
fn add_duty(
    alloc: Global,
    rows: &mut Many<Row>,
    days: &Days,
    week: &Week,
    driver: &[u8],
    duty: &Duty,
) -> Result<(), Memory>
    requires { StaysInWeek week.now (partial_of duty.now) }
    ensures { OnOk result (rows.new ≡ rows.old ++ duty_rows days.now week.now driver.now (partial_of duty.now)) }
{
    let mut here = Whereabouts::on_monday();
    for step in duty.steps.as_slice() {
        add_step(alloc, rows, days, week, driver, here, step)?;
        here = here.after(week, step);
    }
    Ok(())
}

/// Adds the rows of the duties, in the order of their drivers.
pub(crate) fn add_duties(
    alloc: Global,
    rows: &mut Many<Row>,
    days: &Days,
    week: &Week,
    duties: &[Duty],
) -> Result<(), Memory>
    requires few { length duties.now ≤ 16 }
    requires in_week { EachOf (λ driver duty. StaysInWeek week.now (partial_of duty)) duties.now }
    ensures { OnOk result (rows.new ≡ rows.old ++ duties_rows days.now week.now 0 duties.now) }
{
    for (driver, duty) in duties.iter().enumerate() {
        let name = driver_name(week, driver as u32);
        add_duty(alloc, rows, days, week, name, duty)?;
    }
    Ok(())
}
