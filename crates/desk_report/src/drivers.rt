// The lines of the drivers.
ghost use Rattle.std.specs.Prelude.{◌≡◌, ◌++◌, ◌∷◌, [], ◌<◌, OnOk, length, codes};
ghost use Rattle.std.specs.Fmt.{decimal};
ghost use Rattle.duty_plan.specs.Duties.{EachOf, IsCase, IsLawful, cost_after, partial_of};
ghost use Rattle.minute_line.specs.Writing.{with_line};
ghost use Rattle.desk_report.specs.Lines.{with_lines};
ghost use Rattle.desk_report.specs.Reports.{driver_name, text_at, driver_lines, drivers_lines};
ghost use Rattle.desk_report.specs.Steps.{StaysInWeek};

use crate::lines::push_long_line;
use crate::steps::{Days, push_duty};
use duty_plan::{Case, Duty, check_duty};
use minute_line::{Bytes, Memory, history_text, push_number, push_word};
use std::alloc::Global;
use week_book::Week;

/// The name of the driver of that number.
pub(crate) fn driver_name(week: &Week, driver: u32) -> &[u8]
    ensures { result.now ≡ driver_name week.now driver }
{
    match week.drivers.get(driver as usize) {
        Some(driver) => driver.name.as_slice(),
        None => &[],
    }
}

/// What a driver's lawful duty costs, in cents.
fn cost_of(case: &Case, driver: u32, duty: &Duty) -> u64
    requires case { IsCase case.now }
    requires driver { driver < length case.now.week.drivers }
    requires lawful { IsLawful case.now driver duty.now }
    ensures { result ≡ cost_after case.now driver (partial_of duty.now) }
{
    let Ok(cents) = check_duty(case, driver, duty) else {
        unreachable!();
    };
    cents
}

/// Adds the line of a driver and the cost of the duty.
fn push_cost(text: &mut Bytes, name: &[u8], cents: u64) -> Result<(), Memory>
    ensures { OnOk result (text.new ≡ with_line text.old (codes "driver") (name.now ∷ codes "cost" ∷ decimal cents ∷ [])) }
{
    text.extend_from_slice(b"driver")?;
    push_word(text, name)?;
    push_word(text, b"cost")?;
    push_number(text, cents)?;
    text.push(b'\n')
}

/// Adds the line of a driver's history.
fn push_past(alloc: Global, text: &mut Bytes, case: &Case, driver: u32) -> Result<(), Memory>
    requires case { IsCase case.now }
    requires driver { driver < length case.now.week.drivers }
    ensures { OnOk result (text.new ≡ with_line text.old (codes "past") (driver_name case.now.week driver ∷ text_at case.now driver ∷ [])) }
{
    let past = history_text(alloc, &case.past.as_slice()[driver as usize])?;
    push_long_line(
        text,
        b"past",
        driver_name(&case.week, driver),
        past.as_slice(),
    )
}

/// Adds the lines of a driver.
fn push_driver(
    alloc: Global,
    text: &mut Bytes,
    days: &Days,
    case: &Case,
    driver: u32,
    duty: &Duty,
) -> Result<(), Memory>
    requires case { IsCase case.now }
    requires driver { driver < length case.now.week.drivers }
    requires lawful { IsLawful case.now driver duty.now }
    ensures { OnOk result (text.new ≡ with_lines text.old (driver_lines days.now case.now driver duty.now)) }
{
    push_cost(
        text,
        driver_name(&case.week, driver),
        cost_of(case, driver, duty),
    )?;
    push_past(alloc, text, case, driver)?;
    push_duty(text, days, &case.week, duty)
}

/// Adds the lines of the drivers, in their order.
pub(crate) fn push_drivers(
    alloc: Global,
    text: &mut Bytes,
    days: &Days,
    case: &Case,
    duties: &[Duty],
) -> Result<(), Memory>
    requires case { IsCase case.now }
    requires drivers { length duties.now ≡ length case.now.week.drivers }
    requires lawful { EachOf (IsLawful case.now) duties.now }
    ensures { OnOk result (text.new ≡ with_lines text.old (drivers_lines days.now case.now 0 duties.now)) }
{
    for (driver, duty) in duties.iter().enumerate() {
        push_driver(alloc, text, days, case, driver as u32, duty)?;
    }
    Ok(())
}
