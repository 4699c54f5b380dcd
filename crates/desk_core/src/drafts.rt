// The draft of a planned week.
ghost use Rattle.std.specs.Prelude.{◌≡◌, ◌<◌, ◌≤◌, ◌≤ℤ◌, pos, length, map, slice_get, IfOk, IfSome, option_map};
ghost use Rattle.minute_line.specs.Histories.{fields_of};
ghost use Rattle.duty_plan.specs.Duties.{EachOf, IsCase, IsLawful, IsLawfulPlan, partial_of};
ghost use Rattle.desk_keeper.specs.Tables.{kept_fields, driver_fields};
ghost use Rattle.desk_keeper.specs.Records.{draft_fields};
ghost use Rattle.desk_core.specs.Drafting.{IsDriverAfter, AreDriversAfter, IsDraftAfter};
ghost use Rattle.duty_plan.specs.Stints.{stints_of};
ghost use Rattle.driver_history.specs.Advancing.{advance_of};

use desk_keeper::{DRAFT_LIMIT, Draft, DraftDriver, Kept, copy_seen};
use desk_report::{export, report};
use driver_history::advance;
use duty_plan::{Case, Duty, Outcome, line_of, rest_is_free, stints_are_minutes};
use minute_line::{History, Many, Memory, Name};
use std::alloc::Global;

/// The history of a driver after the duty of a lawful plan.
pub(crate) fn history_after(
    alloc: Global,
    case: &Case,
    driver: u32,
    duty: &Duty,
) -> Result<History, Memory>
    requires case { IsCase case.now }
    requires driver { driver < length case.now.week.drivers }
    requires lawful { IsLawful case.now driver duty.now }
    ensures { IfOk result (λ next. IfSome (slice_get case.now.past driver)
        (λ past. fields_of next ≡ advance_of (fields_of past) (stints_of case.now.week (partial_of duty.now)))) }
{
    let line = line_of(alloc, case, driver, duty)?;
    stints_are_minutes();
    rest_is_free();
    advance(alloc, &case.past.as_slice()[driver as usize], &line)
}

/// The driver of that number in a draft: what is kept of the driver, and the history after the duty.
fn driver_after(
    alloc: Global,
    case: &Case,
    number: u32,
    name: &Name,
    duty: &Duty,
    seen: &Option<Kept>,
) -> Result<DraftDriver, Memory>
    requires case { IsCase case.now }
    requires driver { number < length case.now.week.drivers }
    requires lawful { IsLawful case.now number duty.now }
    ensures { IfOk result (λ driver. IsDriverAfter case.now number name.now duty.now (option_map kept_fields seen.now) (driver_fields driver)) }
{
    Ok(DraftDriver {
        name: Many::from_slice(alloc, name.as_slice())?,
        seen: copy_seen(alloc, seen)?,
        next: history_after(alloc, case, number, duty)?,
    })
}

/// The drivers of a draft: those of the week, in their order, each after the duty of a lawful plan.
fn drivers_after(
    alloc: Global,
    case: &Case,
    duties: &[Duty],
    seen: &[Option<Kept>],
) -> Result<Many<DraftDriver>, Memory>
    requires case { IsCase case.now }
    requires duties { length duties.now ≡ length case.now.week.drivers }
    requires seen { length seen.now ≡ length case.now.week.drivers }
    requires lawful { EachOf (IsLawful case.now) duties.now }
    ensures { IfOk result (λ drivers. AreDriversAfter case.now duties.now (map (option_map kept_fields) seen.now) (map driver_fields drivers)) }
{
    let mut drivers = Many::new(alloc);
    for (i, driver) in case.week.drivers.as_slice().iter().enumerate() {
        drivers.push(driver_after(alloc, case, i as u32, &driver.name, &duties[i], &seen[i])?)?;
    }
    Ok(drivers)
}

/// The draft of an outcome whose plan is lawful.
pub(crate) fn draft_from(
    alloc: Global,
    case: &Case,
    outcome: &Outcome,
    seen: &[Option<Kept>],
    revision: u64,
) -> Result<Draft, Memory>
    requires case { IsCase case.now }
    requires lawful { IsLawfulPlan case.now outcome.now.plan }
    requires seen { length seen.now ≡ length case.now.week.drivers }
    requires monday { case.now.week.monday.day ≤ℤ pos 47478 }
    requires revision { (1 ≤ revision) × (revision ≤ DRAFT_LIMIT) }
    ensures { IfOk result (λ draft. IsDraftAfter case.now outcome.now (map (option_map kept_fields) seen.now) revision (draft_fields draft)) }
{
    let drivers = drivers_after(alloc, case, outcome.plan.duties.as_slice(), seen)?;
    Ok(Draft {
        monday: case.week.monday,
        revision,
        drivers,
        report: report(alloc, case, outcome, revision)?,
        export: export(alloc, case, outcome)?,
    })
}
