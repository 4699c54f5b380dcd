// The week of a week text, with its drivers' histories.
ghost use Rattle.std.specs.Prelude.{◌≡◌, ◌≤◌, length, map, option_map, IfOk, OnOk};
ghost use Rattle.minute_line.specs.Histories.{fields_of};
ghost use Rattle.week_book.specs.Pasts.{HasPastRows};
ghost use Rattle.desk_csv.specs.declared.reading.TheConstants.{TEXT_LIMIT};
ghost use Rattle.duty_plan.specs.Duties.{IsCase};
ghost use Rattle.duty_plan.specs.Trees.{IsLimits, IsRight};
ghost use Rattle.desk_core.specs.Refusing.{Meets};
ghost use Rattle.desk_core.specs.Causes.{HasCause, RefusedFor};
ghost use Rattle.desk_core.specs.Planning.{past_or_refusal, pasts_said, all_said, histories_said, nobody, with_driver, case_said};
ghost use Rattle.desk_core.specs.Books.{gathered, book};

use crate::refusals::{Refusal, Stop, stop_past};
use desk_csv::{Form, read_rows};
use driver_history::read_past;
use duty_plan::{Case, Gate, Limits, Outcome, Planner};
use minute_line::{Bytes, History, Many, Memory, Name};
use std::alloc::Global;
use std::thread::Threads;
use week_book::{Driver, Row, check_week};

/// The history that a driver's rows make, or none where there are no such rows.
pub(crate) fn past_in(alloc: Global, rows: &Many<Row>, name: &Name) -> Result<Option<History>, Stop>
    requires { HasPastRows rows.now }
    ensures past { Meets (λ past. option_map fields_of past) result (past_or_refusal rows.now name.now) }
    ensures cause { RefusedFor HasCause result }
{
    match read_past(alloc, rows, name) {
        Ok(past) => Ok(past),
        Err(error) => Err(stop_past(Many::from_slice(alloc, name.as_slice())?, error)),
    }
}

/// The histories of the drivers so far, and the first driver who has none.
#[derive(Drop)]
pub(crate) struct Pasts {
    pub past: Many<History>,
    pub missing: Option<Name>,
}

/// Adds a driver, with a history or without.
fn add_driver(
    alloc: Global,
    pasts: &mut Pasts,
    name: &Name,
    past: Option<History>,
) -> Result<(), Memory>
    ensures { OnOk result (gathered pasts.new ≡ with_driver (gathered pasts.old) name.now (option_map fields_of past)) }
{
    match past {
        Some(past) => pasts.past.push(past),
        None => {
            if pasts.missing.is_none() {
                pasts.missing = Some(Many::from_slice(alloc, name.as_slice())?);
            }
            Ok(())
        }
    }
}

/// The histories that the rows make for the drivers.
fn pasts_in(alloc: Global, rows: &Many<Row>, drivers: &[Driver]) -> Result<Pasts, Stop>
    requires { HasPastRows rows.now }
    ensures pasts { Meets gathered result (pasts_said rows.now nobody drivers.now) }
    ensures cause { RefusedFor HasCause result }
{
    let mut pasts = Pasts {
        past: Many::new(alloc),
        missing: None,
    };
    for driver in drivers {
        let past = past_in(alloc, rows, &driver.name)?;
        add_driver(alloc, &mut pasts, &driver.name, past)?;
    }
    Ok(pasts)
}

/// The histories, where each driver has one.
fn all_in(pasts: Pasts) -> Result<Many<History>, Stop>
    ensures all { Meets (λ past. map fields_of past) result (all_said (gathered pasts)) }
    ensures cause { RefusedFor HasCause result }
{
    let Pasts { past, missing } = pasts;
    match missing {
        Some(name) => Err(Stop::Refused(Refusal::NoHistory(name))),
        None => Ok(past),
    }
}

/// The history of each driver, in their order.
fn histories_in(alloc: Global, rows: &Many<Row>, drivers: &[Driver]) -> Result<Many<History>, Stop>
    requires { HasPastRows rows.now }
    ensures histories { Meets (λ past. map fields_of past) result (histories_said rows.now drivers.now) }
    ensures each { IfOk result (λ past. length past ≡ length drivers.now) }
    ensures cause { RefusedFor HasCause result }
{
    let pasts = pasts_in(alloc, rows, drivers)?;
    all_in(pasts)
}

/// The week of a week text, with a history for each of its drivers, in their order.
pub fn read_case(alloc: Global, text: &Bytes) -> Result<Case, Stop>
    requires { length text.now ≤ TEXT_LIMIT }
    ensures case { Meets book result (case_said text.now) }
    ensures valid { IfOk result IsCase }
    ensures cause { RefusedFor HasCause result }
{
    let rows = read_rows(alloc, text, Form::Plan)?;
    let week = check_week(alloc, &rows)?;
    let past = histories_in(alloc, &rows, week.drivers.as_slice())?;
    Ok(Case { week, past })
}

/// A planned week: its case, and an outcome that was found for it.
#[derive(Drop)]
pub struct Solved {
    pub case: Case,
    pub outcome: Outcome,
}

/// The week of a week text, planned within the limits. Each history that it is planned with stands in the text.
pub fn solve_text<R: Threads + Sync, P: Planner>(
    rt: &R,
    gate: &(dyn Gate + Sync),
    alloc: Global,
    text: &Bytes,
    limits: &Limits,
    planner: &mut P,
) -> Result<Solved, Stop>
    requires text { length text.now ≤ TEXT_LIMIT }
    requires limits { IsLimits limits.now }
    ensures case { Meets (λ solved. book solved.case) result (case_said text.now) }
    ensures valid { IfOk result (λ solved. IsCase solved.case) }
    ensures right { IfOk result (λ solved. IsRight solved.case limits.now solved.outcome) }
    ensures cause { RefusedFor HasCause result }
{
    let case = read_case(alloc, text)?;
    let outcome = planner.solve(rt, gate, alloc, &case, limits)?;
    Ok(Solved { case, outcome })
}
