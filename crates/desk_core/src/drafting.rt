// What a week text and the tables make of a draft: the histories that its drivers are planned with, and its revision.
ghost use Rattle.std.specs.Prelude.{◌≡◌, ◌≤◌, ◌≤ℤ◌, pos, [], None, length, map, option_map, IfOk, IfSome};
ghost use Rattle.minute_line.specs.Histories.{fields_of};
ghost use Rattle.week_book.specs.Pasts.{HasPastRows};
ghost use Rattle.week_book.specs.Weeks.{IsWeek};
ghost use Rattle.desk_csv.specs.declared.reading.TheConstants.{TEXT_LIMIT};
ghost use Rattle.desk_keeper.specs.Tables.{kept_fields};
ghost use Rattle.desk_keeper.specs.Entries.{history_in, revision_in};
ghost use Rattle.desk_core.specs.Refusing.{Meets};
ghost use Rattle.desk_core.specs.Causes.{HasCause, RefusedFor, IsWeekRefusal, IsHistoryRefusal, IsDriverRefusal};
ghost use Rattle.desk_core.specs.Answering.{HoldsTheTexts};
ghost use Rattle.desk_core.specs.Replies.{Comes, Hears, failed_by};
ghost use Rattle.desk_core.specs.Drafting.{pasts_read, text_said, revision_said, weeks_between, brought_up, planned_with, all_planned_with};
ghost use Rattle.desk_core.specs.WeekTexts.{week_text};

use crate::asking::{draft_of, history_of, issue_of};
use crate::planning::past_in;
use crate::refusals::{Refusal, Stop};
use desk_csv::{Form, read_rows};
use desk_keeper::{DRAFT_LIMIT, Keeper, Kept};
use driver_history::idle;
use minute_line::{Bytes, History, Many, Monday, Name, copy_history};
use std::alloc::Global;
use week_book::{Driver, Row, Week, check_week};

/// A week text: its week, and for each driver the history that the text has, if it has one.
#[derive(Drop)]
pub(crate) struct WeekText {
    pub week: Week,
    pub past: Many<Option<History>>,
}

/// The histories that the rows have of the drivers, in their order.
fn pasts_of(
    alloc: Global,
    rows: &Many<Row>,
    drivers: &[Driver],
) -> Result<Many<Option<History>>, Stop>
    requires { HasPastRows rows.now }
    ensures read { Meets (map (option_map fields_of)) result (pasts_read rows.now [] drivers.now) }
    ensures each { IfOk result (λ pasts. length pasts ≡ length drivers.now) }
    ensures cause { RefusedFor HasCause result }
{
    let mut pasts = Many::new(alloc);
    for driver in drivers {
        pasts.push(past_in(alloc, rows, &driver.name)?)?;
    }
    Ok(pasts)
}

/// What a week text says.
pub(crate) fn read_week_text(alloc: Global, text: &Bytes) -> Result<WeekText, Stop>
    requires { length text.now ≤ TEXT_LIMIT }
    ensures read { Meets week_text result (text_said text.now) }
    ensures week { IfOk result (λ read. IsWeek read.week) }
    ensures monday { IfOk result (λ read. read.week.monday.day ≤ℤ pos 47478) }
    ensures each { IfOk result (λ read. length read.past ≡ length read.week.drivers) }
    ensures cause { RefusedFor HasCause result }
{
    let rows = read_rows(alloc, text, Form::Plan)?;
    let week = check_week(alloc, &rows)?;
    let past = pasts_of(alloc, &rows, week.drivers.as_slice())?;
    Ok(WeekText { week, past })
}

/// The revision of the draft that stands of a week, or 0.
fn last_revision<B: Keeper>(alloc: Global, keeper: &mut B, monday: Monday) -> Result<u64, Stop>
    ensures answer { Hears (λ revision. revision) result (B.tables keeper.old) (λ t. revision_in t monday.day) }
    ensures range { IfOk result (λ revision. revision ≤ DRAFT_LIMIT) }
    ensures tables { B.tables keeper.new ≡ B.tables keeper.old }
    ensures counts { B.faults keeper.new ≡ failed_by (B.faults keeper.old) result }
    ensures counted { B.faults keeper.old ≤ B.faults keeper.new }
{
    match draft_of(alloc, keeper, monday)? {
        Some(draft) => Ok(draft.revision),
        None => Ok(0),
    }
}

/// The revision of a week's next draft.
pub(crate) fn next_revision<B: Keeper>(
    alloc: Global,
    keeper: &mut B,
    monday: Monday,
) -> Result<u64, Stop>
    ensures answer { Comes (λ revision. revision) result (B.tables keeper.old) (λ t said. said ≡ revision_said monday t) }
    ensures refused { RefusedFor (IsWeekRefusal monday) result }
    ensures range { IfOk result (λ revision. (1 ≤ revision) × (revision ≤ DRAFT_LIMIT)) }
    ensures tables { B.tables keeper.new ≡ B.tables keeper.old }
    ensures counts { B.faults keeper.new ≡ failed_by (B.faults keeper.old) result }
    ensures counted { B.faults keeper.old ≤ B.faults keeper.new }
{
    if let Some(issue) = issue_of(alloc, keeper, monday)? {
        return Err(Stop::Refused(Refusal::Published(monday, issue.receipt)));
    }
    let last = last_revision(alloc, keeper, monday)?;
    if last == DRAFT_LIMIT {
        return Err(Stop::Refused(Refusal::DraftsFull(monday)));
    }
    Ok(last + 1)
}

/// The weeks from one Monday to a later one.
fn weeks_from(from: Monday, to: Monday) -> u32
    requires { from.day ≤ℤ to.day }
    ensures { result ≡ weeks_between from.day to.day }
{
    (to.day - from.day).unsigned_abs() / 7
}

/// A kept history, brought up to a Monday by weeks in which nothing is done.
fn bring_up(alloc: Global, monday: Monday, name: &Name, kept: &Kept) -> Result<History, Stop>
    ensures history { Meets fields_of result (brought_up monday.day name.now (kept_fields kept.now)) }
    ensures refused { RefusedFor (IsHistoryRefusal monday name.now None) result }
{
    if kept.monday.day <= monday.day {
        let weeks = weeks_from(kept.monday, monday);
        return Ok(idle(alloc, &kept.past, weeks)?);
    }
    let name = Many::from_slice(alloc, name.as_slice())?;
    Err(Stop::Refused(Refusal::Later(name, kept.monday)))
}

/// The history that a driver is planned with: the text's or the kept one, of which just one is there.
fn history_with(
    alloc: Global,
    monday: Monday,
    name: &Name,
    past: &Option<History>,
    kept: &Option<Kept>,
) -> Result<History, Stop>
    ensures history { Meets fields_of result (planned_with monday.day name.now (option_map fields_of past.now) (option_map kept_fields kept.now)) }
    ensures own { IfOk result (λ with. IfSome past.now (λ own. fields_of with ≡ fields_of own)) }
    ensures refused { RefusedFor (IsHistoryRefusal monday name.now (option_map fields_of past.now)) result }
{
    match (past, kept) {
        (Some(past), None) => Ok(copy_history(alloc, past)?),
        (Some(_), Some(_)) => {
            let name = Many::from_slice(alloc, name.as_slice())?;
            Err(Stop::Refused(Refusal::Kept(name)))
        }
        (None, Some(kept)) => bring_up(alloc, monday, name, kept),
        (None, None) => {
            let name = Many::from_slice(alloc, name.as_slice())?;
            Err(Stop::Refused(Refusal::NoHistory(name)))
        }
    }
}

/// A driver's history, and what is kept of the driver.
#[derive(Drop)]
pub(crate) struct Found {
    pub past: History,
    pub seen: Option<Kept>,
}

/// The history that a driver is planned with, and what is kept of the driver.
fn history_for<B: Keeper>(
    alloc: Global,
    keeper: &mut B,
    monday: Monday,
    name: &Name,
    past: &Option<History>,
) -> Result<Found, Stop>
    ensures answer { Comes (λ found. fields_of found.past) result (B.tables keeper.old)
        (λ t said. said ≡ planned_with monday.day name.now (option_map fields_of past.now) (history_in t name.now)) }
    ensures own { IfOk result (λ found. IfSome past.now (λ own. fields_of found.past ≡ fields_of own)) }
    ensures refused { RefusedFor (IsHistoryRefusal monday name.now (option_map fields_of past.now)) result }
    ensures seen { IfOk result (λ found. IfSome (B.tables keeper.old) (λ t. option_map kept_fields found.seen ≡ history_in t name.now)) }
    ensures tables { B.tables keeper.new ≡ B.tables keeper.old }
    ensures counts { B.faults keeper.new ≡ failed_by (B.faults keeper.old) result }
    ensures counted { B.faults keeper.old ≤ B.faults keeper.new }
{
    let seen = history_of(alloc, keeper, name)?;
    let past = history_with(alloc, monday, name, past, &seen)?;
    Ok(Found { past, seen })
}

/// The histories that drivers are planned with, and what is kept of each.
#[derive(Drop)]
pub(crate) struct AllFound {
    pub past: Many<History>,
    pub seen: Many<Option<Kept>>,
}

/// The histories that the drivers of a week are planned with, and what is kept of each, in their order. The first driver who
/// is refused ends it, and no further one is asked for.
pub(crate) fn histories_for<B: Keeper>(
    alloc: Global,
    keeper: &mut B,
    monday: Monday,
    drivers: &[Driver],
    pasts: &[Option<History>],
) -> Result<AllFound, Stop>
    requires { length pasts.now ≡ length drivers.now }
    ensures answer { Comes (λ all. map fields_of all.past) result (B.tables keeper.old)
        (λ t said. said ≡ all_planned_with monday.day t [] drivers.now (map (option_map fields_of) pasts.now)) }
    ensures own { IfOk result (λ all. HoldsTheTexts (map (option_map fields_of) pasts.now) (map fields_of all.past)) }
    ensures refused { RefusedFor (IsDriverRefusal monday drivers.now (map (option_map fields_of) pasts.now)) result }
    ensures seen { IfOk result (λ all. IfSome (B.tables keeper.old)
        (λ t. map (option_map kept_fields) all.seen ≡ map (λ driver. history_in t driver.name) drivers.now)) }
    ensures each { IfOk result (λ all. (length all.past ≡ length drivers.now) × (length all.seen ≡ length drivers.now)) }
    ensures tables { B.tables keeper.new ≡ B.tables keeper.old }
    ensures counts { B.faults keeper.new ≡ failed_by (B.faults keeper.old) result }
    ensures counted { B.faults keeper.old ≤ B.faults keeper.new }
{
    let mut past = Many::new(alloc);
    let mut seen = Many::new(alloc);
    for (i, driver) in drivers.iter().enumerate() {
        let found = history_for(alloc, keeper, monday, &driver.name, &pasts[i])?;
        past.push(found.past)?;
        seen.push(found.seen)?;
    }
    Ok(AllFound { past, seen })
}
