// The report of an outcome, its body, which says nothing of a draft, and the summary of a made week.
ghost use Rattle.std.specs.Prelude.{◌≡◌, ◌++◌, ◌∷◌, [], OnOk, IfOk, length, codes};
ghost use Rattle.duty_plan.specs.Duties.{IsCase, IsLawfulPlan};
ghost use Rattle.desk_report.specs.Lines.{with_lines};
ghost use Rattle.desk_report.specs.Reports.{state_word, found_lines, outcome_lines, IsBodyOf, IsReportOf};
ghost use Rattle.desk_report.specs.Summaries.{summary_text};

use crate::drivers::push_drivers;
use crate::lines::{push_line, push_number_line};
use crate::orders::push_orders;
use crate::steps::Days;
use duty_plan::{Case, Outcome, State};
use minute_line::{Bytes, Many, Memory, week_days};
use std::alloc::Global;
use week_book::Week;

/// Adds the line of a state.
fn push_state(text: &mut Bytes, state: State) -> Result<(), Memory>
    ensures { OnOk result (text.new ≡ with_lines text.old ((codes "state" ∷ state_word state ∷ []) ∷ [])) }
{
    match state {
        State::Proved => push_line(text, b"state", b"proved"),
        State::OpenLabels => push_line(text, b"state", b"labels"),
        State::OpenNodes => push_line(text, b"state", b"nodes"),
    }
}

/// Adds the lines of what a search found.
fn push_found(text: &mut Bytes, outcome: &Outcome) -> Result<(), Memory>
    ensures { OnOk result (text.new ≡ with_lines text.old (found_lines outcome.now)) }
{
    push_number_line(text, b"cost", outcome.cost)?;
    push_number_line(text, b"bound", outcome.bound)?;
    push_state(text, outcome.state)?;
    push_number_line(text, b"nodes", outcome.tree.len() as u64)
}

/// Adds the lines of the week and of what a search found.
fn push_outcome(text: &mut Bytes, monday: &[u8], outcome: &Outcome) -> Result<(), Memory>
    ensures { OnOk result (text.new ≡ with_lines text.old (outcome_lines monday.now outcome.now)) }
{
    push_line(text, b"week", monday)?;
    push_found(text, outcome)
}

/// The body of a report, of an outcome whose plan is lawful: the week, what the search found, a block for each driver, and a line for
/// each order. A block has the cost of the duty, the history that it follows, and the duty's lines, each at the stamp of its
/// first minute. Its time grows with the length of the text, and with the number of orders times that of the steps.
pub fn body(alloc: Global, case: &Case, outcome: &Outcome) -> Result<Bytes, Memory>
    requires case { IsCase case.now }
    requires lawful { IsLawfulPlan case.now outcome.now.plan }
    ensures { IfOk result (IsBodyOf case.now outcome.now) }
{
    let days: Days = week_days(case.week.monday);
    let duties = outcome.plan.duties.as_slice();
    let mut text = Many::new(alloc);
    push_outcome(&mut text, &days[0], outcome)?;
    push_drivers(alloc, &mut text, &days, case, duties)?;
    push_orders(&mut text, &days, &case.week, duties)?;
    Ok(text)
}

/// The report of an outcome that is kept as a draft of this revision: its body, and the line of the draft.
pub fn report(alloc: Global, case: &Case, outcome: &Outcome, revision: u64) -> Result<Bytes, Memory>
    requires case { IsCase case.now }
    requires lawful { IsLawfulPlan case.now outcome.now.plan }
    ensures { IfOk result (IsReportOf case.now outcome.now revision) }
{
    let mut text = body(alloc, case, outcome)?;
    push_number_line(&mut text, b"draft", revision)?;
    Ok(text)
}

/// The summary of a week that was made from a seed, as a text of so many rows, and planned: how many drivers and orders it has,
/// and what the search found.
pub fn summary(
    alloc: Global,
    seed: u64,
    week: &Week,
    rows: u64,
    outcome: &Outcome,
) -> Result<Bytes, Memory>
    ensures { IfOk result (λ text. text ≡ summary_text seed week.now rows outcome.now) }
{
    let mut text = Many::new(alloc);
    push_number_line(&mut text, b"made", seed)?;
    push_number_line(&mut text, b"drivers", week.drivers.len() as u64)?;
    push_number_line(&mut text, b"orders", week.orders.len() as u64)?;
    push_number_line(&mut text, b"rows", rows)?;
    push_found(&mut text, outcome)?;
    Ok(text)
}
