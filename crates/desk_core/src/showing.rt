// What is shown and exported of a week.
ghost use Rattle.std.specs.Prelude.{◌≡◌, ◌≤◌, IfOk, IfSome};
ghost use Rattle.desk_keeper.specs.Records.{draft_fields, issue_fields};
ghost use Rattle.desk_core.specs.Causes.{RefusedFor, IsNoDraft};
ghost use Rattle.desk_core.specs.Issuing.{issue_report, week_said, shown, exported};
ghost use Rattle.desk_core.specs.Replies.{Comes, failed_by};

use crate::asking::{draft_of, issue_of};
use crate::refusals::{Refusal, Stop};
use desk_keeper::{Issue, Keeper};
use minute_line::{Bytes, Memory, Monday, push_number, push_word};
use std::alloc::Global;

/// The report of an issue, with the line of its publication.
fn report_of(issue: Issue) -> Result<Bytes, Memory>
    ensures { IfOk result (λ text. text ≡ issue_report (issue_fields issue)) }
{
    let Issue {
        receipt,
        report,
        ..
    } = issue;
    let mut text = report;
    text.extend_from_slice(b"published".as_slice())?;
    push_number(&mut text, receipt)?;
    text.push(b'\n')?;
    Ok(text)
}

/// The report of a week: the issue's with the line of its publication, else the draft's.
pub(crate) fn show<B: Keeper>(alloc: Global, keeper: &mut B, monday: Monday) -> Result<Bytes, Stop>
    ensures answer { Comes (λ text. text) result (B.tables keeper.old) (λ t said. said ≡ shown monday t) }
    ensures refused { RefusedFor (IsNoDraft monday) result }
    ensures tables { B.tables keeper.new ≡ B.tables keeper.old }
    ensures counts { B.faults keeper.new ≡ failed_by (B.faults keeper.old) result }
    ensures counted { B.faults keeper.old ≤ B.faults keeper.new }
{
    if let Some(issue) = issue_of(alloc, keeper, monday)? {
        return Ok(report_of(issue)?);
    }
    match draft_of(alloc, keeper, monday)? {
        Some(draft) => Ok(draft.report),
        None => Err(Stop::Refused(Refusal::NoDraft(monday))),
    }
}

/// The export of a week: the issue's, else the draft's.
pub(crate) fn export_kept<B: Keeper>(
    alloc: Global,
    keeper: &mut B,
    monday: Monday,
) -> Result<Bytes, Stop>
    ensures answer { Comes (λ text. text) result (B.tables keeper.old) (λ t said. said ≡ exported monday t) }
    ensures refused { RefusedFor (IsNoDraft monday) result }
    ensures tables { B.tables keeper.new ≡ B.tables keeper.old }
    ensures counts { B.faults keeper.new ≡ failed_by (B.faults keeper.old) result }
    ensures counted { B.faults keeper.old ≤ B.faults keeper.new }
{
    if let Some(issue) = issue_of(alloc, keeper, monday)? {
        return Ok(issue.export);
    }
    match draft_of(alloc, keeper, monday)? {
        Some(draft) => Ok(draft.export),
        None => Err(Stop::Refused(Refusal::NoDraft(monday))),
    }
}
