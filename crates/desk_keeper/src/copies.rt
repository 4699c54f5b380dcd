// Copies of what stands in the tables.
ghost use Rattle.std.specs.Prelude.{◌≡◌, map, option_map, IfOk};
ghost use Rattle.desk_keeper.specs.Tables.{kept_fields, driver_fields};
ghost use Rattle.desk_keeper.specs.Records.{draft_fields, issue_fields};

use crate::records::{Draft, DraftDriver, Issue, Kept};
use minute_line::{Many, Memory, copy_history};
use std::alloc::Global;

/// The same history, up to the same Monday.
pub fn copy_kept(alloc: Global, kept: &Kept) -> Result<Kept, Memory>
    ensures { IfOk result (λ copy. kept_fields copy ≡ kept_fields kept.now) }
{
    Ok(Kept {
        monday: kept.monday,
        past: copy_history(alloc, &kept.past)?,
    })
}

/// The same history, if there is one.
pub fn copy_seen(alloc: Global, seen: &Option<Kept>) -> Result<Option<Kept>, Memory>
    ensures { IfOk result (λ copy. option_map kept_fields copy ≡ option_map kept_fields seen.now) }
{
    match seen {
        Some(kept) => Ok(Some(copy_kept(alloc, kept)?)),
        None => Ok(None),
    }
}

fn copy_driver(alloc: Global, driver: &DraftDriver) -> Result<DraftDriver, Memory>
    ensures { IfOk result (λ copy. driver_fields copy ≡ driver_fields driver.now) }
{
    Ok(DraftDriver {
        name: Many::from_slice(alloc, driver.name.as_slice())?,
        seen: copy_seen(alloc, &driver.seen)?,
        next: copy_history(alloc, &driver.next)?,
    })
}

fn copy_drivers(alloc: Global, drivers: &[DraftDriver]) -> Result<Many<DraftDriver>, Memory>
    ensures { IfOk result (λ copies. map driver_fields copies ≡ map driver_fields drivers.now) }
{
    let mut copies = Many::new(alloc);
    for driver in drivers {
        copies.push(copy_driver(alloc, driver)?)?;
    }
    Ok(copies)
}

/// The same draft.
pub(crate) fn copy_draft(alloc: Global, draft: &Draft) -> Result<Draft, Memory>
    ensures { IfOk result (λ copy. draft_fields copy ≡ draft_fields draft.now) }
{
    Ok(Draft {
        monday: draft.monday,
        revision: draft.revision,
        drivers: copy_drivers(alloc, draft.drivers.as_slice())?,
        report: Many::from_slice(alloc, draft.report.as_slice())?,
        export: Many::from_slice(alloc, draft.export.as_slice())?,
    })
}

/// The same issue.
pub(crate) fn copy_issue(alloc: Global, issue: &Issue) -> Result<Issue, Memory>
    ensures { IfOk result (λ copy. issue_fields copy ≡ issue_fields issue.now) }
{
    Ok(Issue {
        receipt: issue.receipt,
        monday: issue.monday,
        revision: issue.revision,
        report: Many::from_slice(alloc, issue.report.as_slice())?,
        export: Many::from_slice(alloc, issue.export.as_slice())?,
    })
}
