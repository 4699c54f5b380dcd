// What a store tells of the driver D1 and of a week, and what it is made to keep.
use crate::stores::Store;
use desk_keeper::{DRAFT_LIMIT, Draft, Keeper, KeeperError};
use minute_line::{Many, Memory, Monday, Name};
use std::alloc::Global;

fn name(alloc: Global) -> Result<Name, Memory> {
    Many::from_slice(alloc, b"D1")
}

/// What D1 owes by the kept history, or -1 where none is kept.
pub(crate) fn owed<B: Keeper>(keeper: &mut B, alloc: Global) -> Result<i64, KeeperError> {
    match keeper.history(alloc, &name(alloc)?)? {
        Some(kept) => Ok(kept.past.owed as i64),
        None => Ok(-1),
    }
}

/// How many drivers the week's draft has, or -1 where there is none.
pub(crate) fn drivers<B: Keeper>(
    keeper: &mut B,
    alloc: Global,
    monday: Monday,
) -> Result<i64, KeeperError> {
    match keeper.draft(alloc, monday)? {
        Some(draft) => Ok(draft.drivers.len() as i64),
        None => Ok(-1),
    }
}

/// The receipt of the week's issue, or -1 where there is none.
pub(crate) fn receipt<B: Keeper>(
    keeper: &mut B,
    alloc: Global,
    monday: Monday,
) -> Result<i64, KeeperError> {
    match keeper.published(alloc, monday)? {
        Some(issue) if issue.receipt < 1_000 => Ok(issue.receipt as i64),
        Some(_) => Ok(1_000),
        None => Ok(-1),
    }
}

/// Publishes the week's draft. Its receipt, or 0 where there is none to publish.
pub(crate) fn publish(
    keeper: &mut Store,
    alloc: Global,
    monday: Monday,
) -> Result<u64, KeeperError> {
    match keeper.draft(alloc, monday)? {
        Some(draft) => keeper.publish(alloc, &draft),
        None => Ok(0),
    }
}

/// Puts the week's draft of one store into another. Its revision, or 0 where there is none.
pub(crate) fn copied(
    from: &mut Store,
    to: &mut Store,
    alloc: Global,
    monday: Monday,
) -> Result<u64, KeeperError> {
    let Some(draft) = from.draft(alloc, monday)? else {
        return Ok(0);
    };
    to.put_draft(alloc, &draft)?;
    Ok(draft.revision)
}

/// The day that D1's kept history leads up to, or -1 where none is kept.
pub(crate) fn kept_day<B: Keeper>(keeper: &mut B, alloc: Global) -> Result<i32, KeeperError> {
    match keeper.history(alloc, &name(alloc)?)? {
        Some(kept) => Ok(kept.monday.day),
        None => Ok(-1),
    }
}

/// The draft's next revision, put in its place.
pub(crate) fn put_again(
    keeper: &mut Store,
    alloc: Global,
    monday: Monday,
) -> Result<u64, KeeperError> {
    let Some(draft) = keeper.draft(alloc, monday)? else {
        return Ok(0);
    };
    if draft.revision >= DRAFT_LIMIT {
        return Ok(0);
    }
    let next = Draft {
        monday: draft.monday,
        revision: draft.revision + 1,
        drivers: draft.drivers,
        report: draft.report,
        export: draft.export,
    };
    keeper.put_draft(alloc, &next)?;
    Ok(next.revision)
}
