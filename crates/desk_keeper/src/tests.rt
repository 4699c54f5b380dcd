// The calls of the keeper in memory, by hand.
ghost use Rattle.std.specs.Prelude.{◌≡◌, length, IfOk};

use super::*;
use minute_line::{Many, Memory, Monday, Name, fresh, read_monday};
use std::alloc::Global;
use std::test::Fail;

fn name(alloc: Global) -> Result<Name, Memory> {
    Many::from_slice(alloc, b"D1")
}

// One driver, of whom nothing was kept.
fn one_driver(alloc: Global) -> Result<Many<DraftDriver>, Memory>
    ensures { IfOk result (λ drivers. length drivers ≡ 1) }
{
    let mut drivers = Many::new(alloc);
    drivers.push(DraftDriver {
        name: name(alloc)?,
        seen: None,
        next: fresh(alloc),
    })?;
    Ok(drivers)
}

// A draft of the week, of one driver.
#[tactic(auto, using(crate::proofs::Entries::one_named))]
fn draft_of(alloc: Global, monday: Monday, revision: u64) -> Result<Option<Draft>, Memory> {
    if monday.day > 47_478 || revision < 1 || revision > DRAFT_LIMIT {
        return Ok(None);
    }
    let drivers = one_driver(alloc)?;
    Ok(Some(Draft {
        monday,
        revision,
        drivers,
        report: Many::from_slice(alloc, b"report")?,
        export: Many::from_slice(alloc, b"export")?,
    }))
}

fn keeper(alloc: Global, fails: u64) -> Result<MemoryKeeper, Memory> {
    Ok(MemoryKeeper::new(alloc, Many::from_slice(alloc, &[fails])?))
}

// Puts the next draft of a week that is not published, by three calls. Its revision, or 0 for a published week.
fn put<B: Keeper>(keeper: &mut B, alloc: Global, monday: Monday) -> Result<u64, KeeperError> {
    if keeper.published(alloc, monday)?.is_some() {
        return Ok(0);
    }
    let last = match keeper.draft(alloc, monday)? {
        Some(draft) => draft.revision,
        None => 0,
    };
    let Some(draft) = draft_of(alloc, monday, last.saturating_add(1))? else {
        return Ok(0);
    };
    if draft.monday.day != monday.day || draft.revision != last.saturating_add(1) {
        return Ok(0);
    }
    keeper.put_draft(alloc, &draft)?;
    Ok(draft.revision)
}

// Publishes the draft of a week, by three calls. Its receipt, or 0 where there is none to publish.
fn publish<B: Keeper>(keeper: &mut B, alloc: Global, monday: Monday) -> Result<u64, KeeperError> {
    let None = keeper.published(alloc, monday)? else {
        return Ok(0);
    };
    match keeper.draft(alloc, monday)? {
        Some(draft) => keeper.publish(alloc, &draft),
        None => Ok(0),
    }
}

// The Monday that a driver's kept history leads up to, in days after the given one, or -1.
fn kept_after<B: Keeper>(
    keeper: &mut B,
    alloc: Global,
    monday: Monday,
) -> Result<i32, KeeperError> {
    match keeper.history(alloc, &name(alloc)?)? {
        Some(kept) => Ok(kept.monday.day.saturating_sub(monday.day)),
        None => Ok(-1),
    }
}

// The receipt and the revision of a week's issue, or zeros where there is none.
fn issued<B: Keeper>(
    keeper: &mut B,
    alloc: Global,
    monday: Monday,
) -> Result<(u64, u64), KeeperError> {
    match keeper.published(alloc, monday)? {
        Some(issue) => Ok((issue.receipt, issue.revision)),
        None => Ok((0, 0)),
    }
}

// Of two weeks, the second is drafted twice and published, then the first, which moves their driver once more.
#[test]
fn a_draft_is_published_once_and_moves_its_driver_on(rt: HostRuntime) -> Result<(), Fail> {
    let alloc = rt.alloc();
    let first = read_monday("2026-03-02").ok_or("a Monday")?;
    let second = read_monday("2026-03-09").ok_or("a Monday")?;
    let mut keeper = keeper(alloc, 0).ok().ok_or("memory")?;
    assert_eq!(rt; put(&mut keeper, alloc, first), Ok(1));
    assert_eq!(rt; put(&mut keeper, alloc, second), Ok(1));
    assert_eq!(rt; put(&mut keeper, alloc, second), Ok(2));
    assert_eq!(rt; kept_after(&mut keeper, alloc, second), Ok(-1));
    assert_eq!(rt; publish(&mut keeper, alloc, second), Ok(1));
    assert_eq!(rt; publish(&mut keeper, alloc, second), Ok(0));
    assert_eq!(rt; put(&mut keeper, alloc, second), Ok(0));
    assert_eq!(rt; kept_after(&mut keeper, alloc, second), Ok(7));
    assert_eq!(rt; publish(&mut keeper, alloc, first), Ok(2));
    assert_eq!(rt; kept_after(&mut keeper, alloc, first), Ok(7));
    assert_eq!(rt; issued(&mut keeper, alloc, first), Ok((2, 1)));
    assert_eq!(rt; issued(&mut keeper, alloc, second), Ok((1, 2)));
    assert_eq!(rt;
        (
            keeper.histories.len(),
            keeper.drafts.len(),
            keeper.issues.len()
        ),
        (1, 0, 2)
    );
    assert_eq!(rt; keeper.faults, 0);
    Ok(())
}

// A week whose last draft is the last that it may have.
#[test]
fn the_last_revision_is_published_and_has_no_next(rt: HostRuntime) -> Result<(), Fail> {
    let alloc = rt.alloc();
    let monday = read_monday("2026-03-02").ok_or("a Monday")?;
    let mut keeper = keeper(alloc, 0).ok().ok_or("memory")?;
    let last = draft_of(alloc, monday, DRAFT_LIMIT).ok().ok_or("memory")?;
    keeper
        .drafts
        .push(last.ok_or("a draft")?)
        .ok()
        .ok_or("memory")?;
    assert_eq!(rt; put(&mut keeper, alloc, monday), Ok(0));
    assert_eq!(rt; publish(&mut keeper, alloc, monday), Ok(1));
    assert_eq!(rt; issued(&mut keeper, alloc, monday), Ok((1, DRAFT_LIMIT)));
    Ok(())
}

// Each of the seven calls in turn fails, then none; the tables are those of the calls that did not.
#[test]
fn a_call_that_fails_changes_nothing(rt: HostRuntime) -> Result<(), Fail> {
    let alloc = rt.alloc();
    let monday = read_monday("2026-03-02").ok_or("a Monday")?;
    // the failing call; then put, publish and kept, and how many drafts and issues there are
    let rows = [
        (1, Err(KeeperError::Fault), Ok(0), Ok(-1), (0, 0)),
        (2, Err(KeeperError::Fault), Ok(0), Ok(-1), (0, 0)),
        (3, Err(KeeperError::Fault), Ok(0), Ok(-1), (0, 0)),
        (4, Ok(1), Err(KeeperError::Fault), Ok(-1), (1, 0)),
        (5, Ok(1), Err(KeeperError::Fault), Ok(-1), (1, 0)),
        (6, Ok(1), Err(KeeperError::Fault), Ok(-1), (1, 0)),
        (7, Ok(1), Ok(1), Err(KeeperError::Fault), (0, 1)),
        (8, Ok(1), Ok(1), Ok(7), (0, 1)),
    ];
    for (fails, putting, publishing, kept, left) in rows {
        let mut keeper = keeper(alloc, fails).ok().ok_or("memory")?;
        assert_eq!(rt; put(&mut keeper, alloc, monday), putting, "call {fails}");
        assert_eq!(rt;
            publish(&mut keeper, alloc, monday),
            publishing,
            "call {fails}"
        );
        assert_eq!(rt;
            kept_after(&mut keeper, alloc, monday),
            kept,
            "call {fails}"
        );
        assert_eq!(rt;
            (keeper.drafts.len(), keeper.issues.len()),
            left,
            "call {fails}"
        );
        assert_eq!(rt; keeper.faults, (fails < 8) as u64, "call {fails}");
    }
    Ok(())
}
