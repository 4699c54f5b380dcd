// Devices and keepers that fail, and words that are no command.

ghost use Rattle.std.specs.Prelude.{◌<◌, ◌≤◌};

use crate::running::{ONE_DRIVER, PLANNED, WITHOUT_DRIVERS, new_keeper, run_at, says};
use duty_plan::Straight;
use minute_line::{Many, Memory};
use std::alloc::Global;
use std::test::Fail;
use std::thread::Threads;

/// The line for words that are no command.
const USAGE: &str = "usage: desk plan|check|publish|show|export|make|serve [--name value]\n";

/// Whether a plan whose sink fails at that call ends with 6, with what the calls before it wrote, and its draft stands.
fn has_begun<R: Threads + Sync>(rt: &R, alloc: Global, call: u64) -> Result<bool, Memory>
    requires { (0 < call) × (call ≤ 6) }
{
    let mut keeper = new_keeper(alloc, 0)?;
    let text = WITHOUT_DRIVERS.as_bytes();
    let (status, written) = run_at(
        rt,
        &Straight,
        alloc,
        &mut keeper,
        &["plan"],
        text,
        20,
        (0, call),
    )?;
    let whole = written.len() as u64 == 20 * (call - 1);
    let stands = matches!(keeper.drafts.as_slice(), [draft] if draft.revision == 1);
    Ok(status == 6 && whole && stands && PLANNED.as_bytes().starts_with(written.as_slice()))
}

/// Whether a plan whose source fails at that call is refused, and keeps nothing.
fn is_unread<R: Threads + Sync>(rt: &R, alloc: Global, call: u64) -> Result<bool, Memory> {
    let mut keeper = new_keeper(alloc, 0)?;
    let text = WITHOUT_DRIVERS.as_bytes();
    let (status, written) = run_at(
        rt,
        &Straight,
        alloc,
        &mut keeper,
        &["plan"],
        text,
        50,
        (call, 0),
    )?;
    Ok(
        status == 5
            && keeper.drafts.is_empty()
            && written.as_slice() == b"refused read\n".as_slice(),
    )
}

#[test]
fn each_call_of_a_sink_may_fail(rt: HostRuntime) -> Result<(), Fail> {
    for call in 1..7 {
        assert!(rt; has_begun(&rt, rt.alloc(), call) == Ok(true));
    }
    Ok(())
}

#[test]
fn each_call_of_a_source_may_fail(rt: HostRuntime) -> Result<(), Fail> {
    for call in 1..6 {
        assert!(rt; is_unread(&rt, rt.alloc(), call) == Ok(true));
    }
    Ok(())
}

/// Whether a plan of that week ends with 7 where the keeper's call of this number fails, and keeps nothing.
fn is_not_kept<R: Threads + Sync>(rt: &R, alloc: Global, call: u64) -> Result<bool, Memory> {
    let mut keeper = new_keeper(alloc, call)?;
    let told = says(
        rt,
        alloc,
        &mut keeper,
        &["plan"],
        ONE_DRIVER,
        7,
        "refused keeper\n",
    )?;
    Ok(told && keeper.faults == 1 && keeper.drafts.is_empty() && keeper.histories.is_empty())
}

#[test]
fn each_call_of_a_keeper_may_fail_in_a_plan(rt: HostRuntime) -> Result<(), Fail> {
    for call in 1..5 {
        assert!(rt; is_not_kept(&rt, rt.alloc(), call) == Ok(true));
    }
    Ok(())
}

/// The status of a publication after a plan, where the keeper's call of this number fails in it, and whether the draft alone is kept.
fn published_at<R: Threads + Sync>(rt: &R, alloc: Global, call: u64) -> Result<(u8, bool), Memory> {
    let mut keeper = new_keeper(alloc, 0)?;
    let text = ONE_DRIVER.as_bytes();
    let plan = ["plan"];
    let publish = ["publish", "--monday", "2026-03-02", "--rev", "1"];
    run_at(rt, &Straight, alloc, &mut keeper, &plan, text, 4096, (0, 0))?;
    keeper.calls = 0;
    keeper.fails = Many::from_slice(alloc, &[call])?;
    let (status, _) = run_at(
        rt,
        &Straight,
        alloc,
        &mut keeper,
        &publish,
        &[],
        4096,
        (0, 0),
    )?;
    let alone = keeper.drafts.len() == 1 && keeper.issues.is_empty() && keeper.histories.is_empty();
    Ok((status, alone))
}

// A publication asks for the issue, the draft and what is kept of its driver, and then publishes.
#[test]
fn each_call_of_a_keeper_may_fail_in_a_publication(rt: HostRuntime) -> Result<(), Fail> {
    for call in 1..5 {
        assert!(rt; published_at(&rt, rt.alloc(), call) == Ok((7, true)));
    }
    assert!(rt; published_at(&rt, rt.alloc(), 5) == Ok((0, false)));
    Ok(())
}

#[test]
fn words_that_are_no_command_have_the_usage_line(rt: HostRuntime) -> Result<(), Fail> {
    let alloc = rt.alloc();
    let mut keeper = new_keeper(alloc, 0)?;
    let labels = ["plan", "--labels", "2097153"];
    let seed = ["plan", "--seed", "3"];
    assert!(rt; says(&rt, alloc, &mut keeper, &[], "", 2, USAGE) == Ok(true));
    assert!(rt; says(&rt, alloc, &mut keeper, &labels, "", 2, USAGE) == Ok(true));
    assert!(rt; says(&rt, alloc, &mut keeper, &seed, "", 2, USAGE) == Ok(true));
    Ok(())
}
