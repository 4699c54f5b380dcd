// Commands to the desk over one keeper in memory. Each expected line was worked out by hand, or stands in the desk's formats.
ghost use Rattle.std.specs.Prelude.{IfOk, IfSome};
ghost use Rattle.desk_core.specs.Machine.{IsCommand};

use desk_core::{Command, Reply, refusal_line, step};
use desk_keeper::{Draft, MemoryKeeper};
use duty_plan::{Limits, Straight};
use minute_line::{Bytes, Many, Memory, Monday, read_monday};
use planners::TurnPlanner;
use std::alloc::Global;
use std::test::Fail;
use std::thread::Threads;

/// A week without drivers.
const PLAIN: &str =
    "week,2026-03-02,15,3000,15\nplace,HUB\nplace,LYON\norder,A,LYON,2026-03-02T08:00,2026-03-02T12:00,30,12000,9000\norder,B,LYON,2026-03-03T08:00,2026-03-03T12:00,30,12000,4500\n";

/// Its report, and then its first draft's line.
const PLANNED: &str =
    "week 2026-03-02\ncost 13500\nbound 13500\nstate proved\nnodes 1\norder A out 9000\norder B out 4500\ndraft 1\n";

/// Its export.
const EXPORTED: &str =
    "week,2026-03-02\nout,A,9000\nout,B,4500\nnode,1,0,,,root,13500,0,closed\nprice,1,9000,4500\n";

/// A week of one driver, with the driver's history.
const FIRST: &str =
    "week,2026-03-02,15,3000,15\nplace,HUB\nplace,P\nleg,HUB,P,60,3000\nleg,P,HUB,60,3000\ndriver,D1,24000,2000\nrest,D1,2026-02-28T00:00,2700\nworked,D1,0,0,0,0,0,0,0,0,0,0,0,0,0,0,0,0,0\npast,D1,OFF,2880\norder,A,P,2026-03-02T08:00,2026-03-02T12:00,30,12000,9000\n";

/// The same, seven days later.
const SECOND: &str =
    "week,2026-03-09,15,3000,15\nplace,HUB\nplace,P\nleg,HUB,P,60,3000\nleg,P,HUB,60,3000\ndriver,D1,24000,2000\nrest,D1,2026-03-07T00:00,2700\nworked,D1,0,0,0,0,0,0,0,0,0,0,0,0,0,0,0,0,0\npast,D1,OFF,2880\norder,A,P,2026-03-09T08:00,2026-03-09T12:00,30,12000,9000\n";

/// The later week without the driver's history.
const SECOND_BARE: &str =
    "week,2026-03-09,15,3000,15\nplace,HUB\nplace,P\nleg,HUB,P,60,3000\nleg,P,HUB,60,3000\ndriver,D1,24000,2000\norder,A,P,2026-03-09T08:00,2026-03-09T12:00,30,12000,9000\n";

/// An earlier week of the driver, without a history.
const BEFORE: &str = "week,2026-02-23,15,3000,15\nplace,HUB\ndriver,D1,24000,2000\n";

/// A week of a driver of whom nothing is kept.
const UNKNOWN: &str = "week,2026-03-09,15,3000,15\nplace,HUB\ndriver,D9,24000,2000\n";

/// A reply as a text.
fn reply_text(alloc: Global, reply: Reply) -> Result<Bytes, Memory> {
    match reply {
        Reply::Done(text) => Ok(text),
        Reply::Refused(refusal) => refusal_line(alloc, &refusal),
        Reply::KeeperFault => Many::from_slice(alloc, b"fault\n"),
        Reply::Memory => Err(Memory),
    }
}

/// The text of the reply to a command.
fn told<R: Threads + Sync>(
    rt: &R,
    alloc: Global,
    keeper: &mut MemoryKeeper,
    command: &Command,
) -> Result<Bytes, Memory>
    requires { IsCommand command.now }
{
    let reply = step(rt, &Straight, alloc, keeper, &mut TurnPlanner, command);
    reply_text(alloc, reply)
}

/// The command that plans a week text. None for a text that is too long.
fn planning(alloc: Global, week: &str) -> Result<Option<Command>, Memory>
    ensures { IfOk result (λ command. IfSome command IsCommand) }
{
    if week.len() > 1_048_576 {
        return Ok(None);
    }
    let limits = Limits {
        labels: 65_536,
        nodes: 31,
        rounds: 8,
    };
    let text = Many::from_slice(alloc, week.as_bytes())?;
    Ok(Some(Command::Plan(text, limits)))
}

/// The reply to a week text.
fn planned<R: Threads + Sync>(
    rt: &R,
    alloc: Global,
    keeper: &mut MemoryKeeper,
    week: &str,
) -> Result<Bytes, Memory> {
    match planning(alloc, week)? {
        Some(command) => told(rt, alloc, keeper, &command),
        None => Err(Memory),
    }
}

/// Whether a week text has this reply.
fn plans<R: Threads + Sync>(
    rt: &R,
    alloc: Global,
    keeper: &mut MemoryKeeper,
    week: &str,
    reply: &str,
) -> bool {
    match planned(rt, alloc, keeper, week) {
        Ok(text) => text.as_slice() == reply.as_bytes(),
        Err(Memory) => false,
    }
}

/// Whether a week text has a report that begins and ends so.
fn reports<R: Threads + Sync>(
    rt: &R,
    alloc: Global,
    keeper: &mut MemoryKeeper,
    week: &str,
    begins: &str,
    ends: &str,
) -> bool {
    match planned(rt, alloc, keeper, week) {
        Ok(text) => {
            text.as_slice().starts_with(begins.as_bytes())
                && text.as_slice().ends_with(ends.as_bytes())
        }
        Err(Memory) => false,
    }
}

/// Whether a command that names a Monday has this reply.
fn replies<R: Threads + Sync>(
    rt: &R,
    alloc: Global,
    keeper: &mut MemoryKeeper,
    command: &Command,
    reply: &str,
) -> bool
    requires { IsCommand command.now }
{
    match told(rt, alloc, keeper, command) {
        Ok(text) => text.as_slice() == reply.as_bytes(),
        Err(Memory) => false,
    }
}

/// Whether the publication of a week's draft has this reply.
fn publishes<R: Threads + Sync>(
    rt: &R,
    alloc: Global,
    keeper: &mut MemoryKeeper,
    (monday, revision): (&str, u64),
    reply: &str,
) -> bool {
    match read_monday(monday) {
        Some(monday) => replies(
            rt,
            alloc,
            keeper,
            &Command::Publish(monday, revision),
            reply,
        ),
        None => false,
    }
}

/// Whether the report of a week is shown so.
fn shows<R: Threads + Sync>(
    rt: &R,
    alloc: Global,
    keeper: &mut MemoryKeeper,
    monday: &str,
    reply: &str,
) -> bool {
    match read_monday(monday) {
        Some(monday) => replies(rt, alloc, keeper, &Command::Show(monday), reply),
        None => false,
    }
}

/// Whether a week is exported so.
fn exports<R: Threads + Sync>(
    rt: &R,
    alloc: Global,
    keeper: &mut MemoryKeeper,
    monday: &str,
    reply: &str,
) -> bool {
    match read_monday(monday) {
        Some(monday) => replies(rt, alloc, keeper, &Command::Export(monday), reply),
        None => false,
    }
}

#[test]
fn a_week_is_published_once(rt: HostRuntime) -> Result<(), Fail> {
    let mut keeper = MemoryKeeper::new(rt.alloc(), Many::new(rt.alloc()));
    let draft = ("2026-03-02", 1);
    let stands = "refused published 2026-03-02 receipt 1\n";
    assert!(rt; plans(&rt, rt.alloc(), &mut keeper, PLAIN, PLANNED));
    assert!(rt;
        publishes(
            &rt,
            rt.alloc(),
            &mut keeper,
            draft,
            "published 2026-03-02 receipt 1\n"
        )
    );
    assert!(rt; publishes(&rt, rt.alloc(), &mut keeper, draft, stands));
    assert!(rt; plans(&rt, rt.alloc(), &mut keeper, PLAIN, stands));
    Ok(())
}

#[test]
fn a_draft_is_published_at_its_revision_alone(rt: HostRuntime) -> Result<(), Fail> {
    let mut keeper = MemoryKeeper::new(rt.alloc(), Many::new(rt.alloc()));
    let week = "week 2026-03-02\ncost 13500\n";
    assert!(rt; plans(&rt, rt.alloc(), &mut keeper, PLAIN, PLANNED));
    assert!(rt; reports(&rt, rt.alloc(), &mut keeper, PLAIN, week, "\ndraft 2\n"));
    assert!(rt;
        publishes(
            &rt,
            rt.alloc(),
            &mut keeper,
            ("2026-03-02", 1),
            "refused stale 1 2\n"
        )
    );
    assert!(rt;
        publishes(
            &rt,
            rt.alloc(),
            &mut keeper,
            ("2026-03-09", 1),
            "refused draft 2026-03-09\n"
        )
    );
    Ok(())
}

#[test]
fn a_draft_is_shown_and_exported(rt: HostRuntime) -> Result<(), Fail> {
    let mut keeper = MemoryKeeper::new(rt.alloc(), Many::new(rt.alloc()));
    assert!(rt;
        shows(
            &rt,
            rt.alloc(),
            &mut keeper,
            "2026-03-02",
            "refused draft 2026-03-02\n"
        )
    );
    assert!(rt; plans(&rt, rt.alloc(), &mut keeper, PLAIN, PLANNED));
    assert!(rt; shows(&rt, rt.alloc(), &mut keeper, "2026-03-02", PLANNED));
    assert!(rt; exports(&rt, rt.alloc(), &mut keeper, "2026-03-02", EXPORTED));
    Ok(())
}

#[test]
fn a_published_week_is_shown_with_its_receipt(rt: HostRuntime) -> Result<(), Fail> {
    let mut keeper = MemoryKeeper::new(rt.alloc(), Many::new(rt.alloc()));
    let shown =
        "week 2026-03-02\ncost 13500\nbound 13500\nstate proved\nnodes 1\norder A out 9000\norder B out 4500\ndraft 1\npublished 1\n";
    assert!(rt; plans(&rt, rt.alloc(), &mut keeper, PLAIN, PLANNED));
    assert!(rt;
        publishes(
            &rt,
            rt.alloc(),
            &mut keeper,
            ("2026-03-02", 1),
            "published 2026-03-02 receipt 1\n"
        )
    );
    assert!(rt; shows(&rt, rt.alloc(), &mut keeper, "2026-03-02", shown));
    assert!(rt; exports(&rt, rt.alloc(), &mut keeper, "2026-03-02", EXPORTED));
    Ok(())
}

/// A keeper after two drafts of a driver's weeks, of which the first was published. None where a reply was another.
fn moved_on<R: Threads + Sync>(rt: &R, alloc: Global) -> Option<MemoryKeeper> {
    let mut keeper = MemoryKeeper::new(alloc, Many::new(alloc));
    let first = "week 2026-03-02\ncost 8000\nbound 8000\nstate proved\nnodes 1\n";
    let second = "week 2026-03-09\ncost 8000\nbound 8000\nstate proved\nnodes 1\n";
    let receipt = "published 2026-03-02 receipt 1\n";
    if reports(rt, alloc, &mut keeper, FIRST, first, "\ndraft 1\n")
        && reports(rt, alloc, &mut keeper, SECOND, second, "\ndraft 1\n")
        && publishes(rt, alloc, &mut keeper, ("2026-03-02", 1), receipt)
    {
        Some(keeper)
    } else {
        None
    }
}

#[test]
fn a_draft_made_before_its_driver_moved_on_is_refused(rt: HostRuntime) -> Result<(), Fail> {
    let mut keeper = moved_on(&rt, rt.alloc()).ok_or("two drafts and a publication")?;
    assert!(rt;
        publishes(
            &rt,
            rt.alloc(),
            &mut keeper,
            ("2026-03-09", 1),
            "refused moved D1\n"
        )
    );
    assert!(rt; plans(&rt, rt.alloc(), &mut keeper, SECOND, "refused kept D1\n"));
    assert!(rt;
        plans(
            &rt,
            rt.alloc(),
            &mut keeper,
            BEFORE,
            "refused later D1 2026-03-09\n"
        )
    );
    assert!(rt;
        plans(
            &rt,
            rt.alloc(),
            &mut keeper,
            UNKNOWN,
            "refused history D9\n"
        )
    );
    Ok(())
}

#[test]
fn a_kept_history_is_planned_from(rt: HostRuntime) -> Result<(), Fail> {
    let mut keeper = moved_on(&rt, rt.alloc()).ok_or("two drafts and a publication")?;
    let week = "week 2026-03-09\ncost 8000\nbound 8000\nstate proved\nnodes 1\n";
    assert!(rt;
        reports(
            &rt,
            rt.alloc(),
            &mut keeper,
            SECOND_BARE,
            week,
            "\ndraft 2\n"
        )
    );
    assert!(rt;
        publishes(
            &rt,
            rt.alloc(),
            &mut keeper,
            ("2026-03-09", 2),
            "published 2026-03-09 receipt 2\n"
        )
    );
    Ok(())
}

/// The last draft that a week may have.
#[tactic(auto, using(crate::proofs::Named::none_named))]
fn last_draft(alloc: Global, monday: Monday) -> Option<Draft> {
    if monday.day > 47_478 {
        return None;
    }
    Some(Draft {
        monday,
        revision: 1_000_000,
        drivers: Many::new(alloc),
        report: Many::new(alloc),
        export: Many::new(alloc),
    })
}

/// A keeper that holds the last draft of a week.
fn full(alloc: Global) -> Option<MemoryKeeper> {
    let mut keeper = MemoryKeeper::new(alloc, Many::new(alloc));
    let draft = last_draft(alloc, read_monday("2026-03-02")?)?;
    keeper.drafts.push(draft).ok()?;
    Some(keeper)
}

#[test]
fn a_week_has_a_last_draft(rt: HostRuntime) -> Result<(), Fail> {
    let mut keeper = full(rt.alloc()).ok_or("a keeper")?;
    assert!(rt;
        plans(
            &rt,
            rt.alloc(),
            &mut keeper,
            PLAIN,
            "refused full 2026-03-02\n"
        )
    );
    Ok(())
}

// The third call of a plan without drivers puts the draft.
#[test]
fn a_draft_that_is_not_kept_is_not_shown(rt: HostRuntime) -> Result<(), Fail> {
    let mut keeper = MemoryKeeper::new(rt.alloc(), Many::new(rt.alloc()));
    keeper.fails.push(3).ok().ok_or("memory")?;
    assert!(rt; plans(&rt, rt.alloc(), &mut keeper, PLAIN, "fault\n"));
    assert_eq!(rt; keeper.faults, 1);
    assert!(rt;
        shows(
            &rt,
            rt.alloc(),
            &mut keeper,
            "2026-03-02",
            "refused draft 2026-03-02\n"
        )
    );
    Ok(())
}
