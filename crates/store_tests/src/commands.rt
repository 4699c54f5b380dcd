// Commands over one store, one after another. Each store is from before debts were kept, and is moved as it is opened.

use crate::running::says;
use crate::stores::{OLDER, opened};
use std::test::Fail;

/// A week without drivers.
const WITHOUT_DRIVERS: &str =
    "week,2026-03-02,15,3000,15\nplace,HUB\nplace,LYON\norder,A,LYON,2026-03-02T08:00,2026-03-02T12:00,30,12000,9000\norder,B,LYON,2026-03-03T08:00,2026-03-03T12:00,30,12000,4500\n";

/// A week of one driver, whose trip costs 8,000.
const ONE_DRIVER: &str =
    "week,2026-03-02,15,3000,15\nplace,HUB\nplace,P\nleg,HUB,P,60,3000\nleg,P,HUB,60,3000\ndriver,D1,24000,2000\nrest,D1,2026-02-28T00:00,2700\nworked,D1,0,0,0,0,0,0,0,0,0,0,0,0,0,0,0,0,0\npast,D1,OFF,2880\norder,A,P,2026-03-02T08:00,2026-03-02T12:00,30,12000,9000\n";

/// The same a week later.
const NEXT_WEEK: &str =
    "week,2026-03-09,15,3000,15\nplace,HUB\nplace,P\nleg,HUB,P,60,3000\nleg,P,HUB,60,3000\ndriver,D1,24000,2000\nrest,D1,2026-03-07T00:00,2700\nworked,D1,0,0,0,0,0,0,0,0,0,0,0,0,0,0,0,0,0\npast,D1,OFF,2880\norder,A,P,2026-03-09T08:00,2026-03-09T12:00,30,12000,9000\n";

/// The next week, without the driver's history.
const NEXT_WITHOUT: &str =
    "week,2026-03-09,15,3000,15\nplace,HUB\nplace,P\nleg,HUB,P,60,3000\nleg,P,HUB,60,3000\ndriver,D1,24000,2000\norder,A,P,2026-03-09T08:00,2026-03-09T12:00,30,12000,9000\n";

/// A week before both, of the driver alone.
const WEEK_BEFORE: &str = "week,2026-02-23,15,3000,15\nplace,HUB\ndriver,D1,24000,2000\n";

/// A week of a driver whose history nobody tells.
const UNKNOWN_DRIVER: &str = "week,2026-03-09,15,3000,15\nplace,HUB\ndriver,D9,24000,2000\n";

#[test]
fn a_week_is_published_once(rt: HostRuntime) -> Result<(), Fail> {
    let alloc = rt.alloc();
    let mut keeper = opened(alloc, &[OLDER]).ok().ok_or("opened")?;
    let publish = "publish --monday 2026-03-02 --rev 1";
    let first = "published 2026-03-02 receipt 1\n";
    let again = "refused published 2026-03-02 receipt 1\n";
    for (words, text, status, reply) in [
        (
            "plan",
            WITHOUT_DRIVERS,
            0,
            "week 2026-03-02\ncost 13500\n..\ndraft 1\n",
        ),
        (publish, "", 0, first),
        (publish, "", 4, again),
        ("plan", WITHOUT_DRIVERS, 4, again),
    ] {
        assert!(rt;
            says(&rt, alloc, &mut keeper, words, text, status, reply) == Ok(true),
            "{words}"
        );
    }
    Ok(())
}

#[test]
fn a_draft_that_is_not_the_last_is_stale(rt: HostRuntime) -> Result<(), Fail> {
    let alloc = rt.alloc();
    let mut keeper = opened(alloc, &[OLDER]).ok().ok_or("opened")?;
    for (words, text, status, reply) in [
        ("plan", WITHOUT_DRIVERS, 0, "week 2026-03-02\n..\ndraft 1\n"),
        ("plan", WITHOUT_DRIVERS, 0, "week 2026-03-02\n..\ndraft 2\n"),
        (
            "publish --monday 2026-03-02 --rev 1",
            "",
            4,
            "refused stale 1 2\n",
        ),
        (
            "publish --monday 2026-03-09 --rev 1",
            "",
            4,
            "refused draft 2026-03-09\n",
        ),
    ] {
        assert!(rt;
            says(&rt, alloc, &mut keeper, words, text, status, reply) == Ok(true),
            "{words}"
        );
    }
    Ok(())
}

// 20514 is the day of 2026-03-02.
#[test]
fn no_draft_follows_the_last_revision(rt: HostRuntime) -> Result<(), Fail> {
    let alloc = rt.alloc();
    let last = "INSERT INTO drafts VALUES (20514, 1000000, x'', x'')";
    let mut keeper = opened(alloc, &[OLDER, last]).ok().ok_or("opened")?;
    let reply = "refused full 2026-03-02\n";
    assert!(rt; says(&rt, alloc, &mut keeper, "plan", WITHOUT_DRIVERS, 4, reply) == Ok(true));
    Ok(())
}

#[test]
fn the_next_week_has_the_kept_history(rt: HostRuntime) -> Result<(), Fail> {
    let alloc = rt.alloc();
    let mut keeper = opened(alloc, &[OLDER]).ok().ok_or("opened")?;
    for (words, text, status, reply) in [
        (
            "plan",
            ONE_DRIVER,
            0,
            "week 2026-03-02\ncost 8000\n..\ndraft 1\n",
        ),
        (
            "plan",
            NEXT_WEEK,
            0,
            "week 2026-03-09\ncost 8000\n..\ndraft 1\n",
        ),
        (
            "publish --monday 2026-03-02 --rev 1",
            "",
            0,
            "published 2026-03-02 receipt 1\n",
        ),
        (
            "publish --monday 2026-03-09 --rev 1",
            "",
            4,
            "refused moved D1\n",
        ),
        ("plan", NEXT_WEEK, 4, "refused kept D1\n"),
        (
            "plan",
            NEXT_WITHOUT,
            0,
            "week 2026-03-09\ncost 8000\n..\ndraft 2\n",
        ),
        ("plan", WEEK_BEFORE, 4, "refused later D1 2026-03-09\n"),
        ("plan", UNKNOWN_DRIVER, 4, "refused history D9\n"),
    ] {
        assert!(rt;
            says(&rt, alloc, &mut keeper, words, text, status, reply) == Ok(true),
            "{words} {text}"
        );
    }
    Ok(())
}
