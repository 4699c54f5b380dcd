// Commands over one keeper, one after another.

use crate::running::{ONE_DRIVER, PLANNED, WITHOUT_DRIVERS, new_keeper, reports, says};
use std::test::Fail;

/// The same, once it is published.
const PUBLISHED: &str =
    "week 2026-03-02\ncost 13500\nbound 13500\nstate proved\nnodes 1\norder A out 9000\norder B out 4500\ndraft 1\npublished 1\n";

/// Its rows and its tree.
const EXPORTED: &str =
    "week,2026-03-02\nout,A,9000\nout,B,4500\nnode,1,0,,,root,13500,0,closed\nprice,1,9000,4500\n";

/// The same a week later.
const NEXT_WEEK: &str =
    "week,2026-03-09,15,3000,15\nplace,HUB\nplace,P\nleg,HUB,P,60,3000\nleg,P,HUB,60,3000\ndriver,D1,24000,2000\nrest,D1,2026-03-07T00:00,2700\nworked,D1,0,0,0,0,0,0,0,0,0,0,0,0,0,0,0,0,0\npast,D1,OFF,2880\norder,A,P,2026-03-09T08:00,2026-03-09T12:00,30,12000,9000\n";

/// The next week, without the driver's history.
const NEXT_WITHOUT: &str =
    "week,2026-03-09,15,3000,15\nplace,HUB\nplace,P\nleg,HUB,P,60,3000\nleg,P,HUB,60,3000\ndriver,D1,24000,2000\norder,A,P,2026-03-09T08:00,2026-03-09T12:00,30,12000,9000\n";

#[test]
fn a_week_is_published_once(rt: HostRuntime) -> Result<(), Fail> {
    let alloc = rt.alloc();
    let mut keeper = new_keeper(alloc, 0)?;
    let publish = ["publish", "--monday", "2026-03-02", "--rev", "1"];
    let first = "published 2026-03-02 receipt 1\n";
    let again = "refused published 2026-03-02 receipt 1\n";
    let show = ["show", "--monday", "2026-03-02"];
    assert!(rt;
        says(
            &rt,
            alloc,
            &mut keeper,
            &["plan"],
            WITHOUT_DRIVERS,
            0,
            PLANNED
        ) == Ok(true)
    );
    assert!(rt; says(&rt, alloc, &mut keeper, &publish, "", 0, first) == Ok(true));
    assert!(rt; says(&rt, alloc, &mut keeper, &publish, "", 4, again) == Ok(true));
    assert!(rt;
        says(
            &rt,
            alloc,
            &mut keeper,
            &["plan"],
            WITHOUT_DRIVERS,
            4,
            again
        ) == Ok(true)
    );
    assert!(rt; says(&rt, alloc, &mut keeper, &show, "", 0, PUBLISHED) == Ok(true));
    Ok(())
}

#[test]
fn a_draft_is_exported(rt: HostRuntime) -> Result<(), Fail> {
    let alloc = rt.alloc();
    let mut keeper = new_keeper(alloc, 0)?;
    let show = ["show", "--monday", "2026-03-02"];
    let export = ["export", "--monday", "2026-03-02"];
    assert!(rt;
        says(
            &rt,
            alloc,
            &mut keeper,
            &["plan"],
            WITHOUT_DRIVERS,
            0,
            PLANNED
        ) == Ok(true)
    );
    assert!(rt; says(&rt, alloc, &mut keeper, &show, "", 0, PLANNED) == Ok(true));
    assert!(rt; says(&rt, alloc, &mut keeper, &export, "", 0, EXPORTED) == Ok(true));
    Ok(())
}

#[test]
fn the_next_week_has_the_kept_history(rt: HostRuntime) -> Result<(), Fail> {
    let alloc = rt.alloc();
    let mut keeper = new_keeper(alloc, 0)?;
    let publish = ["publish", "--monday", "2026-03-02", "--rev", "1"];
    let first = "published 2026-03-02 receipt 1\n";
    let week = "week 2026-03-02\ncost 8000\nbound 8000\nstate proved\nnodes 1\n";
    let next = "week 2026-03-09\ncost 8000\nbound 8000\nstate proved\n";
    let past = "refused kept D1\n";
    assert!(rt; reports(&rt, alloc, &mut keeper, ONE_DRIVER, week, "\ndraft 1\n") == Ok(true));
    assert!(rt; says(&rt, alloc, &mut keeper, &publish, "", 0, first) == Ok(true));
    assert!(rt; says(&rt, alloc, &mut keeper, &["plan"], NEXT_WEEK, 4, past) == Ok(true));
    assert!(rt; reports(&rt, alloc, &mut keeper, NEXT_WITHOUT, next, "\ndraft 1\n") == Ok(true));
    Ok(())
}
