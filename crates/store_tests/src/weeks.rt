// Drafts that are put and published, and stores from before debts were kept.
use crate::asking::{copied, drivers, kept_day, owed, publish, put_again, receipt};
use crate::stores::{OLDER, TODAY, opened};
use desk_keeper::KeeperError;
use keeper_sqlite::OpenError;
use minute_line::read_monday;
use std::test::Fail;

// Two weeks of D1 are drafted, then published in turn. The second draft saw nothing of D1, of whom the first week is kept
// once it is published.
#[test]
fn each_publication_moves_its_driver_on(rt: HostRuntime) -> Result<(), Fail> {
    let alloc = rt.alloc();
    let first = read_monday("2026-03-02").ok_or("a Monday")?;
    let second = read_monday("2026-03-09").ok_or("a Monday")?;
    let drafts = "INSERT INTO drafts VALUES (20514, 1, x'01', x'02'), (20521, 1, x'03', x'04');
        INSERT INTO draft_drivers VALUES (20514, 0, 'D1', NULL, NULL, '1500 0 0,0,0,0,0,0,0,0,0,0,0,0,0,0,0,0 0 - 1200 3'),
        (20521, 0, 'D1', NULL, NULL, '1500 0 0,0,0,0,0,0,0,0,0,0,0,0,0,0,0,0 0 - 1200 3')";
    let mut made = opened(alloc, &[OLDER, TODAY, drafts]).ok().ok_or("opened")?;
    let mut keeper = opened(alloc, &[]).ok().ok_or("opened")?;
    assert_eq!(rt; copied(&mut made, &mut keeper, alloc, first), Ok(1));
    assert_eq!(rt; copied(&mut made, &mut keeper, alloc, second), Ok(1));
    assert_eq!(rt; kept_day(&mut keeper, alloc), Ok(-1));
    assert_eq!(rt; publish(&mut keeper, alloc, first), Ok(1));
    assert_eq!(rt; kept_day(&mut keeper, alloc), Ok(20_521));
    assert_eq!(rt; publish(&mut keeper, alloc, first), Ok(0));
    assert_eq!(rt; put_again(&mut keeper, alloc, second), Ok(2));
    assert_eq!(rt; publish(&mut keeper, alloc, second), Ok(2));
    assert_eq!(rt; kept_day(&mut keeper, alloc), Ok(20_528));
    assert_eq!(rt; receipt(&mut keeper, alloc, first), Ok(1));
    assert_eq!(rt; receipt(&mut keeper, alloc, second), Ok(2));
    assert_eq!(rt; keeper.faults(), 0);
    Ok(())
}

// A draft of one driver is put again, published and gone; D1 then owes what the draft says. With the last receipt taken,
// it stands.
#[test]
fn a_draft_is_published_or_stands(rt: HostRuntime) -> Result<(), Fail> {
    let alloc = rt.alloc();
    let monday = read_monday("2026-03-02").ok_or("a Monday")?;
    let draft = "INSERT INTO drafts VALUES (20514, 1, x'01', x'02');
        INSERT INTO draft_drivers VALUES (20514, 0, 'D1', NULL, NULL, '1500 0 0,0,0,0,0,0,0,0,0,0,0,0,0,0,0,0 0 - 1200 3')";
    let last = "INSERT INTO issues VALUES (9223372036854775807, 20521, 1, x'', x'')";
    let first = "INSERT INTO issues VALUES (1, 20521, 1, x'', x'')";
    for (issue, published, left, owes, faults) in [
        (first, Ok(2), -1, 1200, 0),
        (last, Err(KeeperError::Fault), 1, -1, 1),
    ] {
        let mut keeper = opened(alloc, &[OLDER, TODAY, draft, issue])
            .ok()
            .ok_or("opened")?;
        assert_eq!(rt; put_again(&mut keeper, alloc, monday), Ok(2), "{issue}");
        assert_eq!(rt; publish(&mut keeper, alloc, monday), published, "{issue}");
        assert_eq!(rt; drivers(&mut keeper, alloc, monday), Ok(left), "{issue}");
        assert_eq!(rt; owed(&mut keeper, alloc), Ok(owes), "{issue}");
        assert_eq!(rt; keeper.faults(), faults, "{issue}");
    }
    Ok(())
}

// A store from before debts were kept: 1500 minutes of rest, that ended 9,675 minutes before Monday, leave 1,200 to be
// rested within three weeks. Its draft is published.
#[test]
fn an_older_store_is_moved(rt: HostRuntime) -> Result<(), Fail> {
    let alloc = rt.alloc();
    let monday = read_monday("2026-03-02").ok_or("a Monday")?;
    let older =
        "INSERT INTO histories VALUES ('D1', 20514, '1500 120 0,0,0,0,0,0,0,0,0,0,0,0,0,0,0,0 9510 W15,D60,W30,D60');
        INSERT INTO drafts VALUES (20514, 1, x'', x'');
        INSERT INTO draft_drivers VALUES (20514, 0, 'D1', 20514, '1500 120 0,0,0,0,0,0,0,0,0,0,0,0,0,0,0,0 9510 W15,D60,W30,D60', '1500 120 0,0,0,0,0,0,0,0,0,0,0,0,0,0,0,0 9510 W15,D60,W30,D60')";
    let mut keeper = opened(alloc, &[OLDER, older]).ok().ok_or("opened")?;
    assert_eq!(rt; owed(&mut keeper, alloc), Ok(1200));
    assert_eq!(rt; publish(&mut keeper, alloc, monday), Ok(1));
    assert_eq!(rt; owed(&mut keeper, alloc), Ok(1200));
    assert_eq!(rt; kept_day(&mut keeper, alloc), Ok(20_521));
    let none = "INSERT INTO histories VALUES ('D1', 20514, '1500 120 -')";
    let rows = [
        ("", none, Some(OpenError::Text)),
        (TODAY, none, None),
        (
            "CREATE TABLE format (version INTEGER NOT NULL) STRICT; INSERT INTO format VALUES (3)",
            none,
            Some(OpenError::Version(3)),
        ),
        (
            "CREATE TABLE format (version INTEGER NOT NULL) STRICT; INSERT INTO format VALUES (2), (2)",
            none,
            Some(OpenError::Version(0)),
        ),
        (
            "CREATE TABLE format (other INTEGER)",
            none,
            Some(OpenError::Fault),
        ),
    ];
    for (format, row, refused) in rows {
        assert_eq!(rt;
            opened(alloc, &[OLDER, format, row]).err(),
            refused,
            "{format}"
        );
    }
    Ok(())
}
