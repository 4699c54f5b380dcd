// Rows with the answers that a person worked out, and the week of one driver, whose history text is known.
ghost use Rattle.std.specs.Prelude.{◌+◌, ◌≤◌, length, IfOk};
ghost use Rattle.minute_line.specs.Minutes.{total_of};
ghost use Rattle.week_book.specs.Pasts.{HasPastRows};

use crate::{HistoryError, LineError, advance, idle, read_line, read_past};
use hours_rules::{Verdict, judge};
use minute_line::{History, Line, Many, Memory, Name, WEEK_MINUTES, history_read, history_text};
use std::alloc::Global;
use std::process::Abort;
use std::test::Fail;
use week_book::{Row, Word};

fn d1(alloc: Global) -> Result<Name, Memory> {
    Many::from_slice(alloc, b"D1".as_slice())
}

/// A text with a rest row of D1, which ends two days before Monday, and a worked row.
fn rested(alloc: Global) -> Result<Many<Row>, Memory>
    ensures { IfOk result (λ rows. HasPastRows rows × (length rows ≤ 2)) }
{
    let driver = d1(alloc)?;
    let again = d1(alloc)?;
    let mut rows = Many::new(alloc);
    rows.push(Row::Rest {
        row: 1,
        driver,
        end: -2880,
        minutes: 2700,
    })?;
    rows.push(Row::Worked {
        row: 2,
        driver: again,
        last: 0,
        weeks: [7, 0, 0, 0, 0, 0, 0, 0, 0, 0, 0, 0, 0, 0, 0, 0],
    })?;
    Ok(rows)
}

/// A text with a rest row of D1 and a worked row, and one past row that is off up to Monday.
fn rested_for(rt: &impl Abort, alloc: Global, end: i64, minutes: u64) -> Result<Many<Row>, Memory>
    ensures { IfOk result (λ rows. HasPastRows rows) }
{
    assert!(rt; end >= -20160);
    assert!(rt; end < 0);
    assert!(rt; minutes >= 1440);
    assert!(rt; minutes <= 1000000);
    let driver = d1(alloc)?;
    let again = d1(alloc)?;
    let mut rows = Many::new(alloc);
    rows.push(Row::Rest {
        row: 1,
        driver,
        end,
        minutes,
    })?;
    rows.push(Row::Worked {
        row: 2,
        driver: again,
        last: 0,
        weeks: [0; 16],
    })?;
    let off = [(Word::Off, end.unsigned_abs())];
    with_past(rt, alloc, rows, off.as_slice())
}

/// A text with a did row of D1 that is off.
fn declared(rt: &impl Abort, alloc: Global, rest: (Word, u64)) -> Result<Many<Row>, Memory>
    ensures { IfOk result (λ rows. HasPastRows rows × (length rows ≤ 2)) }
{
    let (word, minutes) = rest;
    assert!(rt; minutes <= 10080);
    assert!(rt; matches!(word, Word::Off | Word::Daily | Word::Weekly));
    let driver = d1(alloc)?;
    let mut rows = Many::new(alloc);
    rows.push(Row::Did {
        row: 1,
        driver,
        word,
        minutes,
    })?;
    Ok(rows)
}

/// A text without rows.
fn no_rows(alloc: Global) -> Many<Row>
    ensures { HasPastRows result × (length result ≤ 2) }
{
    Many::new(alloc)
}

/// The text with past rows of D1 after its rows.
fn with_past(
    rt: &impl Abort,
    alloc: Global,
    rows: Many<Row>,
    past: &[(Word, u64)],
) -> Result<Many<Row>, Memory>
    requires { HasPastRows rows }
    ensures { IfOk result (λ text. HasPastRows text) }
{
    let mut text = rows;
    for (word, minutes) in past {
        assert!(rt; *minutes >= 1);
        assert!(rt; *minutes <= 2000000);
        assert!(rt; text.len() < 100);
        let driver = d1(alloc)?;
        text.push(Row::Past {
            row: text.len() as u32 + 1,
            driver,
            word: *word,
            minutes: *minutes,
        })?;
    }
    Ok(text)
}

/// The text with did rows of D1 after its rows.
fn with_did(
    rt: &impl Abort,
    alloc: Global,
    rows: Many<Row>,
    did: &[(Word, u64)],
) -> Result<Many<Row>, Memory>
    requires { HasPastRows rows }
    ensures { IfOk result (λ text. HasPastRows text) }
{
    let mut text = rows;
    for (word, minutes) in did {
        assert!(rt; *minutes >= 1);
        assert!(rt; *minutes <= 10080);
        assert!(rt; text.len() < 100);
        let driver = d1(alloc)?;
        text.push(Row::Did {
            row: text.len() as u32 + 1,
            driver,
            word: *word,
            minutes: *minutes,
        })?;
    }
    Ok(text)
}

/// Why the rows make no history of D1.
fn past_cause(alloc: Global, rows: &Many<Row>) -> Result<Option<HistoryError>, Memory>
    requires { HasPastRows rows.now }
{
    let name = d1(alloc)?;
    match read_past(alloc, rows, &name) {
        Ok(_) => Ok(None),
        Err(cause) => Ok(Some(cause)),
    }
}

/// The history after a week, if it is lawful.
fn moved(alloc: Global, history: &History, line: &Line) -> Result<Option<History>, Memory>
    requires { total_of line.now.stints ≤ WEEK_MINUTES }
{
    match judge(history, line) {
        Verdict::Lawful => Ok(Some(advance(alloc, history, line)?)),
        Verdict::Broken(_) => Ok(None),
    }
}

#[test]
fn past_rows_name_their_first_cause(rt: HostRuntime) -> Result<(), Fail> {
    let alloc = rt.alloc();
    let two_days = [(Word::Off, 2880)];
    let text = with_past(&rt, alloc, no_rows(alloc), two_days.as_slice())?;
    assert!(rt;
        past_cause(alloc, &text)? == Some(HistoryError::NoRest),
        "no rest row"
    );
    let short = [(Word::Off, 2879)];
    let text = with_past(&rt, alloc, rested(alloc)?, short.as_slice())?;
    assert!(rt;
        past_cause(alloc, &text)? == Some(HistoryError::NotToMonday(2879, 2880)),
        "one minute too few"
    );
    let late = [
        (Word::Off, 60),
        (Word::Daily, 60),
        (Word::Weekly, 60),
        (Word::Work, 60),
    ];
    let text = with_past(&rt, alloc, rested(alloc)?, late.as_slice())?;
    assert!(rt;
        past_cause(alloc, &text)? == Some(HistoryError::LateWeekly(5)),
        "a late weekly rest before two off rows"
    );
    let text = no_rows(alloc);
    assert!(rt; past_cause(alloc, &text)? == None, "no row at all");
    Ok(())
}

#[test]
fn a_line_keeps_an_off_stint_of_no_minute(rt: HostRuntime) -> Result<(), Fail> {
    let alloc = rt.alloc();
    let name = d1(alloc)?;
    let alike = [(Word::Work, 30), (Word::Work, 30)];
    let text = with_did(
        &rt,
        alloc,
        declared(&rt, alloc, (Word::Off, 0))?,
        alike.as_slice(),
    )?;
    let line = read_line(alloc, &text, &name)?;
    assert!(rt; line.stints.len() == 3, "one stint a row");
    let long = [(Word::Work, 10080), (Word::Work, 1)];
    let text = with_did(&rt, alloc, no_rows(alloc), long.as_slice())?;
    match read_line(alloc, &text, &name) {
        Ok(_) => assert!(rt; false, "too long"),
        Err(cause) => assert!(rt; cause == LineError::TooLong(10081), "too long"),
    }
    Ok(())
}

#[test]
fn a_weekly_rest_in_the_week_ends_the_old_line(rt: HostRuntime) -> Result<(), Fail> {
    let alloc = rt.alloc();
    let name = d1(alloc)?;
    let two_days = [(Word::Off, 2880)];
    let past = with_past(&rt, alloc, rested(alloc)?, two_days.as_slice())?;
    let trip = [
        (Word::Weekly, 405),
        (Word::Work, 15),
        (Word::Drive, 60),
        (Word::Work, 30),
        (Word::Drive, 60),
    ];
    let week = with_did(&rt, alloc, no_rows(alloc), trip.as_slice())?;
    let line = read_line(alloc, &week, &name)?;
    let history = read_past(alloc, &past, &name)?.expect(&rt, "D1 has rows");
    let next = moved(alloc, &history, &line)?.expect(&rt, "the week is lawful");
    assert!(rt; next.prev_weekly == 3285 && next.open_off == 9510 && next.prev_drive == 120);
    assert!(rt; next.work16[0] == 0 && next.work16[15] == 165);
    let text = history_text(alloc, &next)?;
    assert!(rt;
        text.as_slice()
            == b"3285 120 0,0,0,0,0,0,0,0,0,0,0,0,0,0,0,165 9510 W15,D60,W30,D60 0 0".as_slice()
    );
    let back = history_read(alloc, text.as_slice())?;
    assert!(rt; back.open_off == 9510 && back.stints.stints.len() == 4);
    assert!(rt; idle(alloc, &next, 0)?.open_off == 9510, "no week");
    assert!(rt; idle(alloc, &next, 2)?.open_off == 20160, "two weeks");
    Ok(())
}

// A rest of 2,700 minutes owes nothing; one of less owes what it lacks, due three weeks after the week of its last minute:
// the week before for one that ended 10,079 minutes before Monday, and the week before that for one that ended 10,080.
#[test]
fn a_reduced_rest_row_leaves_a_debt(rt: HostRuntime) -> Result<(), Fail> {
    let alloc = rt.alloc();
    let name = d1(alloc)?;
    for (end, minutes, owed, due) in [
        (-1, 2700, 0, 0),
        (-1, 2699, 1, 3),
        (-10079, 1440, 1260, 3),
        (-10080, 1440, 1260, 2),
        (-20159, 1500, 1200, 2),
        (-20160, 1500, 1200, 1),
    ] {
        let text = rested_for(&rt, alloc, end, minutes)?;
        let history = read_past(alloc, &text, &name)?.expect(&rt, "D1 has rows");
        assert!(rt;
            (history.owed, history.due) == (owed, due),
            "at {end}, {minutes}"
        );
    }
    Ok(())
}

// Idle weeks bring the day by which it is due nearer, and never past.
#[test]
fn a_debt_comes_due_as_the_weeks_pass(rt: HostRuntime) -> Result<(), Fail> {
    let alloc = rt.alloc();
    let name = d1(alloc)?;
    let past = rested_for(&rt, alloc, -60, 1440)?;
    let history = read_past(alloc, &past, &name)?.expect(&rt, "D1 has rows");
    for (weeks, due) in [(0, 3), (1, 2), (2, 1), (3, 0), (4, 0), (20, 0)] {
        let later = idle(alloc, &history, weeks)?;
        assert!(rt; (later.owed, later.due) == (1260, due), "after {weeks}");
    }
    Ok(())
}

// What each week leaves was worked out by hand. A weekly rest of 1,500 or 1,560 minutes lacks 1,200 or 1,140 of 2,700; the
// first had its last minute before Monday. A daily rest of 1,860 pays 1,200, and one of 1,859 doesn't; nor does a weekly
// rest of 2,700. A week without a weekly rest keeps what the line began with.
#[test]
fn a_week_leaves_the_debt_of_its_last_weekly_rest(rt: HostRuntime) -> Result<(), Fail> {
    let alloc = rt.alloc();
    let name = d1(alloc)?;
    for (before, rest, after) in [
        (
            "2700 0 0,0,0,0,0,0,0,0,0,0,0,0,0,0,0,0 1500 W60 0 0",
            (Word::Weekly, 0),
            "1500 0 0,0,0,0,0,0,0,0,0,0,0,0,0,0,0,60 10020 W60 1200 2",
        ),
        (
            "2700 0 0,0,0,0,0,0,0,0,0,0,0,0,0,0,0,0 1500 W60 0 0",
            (Word::Weekly, 60),
            "1560 0 0,0,0,0,0,0,0,0,0,0,0,0,0,0,0,60 9960 W60 1140 3",
        ),
        (
            "1500 0 0,0,0,0,0,0,0,0,0,0,0,0,0,0,0,0 60 W60,N1860,W60 1200 2",
            (Word::Weekly, 2640),
            "2700 0 0,0,0,0,0,0,0,0,0,0,0,0,0,0,0,60 7380 W60 0 0",
        ),
        (
            "1500 0 0,0,0,0,0,0,0,0,0,0,0,0,0,0,0,0 60 W60,N1859,W60 1200 2",
            (Word::Weekly, 2640),
            "2700 0 0,0,0,0,0,0,0,0,0,0,0,0,0,0,0,60 7380 W60 1200 1",
        ),
        (
            "1500 0 0,0,0,0,0,0,0,0,0,0,0,0,0,0,0,0 60 W60,N1860,W60 1200 2",
            (Word::Daily, 600),
            "1500 0 0,0,0,0,0,0,0,0,0,0,0,0,0,0,0,60 9420 W60,N1860,W60,N660,W60 1200 1",
        ),
    ] {
        let history = history_read(alloc, before.as_bytes())?;
        let rows = declared(&rt, alloc, rest)?;
        let week = with_did(&rt, alloc, rows, [(Word::Work, 60)].as_slice())?;
        let line = read_line(alloc, &week, &name)?;
        let next = moved(alloc, &history, &line)?.expect(&rt, "the week is lawful");
        let text = history_text(alloc, &next)?;
        assert!(rt; text.as_slice() == after.as_bytes(), "after {before}");
    }
    Ok(())
}
