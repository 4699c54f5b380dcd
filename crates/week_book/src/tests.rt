ghost use Rattle.std.specs.Prelude.{◌≡◌};
ghost use Rattle.std.specs.List.{list_all};
ghost use Rattle.week_book.specs.Texts.{is_planned, is_checked, begins_with_week, are_week_rows, are_check_rows};

use crate::{Row, WeekError, What, Word, check_did, check_week, leg};
use minute_line::{Many, Memory, Monday, Name, read_monday};
use std::alloc::Global;
use std::test::Fail;

// A row, with what the cases below change in it.
#[derive(Clone, Copy)]
enum Line {
    Week,
    Place(&'static str),
    Leg(&'static str, &'static str, u64),
    Driver(&'static str),
    Rest(&'static str, i64),
    Worked(&'static str),
    Past(&'static str, u64),
    Did(&'static str, Word, u64),
    Order(&'static str, &'static str, i64, i64),
}

fn name(alloc: Global, text: &str) -> Result<Name, Memory> {
    Name::from_slice(alloc, text.as_bytes())
}

fn row_of(alloc: Global, monday: Monday, row: u32, line: Line) -> Result<Row, Memory> {
    Ok(match line {
        Line::Week => Row::Week {
            row,
            monday,
            load: 15,
            night: 3000,
            grid: 15,
        },
        Line::Place(text) => Row::Place {
            row,
            name: name(alloc, text)?,
        },
        Line::Leg(from, to, minutes) => Row::Leg {
            row,
            from: name(alloc, from)?,
            to: name(alloc, to)?,
            minutes,
            cents: 3000,
        },
        Line::Driver(text) => Row::Driver {
            row,
            name: name(alloc, text)?,
            capacity: 24_000,
            fee: 2000,
        },
        Line::Rest(text, end) => Row::Rest {
            row,
            driver: name(alloc, text)?,
            end,
            minutes: 2700,
        },
        Line::Worked(text) => Row::Worked {
            row,
            driver: name(alloc, text)?,
            last: 0,
            weeks: [0; 16],
        },
        Line::Past(text, minutes) => Row::Past {
            row,
            driver: name(alloc, text)?,
            word: Word::Off,
            minutes,
        },
        Line::Did(text, word, minutes) => Row::Did {
            row,
            driver: name(alloc, text)?,
            word,
            minutes,
        },
        Line::Order(text, place, opens, closes) => Row::Order {
            row,
            name: name(alloc, text)?,
            place: name(alloc, place)?,
            opens,
            closes,
            service: 30,
            kg: 12_000,
            price: 9000,
        },
    })
}

fn push_all(alloc: Global, rows: &mut Many<Row>, lines: &[Line]) -> Result<(), Fail> {
    let monday = read_monday("2026-03-02").ok_or("monday")?;
    for line in lines {
        let before = u32::try_from(rows.len()).unwrap_or(0);
        rows.push(row_of(alloc, monday, before.wrapping_add(1), *line)?)?;
    }
    Ok(())
}

fn is_planned(row: &Row) -> bool
    ensures { result ≡ is_planned row.now }
{
    !matches!(row, Row::Did { .. })
}

fn is_checked(row: &Row) -> bool
    ensures { result ≡ is_checked row.now }
{
    match row {
        Row::Place { .. } | Row::Leg { .. } | Row::Driver { .. } | Row::Order { .. } => false,
        _ => true,
    }
}

fn begins_with_week(rows: &[Row]) -> bool
    ensures { result ≡ begins_with_week rows.now }
{
    match rows.first() {
        Some(Row::Week { .. }) => true,
        _ => false,
    }
}

fn each_planned(rows: &[Row]) -> bool
    ensures { result ≡ list_all is_planned rows.now }
{
    for row in rows {
        if !is_planned(row) {
            return false;
        }
    }
    true
}

fn each_checked(rows: &[Row]) -> bool
    ensures { result ≡ list_all is_checked rows.now }
{
    for row in rows {
        if !is_checked(row) {
            return false;
        }
    }
    true
}

fn are_week_rows(rows: &[Row]) -> bool
    ensures { result ≡ are_week_rows rows.now }
{
    begins_with_week(rows) && each_planned(rows)
}

fn are_check_rows(rows: &[Row]) -> bool
    ensures { result ≡ are_check_rows rows.now }
{
    begins_with_week(rows) && each_checked(rows)
}

// The one-driver week of nine rows: two places, a leg, a driver with a history, an order at the second place.
const WEEK: [Line; 9] = [
    Line::Week,
    Line::Place("HUB"),
    Line::Place("P"),
    Line::Leg("HUB", "P", 60),
    Line::Driver("D1"),
    Line::Rest("D1", -2880),
    Line::Worked("D1"),
    Line::Past("D1", 2880),
    Line::Order("A", "P", 480, 720),
];

// The fault of the week text with one more row, its tenth; by hand, from the ranges and the order of refusals.
#[test]
fn a_tenth_row_is_refused_by_its_own_fault(rt: HostRuntime) -> Result<(), Fail> {
    let alloc = rt.alloc();
    let unknown = Some(WeekError::Unknown(10, 2));
    let double = Some(WeekError::Double(10));
    for (what, line, fault) in [
        ("a name in two kinds", Line::Place("D1"), None),
        (
            "a leg of 271 minutes",
            Line::Leg("P", "HUB", 271),
            Some(WeekError::Range(10, 4)),
        ),
        (
            "a leg with equal ends",
            Line::Leg("P", "P", 60),
            Some(WeekError::Range(10, 3)),
        ),
        (
            "a name with a comma",
            Line::Place("A,B"),
            Some(WeekError::Range(10, 2)),
        ),
        (
            "an empty name",
            Line::Driver(""),
            Some(WeekError::Range(10, 2)),
        ),
        (
            "a rest that ends on Monday",
            Line::Rest("D1", 1),
            Some(WeekError::Range(10, 3)),
        ),
        (
            "a past row of no minute",
            Line::Past("D1", 0),
            Some(WeekError::Range(10, 4)),
        ),
        (
            "a window that opens on Sunday before",
            Line::Order("B", "P", -1, 5),
            Some(WeekError::Range(10, 4)),
        ),
        (
            "a window that closes before it opens",
            Line::Order("B", "P", 5, 4),
            Some(WeekError::Range(10, 5)),
        ),
        ("a second week row", Line::Week, double),
        ("a place again", Line::Place("P"), double),
        ("a leg again", Line::Leg("HUB", "P", 61), double),
        ("a driver again", Line::Driver("D1"), double),
        ("a rest row again", Line::Rest("D1", 0), double),
        ("a worked row again", Line::Worked("D1"), double),
        (
            "an order again, at no place",
            Line::Order("A", "Q", 480, 720),
            double,
        ),
        (
            "an order at no place",
            Line::Order("B", "Q", 480, 720),
            Some(WeekError::Unknown(10, 3)),
        ),
        ("a leg from no place", Line::Leg("Q", "P", 60), unknown),
        (
            "a leg to a longer name",
            Line::Leg("HUB", "PP", 60),
            Some(WeekError::Unknown(10, 3)),
        ),
        ("a past row of no driver", Line::Past("D2", 60), unknown),
    ] {
        let mut rows = Many::new(alloc);
        push_all(alloc, &mut rows, &WEEK)?;
        push_all(alloc, &mut rows, &[line])?;
        assert!(rt; rows.len() <= 1_048_576);
        assert!(rt; are_week_rows(rows.as_slice()));
        assert_eq!(rt; check_week(alloc, &rows).err(), fault, "{what}");
    }
    Ok(())
}

// One more than a week may have, and as many as it may have: those repeat a name.
#[test]
fn rows_of_a_kind_are_counted_first(rt: HostRuntime) -> Result<(), Fail> {
    let alloc = rt.alloc();
    for (line, what, most) in [
        (Line::Place("HUB"), What::Places, 64),
        (Line::Leg("", "", 0), What::Legs, 1024),
        (Line::Driver("D1"), What::Drivers, 16),
        (Line::Order("A", "Q", 0, 0), What::Orders, 120),
    ] {
        let mut rows = Many::new(alloc);
        push_all(alloc, &mut rows, &[Line::Week])?;
        for _ in 0..most {
            push_all(alloc, &mut rows, &[line])?;
        }
        assert!(rt; rows.len() <= 1_048_576);
        assert!(rt; are_week_rows(rows.as_slice()));
        let counted = Some(WeekError::Count(what, most + 1));
        assert!(rt; check_week(alloc, &rows).err() != counted);
        push_all(alloc, &mut rows, &[line])?;
        assert!(rt; rows.len() <= 1_048_576);
        assert!(rt; are_week_rows(rows.as_slice()));
        assert_eq!(rt; check_week(alloc, &rows).err(), counted);
    }
    Ok(())
}

#[test]
fn a_week_numbers_its_names_by_their_rows(rt: HostRuntime) -> Result<(), Fail> {
    let alloc = rt.alloc();
    let mut rows = Many::new(alloc);
    push_all(alloc, &mut rows, &[Line::Week])?;
    assert!(rt; rows.len() <= 1_048_576);
    assert!(rt; are_week_rows(rows.as_slice()));
    assert_eq!(rt; check_week(alloc, &rows).err(), Some(WeekError::NoDepot));
    let mut rows = Many::new(alloc);
    push_all(alloc, &mut rows, &WEEK)?;
    assert!(rt; rows.len() <= 1_048_576);
    assert!(rt; are_week_rows(rows.as_slice()));
    let week = check_week(alloc, &rows)?;
    assert_eq!(rt; leg(&week, 0, 1).map(|leg| leg.minutes), Some(60));
    assert_eq!(rt; leg(&week, 1, 0).map(|leg| leg.minutes), None);
    assert_eq!(rt; week.orders.get(0).map(|order| order.place), Some(1));
    assert_eq!(rt; week.orders.get(0).map(|order| order.closes), Some(720));
    assert_eq!(rt;
        (week.places.len(), week.drivers.len(), week.load, week.grid),
        (2, 1, 15, 15)
    );
    Ok(())
}

// A check text of three rows, then one more; the fault by hand, from the ranges and the order of refusals.
#[test]
fn a_fourth_row_of_a_check_text_is_refused_by_its_own_fault(rt: HostRuntime) -> Result<(), Fail> {
    let alloc = rt.alloc();
    for (what, line, fault) in [
        ("a driver again", Line::Did("D2", Word::Work, 60), None),
        (
            "a first row of no minute",
            Line::Did("D0", Word::Weekly, 0),
            None,
        ),
        (
            "a first working row of no minute",
            Line::Did("D0", Word::Work, 0),
            Some(WeekError::Range(4, 4)),
        ),
        (
            "a later row of no minute",
            Line::Did("D1", Word::Off, 0),
            Some(WeekError::Range(4, 4)),
        ),
        (
            "more than a week",
            Line::Did("D1", Word::Off, 10_081),
            Some(WeekError::Range(4, 4)),
        ),
        ("a second week row", Line::Week, Some(WeekError::Double(4))),
        (
            "a rest row of no driver",
            Line::Rest("D3", 0),
            Some(WeekError::Unknown(4, 2)),
        ),
    ] {
        let mut rows = Many::new(alloc);
        push_all(
            alloc,
            &mut rows,
            &[
                Line::Week,
                Line::Did("D2", Word::Weekly, 0),
                Line::Did("D1", Word::Off, 0),
            ],
        )?;
        push_all(alloc, &mut rows, &[line])?;
        assert!(rt; rows.len() <= 1_048_576);
        assert!(rt; are_check_rows(rows.as_slice()));
        let answer = check_did(alloc, &rows);
        match &answer {
            Ok(names) => {
                let first = names.get(0).map(|name| name.as_slice() == b"D2".as_slice());
                let second = names.get(1).map(|name| name.as_slice() == b"D1".as_slice());
                assert_eq!(rt;
                    (fault, first, second),
                    (None, Some(true), Some(true)),
                    "{what}"
                );
            }
            Err(error) => assert_eq!(rt; Some(*error), fault, "{what}"),
        }
    }
    Ok(())
}
