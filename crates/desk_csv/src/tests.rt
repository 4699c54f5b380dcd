// Texts and what they are read as: that csv's records and the definitions over them are the texts that are meant.
ghost use Rattle.std.specs.Prelude.{◌≤◌, length};

use super::*;
use minute_line::{Bytes, Many};
use std::alloc::Global;
use std::test::Fail;
use week_book::Row;

// The first name of a row, or the word of a row without one.
fn first_name(row: &Row) -> &[u8] {
    match row {
        Row::Week { .. } => b"week",
        Row::Place { name, .. } => name.as_slice(),
        Row::Leg { from, .. } => from.as_slice(),
        Row::Driver { name, .. } => name.as_slice(),
        Row::Rest { driver, .. } => driver.as_slice(),
        Row::Worked { driver, .. } => driver.as_slice(),
        Row::Past { driver, .. } => driver.as_slice(),
        Row::Did { driver, .. } => driver.as_slice(),
        Row::Order { name, .. } => name.as_slice(),
    }
}

// The first names of a text's rows, each with a space after it.
fn names(alloc: Global, text: &[u8], form: Form) -> Result<Bytes, CsvError>
    requires { length text.now ≤ 1048576 }
{
    let text = Many::from_slice(alloc, text)?;
    let rows = read_rows(alloc, &text, form)?;
    let mut names = Many::new(alloc);
    for row in rows.as_slice() {
        names.extend_from_slice(first_name(row))?;
        names.push(b' ')?;
    }
    Ok(names)
}

// By the format of the texts, counted by hand: the week row with its line feed has 27 bytes, `place,` has 6.
const TEXTS: [(Form, &[u8], Result<&[u8], CsvError>); 34] = [
    (Form::Plan, b"", Err(CsvError::Word(1))),
    (Form::Plan, b"\n\r\n", Err(CsvError::Word(1))),
    (
        Form::Plan,
        b"week,2026-03-02,15,3000,15\nplace,HUB\nplace,LYON\norder,A,LYON,2026-03-02T08:00,2026-03-02T12:00,30,12000,9000\norder,B,LYON,2026-03-03T08:00,2026-03-03T12:00,30,12000,4500\n",
        Ok(b"week HUB LYON A B "),
    ),
    (
        Form::Plan,
        b"\"week\",\"2026-03-02\",15,\"3000\",15\r\nplace,\"HUB\"\rplace,LYON\n\n\norder,\"A\",LYON,2026-03-02T08:00,2026-03-02T12:00,30,12000,9000",
        Ok(b"week HUB LYON A "),
    ),
    (
        Form::Plan,
        b"week,2026-03-02,15,3000,15\nplace,HUB\nplace,LYON\norder,A,LYON,2026-03-02T08:00,2026-03-02T12:00,30,12000,9000\norder,B,LYON,2026-03-03T08",
        Err(CsvError::Fields(5, 4)),
    ),
    (
        Form::Plan,
        b"\xEF\xBB\xBFweek,2026-03-02,15,3000,15\nplace,A\"B\nplace,\"C\nD",
        Ok(b"week A\"B C\nD "),
    ),
    (
        Form::Plan,
        b"\xEF\xBB\xBF\xEF\xBB\xBFweek,2026-03-02,15,3000,15\n",
        Err(CsvError::Word(1)),
    ),
    (
        Form::Plan,
        b"week,2026-03-02,15,3000,15\nplace,\xFF\n",
        Err(CsvError::Utf8(33)),
    ),
    (
        Form::Plan,
        b"\xEF\xBB\xBFweek,2026-03-02,15,3000,15\nplace,\xFF\n",
        Err(CsvError::Utf8(36)),
    ),
    (
        Form::Plan,
        b"week,2026-03-03,15,3000,15\nplace,\xC3\xA9\xC3",
        Err(CsvError::Utf8(35)),
    ),
    (
        Form::Plan,
        b"week,2026-03-02,15,3000,15\nplace,HUB,x\nplace",
        Err(CsvError::Fields(2, 3)),
    ),
    (
        Form::Plan,
        b"week,2026-03-03,15,3000,15\n",
        Err(CsvError::Stamp(1, 2)),
    ),
    (
        Form::Plan,
        b"week,2026-03-02,15\n",
        Err(CsvError::Fields(1, 3)),
    ),
    (
        Form::Plan,
        b"week,2026-03-02,0000000015,9999999999,00\n",
        Ok(b"week "),
    ),
    (
        Form::Plan,
        b"week,2026-03-02,00000000015,x,15\n",
        Err(CsvError::Number(1, 3)),
    ),
    (
        Form::Plan,
        b"week,2026-03-02,15,,15\n",
        Err(CsvError::Number(1, 4)),
    ),
    (
        Form::Plan,
        b"week,2026-03-02,15,3000,-5\n",
        Err(CsvError::Number(1, 5)),
    ),
    (
        Form::Plan,
        b"WEEK,2026-03-02,15,3000,15\n",
        Err(CsvError::Word(1)),
    ),
    (
        Form::Plan,
        b"place,HUB\nweek,2026-03-02,15,3000,15\n",
        Err(CsvError::Word(1)),
    ),
    (
        Form::Plan,
        b"week,2026-03-02,15,3000,15\nweek,2026-03-09,15,3000,x\n",
        Err(CsvError::Number(2, 5)),
    ),
    (
        Form::Plan,
        b"week,2026-03-02,15,3000,15\nleg,A,B,30,x\n",
        Err(CsvError::Number(2, 5)),
    ),
    (
        Form::Plan,
        b"week,2026-03-02,15,3000,15\ndriver,,x,1\n",
        Err(CsvError::Number(2, 3)),
    ),
    (
        Form::Plan,
        b"week,2026-03-02,15,3000,15\nrest,D,2026-03-01,x\n",
        Err(CsvError::Stamp(2, 3)),
    ),
    (
        Form::Plan,
        b"week,2026-03-02,15,3000,15\nworked,D,1,2,3,4,5,6,7,8,9,10,11,12,13,14,15,16,17\n",
        Ok(b"week D "),
    ),
    (
        Form::Plan,
        b"week,2026-03-02,15,3000,15\nworked,D,1,2,3,4,5,6,7,8,9,10,11,12,13,14,15,16,\n",
        Err(CsvError::Number(2, 19)),
    ),
    (
        Form::Plan,
        b"week,2026-03-02,15,3000,15\npast,D,FOO,1,2\n",
        Err(CsvError::Word(2)),
    ),
    (
        Form::Plan,
        b"week,2026-03-02,15,3000,15\npast,D,DRIVE,1,2\n",
        Err(CsvError::Fields(2, 5)),
    ),
    (
        Form::Plan,
        b"week,2026-03-02,15,3000,15\npast,D\n",
        Err(CsvError::Fields(2, 2)),
    ),
    (
        Form::Plan,
        b"week,2026-03-02,15,3000,15\npast,D,Drive,1\n",
        Err(CsvError::Word(2)),
    ),
    (
        Form::Plan,
        b"week,2026-03-02,15,3000,15\ndid,D,DRIVE,1\n",
        Err(CsvError::Word(2)),
    ),
    (
        Form::Check,
        b"week,2026-03-02,15,3000,15\ndid,D,DRIVE,1\ndid,E,OFF,0\n",
        Ok(b"week D E "),
    ),
    (
        Form::Check,
        b"week,2026-03-02,15,3000,15\nleg,A,B,30,1\n",
        Err(CsvError::Word(2)),
    ),
    (
        Form::Check,
        b"week,2026-03-02,15,3000,15\ndid,D,WEEKLY,1,x\n",
        Err(CsvError::Fields(2, 5)),
    ),
    (
        Form::Check,
        b"week,2026-03-02,15,3000,15\nrest,D,2026-02-28T00:00,2700\npast,D,READY,\n",
        Err(CsvError::Number(3, 4)),
    ),
];

#[test]
fn a_text_is_its_rows_or_its_first_fault(rt: HostRuntime) {
    for (form, text, want) in TEXTS {
        assert!(rt; text.len() <= 1048576);
        let got = names(rt.alloc(), text, form);
        let got = match &got {
            Ok(names) => Ok(names.as_slice()),
            Err(error) => Err(*error),
        };
        assert_eq!(rt; got, want, "{form:?} {text:?}");
    }
}

// By hand: 2026-03-03 is a day after the first week row's Monday, and 2026-02-28 two days before it.
#[test]
fn stamps_count_from_the_first_week_row(rt: HostRuntime) -> Result<(), Fail> {
    let text = Many::from_slice(
        rt.alloc(),
        b"week,2026-03-02,15,3000,60\nweek,2026-03-09,1,2,3\nrest,D,2026-02-28T00:00,2700\norder,A,B,2026-03-03T08:00,2026-03-03T12:01,30,12000,4500\n",
    )
    .ok()
    .ok_or("memory")?;
    assert!(rt; text.len() <= 1048576);
    let rows = read_rows(rt.alloc(), &text, Form::Plan).ok().ok_or("rows")?;
    match rows.get(2) {
        Some(
            Row::Rest {
                row,
                end,
                minutes,
                ..
            },
        ) => assert_eq!(rt; (*row, *end, *minutes), (3, -2880, 2700)),
        _ => return Err("no rest row".into()),
    }
    match rows.get(3) {
        Some(
            Row::Order {
                row,
                opens,
                closes,
                service,
                kg,
                price,
                ..
            },
        ) => {
            assert_eq!(rt;
                (*row, *opens, *closes, *service, *kg, *price),
                (4, 1920, 2161, 30, 12000, 4500)
            );
        }
        _ => return Err("no order row".into()),
    }
    Ok(())
}
