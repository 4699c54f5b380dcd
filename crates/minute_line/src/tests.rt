// What no clause says: that the definitions are those of the calendar and of the written form.
use crate::{
    Kind, Mark, Stint, TextError, copy_history, fresh, history_read, history_text, is_line_of,
    read_monday, stamp, stamp_minute, upgrade,
};
use std::test::Fail;

// The numbers are those of a calendar: days from 1970-01-01. 2044-02-29 is the one Monday among them that is a leap day.
#[test]
fn only_mondays_of_2000_to_2099_are_read(rt: HostRuntime) {
    for (text, day) in [
        ("2026-03-02", Some(20514)),
        ("2000-01-03", Some(10959)),
        ("2099-12-28", Some(47478)),
        ("2044-02-29", Some(27087)),
        ("2026-03-03", None),
        ("2000-01-02", None),
        ("2000-02-29", None),
        ("1999-12-27", None),
        ("2100-01-04", None),
        ("2026-02-30", None),
        ("2026-13-02", None),
        ("2026-3-02", None),
        ("2026/03/02", None),
        ("2026-03-02 ", None),
        ("", None),
    ] {
        assert_eq!(rt;
            read_monday(text).map(|monday| monday.day),
            day,
            "at {text}"
        );
    }
}

// The numbers are differences of a calendar, in minutes from 2026-03-02 00:00.
#[test]
fn a_stamp_is_its_minute(rt: HostRuntime) -> Result<(), Fail> {
    let monday = read_monday("2026-03-02").ok_or("monday")?;
    for (text, minute) in [
        ("2026-02-28T00:00", Some(-2880)),
        ("2026-03-02T00:00", Some(0)),
        ("2026-03-08T23:59", Some(10079)),
        ("1999-01-01T00:00", Some(-14287680)),
        ("2100-12-31T23:59", Some(39359519)),
        ("2000-02-29T00:00", Some(-13677120)),
        ("2024-02-29T12:34", Some(-1053326)),
        ("2100-03-01T00:00", Some(38918880)),
        ("2100-02-29T00:00", None),
        ("1998-12-31T23:59", None),
        ("2101-01-01T00:00", None),
        ("2026-03-02T24:00", None),
        ("2026-03-02T23:60", None),
        ("2026-03-02 08:00", None),
        ("2026-03-02T08:00:00", None),
        ("2026-03-02", None),
    ] {
        assert_eq!(rt; stamp_minute(monday, text), minute, "at {text}");
    }
    for (minute, text) in [
        (0, b"2026-03-02T00:00"),
        (480, b"2026-03-02T08:00"),
        (10079, b"2026-03-08T23:59"),
        (10080, b"2026-03-09T00:00"),
    ] {
        assert!(rt; &stamp(monday, minute) == text, "at {minute}");
    }
    Ok(())
}

// The first is a history of 2,880 and 405 minutes of weekly rest, then a load of 15 minutes, an hour's drive, half an
// hour's service and an hour's drive, with the rest of the week off.
#[test]
fn a_text_of_a_history_is_read_and_written(rt: HostRuntime) -> Result<(), Fail> {
    for text in [
        "3285 120 0,0,0,0,0,0,0,0,0,0,0,0,0,0,0,165 9510 W15,D60,W30,D60 0 0",
        "1440 0 0,0,0,0,0,0,0,0,0,0,0,0,0,0,0,0 0 - 1260 3",
        "1000000 10080 10080,1,2,3,4,5,6,7,8,9,10,11,12,13,14,15 20160 R20160 1 0",
        "2700 0 0,0,0,0,0,0,0,0,0,0,0,0,0,0,0,0 0 P30,D60 0 0",
        "2700 0 0,0,0,0,0,0,0,0,0,0,0,0,0,0,0,0 0 W15,W15,N660,R1 1200 1",
    ] {
        let history = history_read(rt.alloc(), text.as_bytes())?;
        let copy = copy_history(rt.alloc(), &history)?;
        let again = history_text(rt.alloc(), &copy)?;
        assert!(rt; again.as_slice() == text.as_bytes(), "at {text}");
    }
    let text = "3285 120 0,0,0,0,0,0,0,0,0,0,0,0,0,0,0,165 9510 P15,D60 1200 3";
    let history = history_read(rt.alloc(), text.as_bytes())?;
    assert_eq!(rt; history.prev_weekly, 3285);
    assert_eq!(rt; history.prev_drive, 120);
    assert_eq!(rt;
        history.work16,
        [0, 0, 0, 0, 0, 0, 0, 0, 0, 0, 0, 0, 0, 0, 0, 165]
    );
    assert_eq!(rt; history.open_off, 9510);
    assert!(rt; history.stints.stints.as_slice() == [off(15, Kind::Plain), drive(60)].as_slice());
    assert_eq!(rt; (history.owed, history.due), (1200, 3));
    Ok(())
}

// Each is the text of a history but for one fault: a leading zero; a trailing off stint, two side by side, a stint of no
// minute, a weekly one, a letter that is none, a minute too many; a trailing space, two spaces, no last part, an empty
// one, a part too many; fifteen weeks, seventeen; a week, last week or the open run above its limit; a weekly rest too
// short or too long; more owed than a weekly rest can lack, due in four weeks, due without a debt; and no text at all.
#[test]
fn a_text_of_no_history_is_bad(rt: HostRuntime) {
    for text in [
        "3285 120 0,0,0,0,0,0,0,0,0,0,0,0,0,0,0,165 9510 W15,D60,W30,D060 0 0",
        "2700 0 0,0,0,0,0,0,0,0,0,0,0,0,0,0,0,0 0 D60,P30 0 0",
        "2700 0 0,0,0,0,0,0,0,0,0,0,0,0,0,0,0,0 0 P30,N660,D60 0 0",
        "2700 0 0,0,0,0,0,0,0,0,0,0,0,0,0,0,0,0 0 D0 0 0",
        "2700 0 0,0,0,0,0,0,0,0,0,0,0,0,0,0,0,0 0 ?1440,D60 0 0",
        "2700 0 0,0,0,0,0,0,0,0,0,0,0,0,0,0,0,0 0 M60 0 0",
        "2700 0 0,0,0,0,0,0,0,0,0,0,0,0,0,0,0,0 0 D20160,W1 0 0",
        "2700 0 0,0,0,0,0,0,0,0,0,0,0,0,0,0,0,0 0 - 0 0 ",
        "2700  0 0,0,0,0,0,0,0,0,0,0,0,0,0,0,0,0 0 - 0 0",
        "2700 0 0,0,0,0,0,0,0,0,0,0,0,0,0,0,0,0 0 -",
        "2700 0 0,0,0,0,0,0,0,0,0,0,0,0,0,0,0,0 0 - 0",
        "2700 0 0,0,0,0,0,0,0,0,0,0,0,0,0,0,0,0 0  0 0",
        "2700 0 0,0,0,0,0,0,0,0,0,0,0,0,0,0,0,0 0 - 0 0 0",
        "2700 0 0,0,0,0,0,0,0,0,0,0,0,0,0,0,0 0 - 0 0",
        "2700 0 0,0,0,0,0,0,0,0,0,0,0,0,0,0,0,0,0 0 - 0 0",
        "2700 0 0,0,0,0,0,0,0,0,0,0,0,0,0,0,0,10081 0 - 0 0",
        "2700 10081 0,0,0,0,0,0,0,0,0,0,0,0,0,0,0,0 0 - 0 0",
        "2700 0 0,0,0,0,0,0,0,0,0,0,0,0,0,0,0,0 20161 - 0 0",
        "1439 0 0,0,0,0,0,0,0,0,0,0,0,0,0,0,0,0 0 - 0 0",
        "1000001 0 0,0,0,0,0,0,0,0,0,0,0,0,0,0,0,0 0 - 0 0",
        "2700 0 0,0,0,0,0,0,0,0,0,0,0,0,0,0,0,0 0 - 1261 0",
        "2700 0 0,0,0,0,0,0,0,0,0,0,0,0,0,0,0,0 0 - 1260 4",
        "2700 0 0,0,0,0,0,0,0,0,0,0,0,0,0,0,0,0 0 - 0 1",
        "",
    ] {
        let read = history_read(rt.alloc(), text.as_bytes());
        assert!(rt; matches!(read, Err(TextError::Bad)), "at {text}");
    }
}

// The rest of 1,500 minutes lacks 1,200 of 2,700 and ended 9,675 minutes before Monday, in the week before. One that
// ended 10,080 minutes before Monday had its last minute in the week before that one.
#[test]
fn a_text_from_before_debts_states_what_its_rest_left(rt: HostRuntime) -> Result<(), Fail> {
    for (before, text) in [
        (
            "1500 120 0,0,0,0,0,0,0,0,0,0,0,0,0,0,0,0 9510 W15,D60,W30,D60",
            "1500 120 0,0,0,0,0,0,0,0,0,0,0,0,0,0,0,0 9510 W15,D60,W30,D60 1200 3",
        ),
        (
            "2699 0 0,0,0,0,0,0,0,0,0,0,0,0,0,0,0,0 10079 -",
            "2699 0 0,0,0,0,0,0,0,0,0,0,0,0,0,0,0,0 10079 - 1 3",
        ),
        (
            "1440 0 0,0,0,0,0,0,0,0,0,0,0,0,0,0,0,0 10020 D60",
            "1440 0 0,0,0,0,0,0,0,0,0,0,0,0,0,0,0,0 10020 D60 1260 2",
        ),
        (
            "1440 0 0,0,0,0,0,0,0,0,0,0,0,0,0,0,0,0 20160 R10080",
            "1440 0 0,0,0,0,0,0,0,0,0,0,0,0,0,0,0,0 20160 R10080 1260 0",
        ),
        (
            "2700 0 0,0,0,0,0,0,0,0,0,0,0,0,0,0,0,0 0 -",
            "2700 0 0,0,0,0,0,0,0,0,0,0,0,0,0,0,0,0 0 - 0 0",
        ),
    ] {
        let history = upgrade(rt.alloc(), before.as_bytes())?;
        let again = history_text(rt.alloc(), &history)?;
        assert!(rt; again.as_slice() == text.as_bytes(), "at {before}");
        assert!(rt;
            matches!(upgrade(rt.alloc(), text.as_bytes()), Err(TextError::Bad)),
            "at {text}"
        );
    }
    Ok(())
}

fn off(minutes: u32, kind: Kind) -> Stint {
    Stint {
        mark: Mark::Off,
        minutes,
        kind,
    }
}

fn drive(minutes: u32) -> Stint {
    Stint {
        mark: Mark::Drive,
        minutes,
        kind: Kind::Plain,
    }
}

#[test]
fn a_line_may_begin_with_an_empty_off_stint(rt: HostRuntime) -> Result<(), Fail> {
    let stints = [off(0, Kind::Weekly), drive(60), off(15, Kind::Plain)];
    assert!(rt; is_line_of(&stints));
    assert!(rt; !is_line_of(&[drive(60), off(0, Kind::Plain)]));
    assert!(rt; !is_line_of(&[off(0, Kind::Daily), off(15, Kind::Plain)]));
    let fresh = fresh(rt.alloc());
    assert_eq!(rt;
        (
            fresh.prev_weekly,
            fresh.open_off,
            fresh.prev_drive,
            fresh.owed,
            fresh.due
        ),
        (2700, 2700, 0, 0, 0)
    );
    Ok(())
}
