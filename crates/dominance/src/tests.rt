// Labels that differ in one field, and stored labels. What is expected follows from the definition of better, by hand.
use self::Field::*;
use crate::{better, better_within, make_fronts};
use duty_plan::Label;
use hours_rules::Clock;
use std::test::Fail;

/// The clock after the first Load of a driver who was at rest for 2,880 minutes before Monday: 15 minutes of Work from
/// Monday 00:00 on.
const CLOCK: Clock = Clock {
    at: 15,
    off: 0,
    day_from: 0,
    rest_from: 0,
    period: 0,
    drive_day: 0,
    long_days: 0,
    reduced: 0,
    prev_weekly: 2_880,
    work_run: 15,
    work_day: 15,
    pause_day: 0,
    drive_week: 0,
    work_week: 15,
    prev_drive: 0,
    work_before: 0,
    owed: 0,
    due: 0,
    half: false,
    split: false,
};

/// The label of that Load, at the depot: the value is the driver's fee.
const LOAD: Label = Label {
    clock: CLOCK,
    place: 0,
    served: 0,
    used: 0,
    loaded: true,
    fee_paid: true,
    value: 2_000,
};

/// A field of a label or of its clock, with what it holds. Of served orders, order n is the bit n.
#[derive(Clone, Copy, Debug, Drop)]
enum Field {
    At(u32),
    Off(u32),
    DayFrom(i32),
    RestFrom(i32),
    Period(u32),
    Half(bool),
    DriveDay(u32),
    LongDays(u32),
    Split(bool),
    Reduced(u32),
    PrevWeekly(u32),
    WorkRun(u32),
    WorkDay(u32),
    PauseDay(u32),
    DriveWeek(u32),
    WorkWeek(u32),
    PrevDrive(u32),
    WorkBefore(u32),
    Debt(u32, i32),
    Place(u32),
    Served(u128),
    Used(u32),
    Loaded(bool),
    FeePaid(bool),
    Value(i64),
}

/// The label of the Load with that in one field.
fn with(field: Field) -> Label {
    let mut label = LOAD;
    match field {
        At(it) => label.clock.at = it,
        Off(it) => label.clock.off = it,
        DayFrom(it) => label.clock.day_from = it,
        RestFrom(it) => label.clock.rest_from = it,
        Period(it) => label.clock.period = it,
        Half(it) => label.clock.half = it,
        DriveDay(it) => label.clock.drive_day = it,
        LongDays(it) => label.clock.long_days = it,
        Split(it) => label.clock.split = it,
        Reduced(it) => label.clock.reduced = it,
        PrevWeekly(it) => label.clock.prev_weekly = it,
        WorkRun(it) => label.clock.work_run = it,
        WorkDay(it) => label.clock.work_day = it,
        PauseDay(it) => label.clock.pause_day = it,
        DriveWeek(it) => label.clock.drive_week = it,
        WorkWeek(it) => label.clock.work_week = it,
        PrevDrive(it) => label.clock.prev_drive = it,
        WorkBefore(it) => label.clock.work_before = it,
        Debt(owed, due) => {
            label.clock.owed = owed;
            label.clock.due = due;
        }
        Place(it) => label.place = it,
        Served(it) => label.served = it,
        Used(it) => label.used = it,
        Loaded(it) => label.loaded = it,
        FeePaid(it) => label.fee_paid = it,
        Value(it) => label.value = it,
    }
    label
}

/// Two labels that differ in one field, and whether each betters the other where order 1 is forced.
const PAIRS: [(Field, Field, bool, bool); 41] = [
    (At(16), At(15), false, true),
    (DayFrom(-1), DayFrom(0), false, true),
    (RestFrom(-1), RestFrom(0), false, true),
    (DayFrom(1), RestFrom(1), false, false),
    (Period(1), Period(0), false, true),
    (Half(true), Half(false), false, false),
    (DriveDay(1), DriveDay(0), false, true),
    (LongDays(1), LongDays(0), false, true),
    (Split(false), Split(true), false, true),
    (Reduced(1), Reduced(0), false, true),
    (PrevWeekly(2_698), PrevWeekly(2_699), true, true),
    (PrevWeekly(2_699), PrevWeekly(2_700), false, true),
    (PrevWeekly(2_700), PrevWeekly(2_701), true, true),
    (WorkRun(16), WorkRun(15), false, true),
    (WorkDay(16), WorkDay(15), false, true),
    (PauseDay(0), PauseDay(1), false, true),
    (DriveWeek(1), DriveWeek(0), false, true),
    (WorkWeek(16), WorkWeek(15), false, true),
    (Debt(1, 10_080), Debt(0, 0), false, true),
    (Debt(2, 10_080), Debt(1, 10_080), false, true),
    (Debt(1, 10_080), Debt(1, 20_160), false, true),
    (Debt(1, 10_080), Debt(2, 20_160), false, false),
    (Debt(0, 0), Debt(0, 10_080), true, true),
    (Off(0), Off(1), true, true),
    (PrevDrive(0), PrevDrive(1), true, true),
    (WorkBefore(0), WorkBefore(1), true, true),
    (Place(0), Place(1), false, false),
    (Used(1), Used(0), false, true),
    (Loaded(false), Loaded(true), false, true),
    (FeePaid(false), FeePaid(true), true, true),
    (Value(2_001), Value(2_000), false, true),
    (Value(1), Value(-1), false, true),
    (Served(0b111), Served(0b011), false, true),
    (Served(0b101), Served(0b100), false, true),
    (Served(0b101), Served(0b001), false, true),
    (Served(0b101), Served(0b1001), false, false),
    (Served(0b001), Served(0b011), false, false),
    (Served(0b011), Served(0b010), false, true),
    (Served(1 << 63), Served(0), false, true),
    (Served(1 << 64), Served(1 << 63), false, false),
    (Served(1 << 119 | 1 << 64), Served(1 << 119), false, true),
];

#[test]
fn a_field_counts_in_its_own_direction(rt: HostRuntime) {
    for (one, other, forwards, backwards) in PAIRS {
        let a = with(one);
        let b = with(other);
        assert!(rt; better(&a, &a, 0b010), "{one:?}");
        assert_eq!(rt; better(&a, &b, 0b010), forwards, "{one:?} {other:?}");
        assert_eq!(rt; better(&b, &a, 0b010), backwards, "{other:?} {one:?}");
    }
}

/// Served orders of two labels, a reach, and whether each betters the other within it where order 1 is forced.
const REACHES: [(u128, u128, u128, bool, bool); 10] = [
    (0b101, 0b001, 0b100, false, true),
    (0b101, 0b001, 0b011, true, true),
    (0b101, 0b1001, 0b0100, false, true),
    (0b101, 0b1001, 0b1000, true, false),
    (0b101, 0b1001, 0b1100, false, false),
    (0b101, 0b1001, 0, true, true),
    (0b011, 0b001, 0, false, false),
    (1 << 63, 0, !0, false, true),
    (1 << 64 | 1, 1, 1 << 64, false, true),
    (1 << 119 | 1, 1, 1 << 64, true, true),
];

#[test]
fn an_order_out_of_reach_is_ignored(rt: HostRuntime) {
    for (one, other, reach, forwards, backwards) in REACHES {
        let a = with(Served(one));
        let b = with(Served(other));
        assert_eq!(rt;
            better_within(&a, &b, 0b010, reach),
            forwards,
            "{one:b} {other:b} {reach:b}"
        );
        assert_eq!(rt;
            better_within(&b, &a, 0b010, reach),
            backwards,
            "{other:b} {one:b} {reach:b}"
        );
    }
}

#[test]
fn a_stored_label_after_an_act_betters(rt: HostRuntime) -> Result<(), Fail> {
    let other_half = Label {
        clock: Clock {
            half: true,
            ..CLOCK
        },
        ..LOAD
    };
    let mut partials = make_fronts(rt.alloc(), 1, 0)?;
    assert!(rt; !partials.bettered(&LOAD), "nothing is stored");
    partials.store(LOAD)?;
    assert!(rt; partials.bettered(&LOAD), "itself");
    assert!(rt; !partials.bettered(&other_half), "the other half");
    assert!(rt;
        !partials.bettered(&with(Place(1))),
        "a place without a list"
    );
    partials.store(other_half)?;
    assert!(rt; partials.bettered(&other_half), "by the second alone");
    Ok(())
}

#[test]
fn a_stored_label_of_no_act_betters_nothing(rt: HostRuntime) -> Result<(), Fail> {
    let empty = Label {
        fee_paid: false,
        ..LOAD
    };
    let mut partials = make_fronts(rt.alloc(), 1, 0)?;
    partials.store(empty)?;
    assert!(rt; better(&empty, &LOAD, 0));
    assert!(rt; !partials.bettered(&LOAD));
    Ok(())
}
