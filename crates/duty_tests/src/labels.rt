// The labels of the steps of a trip in the week of one driver, and each fault. What a label is expected to say, and each fault, are
// worked out by hand.
ghost use Rattle.std.specs.Prelude.{◌<◌, IfOk, length};
ghost use Rattle.duty_plan.specs.Duties.{IsCase};
ghost use Rattle.duty_plan.specs.Values.{IsPairs, IsPrices};
ghost use Rattle.duty_label.specs.Children.{IsLabelOfSome};

use duty_label::{Label, NoChild, child, first};
use duty_plan::{Act, DutyFault, Pair, Step};
use hours_rules::{Broken, Clock, Rule, Stay};
use minute_line::{Kind, read_monday};
use sample_weeks::{Desk, HOME, LOAD, NONE, OUT, SERVE, prepared};

/// The label of those steps, or why the first that makes no child doesn't.
pub(crate) fn label_of(desk: &Desk, steps: &[Step]) -> Result<Label, NoChild>
    requires case { IsCase desk.now.case }
    requires driver { 0 < length desk.now.case.week.drivers }
    requires pairs { IsPairs desk.now.case.week desk.now.pairs }
    requires prices { IsPrices desk.now.case.week desk.now.prices }
    ensures { IfOk result (λ label. IsLabelOfSome desk.now.case 0 desk.now.prices label) }
{
    let mut label = first(&desk.case, 0);
    for step in steps {
        match child(
            &desk.case,
            0,
            &desk.pairs,
            &desk.prices,
            &label,
            step.stay,
            step.act,
        ) {
            Ok(next) => label = next,
            Err(refusal) => return Err(refusal),
        }
    }
    Ok(label)
}

/// The clock on Monday 00:00, in the open run of 2,880 minutes.
const BEFORE: Clock = Clock {
    at: 0,
    off: 2880,
    day_from: -2880,
    rest_from: -2880,
    period: 0,
    drive_day: 0,
    long_days: 0,
    reduced: 0,
    prev_weekly: 2700,
    work_run: 0,
    work_day: 0,
    pause_day: 0,
    drive_week: 0,
    work_week: 0,
    prev_drive: 0,
    work_before: 0,
    owed: 0,
    due: 0,
    half: false,
    split: false,
};

/// The clock at a minute of the day that began with a load at a minute, after a weekly rest, with so many Drive and working
/// minutes since then.
fn clock(from: i32, rest: u32, at: u32, drive: u32, work: u32) -> Clock {
    Clock {
        at,
        off: 0,
        day_from: from,
        rest_from: from,
        period: drive,
        drive_day: drive,
        prev_weekly: rest,
        work_run: work,
        work_day: work,
        drive_week: drive,
        work_week: work,
        ..BEFORE
    }
}

/// Steps, and of their label the minute, the Drive and the working minutes since the load, the place, the orders as bits, the kg
/// and the value.
///
/// By hand: the open run of 2,880 joins the stay's 405 Off minutes and ends as a weekly rest of 3,285 at minute 405, where the
/// day and the time since the weekly rest begin. The load is Work from 405 to 420 and makes the fee due; each leg is 60 Drive
/// minutes and 3,000 cents; the service is Work from 480 to 510, takes 12,000 kg and is paid 9,000. Nothing pauses.
const TRIP: [(&[Step], u32, u32, u32, u32, u128, u32, i64); 4] = [
    (&[LOAD], 420, 0, 15, 0, 0, 0, 2000),
    (&[LOAD, OUT], 480, 60, 75, 1, 0, 0, 5000),
    (&[LOAD, OUT, SERVE], 510, 60, 105, 1, 1, 12_000, -4000),
    (
        &[LOAD, OUT, SERVE, HOME],
        570,
        120,
        165,
        0,
        1,
        12_000,
        -1000,
    ),
];

#[test]
fn a_trip_has_these_labels(rt: HostRuntime) {
    let monday = read_monday("2026-03-02").expect(&rt, "a Monday");
    let desk = prepared(rt.alloc(), monday, Pair::Free, 480, 720).expect(&rt, "memory");
    for (steps, at, drive, work, place, served, used, value) in TRIP {
        let expected = Label {
            clock: clock(405, 3285, at, drive, work),
            place,
            served,
            used,
            loaded: true,
            fee_paid: true,
            value,
        };
        let found = label_of(&desk, steps);
        assert!(rt; found == Ok(expected), "{found:?}");
    }
}

// By hand: without a step nothing was loaded, and no fee is due; a weekly stay of no minute ends the open run at 2,880, and the
// load is Work from 0 to 15.
#[test]
fn a_week_begins_with_these_labels(rt: HostRuntime) {
    let monday = read_monday("2026-03-02").expect(&rt, "a Monday");
    let desk = prepared(rt.alloc(), monday, Pair::Free, 480, 720).expect(&rt, "memory");
    let empty = Label {
        clock: BEFORE,
        place: 0,
        served: 0,
        used: 0,
        loaded: false,
        fee_paid: false,
        value: 0,
    };
    let early = Label {
        clock: clock(0, 2880, 15, 0, 15),
        loaded: true,
        fee_paid: true,
        value: 2000,
        ..empty
    };
    let load = step(0, 0, Kind::Weekly, Act::Load);
    assert!(rt; label_of(&desk, &[]) == Ok(empty), "no step");
    assert!(rt; label_of(&desk, &[load]) == Ok(early), "a load at 0");
}

fn step(ready: u32, off: u32, kind: Kind, act: Act) -> Step {
    Step {
        stay: Stay { ready, off, kind },
        act,
    }
}

/// An act right after the one before it.
fn next(act: Act) -> Step {
    step(0, 0, Kind::Plain, act)
}

/// Steps, the last of which brings that fault.
///
/// By hand: six legs in a row have the 271st Drive minute at 660 + 30 = 690; a service at 480 + 241 = 721 is late by a minute.
const FAULTS: [(&[Step], DutyFault); 10] = [
    (
        &[Step {
            stay: NONE,
            act: Act::Leg(2),
        }],
        DutyFault::Road(0),
    ),
    (
        &[
            LOAD,
            Step {
                stay: Stay {
                    ready: 0,
                    off: 16,
                    kind: Kind::Plain,
                },
                act: Act::Leg(1),
            },
        ],
        DutyFault::Stay(0),
    ),
    (
        &[
            LOAD,
            OUT,
            Step {
                stay: Stay {
                    ready: 0,
                    off: 2700,
                    kind: Kind::Weekly,
                },
                act: Act::Leg(0),
            },
        ],
        DutyFault::Away(0),
    ),
    (
        &[Step {
            stay: Stay {
                ready: 0,
                off: 406,
                kind: Kind::Weekly,
            },
            act: Act::Load,
        }],
        DutyFault::Grid(0),
    ),
    (
        &[Step {
            stay: Stay {
                ready: 0,
                off: 10_080,
                kind: Kind::Weekly,
            },
            act: Act::Load,
        }],
        DutyFault::Late(0),
    ),
    (
        &[
            LOAD,
            OUT,
            Step {
                stay: Stay {
                    ready: 241,
                    off: 0,
                    kind: Kind::Plain,
                },
                act: Act::Serve(0),
            },
        ],
        DutyFault::Window(0),
    ),
    (
        &[
            Step {
                stay: Stay {
                    ready: 0,
                    off: 420,
                    kind: Kind::Weekly,
                },
                act: Act::Leg(1),
            },
            SERVE,
        ],
        DutyFault::Load(0),
    ),
    (&[LOAD, OUT, SERVE, SERVE], DutyFault::Twice(0)),
    (
        &[Step {
            stay: NONE,
            act: Act::Serve(1),
        }],
        DutyFault::Road(0),
    ),
    (
        &[LOAD, OUT, HOME, OUT, HOME, OUT],
        DutyFault::Rule(Broken {
            rule: Rule::H1,
            minute: 690,
        }),
    ),
];

#[test]
fn each_fault_has_a_step(rt: HostRuntime) {
    let monday = read_monday("2026-03-02").expect(&rt, "a Monday");
    let desk = prepared(rt.alloc(), monday, Pair::Free, 480, 720).expect(&rt, "memory");
    for (steps, fault) in FAULTS {
        let found = label_of(&desk, steps);
        assert!(rt; found == Err(NoChild::Fault(fault)), "{fault:?}: {found:?}");
    }
}

// A service that is no fault, one at HUB that is (no road leads there), and numbers past the week's one order.
#[test]
fn barred_comes_first(rt: HostRuntime) {
    let monday = read_monday("2026-03-02").expect(&rt, "a Monday");
    let desk = prepared(rt.alloc(), monday, Pair::Barred, 480, 720).expect(&rt, "memory");
    let load = step(0, 405, Kind::Weekly, Act::Load);
    let serve = next(Act::Serve(0));
    let rows: [(&[Step], NoChild); 3] = [
        (&[load, next(Act::Leg(1)), serve], NoChild::Barred),
        (&[load, serve], NoChild::Barred),
        (
            &[load, next(Act::Serve(1))],
            NoChild::Fault(DutyFault::Road(0)),
        ),
    ];
    for (steps, refusal) in rows {
        let found = label_of(&desk, steps);
        assert!(rt; found == Err(refusal), "{refusal:?}: {found:?}");
    }
}
