// The judge of a duty on the week of one driver. Each expected answer was worked out by hand.

use duty_plan::{Act, DutyFault, Step, check_duty};
use hours_rules::{Broken, Rule, Stay};
use minute_line::{Kind, read_monday};
use sample_weeks::{HOME, LOAD, NONE, OUT, SERVE, case, duty};

/// Duties, each a change away from a trip, and what the judge is to find.
const DUTIES: [(&str, &[Step], Result<u64, DutyFault>); 15] = [
    ("the week Off", &[], Ok(0)),
    ("a trip", &[LOAD, OUT, SERVE, HOME], Ok(8000)),
    (
        "two trips",
        &[
            LOAD,
            OUT,
            HOME,
            Step {
                stay: NONE,
                act: Act::Load,
            },
            OUT,
            SERVE,
            HOME,
        ],
        Ok(14_000),
    ),
    (
        "a night at P",
        &[
            LOAD,
            OUT,
            SERVE,
            Step {
                stay: Stay {
                    ready: 0,
                    off: 660,
                    kind: Kind::Daily,
                },
                act: Act::Leg(0),
            },
        ],
        Ok(11_000),
    ),
    (
        "the last minutes of the week",
        &[
            Step {
                stay: Stay {
                    ready: 0,
                    off: 7200,
                    kind: Kind::Weekly,
                },
                act: Act::Load,
            },
            Step {
                stay: Stay {
                    ready: 0,
                    off: 2745,
                    kind: Kind::Weekly,
                },
                act: Act::Leg(1),
            },
            HOME,
        ],
        Ok(8000),
    ),
    (
        "no such place",
        &[
            LOAD,
            Step {
                stay: NONE,
                act: Act::Leg(2),
            },
            SERVE,
            HOME,
        ],
        Err(DutyFault::Road(1)),
    ),
    (
        "a break of 16",
        &[
            LOAD,
            Step {
                stay: Stay {
                    ready: 0,
                    off: 16,
                    kind: Kind::Plain,
                },
                act: Act::Leg(1),
            },
            SERVE,
            HOME,
        ],
        Err(DutyFault::Stay(1)),
    ),
    (
        "a weekly rest at P",
        &[
            LOAD,
            OUT,
            Step {
                stay: Stay {
                    ready: 0,
                    off: 2700,
                    kind: Kind::Weekly,
                },
                act: Act::Leg(0),
            },
        ],
        Err(DutyFault::Away(2)),
    ),
    (
        "a load at 406",
        &[
            Step {
                stay: Stay {
                    ready: 0,
                    off: 406,
                    kind: Kind::Weekly,
                },
                act: Act::Load,
            },
            OUT,
            SERVE,
            HOME,
        ],
        Err(DutyFault::Grid(0)),
    ),
    (
        "a load at 10,080",
        &[Step {
            stay: Stay {
                ready: 0,
                off: 10_080,
                kind: Kind::Weekly,
            },
            act: Act::Load,
        }],
        Err(DutyFault::Late(0)),
    ),
    (
        "a service at 721",
        &[
            LOAD,
            OUT,
            Step {
                stay: Stay {
                    ready: 241,
                    off: 0,
                    kind: Kind::Plain,
                },
                act: Act::Serve(0),
            },
            HOME,
        ],
        Err(DutyFault::Window(2)),
    ),
    (
        "no load",
        &[
            Step {
                stay: Stay {
                    ready: 0,
                    off: 420,
                    kind: Kind::Weekly,
                },
                act: Act::Leg(1),
            },
            SERVE,
            HOME,
        ],
        Err(DutyFault::Load(1)),
    ),
    (
        "served again",
        &[LOAD, OUT, SERVE, SERVE, HOME],
        Err(DutyFault::Twice(3)),
    ),
    ("not home", &[LOAD, OUT, SERVE], Err(DutyFault::NotHome)),
    (
        "six legs without a break",
        &[LOAD, OUT, HOME, OUT, HOME, OUT, HOME],
        Err(DutyFault::Rule(Broken {
            rule: Rule::H1,
            minute: 690,
        })),
    ),
];

#[test]
fn each_fault_has_a_duty_one_change_away(rt: HostRuntime) {
    let monday = read_monday("2026-03-02").expect(&rt, "a Monday");
    let case = case(rt.alloc(), monday, 480, 720).expect(&rt, "memory");
    for (story, steps, expected) in DUTIES {
        let duty = duty(rt.alloc(), steps).expect(&rt, "memory");
        let found = check_duty(&case, 0, &duty);
        assert!(rt; found == expected, "{story}: {found:?}");
    }
}
