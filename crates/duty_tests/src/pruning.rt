// Which labels need not be stored, in the week of one driver. What a completion may be worth is worked out by hand.

use crate::labels::label_of;
use duty_label::make_walks;
use duty_plan::{Act, Pair, Step};
use hours_rules::Stay;
use minute_line::{Kind, read_monday};
use sample_weeks::{LOAD, OUT, SERVE, prepared};

/// The load after a weekly rest to a minute.
fn load_at(off: u32) -> Step {
    Step {
        stay: Stay {
            ready: 0,
            off,
            kind: Kind::Weekly,
        },
        act: Act::Load,
    }
}

// The load ends at 420 and costs the fee of 2,000; P is 60 minutes away, and A brings 9,000. At P the driver is 3,000 from home, so
// that the trip comes to 2,000 + 6,000 - 9,000 at least; where A is barred it comes to 8,000. A load that ends at 660 reaches P
// at 720, when A closes; one that ends at 675 does not. From P at 10,020 the driver is home at 10,080.
#[test]
fn a_label_is_hopeless_just_where_it_cannot_pay_or_come_home(rt: HostRuntime) {
    let monday = read_monday("2026-03-02").expect(&rt, "a Monday");
    let mut walks = make_walks(rt.alloc()).expect(&rt, "memory");
    let rows: [(Pair, &[Step], Option<i64>, bool); 18] = [
        (Pair::Free, &[], Some(-9000), true),
        (Pair::Free, &[], Some(-8999), false),
        (Pair::Free, &[LOAD], Some(-7000), true),
        (Pair::Free, &[LOAD], Some(-6999), false),
        (Pair::Free, &[LOAD, OUT], Some(-1000), true),
        (Pair::Free, &[LOAD, OUT], Some(-999), false),
        (Pair::Free, &[LOAD, OUT], None, false),
        (Pair::Barred, &[LOAD, OUT], Some(8000), true),
        (Pair::Barred, &[LOAD, OUT], Some(8001), false),
        (Pair::Free, &[LOAD, OUT, SERVE], Some(-1000), true),
        (Pair::Free, &[LOAD, OUT, SERVE], Some(-999), false),
        (Pair::Forced, &[load_at(645)], None, false),
        (Pair::Forced, &[load_at(660)], None, true),
        (Pair::Free, &[load_at(660)], None, false),
        (Pair::Free, &[load_at(660)], Some(2000), true),
        (Pair::Free, &[load_at(660)], Some(2001), false),
        (Pair::Free, &[load_at(9945), OUT], None, false),
        (Pair::Free, &[load_at(9960), OUT], None, true),
    ];
    for (pair, steps, known, expected) in rows {
        let desk = prepared(rt.alloc(), monday, pair, 480, 720).expect(&rt, "memory");
        walks.fill(&desk.case.week);
        let found = match label_of(&desk, steps) {
            Ok(label) => {
                Some(walks.hopeless(&desk.case, 0, &desk.pairs, &desk.prices, &label, known))
            }
            Err(_) => None,
        };
        assert!(rt;
            found == Some(expected),
            "{pair:?} {} {known:?}",
            steps.len()
        );
    }
}
