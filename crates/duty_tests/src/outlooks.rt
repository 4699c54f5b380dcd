// What may be saved in the week of one driver, by hand: the trip saves the price less two legs, 9,000 - 6,000.
ghost use Rattle.std.specs.Prelude.{◌<◌, length};
ghost use Rattle.duty_plan.specs.Duties.{IsCase};
ghost use Rattle.duty_plan.specs.Values.{IsPairs, IsPrices};

use duty_label::first;
use duty_outlook::{Outlook, make_outlook};
use duty_plan::{Label, Pair};
use hours_rules::Clock;
use minute_line::{Memory, read_monday};
use sample_weeks::{Desk, prepared};
use std::alloc::Global;

/// The driver's outlook, with room for so many entries.
fn filled(alloc: Global, desk: &Desk, entries: u32) -> Result<Outlook, Memory>
    requires case { IsCase desk.now.case }
    requires driver { 0 < length desk.now.case.week.drivers }
    requires pairs { IsPairs desk.now.case.week desk.now.pairs }
    requires prices { IsPrices desk.now.case.week desk.now.prices }
{
    let mut outlook = make_outlook(alloc, entries)?;
    outlook.fill(&desk.case, 0, &desk.pairs, &desk.prices);
    Ok(outlook)
}

// By hand, with a level of 12,000 kg: at the depot the trip saves 3,000 where P is reached by 720, after a load act if the lorry is
// full; at P the service and the leg home save 6,000, the leg alone costs 3,000. At P the order may be done from 510 on: from
// then until it closes that is remembered. From the last hour of the week there is no way home.
#[test]
fn each_cell_is_what_the_ways_home_save(rt: HostRuntime) {
    let monday = read_monday("2026-03-02").expect(&rt, "a Monday");
    let desk = prepared(rt.alloc(), monday, Pair::Free, 480, 720).expect(&rt, "memory");
    let outlook = filled(rt.alloc(), &desk, 4000).expect(&rt, "memory");
    let empty = first(&desk.case, 0);
    let rows: [(u32, u32, u128, u32, i64); 14] = [
        (0, 0, 0, 0, 3000),
        (0, 660, 0, 0, 3000),
        (0, 675, 0, 0, 0),
        (0, 645, 0, 2, 3000),
        (0, 660, 0, 2, 0),
        (1, 480, 0, 0, 6000),
        (1, 720, 0, 1, 6000),
        (1, 720, 0, 2, -3000),
        (1, 735, 0, 0, -3000),
        (1, 495, 1, 0, 6000),
        (1, 510, 1, 0, -3000),
        (1, 720, 1, 0, -3000),
        (1, 10_020, 0, 0, -3000),
        (1, 10_035, 0, 0, -2_000_000_000_000),
    ];
    for (place, minute, orders, level, expected) in rows {
        assert!(rt; level < 32);
        let label = Label {
            clock: Clock {
                at: minute,
                ..empty.clock
            },
            place,
            served: orders,
            used: level * 12_000,
            loaded: true,
            ..empty
        };
        let cents = outlook.gain(&label);
        assert!(rt;
            cents == expected,
            "{place} {minute} {orders} {level}: {cents}"
        );
    }
}

// By hand: before any step the trip may still be made, but for a barred order; with no room nothing is known.
#[test]
fn the_empty_duty_may_still_save_the_trip(rt: HostRuntime) {
    let monday = read_monday("2026-03-02").expect(&rt, "a Monday");
    let rows: [(Pair, u32, i64); 4] = [
        (Pair::Free, 4000, 3000),
        (Pair::Forced, 4000, 3000),
        (Pair::Barred, 4000, 0),
        (Pair::Free, 0, 2_000_000_000_000),
    ];
    for (pair, entries, expected) in rows {
        let desk = prepared(rt.alloc(), monday, pair, 480, 720).expect(&rt, "memory");
        let outlook = filled(rt.alloc(), &desk, entries).expect(&rt, "memory");
        let label = first(&desk.case, 0);
        let gain = outlook.gain(&label);
        assert!(rt; gain == expected, "{pair:?} {entries}: {gain}");
        for (more, is_hopeless) in [(-1, true), (0, true), (1, false)] {
            let known = expected.saturating_neg().saturating_add(more);
            assert!(rt;
                outlook.is_hopeless(&label, known) == is_hopeless,
                "{pair:?} {known}"
            );
        }
    }
}
