// What a beam finds in the week of one driver, by hand: the trip costs 8,000, the fee and two legs.
ghost use Rattle.std.specs.Prelude.{◌<◌, length};
ghost use Rattle.duty_plan.specs.Duties.{IsCase};
ghost use Rattle.duty_plan.specs.Values.{IsPairs, IsPrices};

use duty_beam::make_beam;
use duty_label::make_walks;
use duty_outlook::{Outlook, make_outlook};
use duty_plan::{Act, Pair};
use minute_line::{Many, Memory, read_monday};
use sample_weeks::{Desk, prepared};
use std::alloc::Global;

/// The value that a beam of that width finds, and the acts of its duty.
fn found(
    alloc: Global,
    desk: &Desk,
    outlook: &Outlook,
    widest: u32,
) -> Result<(Option<i64>, Many<Act>), Memory>
    requires case { IsCase desk.now.case }
    requires driver { 0 < length desk.now.case.week.drivers }
    requires pairs { IsPairs desk.now.case.week desk.now.pairs }
    requires prices { IsPrices desk.now.case.week desk.now.prices }
{
    let mut beam = make_beam(alloc)?;
    let mut walks = make_walks(alloc)?;
    walks.fill(&desk.case.week);
    let value = beam.find(
        &desk.case,
        0,
        &desk.pairs,
        &desk.prices,
        &walks,
        outlook,
        widest,
    );
    let mut acts = Many::new(alloc);
    for step in beam.steps() {
        acts.push(step.act)?;
    }
    Ok((value, acts))
}

/// The trip to P and back.
const TRIP: [Act; 4] = [Act::Load, Act::Leg(1), Act::Serve(0), Act::Leg(0)];

// By hand: the trip is worth 8,000 - 9,000. Without the order no duty is worth less than the empty one, which is none where the
// order is forced; a beam of no width goes on with nothing. What a free order may save is enough for a barred one too.
#[test]
fn the_trip_is_found_where_the_order_may_be_served(rt: HostRuntime) {
    let monday = read_monday("2026-03-02").expect(&rt, "a Monday");
    let free = prepared(rt.alloc(), monday, Pair::Free, 480, 720).expect(&rt, "memory");
    let mut outlook = make_outlook(rt.alloc(), 4000).expect(&rt, "memory");
    outlook.fill(&free.case, 0, &free.pairs, &free.prices);
    let rows: [(Pair, u32, Option<i64>, &[Act]); 5] = [
        (Pair::Free, 64, Some(-1000), &TRIP),
        (Pair::Forced, 64, Some(-1000), &TRIP),
        (Pair::Barred, 64, Some(0), &[]),
        (Pair::Free, 0, Some(0), &[]),
        (Pair::Forced, 0, None, &[]),
    ];
    for (pair, widest, expected, acts) in rows {
        let desk = prepared(rt.alloc(), monday, pair, 480, 720).expect(&rt, "memory");
        let (value, steps) = found(rt.alloc(), &desk, &outlook, widest).expect(&rt, "memory");
        assert!(rt; value == expected, "{pair:?} {widest}: {value:?}");
        assert!(rt; steps.as_slice() == acts, "{pair:?} {widest}: {steps:?}");
    }
}
