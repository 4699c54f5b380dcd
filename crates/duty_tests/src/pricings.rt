// What a pricing finds in the week of one driver, by hand. A load and the leg to P take 75 minutes, so the order can be served where
// its window closes at 75 or later.
ghost use Rattle.std.specs.Prelude.{◌<◌, ◌≤◌, length};
ghost use Rattle.duty_plan.specs.Duties.{IsCase};
ghost use Rattle.duty_plan.specs.Values.{IsPairs, IsPrices};
ghost use Rattle.label_arena.specs.Views.{IsNew};
ghost use Rattle.duty_pricing.specs.Finding.{IsEmpty};

use duty_plan::{Act, Pair, Step};
use duty_pricing::{Found, Scratch, Slot, give_back, guess_duty, make_scratch, price_driver};
use label_arena::{Arena, Round, Seat};
use minute_line::{Memory, read_monday};
use sample_weeks::{Desk, prepared};
use std::alloc::Global;

/// What a pricing found, and whether the acts of its duty are those that are expected.
#[derive(Clone, Copy, PartialEq, Eq, Debug)]
struct Answer {
    found: Found,
    has_acts: bool,
}

/// Whether steps have these acts, in turn.
fn have_acts(steps: &[Step], acts: &[Act]) -> bool {
    if steps.len() != acts.len() {
        return false;
    }
    for (step, act) in steps.iter().zip(acts) {
        if step.act != *act {
            return false;
        }
    }
    true
}

/// What a pricing finds, where a duty of these acts is expected. The chunks are given back.
fn priced(
    desk: &Desk,
    acts: &[Act],
    round: &Round<Slot>,
    seat: &mut Seat<Slot>,
    scratch: &mut Scratch,
) -> Answer
    requires case { IsCase desk.now.case }
    requires driver { 0 < length desk.now.case.week.drivers }
    requires pairs { IsPairs desk.now.case.week desk.now.pairs }
    requires prices { IsPrices desk.now.case.week desk.now.prices }
    requires few { round.now.chunks ≤ 2048 }
    requires seat { IsNew round.now.name seat.old }
    requires empty { IsEmpty scratch.old }
    ensures { IsEmpty scratch.new }
{
    let found = price_driver(
        &desk.case,
        0,
        &desk.pairs,
        &desk.prices,
        round,
        seat,
        scratch,
    );
    give_back(round, seat, scratch);
    Answer {
        found,
        has_acts: have_acts(scratch.steps(), acts),
    }
}

/// What two pricings find in turn, with one scratch and so many chunks, where a duty of these acts is expected.
fn priced_twice(
    alloc: Global,
    desk: &Desk,
    acts: &[Act],
    chunks: u32,
) -> Result<[Answer; 2], Memory>
    requires case { IsCase desk.now.case }
    requires driver { 0 < length desk.now.case.week.drivers }
    requires pairs { IsPairs desk.now.case.week desk.now.pairs }
    requires prices { IsPrices desk.now.case.week desk.now.prices }
    requires few { chunks ≤ 2048 }
{
    let mut scratch = make_scratch(alloc)?;
    let (round, seats) = Arena::make(alloc, chunks)?.open_round(alloc, 2)?;
    let mut seats = seats.into_vec();
    let Some(mut first) = seats.pop() else {
        unreachable!()
    };
    let Some(mut second) = seats.pop() else {
        unreachable!()
    };
    Ok([
        priced(desk, acts, &round, &mut first, &mut scratch),
        priced(desk, acts, &round, &mut second, &mut scratch),
    ])
}

/// The acts of the trip.
const TRIP: &[Act] = &[Act::Load, Act::Leg(1), Act::Serve(0), Act::Leg(0)];

/// What is decided of the order, when its window closes, the chunks, what is found, and the acts of the duty.
const FOUND: [(Pair, u8, u32, Found, &[Act]); 5] = [
    (Pair::Free, 80, 8, Found::Least(-1000), TRIP),
    (Pair::Forced, 75, 8, Found::Least(-1000), TRIP),
    (Pair::Forced, 59, 8, Found::NoDuty, &[]),
    (Pair::Barred, 80, 2, Found::Least(0), &[]),
    (Pair::Free, 80, 0, Found::Spent(0), &[]),
];

// By hand: the trip costs the fee of 2,000 and two legs of 3,000, and is paid 9,000, so it is worth -1,000. Where the order is barred
// no step pays, so the empty duty is the least, at 0; where it is forced and out of reach, there is no duty.
#[test]
fn the_trip_is_worth_its_price(rt: HostRuntime) {
    let monday = read_monday("2026-03-02").expect(&rt, "a Monday");
    for (pair, closes, chunks, found, acts) in FOUND {
        let desk = prepared(rt.alloc(), monday, pair, 0, u32::from(closes)).expect(&rt, "memory");
        let [first, again] = priced_twice(rt.alloc(), &desk, acts, chunks).expect(&rt, "memory");
        assert!(rt;
            first.found == found && first.has_acts,
            "{pair:?}, {closes}: {first:?}"
        );
        assert!(rt; again == first, "{first:?}, then {again:?}");
    }
}

/// What is decided of the order, when its window closes, and whether a duty is guessed.
const GUESSED: [(Pair, u8, bool); 3] = [
    (Pair::Forced, 75, true),
    (Pair::Forced, 59, false),
    (Pair::Barred, 80, true),
];

#[test]
fn a_duty_is_guessed_where_there_is_one(rt: HostRuntime) {
    let monday = read_monday("2026-03-02").expect(&rt, "a Monday");
    for (pair, closes, expected) in GUESSED {
        let desk = prepared(rt.alloc(), monday, pair, 0, u32::from(closes)).expect(&rt, "memory");
        let mut scratch = make_scratch(rt.alloc()).expect(&rt, "memory");
        let guessed = guess_duty(&desk.case, 0, &desk.pairs, &desk.prices, &mut scratch);
        assert!(rt; guessed == expected, "{pair:?}, {closes}: {guessed}");
    }
}
