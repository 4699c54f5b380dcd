// Rounds at what subcontractors take. By hand: a trip costs the driver's fee and two legs of 3,000, its value is that less what
// subcontractors take for its orders, and staying at home has the value 0. The pools are made for one driver, so that each round
// has more drivers than there are scratches.
ghost use Rattle.std.specs.Thread.{IsSync};
ghost use Rattle.duty_plan.specs.Duties.{IsCase};

use crate::cases::{ALIKE, prices_of};
use duty_plan::{Case, Pair, Priced, Pricer, Straight};
use minute_line::{Many, Memory};
use pricing_pool::{make_pool, make_turns};
use sample_weeks::{all_pairs, case_of_text};
use std::alloc::Global;
use std::test::Fail;
use std::thread::Threads;

/// What an answer comes to.
#[derive(Clone, Copy, PartialEq, Eq, Debug)]
enum Seen {
    Least(i64),
    NoDuty,
    Spent(u32),
}

fn seen_of(answer: &Priced) -> Seen {
    match answer {
        Priced::Least(value, _) => Seen::Least(*value),
        Priced::NoDuty => Seen::NoDuty,
        Priced::Spent(stored) => Seen::Spent(*stored),
    }
}

/// What a round finds for each driver, where that is decided of each order.
fn found<R: Threads + Sync, P: Pricer>(
    rt: &R,
    alloc: Global,
    pricer: &mut P,
    case: &Case,
    pair: Pair,
) -> Result<Many<Seen>, Memory>
    requires sync { IsSync R.row }
    requires case { IsCase case.now }
{
    let pairs = all_pairs(alloc, &case.week, pair)?;
    let prices = prices_of(alloc, &case.week)?;
    let answers = pricer.round(rt, &Straight, alloc, case, &pairs, &prices)?;
    let mut seen = Many::new(alloc);
    for answer in answers.as_slice() {
        seen.push(seen_of(answer))?;
    }
    Ok(seen)
}

/// Two drivers who are alike, another between them whose fee is higher, and an order.
const UNLIKE: &str = "week,2026-03-02,15,3000,15
place,HUB
place,P
leg,HUB,P,60,3000
leg,P,HUB,60,3000
driver,D1,24000,2000
driver,D2,24000,2500
driver,D3,24000,2000
order,A,P,2026-03-02T00:00,2026-03-02T01:45,30,12000,9000
";

/// A week text, labels, what is decided of each order, and what either pricer finds. One order leaves 8,000 or 8,500 less 9,000, and
/// two leave 8,000 less 18,000; three do not fit. A chunk has 1,024 labels, and each driver who is priced needs a chunk for staying at
/// home: alike drivers need one together.
const ROUNDS: [(&str, u32, Pair, &[Seen]); 5] = [
    (
        UNLIKE,
        65_536,
        Pair::Free,
        &[Seen::Least(-1000), Seen::Least(-500), Seen::Least(-1000)],
    ),
    (UNLIKE, 0, Pair::Free, &[Seen::Spent(0); 3]),
    (ALIKE, 65_536, Pair::Free, &[Seen::Least(-10_000); 2]),
    (ALIKE, 65_536, Pair::Forced, &[Seen::NoDuty; 2]),
    (ALIKE, 1024, Pair::Barred, &[Seen::Least(0); 2]),
];

#[test]
fn both_pricers_find_what_was_worked_out(rt: HostRuntime) -> Result<(), Fail> {
    let alloc = rt.alloc();
    for (text, labels, pair, expected) in ROUNDS {
        assert!(rt; labels <= 65_536);
        let case = case_of_text(alloc, text)?;
        let in_turn = found(&rt, alloc, &mut make_turns(alloc, labels)?, &case, pair)?;
        assert_eq!(rt; in_turn.as_slice(), expected, "in turn, {labels} {pair:?}");
        let at_once = found(&rt, alloc, &mut make_pool(alloc, labels, 1)?, &case, pair)?;
        assert_eq!(rt; at_once.as_slice(), expected, "at once, {labels} {pair:?}");
    }
    Ok(())
}

/// In turn each driver has the chunk. Side by side the second driver has it, or the others have it together.
#[test]
fn one_chunk_does_not_serve_unlike_drivers_at_once(rt: HostRuntime) -> Result<(), Fail> {
    let alloc = rt.alloc();
    let case = case_of_text(alloc, UNLIKE)?;
    let in_turn = found(
        &rt,
        alloc,
        &mut make_turns(alloc, 1024)?,
        &case,
        Pair::Barred,
    )?;
    assert_eq!(rt; in_turn.as_slice(), [Seen::Least(0); 3].as_slice());
    let at_once = found(
        &rt,
        alloc,
        &mut make_pool(alloc, 1024, 1)?,
        &case,
        Pair::Barred,
    )?;
    let second = [Seen::Spent(0), Seen::Least(0), Seen::Spent(0)];
    let others = [Seen::Least(0), Seen::Spent(0), Seen::Least(0)];
    let seen = at_once.as_slice();
    assert!(rt; seen == second.as_slice() || seen == others.as_slice());
    Ok(())
}
