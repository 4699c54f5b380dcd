// The step that makes a plan cheaper.
ghost use Rattle.std.specs.Prelude.{◌≡◌, ◌<◌, ◌≤◌, IfOk};
ghost use Rattle.duty_plan.specs.Duties.{IsCase};
ghost use Rattle.duty_plan.specs.Values.{IsPrices};
ghost use Rattle.duty_plan.specs.Trees.{IsPlanAtCost};
ghost use Rattle.price_master.specs.Pools.{IsPool};
ghost use Rattle.cheap_plans.specs.Drafts.{IsDraft};

use crate::diving::{Rounds, dive, fix_first};
use crate::drafts::{Draft, copied_duties, no_duties};
use crate::freeing::{some_freed, used};
use crate::guessing::Tries;
use crate::incumbents::{Incumbent, offer_duties, offer_picked};
use crate::starting::part_of_prices;
use crate::turning::again;
use duty_plan::{Case, Pricer, Prices};
use minute_line::Memory;
use price_master::empty_pool;
use seeded_draws::Draws;
use std::alloc::Global;

/// How many drivers are priced before the passes, where drivers who are alike count as one: some ten seconds on one processor.
/// The last guess may go past it, by fewer than a week's drivers.
const MOST_PRICINGS: u32 = 256;

/// The same in the passes.
const MOST_IN_PASSES: u32 = 96;

/// More passes than their pricings suffice for, unless nothing is guessed.
const MOST_PASSES: u32 = 64;

/// The seed of the draws of passes.
const SEED: u64 = 1;

/// The rounds before the first driver is fixed in the dive from what subcontractors take. With fewer the prices are still far
/// from where they settle.
const FIRST: Rounds = Rounds { count: 40, from: 0 };

/// The same in the dive from a part of it.
const SECOND: Rounds = Rounds { count: 24, from: 0 };

/// All of what subcontractors take, in percent.
const ALL: u64 = 100;

/// The part of it, in percent, from which the second dive begins. On the usual week the first dive alone misses the best plan known
/// by up to an eighth, with 395,200 cents; with a second dive from any part of 25 to 40 the plan came to 352,800 or 353,300
/// (docs/PLANS.md).
const PART: u64 = 33;

/// The rounds before each later driver is fixed: prices move less than in a first round.
const LATER: Rounds = Rounds { count: 8, from: 4 };

/// The rounds before each driver of a pass is fixed.
const PASS: Rounds = Rounds { count: 4, from: 4 };

/// Prices the drivers in turn from these duties, and offers the plan that they come to.
fn offer_again<P: Pricer>(
    alloc: Global,
    case: &Case,
    pricer: &mut P,
    tries: &mut Tries,
    incumbent: &mut Incumbent,
    draft: &mut Draft,
) -> Result<(), Memory>
    requires case { IsCase case.now }
    requires pool { IsPool case.now tries.old.pool }
    requires lawful { IsPlanAtCost case.now incumbent.old.plan incumbent.old.cost }
    requires draft { IsDraft case.now draft.old }
    ensures pool { IsPool case.now tries.new.pool }
    ensures lawful { IsPlanAtCost case.now incumbent.new.plan incumbent.new.cost }
    ensures falls { incumbent.new.cost ≤ incumbent.old.cost }
    ensures chunks { P.chunks pricer.new ≡ P.chunks pricer.old }
{
    again(alloc, case, pricer, tries, draft)?;
    offer_duties(alloc, case, incumbent, draft.duties.as_slice())
}

/// Fixes a first driver after rounds from a part, in percent, of what subcontractors take, and dives with the others. It offers
/// the plan that this comes to, the same with the drivers priced again in turn, and what is picked from all duties that were
/// guessed, and gives the prices at which the first driver was fixed, or the first prices.
fn offer_dive<P: Pricer>(
    alloc: Global,
    case: &Case,
    pricer: &mut P,
    tries: &mut Tries,
    incumbent: &mut Incumbent,
    percent: u64,
    rounds: Rounds,
) -> Result<Prices, Memory>
    requires case { IsCase case.now }
    requires part { percent ≤ 100 }
    requires some { 0 < rounds.count }
    requires few { (rounds.count ≤ 1000) × (rounds.from ≤ 1000) }
    requires pool { IsPool case.now tries.old.pool }
    requires lawful { IsPlanAtCost case.now incumbent.old.plan incumbent.old.cost }
    ensures prices { IfOk result (IsPrices case.now.week) }
    ensures pool { IsPool case.now tries.new.pool }
    ensures lawful { IsPlanAtCost case.now incumbent.new.plan incumbent.new.cost }
    ensures falls { incumbent.new.cost ≤ incumbent.old.cost }
    ensures chunks { P.chunks pricer.new ≡ P.chunks pricer.old }
{
    let start = part_of_prices(alloc, &case.week, percent)?;
    if tries.left == 0 {
        return Ok(start);
    }
    let mut draft = no_duties(alloc, case)?;
    let Some(prices) = fix_first(alloc, case, pricer, tries, &mut draft, &start, rounds)? else {
        return Ok(start);
    };
    dive(alloc, case, pricer, tries, &mut draft, &prices, LATER)?;
    offer_duties(alloc, case, incumbent, draft.duties.as_slice())?;
    offer_again(alloc, case, pricer, tries, incumbent, &mut draft)?;
    offer_picked(alloc, case, incumbent, &tries.pool)?;
    Ok(prices)
}

/// Prices the drivers of the plan in turn, and offers what this comes to.
fn offer_kept<P: Pricer>(
    alloc: Global,
    case: &Case,
    pricer: &mut P,
    tries: &mut Tries,
    incumbent: &mut Incumbent,
) -> Result<(), Memory>
    requires case { IsCase case.now }
    requires pool { IsPool case.now tries.old.pool }
    requires lawful { IsPlanAtCost case.now incumbent.old.plan incumbent.old.cost }
    ensures pool { IsPool case.now tries.new.pool }
    ensures lawful { IsPlanAtCost case.now incumbent.new.plan incumbent.new.cost }
    ensures falls { incumbent.new.cost ≤ incumbent.old.cost }
    ensures chunks { P.chunks pricer.new ≡ P.chunks pricer.old }
{
    let mut draft = no_duties(alloc, case)?;
    draft.duties = copied_duties(alloc, incumbent.plan.duties.as_slice())?;
    offer_again(alloc, case, pricer, tries, incumbent, &mut draft)
}

/// Frees drivers of the plan whom the draws name and dives with them alone, then prices all drivers in turn, and offers what
/// this comes to and what is picked from all duties that were guessed.
fn offer_pass<P: Pricer>(
    alloc: Global,
    case: &Case,
    pricer: &mut P,
    tries: &mut Tries,
    incumbent: &mut Incumbent,
    prices: &Prices,
    draws: &mut Draws,
) -> Result<(), Memory>
    requires case { IsCase case.now }
    requires pool { IsPool case.now tries.old.pool }
    requires lawful { IsPlanAtCost case.now incumbent.old.plan incumbent.old.cost }
    requires prices { IsPrices case.now.week prices.now }
    ensures pool { IsPool case.now tries.new.pool }
    ensures lawful { IsPlanAtCost case.now incumbent.new.plan incumbent.new.cost }
    ensures falls { incumbent.new.cost ≤ incumbent.old.cost }
    ensures chunks { P.chunks pricer.new ≡ P.chunks pricer.old }
{
    let mut draft = some_freed(alloc, case, incumbent.plan.duties.as_slice(), draws)?;
    dive(alloc, case, pricer, tries, &mut draft, prices, PASS)?;
    offer_again(alloc, case, pricer, tries, incumbent, &mut draft)?;
    offer_picked(alloc, case, incumbent, &tries.pool)
}

/// Offers the plans of passes, as long as a guess is left.
fn offer_passes<P: Pricer>(
    alloc: Global,
    case: &Case,
    pricer: &mut P,
    tries: &mut Tries,
    incumbent: &mut Incumbent,
    prices: &Prices,
) -> Result<(), Memory>
    requires case { IsCase case.now }
    requires pool { IsPool case.now tries.old.pool }
    requires lawful { IsPlanAtCost case.now incumbent.old.plan incumbent.old.cost }
    requires prices { IsPrices case.now.week prices.now }
    ensures lawful { IsPlanAtCost case.now incumbent.new.plan incumbent.new.cost }
    ensures falls { incumbent.new.cost ≤ incumbent.old.cost }
    ensures chunks { P.chunks pricer.new ≡ P.chunks pricer.old }
{
    let mut draws = Draws::seeded(SEED);
    let mut passes = 0;
    while passes < MOST_PASSES && tries.left > 0 {
        offer_pass(alloc, case, pricer, tries, incumbent, prices, &mut draws)?;
        passes += 1;
    }
    Ok(())
}

/// The plan, or a cheaper one that the pricer's guesses gave. A guess is trusted only where the plan that it makes is checked.
/// A plan of fewer than two duties gets no passes.
pub fn improve<P: Pricer>(
    alloc: Global,
    case: &Case,
    pricer: &mut P,
    incumbent: Incumbent,
) -> Result<Incumbent, Memory>
    requires case { IsCase case.now }
    requires lawful { IsPlanAtCost case.now incumbent.plan incumbent.cost }
    ensures lawful { IfOk result (λ better. IsPlanAtCost case.now better.plan better.cost) }
    ensures falls { IfOk result (λ better. better.cost ≤ incumbent.cost) }
    ensures chunks { P.chunks pricer.new ≡ P.chunks pricer.old }
{
    let mut better = incumbent;
    let mut tries = Tries {
        left: MOST_PRICINGS,
        pool: empty_pool(alloc, case.week.drivers.len() as u32)?,
    };
    let mut none = no_duties(alloc, case)?;
    offer_again(alloc, case, pricer, &mut tries, &mut better, &mut none)?;
    offer_dive(alloc, case, pricer, &mut tries, &mut better, ALL, FIRST)?;
    let prices = offer_dive(alloc, case, pricer, &mut tries, &mut better, PART, SECOND)?;
    offer_kept(alloc, case, pricer, &mut tries, &mut better)?;
    if used(better.plan.duties.as_slice()) < 2 {
        return Ok(better);
    }
    tries.left = MOST_IN_PASSES;
    offer_passes(alloc, case, pricer, &mut tries, &mut better, &prices)?;
    Ok(better)
}
