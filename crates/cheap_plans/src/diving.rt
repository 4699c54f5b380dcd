// Drivers fixed one after another, each at the duty of the best of some rounds of prices.
ghost use Rattle.std.specs.Prelude.{◌≡◌, ◌<◌, ◌≤◌, length, IfOk, IfSome, OnOk};
ghost use Rattle.duty_plan.specs.Duties.{IsCase};
ghost use Rattle.duty_plan.specs.Values.{IsPairs, IsPrices};
ghost use Rattle.price_master.specs.Pools.{IsPool};
ghost use Rattle.cheap_plans.specs.Drafts.{IsDraft};

use crate::drafts::{Draft, first_freed, freed_pairs, no_duty};
use crate::guessing::{Tries, ask};
use crate::valuing::{are_empty, carriers, value};
use duty_plan::{Case, Duty, Pairs, Pricer, Prices, copied_duty};
use minute_line::{Many, Memory};
use price_master::next_prices;
use std::alloc::Global;

/// How many rounds there are, and the number of the first: prices move less the higher a round's number is.
#[derive(Clone, Copy)]
pub(crate) struct Rounds {
    pub count: u32,
    pub from: u32,
}

/// What the best of some rounds gave: its value and its prices, and the driver's duty. No value stands for no round.
#[derive(Drop)]
struct Best {
    value: Option<u64>,
    prices: Prices,
    duty: Duty,
    is_idle: bool,
}

/// A copy of the prices.
fn copied(alloc: Global, prices: &Prices) -> Result<Prices, Memory>
    ensures { IfOk result (λ copy. copy ≡ prices.now) }
{
    Ok(Prices {
        cents: Many::from_slice(alloc, prices.cents.as_slice())?,
    })
}

/// Whether the value is above the one so far, if there is one.
fn is_above(value: u64, so_far: Option<u64>) -> bool {
    match so_far {
        Some(most) => value > most,
        None => true,
    }
}

/// Keeps the round in place of the best so far, where its Lagrangian value is above.
fn keep_round(
    alloc: Global,
    case: &Case,
    best: &mut Best,
    driver: u32,
    pairs: &Pairs,
    prices: &Prices,
    guessed: &[Duty],
) -> Result<(), Memory>
    requires case { IsCase case.now }
    requires best { IsPrices case.now.week best.old.prices }
    requires driver { driver < length case.now.week.drivers }
    requires pairs { IsPairs case.now.week pairs.now }
    requires prices { IsPrices case.now.week prices.now }
    requires guessed { length guessed.now ≡ length case.now.week.drivers }
    ensures best { IsPrices case.now.week best.new.prices }
{
    let value = value(case, pairs, driver, prices, guessed);
    if !are_empty(guessed) {
        best.is_idle = false;
    }
    if is_above(value, best.value) {
        best.duty = copied_duty(alloc, &guessed[driver as usize])?;
        best.prices = copied(alloc, prices)?;
        best.value = Some(value);
    }
    Ok(())
}

/// Runs rounds for the freed drivers from these prices, as long as a guess is left, and gives what the best of them was for
/// the driver.
fn best_round<P: Pricer>(
    alloc: Global,
    case: &Case,
    pricer: &mut P,
    tries: &mut Tries,
    draft: &Draft,
    driver: u32,
    prices: Prices,
    rounds: Rounds,
) -> Result<Best, Memory>
    requires case { IsCase case.now }
    requires pool { IsPool case.now tries.old.pool }
    requires left { 0 < tries.old.left }
    requires draft { IsDraft case.now draft.now }
    requires driver { driver < length case.now.week.drivers }
    requires prices { IsPrices case.now.week prices }
    requires some { 1 ≤ rounds.count }
    requires few { (rounds.count ≤ 1000) × (rounds.from ≤ 1000) }
    ensures best { IfOk result (λ best. IsPrices case.now.week best.prices) }
    ensures pool { IsPool case.now tries.new.pool }
    ensures falls { OnOk result (tries.new.left < tries.old.left) }
    ensures chunks { P.chunks pricer.new ≡ P.chunks pricer.old }
{
    let pairs = freed_pairs(alloc, case, draft)?;
    let freed = draft.freed.as_slice();
    let mut now = copied(alloc, &prices)?;
    let mut best = Best {
        value: None,
        prices,
        duty: no_duty(alloc),
        is_idle: true,
    };
    let mut k = 0;
    while k < rounds.count && tries.left > 0 {
        let guessed = ask(alloc, case, pricer, tries, freed, &pairs, &now)?;
        keep_round(
            alloc,
            case,
            &mut best,
            driver,
            &pairs,
            &now,
            guessed.as_slice(),
        )?;
        let counts = carriers(alloc, case, guessed.as_slice())?;
        next_prices(&case.week, &mut now, &counts, rounds.from + k);
        k += 1;
    }
    Ok(best)
}

/// Fixes the first freed driver at the duty of the best of some rounds, and gives that round's prices; nothing where no driver
/// is freed, or where the rounds find no duty for anyone.
pub(crate) fn fix_first<P: Pricer>(
    alloc: Global,
    case: &Case,
    pricer: &mut P,
    tries: &mut Tries,
    draft: &mut Draft,
    prices: &Prices,
    rounds: Rounds,
) -> Result<Option<Prices>, Memory>
    requires case { IsCase case.now }
    requires pool { IsPool case.now tries.old.pool }
    requires left { 0 < tries.old.left }
    requires draft { IsDraft case.now draft.old }
    requires prices { IsPrices case.now.week prices.now }
    requires some { 1 ≤ rounds.count }
    requires few { (rounds.count ≤ 1000) × (rounds.from ≤ 1000) }
    ensures prices { IfOk result (λ next. IfSome next (IsPrices case.now.week)) }
    ensures draft { IsDraft case.now draft.new }
    ensures pool { IsPool case.now tries.new.pool }
    ensures falls { IfOk result (λ next. IfSome next (λ _. tries.new.left < tries.old.left)) }
    ensures chunks { P.chunks pricer.new ≡ P.chunks pricer.old }
{
    let Some(driver) = first_freed(draft.freed.as_slice()) else {
        return Ok(None);
    };
    let best = best_round(
        alloc,
        case,
        pricer,
        tries,
        draft,
        driver,
        copied(alloc, prices)?,
        rounds,
    )?;
    if best.is_idle {
        return Ok(None);
    }
    draft.duties.set(driver as usize, best.duty);
    draft.freed.set(driver as usize, false);
    Ok(Some(best.prices))
}

/// Fixes the freed drivers, one after another, each from the prices of the one before. It ends where no guess is left, or where
/// rounds find no duty for anyone.
pub(crate) fn dive<P: Pricer>(
    alloc: Global,
    case: &Case,
    pricer: &mut P,
    tries: &mut Tries,
    draft: &mut Draft,
    prices: &Prices,
    rounds: Rounds,
) -> Result<(), Memory>
    requires case { IsCase case.now }
    requires pool { IsPool case.now tries.old.pool }
    requires draft { IsDraft case.now draft.old }
    requires prices { IsPrices case.now.week prices.now }
    requires some { 1 ≤ rounds.count }
    requires few { (rounds.count ≤ 1000) × (rounds.from ≤ 1000) }
    ensures draft { IsDraft case.now draft.new }
    ensures pool { IsPool case.now tries.new.pool }
    ensures chunks { P.chunks pricer.new ≡ P.chunks pricer.old }
{
    let mut now = copied(alloc, prices)?;
    while tries.left > 0 {
        match fix_first(alloc, case, pricer, tries, draft, &now, rounds)? {
            Some(next) => now = next,
            None => return Ok(()),
        }
    }
    Ok(())
}
