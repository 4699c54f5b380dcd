// Guesses, how many may still be asked for, and the duties that they gave.
ghost use Rattle.std.specs.Prelude.{◌≡◌, ◌<◌, length, IfOk, OnOk};
ghost use Rattle.duty_plan.specs.Duties.{EachOf, IsCase};
ghost use Rattle.duty_plan.specs.Values.{IsPairs, IsPrices};
ghost use Rattle.price_master.specs.Pools.{IsPool};
ghost use Rattle.cheap_plans.specs.Drafts.{IsLawfulGuess};

use crate::alike::kinds;
use crate::drafts::no_duty;
use duty_plan::{Case, Duty, Pairs, Pricer, Prices, copied_duty};
use minute_line::{Many, Memory};
use price_master::Pool;
use std::alloc::Global;

/// How many drivers may still be priced, and the duties that were guessed so far.
#[derive(Drop)]
pub(crate) struct Tries {
    pub left: u32,
    pub pool: Pool,
}

/// Keeps a guessed duty that isn't empty.
fn pool_guess(
    alloc: Global,
    case: &Case,
    pool: &mut Pool,
    driver: u32,
    guess: &Option<Duty>,
) -> Result<(), Memory>
    requires case { IsCase case.now }
    requires pool { IsPool case.now pool.old }
    requires driver { driver < length case.now.week.drivers }
    requires lawful { IsLawfulGuess case.now driver guess.now }
    ensures pool { IsPool case.now pool.new }
{
    match guess {
        Some(duty) => {
            if duty.steps.is_empty() {
                return Ok(());
            }
            pool.add(case, driver, copied_duty(alloc, duty)?)
        }
        None => Ok(()),
    }
}

/// Keeps the guessed duties that aren't empty.
fn pool_guesses(
    alloc: Global,
    case: &Case,
    pool: &mut Pool,
    guesses: &[Option<Duty>],
) -> Result<(), Memory>
    requires case { IsCase case.now }
    requires pool { IsPool case.now pool.old }
    requires drivers { length guesses.now ≡ length case.now.week.drivers }
    requires lawful { EachOf (IsLawfulGuess case.now) guesses.now }
    ensures pool { IsPool case.now pool.new }
{
    for driver in 0..guesses.len() as u32 {
        pool_guess(alloc, case, pool, driver, &guesses[driver as usize])?;
    }
    Ok(())
}

/// A copy of the guessed duty, or the empty one.
fn duty_of(alloc: Global, guess: &Option<Duty>) -> Result<Duty, Memory> {
    match guess {
        Some(duty) => copied_duty(alloc, duty),
        None => Ok(no_duty(alloc)),
    }
}

/// For each driver the guessed duty, or the empty one.
fn duties_of(alloc: Global, guesses: &[Option<Duty>]) -> Result<Many<Duty>, Memory>
    ensures { IfOk result (λ duties. length duties ≡ length guesses.now) }
{
    let mut duties = Many::new(alloc);
    for guess in guesses {
        duties.push(duty_of(alloc, guess)?)?;
    }
    Ok(duties)
}

/// Asks for a guess for each driver at the pairs and prices, where at least one may still be priced: a duty for each driver,
/// the empty one where none was guessed. Freed drivers who are alike count as one; a driver who isn't freed costs nothing.
pub(crate) fn ask<P: Pricer>(
    alloc: Global,
    case: &Case,
    pricer: &mut P,
    tries: &mut Tries,
    freed: &[bool],
    pairs: &Pairs,
    prices: &Prices,
) -> Result<Many<Duty>, Memory>
    requires case { IsCase case.now }
    requires pool { IsPool case.now tries.old.pool }
    requires left { 0 < tries.old.left }
    requires freed { length freed.now ≡ length case.now.week.drivers }
    requires pairs { IsPairs case.now.week pairs.now }
    requires prices { IsPrices case.now.week prices.now }
    ensures duties { IfOk result (λ duties. length duties ≡ length case.now.week.drivers) }
    ensures pool { IsPool case.now tries.new.pool }
    ensures falls { OnOk result (tries.new.left < tries.old.left) }
    ensures chunks { P.chunks pricer.new ≡ P.chunks pricer.old }
{
    let count = kinds(case, freed).max(1);
    tries.left = tries.left.saturating_sub(count);
    let guesses = pricer.guess(alloc, case, pairs, prices)?;
    pool_guesses(alloc, case, &mut tries.pool, guesses.as_slice())?;
    duties_of(alloc, guesses.as_slice())
}
