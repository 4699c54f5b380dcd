// Good duties of all drivers, for which no label is stored.
ghost use Rattle.std.specs.Prelude.{◌<◌, length, IfOk, IfSome};
ghost use Rattle.duty_plan.specs.Duties.{EachOf, IsCase};
ghost use Rattle.duty_plan.specs.Values.{IsChoice, IsPairs, IsPrices};
ghost use Rattle.duty_plan.specs.Rounds.{AreGuesses};
ghost use Rattle.duty_plan.specs.Twins.{AreTwins};
ghost use Rattle.duty_pricing.specs.Finding.{IsEmpty};

use crate::copying::copy_guess;
use crate::twins::classes;
use duty_plan::{Case, Duty, Pairs, Prices};
use duty_pricing::{Scratch, guess_duty};
use minute_line::{Many, Memory};
use std::alloc::Global;

/// The guess for a driver who stands for himself.
fn guess_alone(
    alloc: Global,
    case: &Case,
    driver: u32,
    pairs: &Pairs,
    prices: &Prices,
    scratch: &mut Scratch,
) -> Result<Option<Duty>, Memory>
    requires case { IsCase case.now }
    requires driver { driver < length case.now.week.drivers }
    requires pairs { IsPairs case.now.week pairs.now }
    requires prices { IsPrices case.now.week prices.now }
    requires empty { IsEmpty scratch.old }
    ensures guess { IfOk result (λ guess. IfSome guess (IsChoice case.now driver pairs.now)) }
    ensures empty { IsEmpty scratch.new }
{
    if !guess_duty(case, driver, pairs, prices, scratch) {
        return Ok(None);
    }
    let steps = Many::from_slice(alloc, scratch.steps())?;
    Ok(Some(Duty { steps }))
}

/// The guess for a driver: once more that of the twin who stands for him, where it is among the guesses so far.
fn guess_in_turn(
    alloc: Global,
    case: &Case,
    class: u32,
    driver: u32,
    pairs: &Pairs,
    prices: &Prices,
    scratch: &mut Scratch,
    guesses: &[Option<Duty>],
) -> Result<Option<Duty>, Memory>
    requires case { IsCase case.now }
    requires twin { AreTwins case.now pairs.now class driver }
    requires driver { driver < length case.now.week.drivers }
    requires pairs { IsPairs case.now.week pairs.now }
    requires prices { IsPrices case.now.week prices.now }
    requires empty { IsEmpty scratch.old }
    requires guesses { EachOf (λ driver guess. IfSome guess (IsChoice case.now driver pairs.now)) guesses.now }
    ensures guess { IfOk result (λ guess. IfSome guess (IsChoice case.now driver pairs.now)) }
    ensures empty { IsEmpty scratch.new }
{
    match guesses.get(class as usize) {
        Some(guess) => copy_guess(alloc, guess),
        None => guess_alone(alloc, case, driver, pairs, prices, scratch),
    }
}

/// A guess for each driver. Twins have one.
pub(crate) fn guess_all(
    alloc: Global,
    case: &Case,
    pairs: &Pairs,
    prices: &Prices,
    scratch: &mut Scratch,
) -> Result<Many<Option<Duty>>, Memory>
    requires case { IsCase case.now }
    requires pairs { IsPairs case.now.week pairs.now }
    requires prices { IsPrices case.now.week prices.now }
    requires empty { IsEmpty scratch.old }
    ensures guesses { IfOk result (AreGuesses case.now pairs.now) }
    ensures empty { IsEmpty scratch.new }
{
    let classes = classes(alloc, case, pairs)?;
    let mut guesses = Many::new(alloc);
    'guessing: for driver in 0..case.week.drivers.len() as u32 {
        let class = classes[driver as usize];
        let earlier = guesses.as_slice();
        let guess = guess_in_turn(alloc, case, class, driver, pairs, prices, scratch, earlier)?;
        guesses.push(guess)?;
    }
    Ok(guesses)
}
