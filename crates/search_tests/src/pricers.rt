// A pricer without chunks, which answers Spent and guesses as it is told. Its other answers are those of weeks of one order at
// the depot: who serves it pays the fee, and no more.
ghost use Rattle.std.specs.Prelude.{◌≡◌, ◌⊎◌, ◌<◌, ◌≤◌, true, false, [], length, IfOk, IfSome};
ghost use Rattle.duty_plan.specs.Duties.{IsCase, fee_or_none};
ghost use Rattle.week_book.specs.Weeks.{driver_of};
ghost use Rattle.duty_plan.specs.Rounds.{IsAnswer};
ghost use Rattle.duty_plan.specs.Values.{IsChoice, IsPairs, IsPrices, price_at};

use crate::trips::{carries_for, choice, trip};
use duty_plan::{Case, Duty, Gate, Pair, Pairs, Priced, Pricer, Prices, check_duty};
use minute_line::{Many, Memory};
use std::alloc::Global;
use std::thread::Threads;

/// When a round answers Spent. Rounds are counted over a whole search, from 0.
#[derive(Clone, Copy, Debug)]
pub(crate) enum Spending {
    Never,
    /// In the round of that number, for that driver.
    At(u32, u32),
    /// From the round of that number on, for all drivers.
    Since(u32),
}

impl Spending {
    fn is_spent(self, round: u32, driver: u32) -> bool {
        match self {
            Spending::Never => false,
            Spending::At(number, whom) => number == round && whom == driver,
            Spending::Since(number) => number <= round,
        }
    }
}

/// What is guessed for a driver.
#[derive(Clone, Copy, Debug)]
pub(crate) enum Guessing {
    Nothing,
    /// The empty duty.
    Empty,
    /// The trip with order 0, wherever the driver may be given it.
    First,
    /// The trip that saves most.
    Best,
    /// The same, and nothing where another driver has anything Free.
    BestAlone,
}

/// A pricer without chunks. In each week but one of one order all of its answers are Spent.
#[derive(Drop)]
pub(crate) struct Told {
    pub spending: Spending,
    pub guessing: Guessing,
    /// How many rounds it has answered.
    pub rounds: u32,
}

fn no_duty(alloc: Global) -> Duty
    ensures { result ≡ record { steps = [] } }
{
    Duty {
        steps: Many::new(alloc),
    }
}

/// The fee of a driver of the week, in cents.
fn fee_of(case: &Case, driver: u32) -> u64
    requires case { IsCase case.now }
    requires driver { driver < length case.now.week.drivers }
    ensures fee { result ≡ fee_or_none (driver_of case.now.week driver) }
    ensures bound { result ≤ 10000000 }
{
    case.week.drivers.as_slice()[driver as usize].fee
}

/// The price of an order of the week, in cents.
fn price_of(case: &Case, prices: &Prices, order: u32) -> u64
    requires case { IsCase case.now }
    requires prices { IsPrices case.now.week prices.now }
    requires order { order < length case.now.week.orders }
    ensures price { result ≡ price_at prices.now order }
    ensures bound { result ≤ 100000000 }
{
    prices.cents.as_slice()[order as usize]
}

/// Whether the driver saves most with the empty duty: he may not serve the order, or needn't and isn't paid more than the fee.
fn is_idle(pair: Pair, fee: u64, price: u64) -> bool
    ensures idle { result ≡ true → (pair ≡ Pair.Barred) ⊎ ((pair ≡ Pair.Free) × (price ≤ fee)) }
    ensures busy { result ≡ false → (pair ≡ Pair.Forced) ⊎ ((pair ≡ Pair.Free) × (fee ≤ price)) }
{
    match pair {
        Pair::Free => price <= fee,
        Pair::Forced => false,
        Pair::Barred => true,
    }
}

/// The answer for a driver in a week of one order, at the depot; in any other week Spent.
fn answer_of(
    alloc: Global,
    case: &Case,
    pairs: &Pairs,
    prices: &Prices,
    driver: u32,
) -> Result<Priced, Memory>
    requires case { IsCase case.now }
    requires pairs { IsPairs case.now.week pairs.now }
    requires prices { IsPrices case.now.week prices.now }
    requires driver { driver < length case.now.week.drivers }
    ensures { IfOk result (IsAnswer 0 case.now pairs.now prices.now driver) }
{
    if case.week.orders.len() != 1 {
        return Ok(Priced::Spent(0));
    }
    let fee = fee_of(case, driver);
    let price = price_of(case, prices, 0);
    if is_idle(pairs.pair(&case.week, driver, 0), fee, price) {
        return Ok(Priced::Least(0, no_duty(alloc)));
    }
    let trip = trip(alloc, &case.week, 0)?;
    if !carries_for(case, driver, &trip, fee) {
        return Ok(Priced::Spent(0));
    }
    Ok(Priced::Least(fee as i64 - price as i64, trip))
}

/// What the driver saves at the prices with the trip with the order, in cents; 0 where he saves nothing.
fn saving(case: &Case, prices: &Prices, driver: u32, order: u32, trip: &Duty) -> u64
    requires case { IsCase case.now }
    requires prices { IsPrices case.now.week prices.now }
    requires driver { driver < length case.now.week.drivers }
    requires order { order < length case.now.week.orders }
{
    match check_duty(case, driver, trip) {
        Ok(cost) => price_of(case, prices, order).saturating_sub(cost),
        Err(_) => 0,
    }
}

/// Of the trips with one order that the driver may be given, the one that saves most, if one saves anything.
fn best_trip(
    alloc: Global,
    case: &Case,
    pairs: &Pairs,
    prices: &Prices,
    driver: u32,
) -> Result<Option<Duty>, Memory>
    requires case { IsCase case.now }
    requires pairs { IsPairs case.now.week pairs.now }
    requires prices { IsPrices case.now.week prices.now }
    requires driver { driver < length case.now.week.drivers }
    ensures { IfOk result (λ guess. IfSome guess (IsChoice case.now driver pairs.now)) }
{
    let mut best = None;
    let mut most = 0;
    for order in 0..case.week.orders.len() as u32 {
        let trip = trip(alloc, &case.week, order)?;
        if let Some(trip) = choice(case, pairs, driver, trip) {
            let saves = saving(case, prices, driver, order, &trip);
            if saves > most {
                most = saves;
                best = Some(trip);
            }
        }
    }
    Ok(best)
}

/// Whether an order is Free for the driver.
fn has_free(case: &Case, pairs: &Pairs, driver: u32) -> bool
    requires case { IsCase case.now }
    requires pairs { IsPairs case.now.week pairs.now }
    requires driver { driver < length case.now.week.drivers }
{
    for order in 0..case.week.orders.len() as u32 {
        if pairs.pair(&case.week, driver, order) == Pair::Free {
            return true;
        }
    }
    false
}

/// Whether no other driver has anything Free.
fn is_alone(case: &Case, pairs: &Pairs, driver: u32) -> bool
    requires case { IsCase case.now }
    requires pairs { IsPairs case.now.week pairs.now }
{
    for other in 0..case.week.drivers.len() as u32 {
        if other != driver && has_free(case, pairs, other) {
            return false;
        }
    }
    true
}

/// The guess for a driver.
fn guess_of(
    alloc: Global,
    case: &Case,
    pairs: &Pairs,
    prices: &Prices,
    driver: u32,
    guessing: Guessing,
) -> Result<Option<Duty>, Memory>
    requires case { IsCase case.now }
    requires pairs { IsPairs case.now.week pairs.now }
    requires prices { IsPrices case.now.week prices.now }
    requires driver { driver < length case.now.week.drivers }
    ensures { IfOk result (λ guess. IfSome guess (IsChoice case.now driver pairs.now)) }
{
    match guessing {
        Guessing::Nothing => Ok(None),
        Guessing::Empty => Ok(choice(case, pairs, driver, no_duty(alloc))),
        Guessing::First => Ok(choice(case, pairs, driver, trip(alloc, &case.week, 0)?)),
        Guessing::Best => best_trip(alloc, case, pairs, prices, driver),
        Guessing::BestAlone => {
            if !is_alone(case, pairs, driver) {
                return Ok(None);
            }
            best_trip(alloc, case, pairs, prices, driver)
        }
    }
}

impl Told {
    /// The answer for a driver, which may be Spent: with no chunk a round may always answer so.
    fn answer(
        &self,
        alloc: Global,
        case: &Case,
        pairs: &Pairs,
        prices: &Prices,
        driver: u32,
    ) -> Result<Priced, Memory>
        requires case { IsCase case.now }
        requires pairs { IsPairs case.now.week pairs.now }
        requires prices { IsPrices case.now.week prices.now }
        requires driver { driver < length case.now.week.drivers }
        ensures { IfOk result (IsAnswer 0 case.now pairs.now prices.now driver) }
    {
        if self.spending.is_spent(self.rounds, driver) {
            return Ok(Priced::Spent(0));
        }
        answer_of(alloc, case, pairs, prices, driver)
    }
}

impl Pricer for Told {
    ghost chunks = { λ _. 0 };

    fn round<R: Threads + Sync>(
        &mut self,
        _rt: &R,
        _gate: &(dyn Gate + Sync),
        alloc: Global,
        case: &Case,
        pairs: &Pairs,
        prices: &Prices,
    ) -> Result<Many<Priced>, Memory> {
        let mut answers = Many::new(alloc);
        for driver in 0..case.week.drivers.len() as u32 {
            answers.push(self.answer(alloc, case, pairs, prices, driver)?)?;
        }
        self.rounds = self.rounds.saturating_add(1);
        Ok(answers)
    }

    fn guess(
        &mut self,
        alloc: Global,
        case: &Case,
        pairs: &Pairs,
        prices: &Prices,
    ) -> Result<Many<Option<Duty>>, Memory> {
        let mut guesses = Many::new(alloc);
        for driver in 0..case.week.drivers.len() as u32 {
            guesses.push(guess_of(alloc, case, pairs, prices, driver, self.guessing)?)?;
        }
        Ok(guesses)
    }
}
