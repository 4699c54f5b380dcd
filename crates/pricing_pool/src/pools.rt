// All drivers side by side, over one arena.
ghost use Rattle.std.specs.Prelude.{◌≡◌, ◌<◌, ◌≤◌, ℕ, All, length, IfOk, OnOk};
ghost use Rattle.duty_plan.specs.Duties.{IsCase};
ghost use Rattle.duty_plan.specs.Values.{IsPairs, IsPrices};
ghost use Rattle.duty_plan.specs.LabelLists.{chunks_for};
ghost use Rattle.duty_plan.specs.Rounds.{IsRound};
ghost use Rattle.duty_pricing.specs.Finding.{IsEmpty};

use crate::arenas::KeptArena;
use crate::guesses::guess_all;
use crate::pricing::Asked;
use crate::shared::price_shared;
use crate::twins::classes;
use duty_plan::{Case, Duty, Gate, Pairs, Priced, Pricer, Prices};
use duty_pricing::{Scratch, make_scratch};
use minute_line::{Many, Memory};
use std::alloc::Global;
use std::marker::Model;
use std::thread::Threads;

/// Prices all drivers at once, each by a worker of its own, who passes the gate first. The workers share all chunks; contracts
/// see their number.
#[derive(Drop)]
pub struct PricingPool {
    arena: KeptArena,
    scratches: Vec<Scratch>,
}

impl Model for PricingPool {
    ghost use Rattle.std.specs.Prelude.{ℕ, All};
    ghost use Rattle.duty_pricing.specs.Finding.{IsEmpty};

    ghost Value = { ℕ };

    ghost view = { λ pool. pool.arena };

    ghost invariant = { λ pool. All IsEmpty pool.scratches.items };
}

/// Makes the scratches that are missing for so many drivers.
fn fit(alloc: Global, scratches: &mut Vec<Scratch>, drivers: u32) -> Result<(), Memory>
    requires empty { All IsEmpty scratches.old.items }
    ensures empty { All IsEmpty scratches.new.items }
    ensures enough { OnOk result (drivers ≤ length scratches.new.items) }
{
    'making: while scratches.len() < drivers as usize {
        scratches.push(make_scratch(alloc)?)?;
    }
    Ok(())
}

/// A pool with chunks for so many labels, and a scratch for each of so many drivers. A case with more drivers makes the missing
/// ones.
pub fn make_pool(alloc: Global, labels: u32, drivers: u32) -> Result<PricingPool, Memory>
    requires { labels ≤ 2097152 }
    ensures { IfOk result (λ pool. pool ≡ chunks_for labels) }
{
    let mut scratches = Vec::new(alloc);
    fit(alloc, &mut scratches, drivers)?;
    Ok(PricingPool {
        arena: KeptArena::make(alloc, labels)?,
        scratches,
    })
}

impl PricingPool {
    /// A round of a case with drivers.
    fn price_all<R: Threads + Sync>(
        &mut self,
        rt: &R,
        gate: &(dyn Gate + Sync),
        alloc: Global,
        case: &Case,
        pairs: &Pairs,
        prices: &Prices,
    ) -> Result<Many<Priced>, Memory>
        requires case { IsCase case.now }
        requires some { 0 < length case.now.week.drivers }
        requires pairs { IsPairs case.now.week pairs.now }
        requires prices { IsPrices case.now.week prices.now }
        ensures round { IfOk result (IsRound self.old case.now pairs.now prices.now) }
        ensures chunks { self.new ≡ self.old }
    {
        let drivers = case.week.drivers.len() as u32;
        fit(alloc, &mut self.scratches, drivers)?;
        let classes = classes(alloc, case, pairs)?;
        let (round, seats) = self.arena.take(alloc)?.open_round(alloc, drivers)?;
        let asked = Asked {
            case,
            pairs,
            prices,
            round: &round,
        };
        let scratches = &mut self.scratches;
        let (answers, ended) = price_shared(rt, gate, alloc, &asked, &classes, seats, scratches)?;
        self.arena.put(round.close(alloc, ended)?);
        Ok(answers)
    }
}

impl Pricer for PricingPool {
    ghost chunks = { λ pool. pool };

    fn round<R: Threads + Sync>(
        &mut self,
        rt: &R,
        gate: &(dyn Gate + Sync),
        alloc: Global,
        case: &Case,
        pairs: &Pairs,
        prices: &Prices,
    ) -> Result<Many<Priced>, Memory> {
        if case.week.drivers.is_empty() {
            return Ok(Many::new(alloc));
        }
        self.price_all(rt, gate, alloc, case, pairs, prices)
    }

    fn guess(
        &mut self,
        alloc: Global,
        case: &Case,
        pairs: &Pairs,
        prices: &Prices,
    ) -> Result<Many<Option<Duty>>, Memory> {
        fit(alloc, &mut self.scratches, 1)?;
        guess_all(alloc, case, pairs, prices, &mut self.scratches[0])
    }
}
