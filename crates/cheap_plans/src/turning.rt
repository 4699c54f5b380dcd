// Drivers priced again in turn.
ghost use Rattle.std.specs.Prelude.{◌≡◌, ◌<◌, length, OnOk};
ghost use Rattle.duty_plan.specs.Duties.{IsCase};
ghost use Rattle.duty_plan.specs.Values.{IsPrices};
ghost use Rattle.price_master.specs.Pools.{IsPool};
ghost use Rattle.cheap_plans.specs.Drafts.{IsDraft};

use crate::drafts::{Draft, alone, freed_pairs};
use crate::guessing::{Tries, ask};
use crate::valuing::saving;
use duty_plan::{Case, Duty, Pricer, Prices, are_alike, copied_duty};
use minute_line::Memory;
use price_master::start_prices;
use std::alloc::Global;

/// Prices one driver at what subcontractors take, with the orders of the others barred, and takes the guessed duty in place of
/// the driver's own where it saves more. It answers whether it does.
fn turn<P: Pricer>(
    alloc: Global,
    case: &Case,
    pricer: &mut P,
    tries: &mut Tries,
    start: &Prices,
    draft: &mut Draft,
    driver: u32,
) -> Result<bool, Memory>
    requires case { IsCase case.now }
    requires pool { IsPool case.now tries.old.pool }
    requires left { 0 < tries.old.left }
    requires start { IsPrices case.now.week start.now }
    requires draft { IsDraft case.now draft.old }
    requires driver { driver < length case.now.week.drivers }
    ensures draft { IsDraft case.now draft.new }
    ensures pool { IsPool case.now tries.new.pool }
    ensures falls { OnOk result (tries.new.left < tries.old.left) }
    ensures chunks { P.chunks pricer.new ≡ P.chunks pricer.old }
{
    draft.freed = alone(alloc, case.week.drivers.len() as u32, driver)?;
    let pairs = freed_pairs(alloc, case, draft)?;
    let guessed = ask(
        alloc,
        case,
        pricer,
        tries,
        draft.freed.as_slice(),
        &pairs,
        start,
    )?;
    let duty = copied_duty(alloc, &guessed.as_slice()[driver as usize])?;
    let own = saving(
        case,
        driver,
        &draft.duties.as_slice()[driver as usize],
        start,
    );
    if saving(case, driver, &duty, start) <= own {
        return Ok(false);
    }
    draft.duties.set(driver as usize, duty);
    Ok(true)
}

/// Whether the driver is idle, and an idle driver who is alike is among the last `quiet` ones before, around the drivers.
fn is_known_idle(case: &Case, duties: &[Duty], driver: u32, quiet: u32) -> bool
    requires case { IsCase case.now }
    requires duties { length duties.now ≡ length case.now.week.drivers }
    requires driver { driver < length case.now.week.drivers }
    requires quiet { quiet < length case.now.week.drivers }
{
    if !duties[driver as usize].steps.is_empty() {
        return false;
    }
    let drivers = duties.len() as u32;
    for back in 0..quiet {
        let other = (driver + drivers - 1 - back) % drivers;
        if duties[other as usize].steps.is_empty() && are_alike(case, driver, other) {
            return true;
        }
    }
    false
}

/// Prices the drivers in turn, until no driver's duty changes or no guess is left. An idle driver who is like one for whom
/// nothing was found since the last change is passed over.
pub(crate) fn again<P: Pricer>(
    alloc: Global,
    case: &Case,
    pricer: &mut P,
    tries: &mut Tries,
    draft: &mut Draft,
) -> Result<(), Memory>
    requires case { IsCase case.now }
    requires pool { IsPool case.now tries.old.pool }
    requires draft { IsDraft case.now draft.old }
    ensures draft { IsDraft case.now draft.new }
    ensures pool { IsPool case.now tries.new.pool }
    ensures chunks { P.chunks pricer.new ≡ P.chunks pricer.old }
{
    let start = start_prices(alloc, &case.week)?;
    let drivers = case.week.drivers.len() as u32;
    let mut driver = 0;
    let mut quiet = 0;
    while quiet < drivers && tries.left > 0 {
        let is_known = is_known_idle(case, draft.duties.as_slice(), driver, quiet);
        let is_new = !is_known && turn(alloc, case, pricer, tries, &start, draft, driver)?;
        quiet = if is_new { 1 } else { quiet + 1 };
        driver = (driver + 1) % drivers;
    }
    Ok(())
}
