// The plans of a whole round.
ghost use Rattle.std.specs.Prelude.{◌≡◌, ◌≢◌, ℕ, ℤ, ◌<◌, ◌≤◌, OnOk, IfOk, true, false, length};
ghost use Rattle.duty_plan.specs.declared.duties.Duty.{Duty as GhostDuty};
ghost use Rattle.duty_plan.specs.declared.deciding.Pairs.{Pairs as GhostPairs};
ghost use Rattle.duty_plan.specs.declared.pricing.Prices.{Prices as GhostPrices};
ghost use Rattle.duty_plan.specs.Duties.{IsCase, IsLawful};
ghost use Rattle.duty_plan.specs.Values.{IsDecided, lagrangian};
ghost use Rattle.duty_plan.specs.Trees.{BeatsDuty};
ghost use Rattle.price_master.specs.Laws.{ForcesOnce};
ghost use Rattle.price_master.specs.Pools.{IsPool, IsPooled};
ghost use Rattle.duty_plan.specs.Rounds.{IsRound, is_whole, values_of};
ghost use Rattle.branch_tree.specs.Growth.{IsKept};
ghost use Rattle.branch_tree.specs.Leaving.{IsTaken};
ghost use Rattle.branch_tree.specs.Taking.{AreDutiesOf, AreLawful, ArePooled};

use crate::keeping::{Kept, offer};
use duty_plan::{Case, Duty, Plan, Priced, copied_duty};
use minute_line::{Many, Memory};
use price_master::{Picked, Pool, pick, rest};
use std::alloc::Global;

/// A copy of the answer's duty, or the empty duty.
fn duty_of(alloc: Global, answer: &Priced) -> Result<Duty, Memory>
    ensures { IfOk result (λ copy. (value : ℤ) (duty : GhostDuty) → answer.now ≡ Priced.Least value duty → copy ≡ duty) }
{
    match answer {
        Priced::Least(_, duty) => copied_duty(alloc, duty),
        Priced::NoDuty | Priced::Spent(_) => Ok(Duty {
            steps: Many::new(alloc),
        }),
    }
}

/// The duties of whole answers.
fn all_duties(alloc: Global, answers: &[Priced]) -> Result<Many<Duty>, Memory>
    ensures { IfOk result (λ duties. AreDutiesOf answers.now duties) }
{
    let mut duties = Many::new(alloc);
    for answer in answers {
        duties.push(duty_of(alloc, answer)?)?;
    }
    Ok(duties)
}

/// Puts the answer's duty into the pool.
fn pool_duty(
    alloc: Global,
    case: &Case,
    pool: &mut Pool,
    driver: u32,
    answer: &Priced,
) -> Result<(), Memory>
    requires case { IsCase case.now }
    requires pool { IsPool case.now pool.old }
    requires driver { driver < length case.now.week.drivers }
    requires lawful { (value : ℤ) (duty : GhostDuty) → answer.now ≡ Priced.Least value duty → IsLawful case.now driver duty }
    ensures pool { IsPool case.now pool.new }
    ensures pooled { OnOk result ((value : ℤ) (duty : GhostDuty) → answer.now ≡ Priced.Least value duty → IsPooled pool.new driver duty) }
    ensures others { (other : ℕ) (duty : GhostDuty) → other ≢ driver → IsPooled pool.old other duty → IsPooled pool.new other duty }
{
    match answer {
        Priced::Least(_, duty) => pool.add(case, driver, copied_duty(alloc, duty)?),
        Priced::NoDuty | Priced::Spent(_) => Ok(()),
    }
}

/// Puts the duties of whole answers into the pool.
fn pool_round(alloc: Global, case: &Case, pool: &mut Pool, answers: &[Priced]) -> Result<(), Memory>
    requires case { IsCase case.now }
    requires pool { IsPool case.now pool.old }
    requires drivers { length answers.now ≡ length case.now.week.drivers }
    requires lawful { AreLawful case.now answers.now }
    ensures pool { IsPool case.now pool.new }
    ensures pooled { OnOk result (ArePooled pool.new answers.now) }
{
    for driver in 0..answers.len() as u32 {
        pool_duty(alloc, case, pool, driver, &answers[driver as usize])?;
    }
    Ok(())
}

/// Offers the plan that is picked from the pool.
fn offer_picked(alloc: Global, case: &Case, kept: &mut Kept) -> Result<(), Memory>
    requires case { IsCase case.now }
    requires kept { IsKept case.now kept.old.plan kept.old.cost }
    requires pool { IsPool case.now kept.old.pool }
    ensures kept { IsKept case.now kept.new.plan kept.new.cost }
    ensures falls { kept.new.cost ≤ kept.old.cost }
    ensures pool { kept.new.pool ≡ kept.old.pool }
    ensures beats { OnOk result ((driver : ℕ) (duty : GhostDuty) → IsPooled kept.old.pool driver duty → BeatsDuty case.now kept.new.cost driver duty) }
{
    match pick(alloc, case, &kept.pool)? {
        Picked::Least(plan, _) | Picked::Cut(plan, _) => offer(case, kept, plan),
    }
    Ok(())
}

/// Offers the plan of all duties of whole answers.
fn offer_all(alloc: Global, case: &Case, kept: &mut Kept, answers: &[Priced]) -> Result<(), Memory>
    requires case { IsCase case.now }
    requires kept { IsKept case.now kept.old.plan kept.old.cost }
    requires drivers { length answers.now ≡ length case.now.week.drivers }
    requires whole { is_whole answers.now ≡ true }
    ensures kept { IsKept case.now kept.new.plan kept.new.cost }
    ensures falls { kept.new.cost ≤ kept.old.cost }
    ensures pool { kept.new.pool ≡ kept.old.pool }
    ensures taken { OnOk result ((m : ℕ) (pairs : GhostPairs) (prices : GhostPrices) → IsRound m case.now pairs prices answers.now →
        IsDecided case.now.week pairs → ForcesOnce case.now.week pairs → kept.new.cost ≤ lagrangian case.now.week pairs prices (values_of answers.now)) }
{
    let duties = all_duties(alloc, answers)?;
    let out = rest(alloc, case, duties.as_slice())?;
    offer(case, kept, Plan { duties, out });
    Ok(())
}

/// Takes a whole round: its duties enter the pool, and the plans of it that are offered are the one that is picked from the
/// pool and that of all its duties together.
pub(crate) fn take_round(
    alloc: Global,
    case: &Case,
    kept: &mut Kept,
    answers: &[Priced],
) -> Result<(), Memory>
    requires case { IsCase case.now }
    requires kept { IsKept case.now kept.old.plan kept.old.cost }
    requires pool { IsPool case.now kept.old.pool }
    requires drivers { length answers.now ≡ length case.now.week.drivers }
    requires whole { is_whole answers.now ≡ true }
    requires lawful { AreLawful case.now answers.now }
    ensures kept { IsKept case.now kept.new.plan kept.new.cost }
    ensures falls { kept.new.cost ≤ kept.old.cost }
    ensures pool { IsPool case.now kept.new.pool }
    ensures taken { OnOk result ((m : ℕ) (pairs : GhostPairs) (prices : GhostPrices) → IsRound m case.now pairs prices answers.now →
        IsTaken case.now pairs prices answers.now kept.new.cost) }
{
    pool_round(alloc, case, &mut kept.pool, answers)?;
    offer_picked(alloc, case, kept)?;
    offer_all(alloc, case, kept, answers)
}
