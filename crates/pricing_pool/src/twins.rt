// Which drivers are twins, so that one of them is priced for all.
ghost use Rattle.std.specs.Prelude.{◌≡◌, ◌<◌, ℕ, length, IfOk, IsTrue, slice_index};
ghost use Rattle.duty_plan.specs.Duties.{IsCase};
ghost use Rattle.duty_plan.specs.Values.{IsPairs, pair_at};
ghost use Rattle.duty_plan.specs.Twins.{AreTwins};
ghost use Rattle.duty_plan.specs.SharedRounds.{AreClasses};
ghost use Rattle.pricing_pool.specs.Classes.{IsClassOf};

use duty_plan::{Case, Pairs, are_alike};
use minute_line::Memory;
use std::alloc::Global;

/// Whether each order is decided alike for both drivers.
fn have_same_rows(case: &Case, pairs: &Pairs, one: u32, other: u32) -> bool
    requires case { IsCase case.now }
    requires pairs { IsPairs case.now.week pairs.now }
    requires one { one < length case.now.week.drivers }
    requires other { other < length case.now.week.drivers }
    ensures { IsTrue result → ((order : ℕ) → order < length case.now.week.orders →
        pair_at pairs.now one order ≡ pair_at pairs.now other order) }
{
    'comparing: for order in 0..case.week.orders.len() as u32 {
        if pairs.pair(&case.week, one, order) != pairs.pair(&case.week, other, order) {
            return false;
        }
    }
    true
}

/// Whether the drivers are alike, and each order is decided alike for both.
#[tactic(auto, using(duty_plan::proofs::Twins::alike_twins))]
fn are_twins(case: &Case, pairs: &Pairs, one: u32, other: u32) -> bool
    requires case { IsCase case.now }
    requires pairs { IsPairs case.now.week pairs.now }
    requires one { one < length case.now.week.drivers }
    requires other { other < length case.now.week.drivers }
    ensures { IsTrue result → AreTwins case.now pairs.now one other }
{
    are_alike(case, one, other) && have_same_rows(case, pairs, one, other)
}

/// The first driver up to this one who stands for himself and is a twin of this one.
#[tactic(auto, using(crate::proofs::Classes::class_itself))]
fn class_of(case: &Case, pairs: &Pairs, classes: &[u32], driver: u32) -> u32
    requires case { IsCase case.now }
    requires pairs { IsPairs case.now.week pairs.now }
    requires count { length classes.now ≡ driver }
    requires driver { driver < length case.now.week.drivers }
    ensures { IsClassOf case.now pairs.now classes.now driver result }
{
    'looking: for earlier in 0..driver {
        if classes[earlier as usize] == earlier && are_twins(case, pairs, earlier, driver) {
            return earlier;
        }
    }
    driver
}

/// For each driver the twin who stands for him.
#[tactic(auto, using(crate::proofs::Classes::none_sorted, crate::proofs::Classes::sorted_push, crate::proofs::Classes::all_sorted))]
pub(crate) fn classes(alloc: Global, case: &Case, pairs: &Pairs) -> Result<Vec<u32>, Memory>
    requires case { IsCase case.now }
    requires pairs { IsPairs case.now.week pairs.now }
    ensures count { IfOk result (λ classes. length classes.items ≡ length case.now.week.drivers) }
    ensures classes { IfOk result (λ classes. AreClasses case.now pairs.now (slice_index classes.items)) }
{
    let mut classes = Vec::with_capacity(alloc, case.week.drivers.len())?;
    'sorting: for driver in 0..case.week.drivers.len() as u32 {
        let class = class_of(case, pairs, classes.as_slice(), driver);
        classes.push_reserved(class);
    }
    Ok(classes)
}
