// The label of a driver before any step, and the labels that one step more makes of a label.
ghost use Rattle.std.specs.Prelude.{◌≡◌, ◌<◌, ◌↔◌, ◌∷◌, [], true, false, length, IsOk, IfOk, Some, Err};
ghost use Rattle.duty_plan.specs.PartialDuties.{PartialDuty};
ghost use Rattle.duty_plan.specs.Duties.{IsCase, IsLawfulPartialDuty};
ghost use Rattle.duty_plan.specs.Values.{IsPairs, IsPrices};
ghost use Rattle.duty_plan.specs.Labels.{IsLabelOf};
ghost use Rattle.duty_label.specs.Children.{AnswersChild, AnswersLonger, HasLabel, IsLabelOfSome, fault_of_step, serves_barred};

use crate::prices::{fee_due, is_barred, price_of_act, value_with};
use crate::refusals::NoChild;
use duty_plan::{Act, Case, DutyFault, Label, Pairs, Position, Prices, Step};
use hours_rules::{Stay, go, start};

/// The label of a driver before any step: Monday 00:00 at the depot, after the driver's history, at whatever prices.
pub fn first(case: &Case, driver: u32) -> Label
    requires case { IsCase case.now }
    requires driver { driver < length case.now.week.drivers }
    ensures label { (prices : Prices) → IsLabelOf case.now driver prices result [] }
    ensures some { (prices : Prices) → IsLabelOfSome case.now driver prices result }
{
    Label {
        clock: start(&case.past.as_slice()[driver as usize]),
        place: 0,
        served: 0,
        used: 0,
        loaded: false,
        fee_paid: false,
        value: 0,
    }
}

/// Where the label's steps leave the driver.
fn position(label: &Label) -> Position
    ensures { result ≡ record {
      at = label.now.clock.at;
      place = label.now.place;
      used = label.now.used;
      loaded = label.now.loaded;
      begun = label.now.fee_paid;
      served = label.now.served;
    } }
{
    Position {
        at: label.clock.at,
        place: label.place,
        used: label.used,
        loaded: label.loaded,
        begun: label.fee_paid,
        served: label.served,
    }
}

/// The label of the label's steps with one more, or the first fault of that step.
#[inline(always)]
fn longer(
    case: &Case,
    driver: u32,
    prices: &Prices,
    label: &Label,
    step: &Step,
) -> Result<Label, DutyFault>
    requires case { IsCase case.now }
    requires driver { driver < length case.now.week.drivers }
    requires prices { IsPrices case.now.week prices.now }
    requires label { IsLabelOfSome case.now driver prices.now label.now }
    ensures { (before : PartialDuty) → HasLabel case.now driver prices.now before label.now →
        AnswersLonger case.now driver prices.now before step.now result }
{
    let history = &case.past.as_slice()[driver as usize];
    let lorry = &case.week.drivers.as_slice()[driver as usize];
    let taken = match position(label).try_step(&case.week, lorry, history.open_off, 0, step) {
        Ok(taken) => taken,
        Err(fault) => return Err(fault),
    };
    let clock = match go(&label.clock, step.stay, step.act.mark(), taken.minutes) {
        Ok(clock) => clock,
        Err(broken) => return Err(DutyFault::Rule(broken)),
    };
    Ok(Label {
        clock,
        place: taken.position.place,
        served: taken.position.served,
        used: taken.position.used,
        loaded: taken.position.loaded,
        fee_paid: true,
        value: value_with(
            label.value,
            fee_due(label.fee_paid, lorry) + taken.cents,
            price_of_act(&case.week, prices, step.act),
        ),
    })
}

/// The label that a stay and an act make of a driver's label, at these pairs and prices.
///
/// Barred comes first, then the faults that `check_duty` would name for the step, in its order and as of step 0: the office's,
/// then the first minute at which an hours rule fails. The stay and the act may hold any numbers. The work is constant but
/// for looking a leg up, and takes no memory.
pub fn child(
    case: &Case,
    driver: u32,
    pairs: &Pairs,
    prices: &Prices,
    label: &Label,
    stay: Stay,
    act: Act,
) -> Result<Label, NoChild>
    requires case { IsCase case.now }
    requires driver { driver < length case.now.week.drivers }
    requires pairs { IsPairs case.now.week pairs.now }
    requires prices { IsPrices case.now.week prices.now }
    requires label { IsLabelOfSome case.now driver prices.now label.now }
    ensures answer { (before : PartialDuty) → HasLabel case.now driver prices.now before label.now →
        AnswersChild case.now driver pairs.now prices.now before (record { stay = stay; act = act }) result }
    ensures lawful { (before : PartialDuty) → HasLabel case.now driver prices.now before label.now →
        IsOk result ↔ ((serves_barred case.now.week pairs.now driver act ≡ false)
        × IsLawfulPartialDuty case.now driver (record { stay = stay; act = act } ∷ before)) }
    ensures label { (before : PartialDuty) → HasLabel case.now driver prices.now before label.now →
        IfOk result (λ child. IsLabelOf case.now driver prices.now child (record { stay = stay; act = act } ∷ before)) }
    ensures barred { result ≡ Err (NoChild.Barred) ↔ serves_barred case.now.week pairs.now driver act ≡ true }
    ensures fault { (before : PartialDuty) → HasLabel case.now driver prices.now before label.now → (fault : DutyFault) →
        result ≡ Err (NoChild.Fault fault) ↔ ((serves_barred case.now.week pairs.now driver act ≡ false)
        × (fault_of_step case.now driver before (record { stay = stay; act = act }) ≡ Some fault)) }
    ensures some { IfOk result (λ child. IsLabelOfSome case.now driver prices.now child) }
{
    if is_barred(&case.week, pairs, driver, act) {
        return Err(NoChild::Barred);
    }
    match longer(case, driver, prices, label, &Step { stay, act }) {
        Ok(child) => Ok(child),
        Err(fault) => Err(NoChild::Fault(fault)),
    }
}
