// Whether a label's steps are a duty that the driver may be given.
ghost use Rattle.std.specs.Prelude.{◌≡◌, ◌↔◌, ◌≤◌, ℕ, true, false};
ghost use Rattle.std.specs.Int.{bit_at};
ghost use Rattle.duty_plan.specs.PartialDuties.{PartialDuty, place_after};
ghost use Rattle.duty_plan.specs.Values.{IsInside};
ghost use Rattle.duty_label.specs.Children.{HasLabel};
ghost use Rattle.duty_pricing.specs.Asking.{IsAsked};
ghost use Rattle.dominance.specs.Reaching.{ServesNoBarred};

use crate::asking::Asked;
use duty_plan::Label;

/// Whether some orders are all among others; order n is the bit n.
pub(crate) fn has_all(orders: u128, served: u128) -> bool
    ensures { result ≡ true ↔ ((order : ℕ) → bit_at orders order ≤ bit_at served order) }
{
    orders & !served == 0
}

/// Whether the label's steps end at the depot and serve each order that is Forced for the driver.
pub(crate) fn is_inside(asked: &Asked, label: &Label) -> bool
    requires asked { IsAsked asked.now }
    ensures inside { result ≡ true → (partial : PartialDuty) → HasLabel asked.now.case.now asked.now.driver asked.now.prices.now partial label.now →
        ServesNoBarred asked.now.case.now.week asked.now.pairs.now asked.now.driver partial →
        (place_after partial ≡ 0) × IsInside asked.now.case.now.week asked.now.pairs.now asked.now.driver partial }
    ensures outside { result ≡ false → (partial : PartialDuty) → HasLabel asked.now.case.now asked.now.driver asked.now.prices.now partial label.now →
        place_after partial ≡ 0 → IsInside asked.now.case.now.week asked.now.pairs.now asked.now.driver partial → ⊥ }
{
    if label.place != 0 {
        return false;
    }
    has_all(asked.forced, label.served)
}
