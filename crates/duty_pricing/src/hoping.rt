// Which labels are worth storing: those that may still become a duty inside that is better than the best that is known.
ghost use Rattle.std.specs.Prelude.{◌≡◌, true, false};
ghost use Rattle.duty_plan.specs.PartialDuties.{PartialDuty};
ghost use Rattle.duty_label.specs.Children.{HasLabel};
ghost use Rattle.duty_outlook.specs.Laws.{IsNoSooner};
ghost use Rattle.duty_pricing.specs.Asking.{IsAsked};
ghost use Rattle.duty_pricing.specs.Exhausting.{IsHopeless};
ghost use Rattle.duty_pricing.specs.Storing.{IsHopeful, IsOnTime};

use crate::asking::Asked;
use duty_plan::Label;

/// Whether the outlook rules out that a lawful duty inside which begins with the label's steps, or with steps that end there no
/// sooner, is worth less than what is known.
pub(crate) fn is_ruled_out(asked: &Asked, label: &Label, known: Option<i64>) -> bool
    requires asked { IsAsked asked.now }
    ensures { result ≡ true → (partial later : PartialDuty) → HasLabel asked.now.case.now asked.now.driver asked.now.prices.now partial label.now →
        IsNoSooner asked.now.case.now asked.now.driver asked.now.prices.now partial later →
        IsHopeless asked.now.case.now asked.now.driver asked.now.pairs.now asked.now.prices.now known later }
{
    match known {
        Some(known) => asked.outlook.is_hopeless(label, known),
        None => false,
    }
}

/// Whether no lawful duty inside that begins with the label's steps is worth less than what is known, by the walks.
pub(crate) fn is_hopeless(asked: &Asked, label: &Label, known: Option<i64>) -> bool
    requires asked { IsAsked asked.now }
    ensures pruned { result ≡ true → (partial : PartialDuty) → HasLabel asked.now.case.now asked.now.driver asked.now.prices.now partial label.now →
        IsHopeless asked.now.case.now asked.now.driver asked.now.pairs.now asked.now.prices.now known partial }
    ensures on_time { result ≡ false → (partial : PartialDuty) → HasLabel asked.now.case.now asked.now.driver asked.now.prices.now partial label.now →
        IsOnTime asked.now.case.now asked.now.driver asked.now.pairs.now partial }
    ensures hopeful { result ≡ false → (partial : PartialDuty) → HasLabel asked.now.case.now asked.now.driver asked.now.prices.now partial label.now →
        IsHopeful asked.now.case.now asked.now.driver asked.now.pairs.now asked.now.prices.now known partial }
{
    asked.walks.hopeless(
        asked.case,
        asked.driver,
        asked.pairs,
        asked.prices,
        label,
        known,
    )
}
