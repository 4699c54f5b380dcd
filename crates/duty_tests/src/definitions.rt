// The definitions of pricing computed by hand.
ghost use Rattle.std.specs.Prelude.{◌≡◌, negsuc, length, [], ◌∷◌};
ghost use Rattle.week_book.specs.declared.weeks.Week.{Week};
ghost use Rattle.duty_plan.specs.Duties.{price_of};
ghost use Rattle.duty_plan.specs.Values.{decided_by, lagrangian};
ghost use Rattle.duty_plan.specs.Rounds.{next_price};

use duty_plan::{Decision, Pair};

/// The definitions on a week of one driver and two orders that subcontractors take for 9,000 and 6,000 cents. The prices
/// are 8,000 and 5,000 and the driver's least value is -1,000. Where both are Free the prices count: 8,000 + 5,000 -
/// 1,000. Where the second is Barred its subcontractor counts: 8,000 + 6,000 - 1,000. A sum below 0 counts as 0.
fn lagrangian_by_hand()
    ensures free { (week : Week) → length week.drivers ≡ 1 → length week.orders ≡ 2 → price_of week 0 ≡ 9000 → price_of week 1 ≡ 6000 →
        lagrangian week (record { orders = 2; cells = Pair.Free ∷ Pair.Free ∷ [] }) (record { cents = 8000 ∷ 5000 ∷ [] }) (negsuc 999 ∷ []) ≡ 12000 }
    ensures barred { (week : Week) → length week.drivers ≡ 1 → length week.orders ≡ 2 → price_of week 0 ≡ 9000 → price_of week 1 ≡ 6000 →
        lagrangian week (record { orders = 2; cells = Pair.Free ∷ Pair.Barred ∷ [] }) (record { cents = 8000 ∷ 5000 ∷ [] }) (negsuc 999 ∷ []) ≡ 13000 }
    ensures never_below_0 { (week : Week) → length week.drivers ≡ 1 → length week.orders ≡ 2 → price_of week 0 ≡ 9000 → price_of week 1 ≡ 6000 →
        lagrangian week (record { orders = 2; cells = Pair.Free ∷ Pair.Free ∷ [] }) (record { cents = 0 ∷ 0 ∷ [] }) (negsuc 999 ∷ []) ≡ 0 }
{}

/// A path that forces order 0 for driver 0: the order is Barred for driver 1, and all else is Free. Then one that bars
/// order 1 for driver 1 as well.
fn pairs_by_hand()
    ensures forced { decided_by (Decision.Forced 0 0 ∷ Decision.Root ∷ []) 0 0 ≡ Pair.Forced }
    ensures for_others { decided_by (Decision.Forced 0 0 ∷ Decision.Root ∷ []) 1 0 ≡ Pair.Barred }
    ensures other_order { decided_by (Decision.Forced 0 0 ∷ Decision.Root ∷ []) 1 1 ≡ Pair.Free }
    ensures barred { decided_by (Decision.Barred 1 1 ∷ Decision.Forced 0 0 ∷ Decision.Root ∷ []) 1 1 ≡ Pair.Barred }
    ensures for_one { decided_by (Decision.Barred 1 1 ∷ Decision.Forced 0 0 ∷ Decision.Root ∷ []) 0 1 ≡ Pair.Free }
{}

/// After the first round a price of 9,000 cents moves by a quarter of what a subcontractor takes, 2,250 cents: it falls
/// where two duties carry the order, to 0 where nine do, and can't rise where none does.
fn next_price_by_hand()
    ensures two { next_price 0 9000 2 9000 ≡ 6750 }
    ensures one { next_price 0 9000 1 9000 ≡ 9000 }
    ensures none { next_price 0 9000 0 9000 ≡ 9000 }
    ensures rises { next_price 0 9000 0 6000 ≡ 8250 }
    ensures nine { next_price 0 9000 9 9000 ≡ 0 }
    ensures a_cent { next_price 99 100 0 50 ≡ 51 }
{}
