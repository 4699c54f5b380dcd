// When one label is better than another. The comparisons are joined with `&`, as those of the clocks are, so that there is
// no branch: which of them fails is hard to foretell, and a branch that is foretold wrongly costs more than all the
// comparisons (bench/order).
ghost use Rattle.std.specs.Prelude.{◌≡◌, ◌≤◌, ◌≤ℤ◌, ◌↔◌, true, ℕ};
ghost use Rattle.std.specs.Int.{bit_at};
ghost use Rattle.duty_plan.specs.Labels.{Dominates};
ghost use Rattle.dominance.specs.Reaching.{DominatesWithin};

use duty_plan::Label;

/// Whether a label is where another is, and no dearer.
#[inline]
fn is_there_no_dearer(a: &Label, b: &Label) -> bool
    ensures { result ≡ true ↔ (a.now.place ≡ b.now.place) × (a.now.value ≤ℤ b.now.value) }
{
    (a.place == b.place) & (a.value <= b.value)
}

/// Whether some orders are among others, and the same of them are forced; order n is the bit n.
#[inline]
fn serves_among(a: u128, b: u128, forced: u128) -> bool
    ensures { result ≡ true ↔ ((order : ℕ) → bit_at a order ≤ bit_at b order)
        × ((order : ℕ) → bit_at forced order ≡ 1 → bit_at a order ≡ bit_at b order) }
{
    (a & !b == 0) & ((a ^ b) & forced == 0)
}

/// Whether those of some orders that are in reach are among others, and the same of both are forced; order n is the bit n.
#[inline]
fn serves_among_within(a: u128, b: u128, forced: u128, reach: u128) -> bool
    ensures { result ≡ true ↔ ((order : ℕ) → bit_at reach order ≡ 1 → bit_at a order ≤ bit_at b order)
        × ((order : ℕ) → bit_at forced order ≡ 1 → bit_at a order ≡ bit_at b order) }
{
    (a & reach & !b == 0) & ((a ^ b) & forced == 0)
}

/// Whether a lorry has as much room as another, and was loaded where the other was.
#[inline]
fn has_as_much_room(a: &Label, b: &Label) -> bool
    ensures { result ≡ true ↔ (a.now.used ≤ b.now.used) × (b.now.loaded ≡ true → a.now.loaded ≡ true) }
{
    (a.used <= b.used) & (a.loaded | !b.loaded)
}

/// Whether a label betters another, for a driver with these forced orders; order n is the bit n.
#[inline]
pub fn better(a: &Label, b: &Label, forced: u128) -> bool
    ensures { result ≡ true ↔ Dominates a.now b.now forced }
{
    is_there_no_dearer(a, b)
        & serves_among(a.served, b.served, forced)
        & has_as_much_room(a, b)
        & a.clock.dominates(&b.clock)
}

/// Whether a label betters another, for a driver with these forced orders, where orders that are not in reach are ignored;
/// order n is the bit n.
#[inline]
pub fn better_within(a: &Label, b: &Label, forced: u128, reach: u128) -> bool
    ensures { result ≡ true ↔ DominatesWithin a.now b.now forced reach }
{
    is_there_no_dearer(a, b)
        & serves_among_within(a.served, b.served, forced, reach)
        & has_as_much_room(a, b)
        & a.clock.dominates(&b.clock)
}
