// Where and when a driver may be, and what is saved at most from there.
ghost use Rattle.std.specs.Prelude.{◌≡◌, ℕ, ◌≤◌, ◌↔◌, IsTrue};
ghost use Rattle.std.specs.Int.{bit_at};
ghost use Rattle.duty_outlook.specs.Spots.{IsWithin};

use minute_line::WEEK_MINUTES;

/// Whether some orders are among others; order n is the bit n.
fn are_among(orders: u128, others: u128) -> bool
    ensures { IsTrue result → (order : ℕ) → bit_at orders order ≤ bit_at others order }
{
    orders & others == orders
}

/// Where and when a driver may be.
#[derive(Clone, Copy)]
pub(crate) struct Spot {
    pub(crate) place: u32,
    pub(crate) minute: u32,
    /// Orders that are done; order n is the bit n.
    pub(crate) orders: u128,
}

impl Spot {
    /// Whether whatever may be done from another spot may be done from this one: the same place, in the week and no later, and
    /// no order done that isn't done there.
    pub(crate) fn is_within(self, other: Spot) -> bool
        ensures { IsTrue result → IsWithin self other }
    {
        (self.place == other.place)
            & (self.minute <= other.minute)
            & (self.minute <= WEEK_MINUTES)
            & are_among(self.orders, other.orders)
    }
}

/// A spot, and what is saved at most from there: a number for each level of load.
#[derive(Clone, Copy)]
pub(crate) struct Entry {
    pub(crate) spot: Spot,
    pub(crate) numbers: [u64; 32],
}
