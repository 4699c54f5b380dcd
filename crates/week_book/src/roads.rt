// The table of roads.
ghost use Rattle.std.specs.Prelude.{◌≡◌};
ghost use Rattle.week_book.specs.Weeks.{road};

use crate::weeks::{Leg, Week};

/// The road from one place to another, by their numbers. None where the week has no such leg.
pub fn leg(week: &Week, from: u32, to: u32) -> Option<Leg>
    ensures { result ≡ road week.now from to }
{
    for leg in week.legs.as_slice() {
        if leg.from == from && leg.to == to {
            return Some(*leg);
        }
    }
    None
}
