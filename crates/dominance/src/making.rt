// The store that has no label yet.
ghost use Rattle.std.specs.Prelude.{◌≡◌, IfOk};
ghost use Rattle.dominance.specs.Storing.{HoldsNone, IsFor};

use crate::storing::Fronts;
use minute_line::{Many, Memory};
use std::alloc::Global;

/// Room for a driver's labels at so many places, without a label yet; the forced orders are bits, order n the bit n.
pub fn make_fronts(alloc: Global, places: u32, forced: u128) -> Result<Fronts, Memory>
    ensures { IfOk result (λ partials. HoldsNone partials × IsFor places forced partials) }
{
    let mut by_place = Vec::with_capacity(alloc, places as usize)?;
    for _ in 0..places {
        by_place.push(Many::new(alloc))?;
    }
    Ok(Fronts { by_place, forced })
}
