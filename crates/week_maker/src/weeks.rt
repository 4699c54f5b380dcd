// A made week.
ghost use Rattle.std.specs.Prelude.{◌≡◌, IfOk};
ghost use Rattle.week_maker.specs.MadeWeeks.{made_text};

use crate::drivers::push_drivers;
use crate::legs::{push_hub_legs, push_places, push_ring_legs};
use crate::orders::push_orders;
use minute_line::{Bytes, Many, Memory};
use seeded_draws::Draws;
use std::alloc::Global;

/// The rows of a made week's text.
pub const ROW_COUNT: u64 = 148;

/// The text of the week that a seed makes, the same for each run: a depot and twelve places, legs both ways between the depot and
/// each, and between each and the next, twelve drivers and forty orders, in `ROW_COUNT` rows.
pub fn make_week(alloc: Global, seed: u64) -> Result<Bytes, Memory>
    ensures { IfOk result (λ text. text ≡ made_text seed) }
{
    let mut text = Many::new(alloc);
    let mut draws = Draws::seeded(seed);
    text.extend_from_slice(b"week,2026-03-02,15,3000,60\n")?;
    push_places(&mut text)?;
    push_hub_legs(&mut text, &mut draws)?;
    push_ring_legs(&mut text, &mut draws)?;
    push_drivers(&mut text)?;
    push_orders(&mut text, &mut draws)?;
    Ok(text)
}
