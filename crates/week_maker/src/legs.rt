// The places and the legs between them.
ghost use Rattle.std.specs.Prelude.{◌≡◌, ◌+◌, ◌∷◌, [], ◌<◌, OnOk};
ghost use Rattle.seeded_draws.specs.Draws.{state_after};
ghost use Rattle.week_maker.specs.Rows.{with_row, with_rows, rows_for_each};
ghost use Rattle.week_maker.specs.MadeWeeks.{place_row, leg_row, both_ways, hub_legs, ring_legs};

use crate::rows::{push_number_field, push_place};
use minute_line::{Bytes, Memory};
use seeded_draws::Draws;

/// Cents of a leg for each of its minutes.
const CENTS: u32 = 40;

/// Adds the row of a place.
fn push_place_row(text: &mut Bytes, place: u32) -> Result<(), Memory>
    ensures { OnOk result (text.new ≡ with_row text.old (place_row place)) }
{
    text.extend_from_slice(b"place")?;
    push_place(text, place)?;
    text.push(b'\n')
}

/// Adds the rows of the depot and of the twelve places.
pub(crate) fn push_places(text: &mut Bytes) -> Result<(), Memory>
    ensures { OnOk result (text.new ≡ with_rows (with_row text.old (place_row 0)) (rows_for_each 12 (λ i. place_row i ∷ []))) }
{
    push_place_row(text, 0)?;
    for before in 0..12 {
        push_place_row(text, before + 1)?;
    }
    Ok(())
}

/// Adds the row of a leg.
fn push_leg(text: &mut Bytes, from: u32, to: u32, minutes: u32) -> Result<(), Memory>
    requires { minutes < 1000 }
    ensures { OnOk result (text.new ≡ with_row text.old (leg_row from to minutes)) }
{
    text.extend_from_slice(b"leg")?;
    push_place(text, from)?;
    push_place(text, to)?;
    push_number_field(text, minutes)?;
    push_number_field(text, CENTS * minutes)?;
    text.push(b'\n')
}

/// Adds a leg there and the leg back.
fn push_both_ways(text: &mut Bytes, from: u32, to: u32, minutes: u32) -> Result<(), Memory>
    requires { minutes < 1000 }
    ensures { OnOk result (text.new ≡ with_rows text.old (both_ways from to minutes)) }
{
    push_leg(text, from, to, minutes)?;
    push_leg(text, to, from, minutes)
}

/// Adds the legs between the depot and each place: 30 to 179 minutes.
pub(crate) fn push_hub_legs(text: &mut Bytes, draws: &mut Draws) -> Result<(), Memory>
    ensures text { OnOk result (text.new ≡ with_rows text.old (rows_for_each 12 (hub_legs draws.old.state))) }
    ensures state { OnOk result (draws.new.state ≡ state_after draws.old.state 12) }
{
    for before in 0..12 {
        let minutes = 30 + draws.draw(150);
        push_both_ways(text, 0, before + 1, minutes)?;
    }
    Ok(())
}

/// Adds the legs between each place and the next: 20 to 79 minutes.
pub(crate) fn push_ring_legs(text: &mut Bytes, draws: &mut Draws) -> Result<(), Memory>
    ensures text { OnOk result (text.new ≡ with_rows text.old (rows_for_each 11 (ring_legs draws.old.state))) }
    ensures state { OnOk result (draws.new.state ≡ state_after draws.old.state 11) }
{
    for before in 0..11 {
        let place = before + 1;
        let minutes = 20 + draws.draw(60);
        push_both_ways(text, place, place + 1, minutes)?;
    }
    Ok(())
}
