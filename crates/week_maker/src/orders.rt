// The orders: what is drawn for each, and its row.
ghost use Rattle.std.specs.Prelude.{◌≡◌, ◌+◌, ◌*◌, ◌<◌, OnOk};
ghost use Rattle.seeded_draws.specs.Draws.{state_after};
ghost use Rattle.week_maker.specs.Rows.{with_row, with_rows, rows_for_each};
ghost use Rattle.week_maker.specs.MadeWeeks.{made_order, order_row, order_rows};
ghost use Rattle.week_maker.specs.Ranges.{IsOrderInRange};

use crate::rows::{push_field, push_name, push_number_field, push_place};
use minute_line::{Bytes, Memory, stamp_in};
use seeded_draws::Draws;

/// The days of the week as text, Monday first.
const DAYS: [[u8; 10]; 7] = [
    *b"2026-03-02",
    *b"2026-03-03",
    *b"2026-03-04",
    *b"2026-03-05",
    *b"2026-03-06",
    *b"2026-03-07",
    *b"2026-03-08",
];

/// What is drawn for an order.
#[derive(Clone, Copy)]
pub(crate) struct MadeOrder {
    /// The place, from 1 to 12.
    pub(crate) place: u32,
    /// The first week minute at which its service may start.
    pub(crate) opens: u32,
    /// The last one.
    pub(crate) closes: u32,
    /// The minutes of its service.
    pub(crate) service: u32,
    /// Its load in kg.
    pub(crate) kg: u32,
    /// What a subcontractor takes for it, in cents.
    pub(crate) price: u32,
}

/// Draws an order: seven numbers.
fn draw_order(draws: &mut Draws) -> MadeOrder
    ensures order { result ≡ made_order draws.old.state }
    ensures state { draws.new.state ≡ state_after draws.old.state 7 }
{
    let place = 1 + draws.draw(12);
    let day = draws.draw(5);
    let opens = 1440 * day + 360 + 15 * draws.draw(24);
    let closes = opens + 120 + 15 * draws.draw(16);
    let service = 15 + 15 * draws.draw(4);
    let kg = 2000 * (1 + draws.draw(9));
    let price = 30_000 + 100 * draws.draw(400);
    MadeOrder {
        place,
        opens,
        closes,
        service,
        kg,
        price,
    }
}

/// Adds the row of the order of that number.
fn push_order(text: &mut Bytes, number: u32, order: &MadeOrder) -> Result<(), Memory>
    requires { IsOrderInRange order.now }
    ensures { OnOk result (text.new ≡ with_row text.old (order_row number order.now)) }
{
    text.extend_from_slice(b"order")?;
    push_name(text, b'O', number)?;
    push_place(text, order.place)?;
    push_field(text, &stamp_in(&DAYS, order.opens))?;
    push_field(text, &stamp_in(&DAYS, order.closes))?;
    push_number_field(text, order.service)?;
    push_number_field(text, order.kg)?;
    push_number_field(text, order.price)?;
    text.push(b'\n')
}

/// Adds the rows of the forty orders.
pub(crate) fn push_orders(text: &mut Bytes, draws: &mut Draws) -> Result<(), Memory>
    ensures { OnOk result (text.new ≡ with_rows text.old (rows_for_each 40 (order_rows draws.old.state))) }
{
    for before in 0..40 {
        let order = draw_order(draws);
        push_order(text, before + 1, &order)?;
    }
    Ok(())
}
