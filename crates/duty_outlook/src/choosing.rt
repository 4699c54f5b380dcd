// Which orders are remembered where, and how fine an outlook may be for the entries that there is room for.
ghost use Rattle.std.specs.Prelude.{◌≤◌, length};
ghost use Rattle.week_book.specs.Weeks.{IsWeek};

use crate::layouts::{Layout, PARTS, RING, Shelf, sets_of};
use crate::services::has_order;
use duty_plan::Prices;
use week_book::{Order, Week};

/// The shapes that are tried, the tightest first: how many orders are remembered, and of how many quarters of an hour a part is.
const SHAPES: [(u32, u32); 12] = [
    (4, 1),
    (4, 2),
    (3, 1),
    (3, 2),
    (4, 4),
    (3, 4),
    (2, 1),
    (2, 2),
    (2, 4),
    (1, 1),
    (1, 4),
    (0, 1),
];

impl Layout {
    /// Whether an order may have been served before the part at the place, and may be served after it.
    fn is_active(&self, order: &Order, place: u32, part: u32) -> bool {
        let step = u64::from(self.step());
        let from = u64::from(part) * step;
        let served = u64::from(order.opens).saturating_add(u64::from(order.service));
        served.saturating_add(self.walks.minutes(order.place, place)) < from + step
            && from.saturating_add(self.walks.minutes(place, order.place))
                <= u64::from(order.closes)
    }

    /// The dearest order that is active at the place in the part, and is none of some orders.
    fn dearest(
        &self,
        week: &Week,
        prices: &Prices,
        place: u32,
        part: u32,
        others: u128,
    ) -> Option<u32>
        requires { length week.now.orders ≤ 120 }
    {
        let mut found = None;
        let mut best = 0;
        for (number, order) in week.orders.as_slice().iter().enumerate() {
            let price = match prices.cents.get(number) {
                Some(price) => *price,
                None => 0,
            };
            if price > best
                && !has_order(others, number as u32)
                && self.is_active(order, place, part)
            {
                best = price;
                found = Some(number as u32);
            }
        }
        found
    }

    /// The orders to be remembered at the place in the part, at most so many.
    fn choice(
        &self,
        week: &Week,
        prices: &Prices,
        place: u32,
        part: u32,
        barred: u128,
        most: u32,
    ) -> u128
        requires { length week.now.orders ≤ 120 }
    {
        let mut orders = 0;
        for _ in 0..most {
            if let Some(number) = self.dearest(week, prices, place, part, orders | barred) {
                orders |= 1u128.wrapping_shl(number);
            }
        }
        orders
    }

    /// Lays out a part, and says how many entries one of its minutes has.
    fn lay_part(&mut self, week: &Week, prices: &Prices, part: u32, barred: u128, most: u32) -> u32
        requires { length week.now.orders ≤ 120 }
    {
        let mut before = 0u32;
        for place in 0..self.places {
            let remembered = self.choice(week, prices, place, part, barred, most);
            let index = part as usize * self.places as usize + place as usize;
            if index < self.shelves.len() {
                self.shelves[index] = Shelf { remembered, before };
            }
            before = before.saturating_add(sets_of(remembered));
        }
        before
    }

    /// Lays out the week, and says how many entries it has.
    fn lay(&mut self, week: &Week, prices: &Prices, barred: u128, most: u32) -> u64
        requires { length week.now.orders ≤ 120 }
    {
        let mut kept = 0u32;
        self.width = 0;
        for part in 0..PARTS / self.quarters.max(1) + 1 {
            let rows = self.lay_part(week, prices, part, barred, most);
            if (part as usize) < self.parts.len() {
                self.parts[part as usize] = kept;
            }
            kept = kept.saturating_add(rows);
            self.width = self.width.max(rows);
        }
        (u64::from(self.width) * u64::from(RING)).saturating_add(u64::from(kept))
    }

    /// Lays out the week for so many entries at most, by the first shape that fits.
    pub(crate) fn plan(&mut self, week: &Week, prices: &Prices, barred: u128, slots: usize)
        requires { IsWeek week.now }
    {
        self.places = week.places.len() as u32;
        self.walks.fill(week);
        for (most, quarters) in SHAPES {
            self.quarters = quarters;
            if self.lay(week, prices, barred, most) <= slots as u64 {
                return;
            }
        }
    }
}
