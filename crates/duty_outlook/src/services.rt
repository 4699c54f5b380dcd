// What the services at a spot bring.
ghost use Rattle.std.specs.Prelude.{◌≡◌, ℕ, ◌+◌, ◌≤◌, ◌<◌, ◌^◌, ◌==◌, true, bit_or, IsTrue, Some};
ghost use Rattle.std.specs.Int.{bit_at};
ghost use Rattle.minute_line.specs.declared.lines.TheConstants.{WEEK_MINUTES};
ghost use Rattle.week_book.specs.declared.weeks.Week.{Week};
ghost use Rattle.week_book.specs.Weeks.{IsWeek, order_of};
ghost use Rattle.duty_plan.specs.declared.duties.Act.{Act};
ghost use Rattle.duty_plan.specs.declared.pricing.Prices.{Prices};
ghost use Rattle.duty_plan.specs.Values.{IsPrices, price_at};
ghost use Rattle.duty_outlook.specs.Covering.{MayStartAt};
ghost use Rattle.duty_outlook.specs.Rows.{Grows};
ghost use Rattle.duty_outlook.specs.Outlooks.{AdmitsRow, AdmitsServices, IsFilled};

use crate::outlooks::Outlook;
use crate::rows::raise;
use crate::spots::Spot;
use duty_plan::Prices;
use minute_line::WEEK_MINUTES;
use week_book::{Order, Week};

/// Whether an order is one of some orders; order n is the bit n.
pub(crate) fn has_order(orders: u128, number: u32) -> bool
    requires { number < 128 }
    ensures { result ≡ (bit_at orders number == 1) }
{
    (orders >> number) & 1 == 1
}

/// Some orders and one more; order n is the bit n.
pub(crate) fn with_order(orders: u128, number: u32) -> u128
    requires { number < 128 }
    ensures { result ≡ bit_or orders (2 ^ number) }
{
    orders | (1 << number)
}

impl Outlook {
    /// Whether the order's service may start at the spot with an empty lorry before it.
    fn may_serve(&self, spot: Spot, number: u32, order: &Order) -> bool
        requires minute { spot.minute ≤ WEEK_MINUTES }
        requires number { number < 128 }
        requires service { order.now.service ≤ 360 }
        ensures early { IsTrue result → spot.minute + order.now.service ≤ WEEK_MINUTES }
        ensures light { IsTrue result → order.now.kg ≤ self.now.scale.capacity }
        ensures all { (week : Week) (load : ℕ) → order_of week number ≡ Some order.now →
            MayStartAt week self.now.scale.capacity spot.orders spot.place spot.minute load (Act.Serve number) → IsTrue result }
    {
        order.place == spot.place
            && order.opens <= spot.minute
            && spot.minute <= order.closes
            && spot.minute + order.service <= WEEK_MINUTES
            && order.kg <= self.scale.capacity
            && !has_order(spot.orders, number)
    }

    /// Raises a row of the spot by the service of an order, for so many cents.
    fn raise_service(&self, row: &mut [u64; 32], spot: Spot, number: u32, order: &Order, price: u64)
        requires minute { spot.minute ≤ WEEK_MINUTES }
        requires number { number < 128 }
        requires service { order.now.service ≤ 360 }
        ensures grows { Grows row.old row.new }
        ensures admits { (week : Week) (prices : Prices) → order_of week number ≡ Some order.now → price ≡ price_at prices number →
            IsFilled week prices self.now →
            AdmitsRow week self.now.scale.capacity self.now.scale.unit prices spot (Act.Serve number) row.new }
    {
        if self.may_serve(spot, number, order) {
            let next = self.row_at(Spot {
                place: spot.place,
                minute: spot.minute + order.service,
                orders: with_order(spot.orders, number),
            });
            let from = order.kg / self.scale.unit;
            let levels = (self.scale.capacity - order.kg) / self.scale.unit + 1;
            raise(row, next, from as usize, levels as usize, price, 0);
        }
    }

    /// Raises a row of the spot by all services.
    pub(crate) fn raise_services(
        &self,
        row: &mut [u64; 32],
        spot: Spot,
        week: &Week,
        prices: &Prices,
    )
        requires minute { spot.minute ≤ WEEK_MINUTES }
        requires week { IsWeek week.now }
        requires prices { IsPrices week.now prices.now }
        ensures grows { Grows row.old row.new }
        ensures admits { IsFilled week.now prices.now self.now → (number : ℕ) →
            AdmitsRow week.now self.now.scale.capacity self.now.scale.unit prices.now spot (Act.Serve number) row.new }
    {
        for (number, order) in week.orders.as_slice().iter().enumerate() {
            let price = prices.cents.as_slice()[number];
            self.raise_service(row, spot, number as u32, order, price);
        }
    }
}
