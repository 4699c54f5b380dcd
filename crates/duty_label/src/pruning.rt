// Which labels need not be stored, by what the walks from their places take at least.
ghost use Rattle.std.specs.Prelude.{◌≡◌, ◌<◌, ◌≤◌, ◌↔◌, ◌+◌, ◌==◌, not, true, ◌≤ℤ◌, ◌+ℤ◌, ◌-ℤ◌, pos, length, None, IfSome};
ghost use Rattle.std.specs.Int.{bit_at};
ghost use Rattle.minute_line.specs.declared.lines.TheConstants.{WEEK_MINUTES};
ghost use Rattle.week_book.specs.Weeks.{IsWeek};
ghost use Rattle.duty_plan.specs.Duties.{IsCase};
ghost use Rattle.duty_plan.specs.Sums.{total_below};
ghost use Rattle.duty_plan.specs.Values.{IsPairs, IsPrices};
ghost use Rattle.duty_label.specs.Pruning.{IsHopeless, IsLost, Knows, LacksForced, cents_between, may_bring, minutes_between, reaches};

use crate::prices::price_of_act;
use crate::walks::Walks;
use duty_plan::{Act, Case, Label, Pair, Pairs, Prices};
use minute_line::WEEK_MINUTES;
use week_book::Week;

/// Whether an order is one of some orders; order n is the bit n.
pub fn has_order(orders: u128, order: u32) -> bool
    requires { order < 128 }
    ensures { result ≡ not (bit_at orders order == 0) }
{
    (orders >> order) & 1 == 1
}

/// Whether a value is a known one or more.
fn is_at_least(value: i128, known: i64) -> bool
    ensures { result ≡ true ↔ known ≤ℤ value }
{
    i128::from(known) <= value
}

impl Walks {
    /// Whether an order can be reached from where the label's steps end, before its window closes.
    fn reaches(&self, week: &Week, label: &Label, order: u32) -> bool
        requires { order < length week.now.orders }
        ensures { result ≡ reaches week.now self.now label.now order }
    {
        self.can_reach(week, label.clock.at, label.place, order)
    }

    /// Whether no walk leads home from where the label's steps end, or none that ends within the week.
    fn is_too_far(&self, label: &Label) -> bool
        ensures { result ≡ true ↔ WEEK_MINUTES < label.now.clock.at + minutes_between self.now label.now.place 0 }
    {
        let left = WEEK_MINUTES.checked_sub(label.clock.at);
        !left.is_some_and(|left| self.minutes(label.place, 0) <= u64::from(left))
    }

    /// The price of an order, in cents, where the label's driver may still serve it, else nothing; none where it is Forced for the
    /// driver, lacking, and can't be reached any more.
    fn may_bring(
        &self,
        week: &Week,
        driver: u32,
        pairs: &Pairs,
        prices: &Prices,
        label: &Label,
        order: u32,
    ) -> Option<u64>
        requires week { IsWeek week.now }
        requires driver { driver < length week.now.drivers }
        requires pairs { IsPairs week.now pairs.now }
        requires prices { IsPrices week.now prices.now }
        requires order { order < length week.now.orders }
        ensures exact { IfSome result (λ cents. cents ≡ may_bring week.now self.now driver pairs.now prices.now label.now order) }
        ensures bound { IfSome result (λ cents. cents ≤ 100000000) }
        ensures lost { result ≡ None ↔ IsLost week.now self.now driver pairs.now label.now order }
    {
        // Most orders are out of reach; whether one is served takes longer to see.
        let pair = pairs.pair(week, driver, order);
        if !self.reaches(week, label, order) {
            if matches!(pair, Pair::Forced) && !has_order(label.served, order) {
                return None;
            }
            return Some(0);
        }
        if matches!(pair, Pair::Barred) || has_order(label.served, order) {
            return Some(0);
        }
        Some(price_of_act(week, prices, Act::Serve(order)))
    }

    /// The prices of all orders that the label's driver may still serve, in cents; none where an order that is Forced for the driver is
    /// lacking, and can't be reached any more.
    fn may_bring_all(
        &self,
        week: &Week,
        driver: u32,
        pairs: &Pairs,
        prices: &Prices,
        label: &Label,
    ) -> Option<u64>
        requires week { IsWeek week.now }
        requires driver { driver < length week.now.drivers }
        requires pairs { IsPairs week.now pairs.now }
        requires prices { IsPrices week.now prices.now }
        ensures exact { IfSome result (λ cents. cents ≡ total_below (may_bring week.now self.now driver pairs.now prices.now label.now) (length week.now.orders)) }
        ensures lost { result ≡ None ↔ LacksForced week.now self.now driver pairs.now label.now }
    {
        let mut cents = 0;
        for order in 0..week.orders.len() as u32 {
            cents += self.may_bring(week, driver, pairs, prices, label, order)?;
        }
        Some(cents)
    }

    /// A lower bound on the values of the completions of the label's steps, in cents, which may bring in so many.
    fn completion_value(&self, label: &Label, brought: u64) -> i128
        ensures { result ≡ (label.now.value +ℤ pos (cents_between self.now label.now.place 0)) -ℤ pos brought }
    {
        let home = self.cents(label.place, 0);
        i128::from(label.value) + i128::from(home) - i128::from(brought)
    }

    /// Whether the label of a driver's steps need not be stored, where the value of a lawful duty inside may be known: no walk leads
    /// home within the week, or an order that is Forced for the driver is lacking and can't be reached before its window
    /// closes, or the label's value, with the least cents home and less the prices of the orders that may still be served, is at
    /// least the known one. The time grows with the orders, and it takes no memory.
    pub fn hopeless(
        &self,
        case: &Case,
        driver: u32,
        pairs: &Pairs,
        prices: &Prices,
        label: &Label,
        known: Option<i64>,
    ) -> bool
        requires case { IsCase case.now }
        requires driver { driver < length case.now.week.drivers }
        requires pairs { IsPairs case.now.week pairs.now }
        requires prices { IsPrices case.now.week prices.now }
        ensures { result ≡ true ↔ IsHopeless case.now.week self.now driver pairs.now prices.now label.now known }
    {
        if self.is_too_far(label) {
            return true;
        }
        let Some(brought) = self.may_bring_all(&case.week, driver, pairs, prices, label) else {
            return true;
        };
        match known {
            Some(known) => is_at_least(self.completion_value(label, brought), known),
            None => false,
        }
    }
}
