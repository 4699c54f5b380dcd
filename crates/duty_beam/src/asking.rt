// What a good duty is asked for.
ghost use Rattle.duty_beam.specs.Asking.{IsAsked};

use duty_label::Walks;
use duty_outlook::Outlook;
use duty_plan::{Case, Pair, Pairs, Prices};

/// A driver of a case, what is decided of orders, their prices, the walks of the week, and what half-made duties may still save.
#[derive(Clone, Copy)]
pub(crate) struct Asked<'a> {
    pub(crate) case: &'a Case,
    pub(crate) driver: u32,
    pub(crate) pairs: &'a Pairs,
    pub(crate) prices: &'a Prices,
    pub(crate) walks: &'a Walks,
    pub(crate) outlook: &'a Outlook,
}

impl Asked<'_> {
    /// The orders that are Forced for the driver; order n is the bit n.
    pub(crate) fn forced(&self) -> u128
        requires { IsAsked self.now }
    {
        let week = &self.case.week;
        let mut forced = 0;
        for order in 0..week.orders.len() as u32 {
            if matches!(self.pairs.pair(week, self.driver, order), Pair::Forced) {
                forced |= 1u128.wrapping_shl(order);
            }
        }
        forced
    }
}
