// What a driver's least duty is asked for.
ghost use Rattle.std.specs.Prelude.{◌≡◌};
ghost use Rattle.duty_pricing.specs.Asking.{IsAsked};
ghost use Rattle.duty_pricing.specs.Visiting.{reach_of};

use crate::slots::Slot;
use duty_label::Walks;
use duty_outlook::Outlook;
use duty_plan::{Case, Label, Pairs, Prices, Step};
use label_arena::Round;

/// A driver of a case, what is decided of orders, their prices, the round whose chunks may be claimed, what prunes, and a duty
/// that may be known.
#[derive(Clone, Copy)]
pub(crate) struct Asked<'a> {
    pub(crate) case: &'a Case,
    pub(crate) driver: u32,
    pub(crate) pairs: &'a Pairs,
    pub(crate) prices: &'a Prices,
    pub(crate) round: &'a Round<Slot>,
    pub(crate) walks: &'a Walks,
    pub(crate) outlook: &'a Outlook,
    /// The value of a duty that was found beforehand, in cents.
    pub(crate) found: Option<i64>,
    /// The steps of that duty.
    pub(crate) steps: &'a [Step],
    /// The orders that are Forced for the driver, as bits: order n is the bit n.
    pub(crate) forced: u128,
}

impl Asked<'_> {
    /// The orders that may be served after a label, by the walks from its place; order n is the bit n.
    pub(crate) fn reach(&self, label: &Label) -> u128
        requires asked { IsAsked self.now }
        ensures { result ≡ reach_of self.now label.now }
    {
        self.walks
            .reached(&self.case.week, label.clock.at, label.place)
    }
}
