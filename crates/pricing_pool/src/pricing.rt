// The answer for one driver of a round.
ghost use Rattle.std.specs.Prelude.{◌≡◌, ◌<◌, length, IfOk};
ghost use Rattle.label_arena.specs.Views.{IsNew, IsReady};
ghost use Rattle.duty_pricing.specs.Finding.{IsEmpty};
ghost use Rattle.pricing_pool.specs.Pricing.{IsAsked, IsPriced, answer_for};

use duty_plan::{Case, Duty, Pairs, Priced, Prices};
use duty_pricing::{Found, Scratch, Slot, give_back, price_driver};
use label_arena::{Round, Seat};
use minute_line::{Many, Memory};
use std::alloc::Global;

/// What the drivers of a round are priced at, and the chunks that they share.
#[derive(Clone, Copy)]
pub(crate) struct Asked<'a> {
    pub(crate) case: &'a Case,
    pub(crate) pairs: &'a Pairs,
    pub(crate) prices: &'a Prices,
    pub(crate) round: &'a Round<Slot>,
}

impl Asked<'_> {
    /// The answer for a driver. The chunks that the seat drew are given back, and the scratch is empty again.
    pub(crate) fn price(
        &self,
        alloc: Global,
        driver: u32,
        seat: &mut Seat<Slot>,
        scratch: &mut Scratch,
    ) -> Result<Priced, Memory>
        requires asked { IsAsked self.now }
        requires driver { driver < length self.now.case.now.week.drivers }
        requires seat { IsNew self.now.round.now.name seat.old }
        requires empty { IsEmpty scratch.old }
        ensures answer { IfOk result (λ answer. IsPriced self.now driver seat.new.drawn answer) }
        ensures seat { IsReady self.now.round.now.name seat.new }
        ensures empty { IsEmpty scratch.new }
    {
        let found = price_driver(
            self.case,
            driver,
            self.pairs,
            self.prices,
            self.round,
            seat,
            scratch,
        );
        let answer = answer_of(alloc, found, scratch);
        give_back(self.round, seat, scratch);
        answer
    }
}

/// What was found, with the duty of a least value.
fn answer_of(alloc: Global, found: Found, scratch: &Scratch) -> Result<Priced, Memory>
    ensures { IfOk result (λ answer. answer ≡ answer_for found scratch.now.labels.steps) }
{
    match found {
        Found::Least(value) => {
            let steps = Many::from_slice(alloc, scratch.steps())?;
            Ok(Priced::Least(value, Duty { steps }))
        }
        Found::NoDuty => Ok(Priced::NoDuty),
        Found::Spent(stored) => Ok(Priced::Spent(stored)),
    }
}
