// The least duty of a driver.
ghost use Rattle.std.specs.Prelude.{◌≡◌, [], true, false};
ghost use Rattle.duty_pricing.specs.Asking.{IsAsked};
ghost use Rattle.duty_pricing.specs.Finding.{StoreHasRoom, HasStepsOnlyOfDuty, HoldsStore, IsEmptyStore, IsFound, IsSeated};
ghost use Rattle.duty_pricing.specs.Searching.{IsFull, IsOpen, IsSearch};

use crate::asking::Asked;
use crate::insides::is_inside;
use crate::slots::Slot;
use crate::steps::trace;
use crate::stores::LabelStore;
use duty_label::first;
use duty_plan::{Act, Step};
use hours_rules::Stay;
use label_arena::Seat;
use minute_line::Kind;

/// What is found for one driver.
#[derive(Clone, Copy, PartialEq, Eq, Debug)]
pub enum Found {
    /// The driver's least value in cents, which may be below 0.
    Least(i64),
    /// No lawful duty of the driver is inside the pairs.
    NoDuty,
    /// All chunks were claimed and those of this driver are full, with this number of labels stored.
    Spent(u32),
}

/// A step that stands at the first slot, which has none.
const NO_STEP: Step = Step {
    stay: Stay {
        ready: 0,
        off: 0,
        kind: Kind::Plain,
    },
    act: Act::Load,
};

impl LabelStore {
    /// Whether there was room for the label of no step.
    fn begin(&mut self, asked: &Asked, seat: &mut Seat<Slot>) -> bool
        requires asked { IsAsked asked.now }
        requires empty { IsEmptyStore self.old }
        requires open { IsOpen asked.now seat.old self.old }
        ensures search { result ≡ true → IsSearch asked.now 0 self.new }
        ensures unchanged { result ≡ false → self.new.slots ≡ [] }
        ensures room { StoreHasRoom self.new }
        ensures open { result ≡ true → IsOpen asked.now seat.new self.new }
        ensures full { result ≡ false → IsFull asked.now seat.new self.new }
    {
        let label = first(asked.case, asked.driver);
        self.known = asked.found;
        self.best = None;
        if !self.store(asked.round, seat, &label, NO_STEP, 0) {
            return false;
        }
        if is_inside(asked, &label) {
            self.learn(label.value, 0);
        }
        true
    }

    /// The driver's least value, with the duty in the store's steps; without a duty these are none.
    pub(crate) fn price(&mut self, asked: &Asked, seat: &mut Seat<Slot>) -> Found
        requires asked { IsAsked asked.now }
        requires empty { IsEmptyStore self.old }
        requires open { IsOpen asked.now seat.old self.old }
        ensures found { IsFound asked.now seat.new self.new result }
        ensures steps { HasStepsOnlyOfDuty self.new result }
        ensures seat { IsSeated asked.now seat.new self.new }
        ensures holds { HoldsStore asked.now.round.now seat.new self.new }
        ensures room { StoreHasRoom self.new }
    {
        if !self.begin(asked, seat) {
            self.steps.clear();
            return Found::Spent(self.slots.len());
        }
        if !self.exhaust(asked, seat) {
            self.steps.clear();
            return Found::Spent(self.slots.len());
        }
        let Some(value) = self.known else {
            self.steps.clear();
            return Found::NoDuty;
        };
        let Some(best) = self.best else {
            self.steps.copy(asked.steps);
            return Found::Least(value);
        };
        trace(&self.slots, best, &mut self.steps);
        Found::Least(value)
    }
}
