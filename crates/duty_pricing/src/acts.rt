// The acts that are tried after a label.
ghost use Rattle.std.specs.Prelude.{◌≡◌, ◌<◌, ℕ, true, false, Some, length, slice_get};
ghost use Rattle.hours_rules.specs.declared.clocks.Stay.{Stay};
ghost use Rattle.week_book.specs.declared.weeks.Leg.{Leg as Road};
ghost use Rattle.week_book.specs.Weeks.{order_of};
ghost use Rattle.duty_plan.specs.declared.duties.Step.{Step};
ghost use Rattle.duty_plan.specs.Acts.{can_be_done, is_at};
ghost use Rattle.duty_pricing.specs.Asking.{IsAsked};
ghost use Rattle.duty_pricing.specs.Searching.{GoesOn, HasTried, IsFull, IsOpen, IsSearch, MayExtend};

use crate::asking::Asked;
use crate::slots::Slot;
use crate::stores::LabelStore;
use duty_plan::{Act, Label};
use label_arena::Seat;
use week_book::Leg;

impl LabelStore {
    /// Whether there was room for the steps with a leg, if it leaves the label's place.
    fn try_leg(
        &mut self,
        asked: &Asked,
        seat: &mut Seat<Slot>,
        number: u32,
        from: &Label,
        leg: &Leg,
    ) -> bool
        requires asked { IsAsked asked.now }
        requires open { IsOpen asked.now seat.old self.old }
        requires search { IsSearch asked.now from.now.clock.at self.old }
        requires from { MayExtend asked.now self.old number from.now }
        ensures on { GoesOn asked.now number from.now self.old self.new }
        ensures tried { result ≡ true → leg.now.from ≡ from.now.place → (stay : Stay) →
            HasTried asked.now self.new number (record { stay = stay; act = Act.Leg leg.now.to }) }
        ensures open { result ≡ true → IsOpen asked.now seat.new self.new }
        ensures full { result ≡ false → IsFull asked.now seat.new self.new }
    {
        if leg.from != from.place {
            return true;
        }
        self.try_act(asked, seat, number, from, Act::Leg(leg.to))
    }

    /// Whether there was room for the steps with each leg from the label's place.
    fn try_legs(&mut self, asked: &Asked, seat: &mut Seat<Slot>, number: u32, from: &Label) -> bool
        requires asked { IsAsked asked.now }
        requires open { IsOpen asked.now seat.old self.old }
        requires search { IsSearch asked.now from.now.clock.at self.old }
        requires from { MayExtend asked.now self.old number from.now }
        ensures on { GoesOn asked.now number from.now self.old self.new }
        ensures tried { result ≡ true → (k : ℕ) (leg : Road) → slice_get asked.now.case.now.week.legs k ≡ Some leg → leg.from ≡ from.now.place →
            (stay : Stay) → HasTried asked.now self.new number (record { stay = stay; act = Act.Leg leg.to }) }
        ensures open { result ≡ true → IsOpen asked.now seat.new self.new }
        ensures full { result ≡ false → IsFull asked.now seat.new self.new }
    {
        for leg in asked.case.week.legs.as_slice() {
            if !self.try_leg(asked, seat, number, from, leg) {
                return false;
            }
        }
        true
    }

    /// Whether there was room for the steps with the service of an order, if it is at the label's place.
    fn try_order(
        &mut self,
        asked: &Asked,
        seat: &mut Seat<Slot>,
        number: u32,
        from: &Label,
        order: u32,
    ) -> bool
        requires asked { IsAsked asked.now }
        requires open { IsOpen asked.now seat.old self.old }
        requires search { IsSearch asked.now from.now.clock.at self.old }
        requires from { MayExtend asked.now self.old number from.now }
        ensures on { GoesOn asked.now number from.now self.old self.new }
        ensures tried { result ≡ true → is_at (order_of asked.now.case.now.week order) from.now.place ≡ true → (stay : Stay) →
            HasTried asked.now self.new number (record { stay = stay; act = Act.Serve order }) }
        ensures open { result ≡ true → IsOpen asked.now seat.new self.new }
        ensures full { result ≡ false → IsFull asked.now seat.new self.new }
    {
        let Some(row) = asked.case.week.orders.get(order as usize) else {
            return true;
        };
        if row.place != from.place {
            return true;
        }
        self.try_act(asked, seat, number, from, Act::Serve(order))
    }

    /// Whether there was room for the steps with the service of each order at the label's place.
    fn try_orders(
        &mut self,
        asked: &Asked,
        seat: &mut Seat<Slot>,
        number: u32,
        from: &Label,
    ) -> bool
        requires asked { IsAsked asked.now }
        requires open { IsOpen asked.now seat.old self.old }
        requires search { IsSearch asked.now from.now.clock.at self.old }
        requires from { MayExtend asked.now self.old number from.now }
        ensures on { GoesOn asked.now number from.now self.old self.new }
        ensures tried { result ≡ true → (order : ℕ) → order < length asked.now.case.now.week.orders →
            is_at (order_of asked.now.case.now.week order) from.now.place ≡ true → (stay : Stay) →
            HasTried asked.now self.new number (record { stay = stay; act = Act.Serve order }) }
        ensures open { result ≡ true → IsOpen asked.now seat.new self.new }
        ensures full { result ≡ false → IsFull asked.now seat.new self.new }
    {
        for order in 0..asked.case.week.orders.len() as u32 {
            if !self.try_order(asked, seat, number, from, order) {
                return false;
            }
        }
        true
    }

    /// Whether there was room for each listed step after the label.
    pub(crate) fn extend(
        &mut self,
        asked: &Asked,
        seat: &mut Seat<Slot>,
        number: u32,
        from: &Label,
    ) -> bool
        requires asked { IsAsked asked.now }
        requires open { IsOpen asked.now seat.old self.old }
        requires search { IsSearch asked.now from.now.clock.at self.old }
        requires from { MayExtend asked.now self.old number from.now }
        ensures on { GoesOn asked.now number from.now self.old self.new }
        ensures tried { result ≡ true → (step : Step) → can_be_done asked.now.case.now.week from.now.place step.act ≡ true →
            HasTried asked.now self.new number step }
        ensures open { result ≡ true → IsOpen asked.now seat.new self.new }
        ensures full { result ≡ false → IsFull asked.now seat.new self.new }
    {
        if !self.try_legs(asked, seat, number, from) {
            return false;
        }
        if !self.try_orders(asked, seat, number, from) {
            return false;
        }
        if from.place != 0 {
            return true;
        }
        self.try_act(asked, seat, number, from, Act::Load)
    }
}
