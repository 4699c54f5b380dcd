// A label more in a pricing.
ghost use Rattle.std.specs.Prelude.{◌≡◌, ◌<◌, ◌≤◌, ℕ, true, false, length};
ghost use Rattle.duty_pricing.specs.Asking.{IsAsked};
ghost use Rattle.duty_pricing.specs.Searching.{GrowsTo, HasTried, IsFull, IsListedAt, IsOpen, IsSearch, Learns, MayAdd, MayExtend, OnTried, RulesOut};
ghost use Rattle.duty_pricing.specs.Slots.{AddsSlot};

use crate::asking::Asked;
use crate::hoping::{is_hopeless, is_ruled_out};
use crate::insides::is_inside;
use crate::slots::Slot;
use crate::stores::LabelStore;
use crate::tried::Tried;
use duty_label::child;
use duty_plan::{Label, Step};
use label_arena::Seat;

impl LabelStore {
    /// Keeps the value of the lawful duty inside of that number, where it is less than what is known.
    pub(crate) fn learn(&mut self, value: i64, number: u32)
        ensures { Learns self.old self.new value number }
    {
        if let Some(known) = self.known {
            if known <= value {
                return;
            }
        }
        self.known = Some(value);
        self.best = Some(number);
    }

    /// Whether there was room for the label of a step after a slot.
    fn add(
        &mut self,
        asked: &Asked,
        seat: &mut Seat<Slot>,
        number: u32,
        step: Step,
        label: &Label,
    ) -> bool
        requires asked { IsAsked asked.now }
        requires open { IsOpen asked.now seat.old self.old }
        requires may { (minute : ℕ) × IsSearch asked.now minute self.old × MayAdd asked.now minute self.old number step label.now }
        ensures search { (minute : ℕ) → IsSearch asked.now minute self.old → MayAdd asked.now minute self.old number step label.now →
            IsSearch asked.now minute self.new }
        ensures grows { (minute : ℕ) → IsSearch asked.now minute self.old → MayAdd asked.now minute self.old number step label.now →
            GrowsTo minute self.old self.new }
        ensures stored { result ≡ true → AddsSlot label.now step number self.old.slots self.new.slots }
        ensures unchanged { result ≡ false → self.new.slots ≡ self.old.slots }
        ensures open { result ≡ true → IsOpen asked.now seat.new self.new }
        ensures full { result ≡ false → IsFull asked.now seat.new self.new }
    {
        let last = self.slots.len();
        if !self.store(asked.round, seat, label, step, number) {
            return false;
        }
        if is_inside(asked, label) {
            self.learn(label.value, last);
        }
        true
    }

    /// Stores the label of a step after a slot, if there is such a label that is worth storing.
    pub(crate) fn try_step(
        &mut self,
        asked: &Asked,
        seat: &mut Seat<Slot>,
        number: u32,
        from: &Label,
        step: Step,
    ) -> Tried
        requires asked { IsAsked asked.now }
        requires open { IsOpen asked.now seat.old self.old }
        requires search { IsSearch asked.now from.now.clock.at self.old }
        requires from { MayExtend asked.now self.old number from.now }
        requires listed { IsListedAt asked.now self.old number step }
        ensures search { IsSearch asked.now from.now.clock.at self.new }
        ensures from { MayExtend asked.now self.new number from.now }
        ensures grows { GrowsTo from.now.clock.at self.old self.new }
        ensures answer { OnTried result (IsFull asked.now seat.new self.new)
            (IsOpen asked.now seat.new self.new × HasTried asked.now self.new number step)
            (IsOpen asked.now seat.new self.new × RulesOut asked.now self.new number step) }
    {
        let Ok(label) = child(
            asked.case,
            asked.driver,
            asked.pairs,
            asked.prices,
            from,
            step.stay,
            step.act,
        ) else {
            return Tried::Done;
        };
        if is_ruled_out(asked, &label, self.known) {
            return Tried::RuledOut;
        }
        if is_hopeless(asked, &label, self.known) {
            return Tried::Done;
        }
        if self.bettered(&label, 1, asked.forced, asked.reach(&label)) {
            return Tried::Done;
        }
        if !self.add(asked, seat, number, step, &label) {
            return Tried::Full;
        }
        Tried::Done
    }
}
