// The labels of a minute, one after another: each is settled by a later one, or extended.
ghost use Rattle.std.specs.Prelude.{◌≡◌, ◌+◌, ◌<◌, ◌≤◌, ℕ, true, false, Some, length, slice_get};
ghost use Rattle.minute_line.specs.declared.lines.TheConstants.{WEEK_MINUTES};
ghost use Rattle.duty_plan.specs.LabelLists.{Entry};
ghost use Rattle.duty_plan.specs.Labels.{Dominates};
ghost use Rattle.duty_pricing.specs.Asking.{IsAsked};
ghost use Rattle.duty_pricing.specs.Searching.{GrowsTo, IsFull, IsOpen, IsSearch};
ghost use Rattle.duty_pricing.specs.Slots.{entries_of};
ghost use Rattle.duty_pricing.specs.Visiting.{IsDoneAt, IsEntryOf, IsMinuteDone, IsSettledAt};

use crate::asking::Asked;
use crate::slots::Slot;
use crate::stores::LabelStore;
use duty_plan::Label;
use label_arena::Seat;
use minute_line::WEEK_MINUTES;

impl LabelStore {
    /// Whether a later slot betters the label of a slot; the first is bettered by none.
    fn is_settled(&self, asked: &Asked, number: u32, from: &Label) -> bool
        requires asked { IsAsked asked.now }
        requires search { IsSearch asked.now from.now.clock.at self.now }
        requires from { IsEntryOf self.now number from.now }
        ensures settled { result ≡ true → IsSettledAt asked.now self.now number from.now }
        ensures free { result ≡ false → IsSettledAt asked.now self.now number from.now → ⊥ }
    {
        if number == 0 {
            return false;
        }
        if number >= self.slots.len() {
            return false;
        }
        self.bettered(from, number + 1, asked.forced, asked.reach(from))
    }

    /// Whether there was room for what a slot is extended to, if no later one betters it.
    fn visit(&mut self, asked: &Asked, seat: &mut Seat<Slot>, number: u32, from: &Label) -> bool
        requires asked { IsAsked asked.now }
        requires open { IsOpen asked.now seat.old self.old }
        requires search { IsSearch asked.now from.now.clock.at self.old }
        requires from { IsEntryOf self.old number from.now }
        ensures search { IsSearch asked.now from.now.clock.at self.new }
        ensures grows { GrowsTo from.now.clock.at self.old self.new }
        ensures done { result ≡ true → IsDoneAt asked.now self.new number }
        ensures open { result ≡ true → IsOpen asked.now seat.new self.new }
        ensures full { result ≡ false → IsFull asked.now seat.new self.new }
    {
        if self.is_settled(asked, number, from) {
            return true;
        }
        self.extend(asked, seat, number, from)
    }

    /// Whether there was room for what the slots of a minute are extended to.
    pub(crate) fn visit_minute(&mut self, asked: &Asked, seat: &mut Seat<Slot>, minute: u32) -> bool
        requires asked { IsAsked asked.now }
        requires open { IsOpen asked.now seat.old self.old }
        requires search { IsSearch asked.now minute self.old }
        requires minute { minute ≤ WEEK_MINUTES }
        ensures search { IsSearch asked.now minute self.new }
        ensures grows { GrowsTo minute self.old self.new }
        ensures done { result ≡ true → IsMinuteDone asked.now self.new minute }
        ensures open { result ≡ true → IsOpen asked.now seat.new self.new }
        ensures full { result ≡ false → IsFull asked.now seat.new self.new }
    {
        let mut link = self.last_at(minute);
        while link > 0 {
            let Some(slot) = self.slot(link - 1) else {
                unreachable!()
            };
            if !self.visit(asked, seat, link - 1, &slot.label) {
                return false;
            }
            link = slot.same_minute;
        }
        true
    }

    /// Whether there was room for all labels that must be stored.
    pub(crate) fn exhaust(&mut self, asked: &Asked, seat: &mut Seat<Slot>) -> bool
        requires asked { IsAsked asked.now }
        requires open { IsOpen asked.now seat.old self.old }
        requires search { IsSearch asked.now 0 self.old }
        ensures search { IsSearch asked.now (WEEK_MINUTES + 1) self.new }
        ensures done { result ≡ true → (n : ℕ) → IsDoneAt asked.now self.new n }
        ensures open { result ≡ true → IsOpen asked.now seat.new self.new }
        ensures full { result ≡ false → IsFull asked.now seat.new self.new }
    {
        for minute in 0..WEEK_MINUTES + 1 {
            if !self.visit_minute(asked, seat, minute) {
                return false;
            }
        }
        true
    }
}
