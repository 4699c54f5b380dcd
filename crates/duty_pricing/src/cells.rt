// The stored labels of a place by the hours in which their work days began. The work day of one that betters a label began no sooner
// than the label's, and in the same hour it is found soonest.
ghost use Rattle.std.specs.Prelude.{◌≡◌, ◌↔◌, ◌<◌, ◌≤◌, ◌≤ℤ◌, ◌/◌, ℕ, pos, length, true, false, Some, slice_get};
ghost use Rattle.minute_line.specs.declared.lines.TheConstants.{WEEK_MINUTES};
ghost use Rattle.dominance.specs.declared.storing.Fronts.{Fronts};
ghost use Rattle.dominance.specs.Storing.{IsDominated};
ghost use Rattle.dominance.specs.Reaching.{DominatesWithin};
ghost use Rattle.duty_pricing.specs.Plain.{HoldsSlots, ServeAmong};
ghost use Rattle.duty_pricing.specs.declared.slots.Slot.{Slot};
ghost use Rattle.duty_pricing.specs.Slots.{AreChained, HaveDays, cell_at, cell_of, day_hour};

use crate::stores::LabelStore;
use dominance::better_within;
use duty_plan::Label;

/// The hours of the minutes of a week, from 0 to 168.
const HOURS: u32 = 169;

/// The cell of an hour of a place, for driving periods with the first part of a break or for those without.
pub(crate) fn cell(place: u32, half: bool, hour: u32) -> u32
    requires place { place < 64 }
    requires hour { hour < 169 }
    ensures is { result ≡ cell_at place half hour }
    ensures few { result < 21632 }
{
    (place * 2 + u32::from(half)) * HOURS + hour
}

/// The hour of the week in which a label's work day began; the first where it began before the week.
pub(crate) fn day_hour(label: &Label) -> u32
    ensures is { result ≡ day_hour label.now.clock.day_from }
    ensures few { result < 169 }
{
    if label.clock.day_from < 0 {
        return 0;
    }
    (label.clock.day_from.unsigned_abs() / 60).min(HOURS - 1)
}

impl LabelStore {
    /// Whether a slot of that number or a later one in a cell betters a label, for a driver with these forced orders, where
    /// orders out of reach are ignored. Orders are given as bits.
    fn bettered_in(&self, cell: u32, label: &Label, from: u32, forced: u128, reach: u128) -> bool
        requires chained { AreChained self.now.minutes.items self.now.cells.items self.now.slots }
        requires cell { cell < length self.now.cells.items }
        ensures some { result ≡ true → (n : ℕ) × (slot : Slot) × (from ≤ n) × (slice_get self.now.slots n ≡ Some slot) × DominatesWithin slot.label label.now forced reach }
        ensures none { result ≡ false → (n : ℕ) (slot : Slot) → from ≤ n → slice_get self.now.slots n ≡ Some slot → cell_of slot ≡ cell →
            DominatesWithin slot.label label.now forced reach → ⊥ }
    {
        let mut link = self.cells[cell as usize];
        while link > from {
            let Some(slot) = self.slots.get(link - 1) else {
                return false;
            };
            if better_within(&slot.label, label, forced, reach) {
                return true;
            }
            link = slot.same_cell;
        }
        false
    }

    /// Whether a slot of that number or a later one betters a label, for a driver with these forced orders, where orders out of
    /// reach are ignored. Orders are given as bits. It is what a plain scan of these labels answers, where none is out of reach.
    pub(crate) fn bettered(&self, label: &Label, from: u32, forced: u128, reach: u128) -> bool
        requires chained { AreChained self.now.minutes.items self.now.cells.items self.now.slots }
        requires days { HaveDays self.now.slots }
        requires cells { length self.now.cells.items ≡ 21632 }
        requires minute { label.now.clock.at ≤ WEEK_MINUTES }
        requires place { label.now.place < 64 }
        ensures some { result ≡ true → (n : ℕ) × (slot : Slot) × (from ≤ n) × (slice_get self.now.slots n ≡ Some slot) × DominatesWithin slot.label label.now forced reach }
        ensures none { result ≡ false → (n : ℕ) (slot : Slot) → from ≤ n → slice_get self.now.slots n ≡ Some slot → DominatesWithin slot.label label.now forced reach → ⊥ }
        ensures plain { (fronts : Fronts) → HoldsSlots fronts self.now.slots from → fronts.forced ≡ forced → ServeAmong self.now.slots reach →
            (result ≡ true ↔ IsDominated fronts label.now) }
    {
        for hour in day_hour(label)..label.clock.at / 60 + 1 {
            let cell = cell(label.place, label.clock.half, hour);
            if self.bettered_in(cell, label, from, forced, reach) {
                return true;
            }
        }
        false
    }
}
