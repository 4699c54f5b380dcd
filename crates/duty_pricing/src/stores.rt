// What a pricing works with: the stored labels, the heads of their links, and the best duty that is known.
ghost use Rattle.std.specs.Prelude.{◌≡◌, ◌<◌, ◌≤◌, ◌∷◌, length, true, false, slice_get, slice_index};
ghost use Rattle.minute_line.specs.declared.lines.TheConstants.{WEEK_MINUTES};
ghost use Rattle.duty_pricing.specs.Finding.{StoreHasRoom};
ghost use Rattle.duty_pricing.specs.Holding.{IsFullSeat, IsOpenSeat};
ghost use Rattle.duty_pricing.specs.Slots.{AddsSlot, AreChained};

use crate::cells::{cell, day_hour};
use crate::chunks::Chunks;
use crate::claiming::keep;
use crate::numbers::Numbers;
use crate::slots::Slot;
use crate::steps::Steps;
use duty_plan::{Label, Step};
use label_arena::{Round, Seat};

/// The labels of a pricing.
#[derive(Drop)]
pub struct LabelStore {
    pub(crate) slots: Chunks,
    /// The numbers of their chunks.
    pub(crate) numbers: Numbers,
    /// For each minute one more than the number of its last slot, or 0.
    pub(crate) minutes: Vec<u32>,
    /// The same for each hour of a place in which work days begin.
    pub(crate) cells: Vec<u32>,
    /// The least value that is known of a lawful duty inside.
    pub(crate) known: Option<i64>,
    /// The number of the slot that has it; none where it is the duty that was found beforehand.
    pub(crate) best: Option<u32>,
    /// The steps of the least duty.
    pub(crate) steps: Steps,
}

impl LabelStore {
    /// One more than the number of the last slot of a minute, or 0.
    pub(crate) fn last_at(&self, minute: u32) -> u32
        requires { minute < length self.now.minutes.items }
        ensures { result ≡ slice_index self.now.minutes.items minute }
    {
        self.minutes[minute as usize]
    }

    /// The slot of that number, or none past the last.
    pub(crate) fn slot(&self, number: u32) -> Option<Slot>
        ensures { result ≡ slice_get self.now.slots number }
    {
        self.slots.get(number).copied()
    }

    /// Whether there was room for a label, which then stands last.
    pub(crate) fn store(
        &mut self,
        round: &Round<Slot>,
        seat: &mut Seat<Slot>,
        label: &Label,
        step: Step,
        parent: u32,
    ) -> bool
        requires few { round.now.chunks ≤ 2048 }
        requires open { IsOpenSeat round.now seat.old self.old.numbers (length self.old.slots) }
        requires chained { AreChained self.old.minutes.items self.old.cells.items self.old.slots }
        requires room { StoreHasRoom self.old }
        requires minute { label.now.clock.at ≤ WEEK_MINUTES }
        requires place { label.now.place < 64 }
        ensures chained { AreChained self.new.minutes.items self.new.cells.items self.new.slots }
        ensures stored { result ≡ true → AddsSlot label.now step parent self.old.slots self.new.slots }
        ensures unchanged { result ≡ false → self.new.slots ≡ self.old.slots }
        ensures open { result ≡ true → IsOpenSeat round.now seat.new self.new.numbers (length self.new.slots) }
        ensures full { result ≡ false → IsFullSeat round.now seat.new self.new.numbers (length self.new.slots) }
        ensures known { (self.new.known ≡ self.old.known) × (self.new.best ≡ self.old.best) }
        ensures size { (length self.new.minutes.items ≡ length self.old.minutes.items)
            × (length self.new.cells.items ≡ length self.old.cells.items) }
    {
        let minute = label.clock.at as usize;
        let cell = cell(label.place, label.clock.half, day_hour(label)) as usize;
        let number = self.slots.len();
        let slot = Slot {
            label: *label,
            step,
            parent,
            same_minute: self.minutes[minute],
            same_cell: self.cells[cell],
        };
        if !keep(&mut self.slots, &mut self.numbers, round, seat, slot) {
            return false;
        }
        self.minutes[minute] = number + 1;
        self.cells[cell] = number + 1;
        true
    }
}
