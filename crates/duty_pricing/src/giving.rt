// The chunks go back to the round.
ghost use Rattle.std.specs.Prelude.{◌≡◌, []};
ghost use Rattle.duty_pricing.specs.Finding.{HoldsStore};
ghost use Rattle.duty_pricing.specs.Holding.{HasGivenAll};

use crate::slots::Slot;
use crate::stores::LabelStore;
use label_arena::{Round, Seat};

impl LabelStore {
    /// Gives the chunks back to the round.
    pub(crate) fn give_chunks(&mut self, round: &Round<Slot>, seat: &mut Seat<Slot>)
        requires holds { HoldsStore round.now seat.old self.old }
        ensures empty { (self.new.slots ≡ []) × (self.new.numbers ≡ []) }
        ensures seat { HasGivenAll seat.old seat.new }
        ensures same { (self.new.minutes ≡ self.old.minutes) × (self.new.cells ≡ self.old.cells) }
        ensures steps { self.new.steps ≡ self.old.steps }
    {
        'giving: while let Some(number) = self.numbers.pop() {
            let Some(chunk) = self.slots.pop() else {
                unreachable!()
            };
            seat.give(round, number, chunk);
        }
    }
}
