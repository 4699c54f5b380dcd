// One slot more, for which a chunk may have to be claimed.
ghost use Rattle.std.specs.Prelude.{◌≡◌, ◌≤◌, ◌∷◌, ◌++◌, [], length, true, false};
ghost use Rattle.duty_pricing.specs.Holding.{IsOpenSeat, IsFullSeat};

use crate::chunks::Chunks;
use crate::numbers::Numbers;
use crate::slots::Slot;
use label_arena::{Claim, Round, Seat};

/// Whether there was room for the slot, in the last chunk or in one that the seat claims.
pub(crate) fn keep(
    slots: &mut Chunks,
    numbers: &mut Numbers,
    round: &Round<Slot>,
    seat: &mut Seat<Slot>,
    slot: Slot,
) -> bool
    requires few { round.now.chunks ≤ 2048 }
    requires open { IsOpenSeat round.now seat.old numbers.old (length slots.old) }
    ensures pushed { result ≡ true → slots.new ≡ slots.old ++ slot ∷ [] }
    ensures unchanged { result ≡ false → slots.new ≡ slots.old }
    ensures open { result ≡ true → IsOpenSeat round.now seat.new numbers.new (length slots.new) }
    ensures full { result ≡ false → IsFullSeat round.now seat.new numbers.new (length slots.new) }
{
    if slots.push_last(slot) {
        return true;
    }
    match seat.claim(round) {
        Claim::Chunk(number, chunk) => {
            numbers.push(number);
            slots.push_new(chunk, slot);
            true
        }
        Claim::Full => false,
    }
}
