// The stays that are tried before an act, and the steps with them.
ghost use Rattle.std.specs.Prelude.{◌≡◌, ◌<◌, ◌≤◌, ◌*◌, ℕ, true, false};
ghost use Rattle.minute_line.specs.declared.lines.TheConstants.{WEEK_MINUTES};
ghost use Rattle.minute_line.specs.Marks.{is_rest};
ghost use Rattle.hours_rules.specs.declared.clocks.Stay.{Stay};
ghost use Rattle.duty_plan.specs.PartialDuties.{is_plain_length};
ghost use Rattle.duty_pricing.specs.Asking.{IsAsked};
ghost use Rattle.duty_pricing.specs.Listing.{plain_stay, rest_stay};
ghost use Rattle.duty_pricing.specs.Searching.{GoesOn, HasTried, IsFull, IsOpen, IsSearch, MayExtend};

use crate::asking::Asked;
use crate::rests::{first_turn, rest_stay, turns};
use crate::slots::Slot;
use crate::stores::LabelStore;
use crate::tried::Tried;
use duty_plan::{Act, Label, Step};
use hours_rules::Stay;
use label_arena::Seat;
use minute_line::Kind;

/// The Off minutes of a Plain stay.
const LENGTHS: [u32; 5] = [0, 15, 30, 45, 180];

/// The listed Plain stay of so many Off minutes before an act, from a week minute on.
fn plain_stay(asked: &Asked, at: u32, act: Act, off: u32) -> Stay
    requires at { at ≤ WEEK_MINUTES }
    requires off { off ≤ 180 }
    ensures { result ≡ plain_stay asked.now.case.now.week at act off }
{
    let ready = match act {
        Act::Serve(order) => match asked.case.week.orders.get(order as usize) {
            Some(order) => order.opens.saturating_sub(at + off),
            None => 0,
        },
        Act::Leg(_) | Act::Load => 0,
    };
    Stay {
        ready,
        off,
        kind: Kind::Plain,
    }
}

impl LabelStore {
    /// Whether there was room for the steps with a Plain stay before an act.
    fn try_plain(
        &mut self,
        asked: &Asked,
        seat: &mut Seat<Slot>,
        number: u32,
        from: &Label,
        act: Act,
    ) -> bool
        requires asked { IsAsked asked.now }
        requires open { IsOpen asked.now seat.old self.old }
        requires search { IsSearch asked.now from.now.clock.at self.old }
        requires from { MayExtend asked.now self.old number from.now }
        ensures on { GoesOn asked.now number from.now self.old self.new }
        ensures tried { result ≡ true → (off : ℕ) → is_plain_length off ≡ true →
            HasTried asked.now self.new number (record { stay = plain_stay asked.now.case.now.week from.now.clock.at act off; act = act }) }
        ensures open { result ≡ true → IsOpen asked.now seat.new self.new }
        ensures full { result ≡ false → IsFull asked.now seat.new self.new }
    {
        for off in &LENGTHS {
            let stay = plain_stay(asked, from.clock.at, act, *off);
            let tried = self.try_step(asked, seat, number, from, Step { stay, act });
            if tried.is_full() {
                return false;
            }
        }
        true
    }

    /// Whether there was room for the steps with a rest of a kind before an act, from the first that is long enough on. Where the
    /// outlook rules a rest out, it rules out each longer one.
    fn try_rests(
        &mut self,
        asked: &Asked,
        seat: &mut Seat<Slot>,
        number: u32,
        from: &Label,
        act: Act,
        kind: Kind,
    ) -> bool
        requires asked { IsAsked asked.now }
        requires open { IsOpen asked.now seat.old self.old }
        requires search { IsSearch asked.now from.now.clock.at self.old }
        requires from { MayExtend asked.now self.old number from.now }
        requires rest { is_rest kind ≡ true }
        ensures on { GoesOn asked.now number from.now self.old self.new }
        ensures tried { result ≡ true → (turn : ℕ) → from.now.clock.at ≤ turn * asked.now.case.now.week.grid → turn * asked.now.case.now.week.grid < WEEK_MINUTES →
            HasTried asked.now self.new number (record { stay = rest_stay from.now.clock.at kind (turn * asked.now.case.now.week.grid); act = act }) }
        ensures open { result ≡ true → IsOpen asked.now seat.new self.new }
        ensures full { result ≡ false → IsFull asked.now seat.new self.new }
    {
        let grid = asked.case.week.grid;
        let first = first_turn(asked, &from.clock, kind);
        for turn in first..turns(asked, act) {
            let stay = rest_stay(from.clock.at, kind, turn * grid);
            match self.try_step(asked, seat, number, from, Step { stay, act }) {
                Tried::Full => return false,
                Tried::RuledOut => return true,
                Tried::Done => {}
            }
        }
        true
    }

    /// Whether there was room for the steps with each listed stay before an act.
    pub(crate) fn try_act(
        &mut self,
        asked: &Asked,
        seat: &mut Seat<Slot>,
        number: u32,
        from: &Label,
        act: Act,
    ) -> bool
        requires asked { IsAsked asked.now }
        requires open { IsOpen asked.now seat.old self.old }
        requires search { IsSearch asked.now from.now.clock.at self.old }
        requires from { MayExtend asked.now self.old number from.now }
        ensures on { GoesOn asked.now number from.now self.old self.new }
        ensures tried { result ≡ true → (stay : Stay) → HasTried asked.now self.new number (record { stay = stay; act = act }) }
        ensures open { result ≡ true → IsOpen asked.now seat.new self.new }
        ensures full { result ≡ false → IsFull asked.now seat.new self.new }
    {
        if !self.try_plain(asked, seat, number, from, act) {
            return false;
        }
        if !self.try_rests(asked, seat, number, from, act, Kind::Daily) {
            return false;
        }
        if from.place != 0 {
            return true;
        }
        self.try_rests(asked, seat, number, from, act, Kind::Weekly)
    }
}
