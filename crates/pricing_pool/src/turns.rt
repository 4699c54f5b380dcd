// One driver after another, each with the whole arena.
ghost use Rattle.std.specs.Prelude.{◌≡◌, ◌≤◌, ◌<◌, [], ◌∷◌, length, IfOk};
ghost use Rattle.duty_plan.specs.Duties.{EachOf, IsCase};
ghost use Rattle.duty_plan.specs.Values.{IsPairs, IsPrices};
ghost use Rattle.duty_plan.specs.LabelLists.{chunks_for};
ghost use Rattle.duty_plan.specs.Rounds.{IsAnswer};
ghost use Rattle.duty_plan.specs.Twins.{AreTwins};

use crate::arenas::KeptArena;
use crate::copying::copy_answer;
use crate::guesses::guess_all;
use crate::pricing::Asked;
use crate::twins::classes;
use duty_plan::{Case, Duty, Gate, Pairs, Priced, Pricer, Prices};
use duty_pricing::{Scratch, Slot, make_scratch};
use label_arena::Seat;
use minute_line::{Many, Memory};
use std::alloc::Global;
use std::marker::Model;
use std::thread::Threads;

/// Prices one driver after another, each with all chunks. Contracts see their number.
#[derive(Drop)]
pub struct TurnPricer {
    arena: KeptArena,
    scratch: Scratch,
}

impl Model for TurnPricer {
    ghost use Rattle.std.specs.Prelude.{ℕ};
    ghost use Rattle.duty_pricing.specs.Finding.{IsEmpty};

    ghost Value = { ℕ };

    ghost view = { λ pricer. pricer.arena };

    ghost invariant = { λ pricer. IsEmpty pricer.scratch };
}

/// A pricer in turns, with chunks for so many labels.
pub fn make_turns(alloc: Global, labels: u32) -> Result<TurnPricer, Memory>
    requires { labels ≤ 2097152 }
    ensures { IfOk result (λ pricer. pricer ≡ chunks_for labels) }
{
    Ok(TurnPricer {
        arena: KeptArena::make(alloc, labels)?,
        scratch: make_scratch(alloc)?,
    })
}

/// The seat of a round of one.
fn only_seat(seats: Many<Seat<Slot>>) -> Seat<Slot>
    requires { length seats ≡ 1 }
    ensures { seats ≡ result ∷ [] }
{
    let mut row = seats.into_vec();
    let Some(seat) = row.pop() else {
        unreachable!()
    };
    seat
}

/// The seats of a round of one.
fn seats_of(alloc: Global, seat: Seat<Slot>) -> Result<Many<Seat<Slot>>, Memory>
    ensures { IfOk result (λ seats. seats ≡ seat ∷ []) }
{
    let mut seats = Many::new(alloc);
    seats.push(seat)?;
    Ok(seats)
}

impl TurnPricer {
    /// The answer for a driver, in a round of one seat.
    fn price_alone(
        &mut self,
        alloc: Global,
        case: &Case,
        driver: u32,
        pairs: &Pairs,
        prices: &Prices,
    ) -> Result<Priced, Memory>
        requires case { IsCase case.now }
        requires driver { driver < length case.now.week.drivers }
        requires pairs { IsPairs case.now.week pairs.now }
        requires prices { IsPrices case.now.week prices.now }
        ensures answer { IfOk result (λ answer. IsAnswer self.old case.now pairs.now prices.now driver answer) }
        ensures chunks { self.new ≡ self.old }
    {
        let (round, seats) = self.arena.take(alloc)?.open_round(alloc, 1)?;
        let mut seat = only_seat(seats);
        let asked = Asked {
            case,
            pairs,
            prices,
            round: &round,
        };
        let answer = asked.price(alloc, driver, &mut seat, &mut self.scratch);
        let ended = seats_of(alloc, seat)?;
        self.arena.put(round.close(alloc, ended)?);
        answer
    }

    /// The answer for a driver: once more that of the twin who stands for him, where it is among the answers so far.
    fn answer_in_turn(
        &mut self,
        alloc: Global,
        case: &Case,
        class: u32,
        driver: u32,
        pairs: &Pairs,
        prices: &Prices,
        answers: &[Priced],
    ) -> Result<Priced, Memory>
        requires case { IsCase case.now }
        requires twin { AreTwins case.now pairs.now class driver }
        requires driver { driver < length case.now.week.drivers }
        requires pairs { IsPairs case.now.week pairs.now }
        requires prices { IsPrices case.now.week prices.now }
        requires answers { EachOf (IsAnswer self.old case.now pairs.now prices.now) answers.now }
        ensures answer { IfOk result (IsAnswer self.old case.now pairs.now prices.now driver) }
        ensures chunks { self.new ≡ self.old }
    {
        match answers.get(class as usize) {
            Some(answer) => copy_answer(alloc, answer),
            None => self.price_alone(alloc, case, driver, pairs, prices),
        }
    }
}

impl Pricer for TurnPricer {
    ghost chunks = { λ pricer. pricer };

    fn round<R: Threads + Sync>(
        &mut self,
        _rt: &R,
        _gate: &(dyn Gate + Sync),
        alloc: Global,
        case: &Case,
        pairs: &Pairs,
        prices: &Prices,
    ) -> Result<Many<Priced>, Memory> {
        let classes = classes(alloc, case, pairs)?;
        let mut answers = Many::new(alloc);
        'pricing: for driver in 0..case.week.drivers.len() as u32 {
            let class = classes[driver as usize];
            let earlier = answers.as_slice();
            let answer = self.answer_in_turn(alloc, case, class, driver, pairs, prices, earlier)?;
            answers.push(answer)?;
        }
        Ok(answers)
    }

    fn guess(
        &mut self,
        alloc: Global,
        case: &Case,
        pairs: &Pairs,
        prices: &Prices,
    ) -> Result<Many<Option<Duty>>, Memory> {
        guess_all(alloc, case, pairs, prices, &mut self.scratch)
    }
}
