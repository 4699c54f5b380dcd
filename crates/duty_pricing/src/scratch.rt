// What the pricing of a driver works with, which is made once, and its calls.
ghost use Rattle.std.specs.Prelude.{◌≡◌, ◌<◌, ◌≤◌, [], IfOk, length, true, false};
ghost use Rattle.duty_plan.specs.Duties.{IsCase};
ghost use Rattle.week_book.specs.Weeks.{IsWeek};
ghost use Rattle.duty_plan.specs.Values.{IsChoice, IsPairs, IsPrices};
ghost use Rattle.duty_plan.specs.SharedRounds.{IsSeatOf};
ghost use Rattle.label_arena.specs.Views.{IsNew};
ghost use Rattle.duty_pricing.specs.Finding.{HasRoom, HasStepsOnlyOfDuty, HoldsScratch, IsEmpty, IsFoundFor, entries_in};
ghost use Rattle.duty_pricing.specs.Holding.{HasGivenAll};

use crate::asking::Asked;
use crate::emptying::make_store;
use crate::forcing::forced;
use crate::insides::has_all;
use crate::pricing::Found;
use crate::slots::Slot;
use crate::stores::LabelStore;
use duty_beam::{Beam, make_beam};
use duty_label::{Walks, make_walks};
use duty_outlook::{Outlook, make_outlook};
use duty_plan::{Case, Pair, Pairs, Prices, Step};
use label_arena::{Round, Seat};
use minute_line::Memory;
use std::alloc::Global;
use week_book::Week;

/// The entries of an outlook, of 272 bytes each.
const ENTRIES: u32 = 62_000;

/// The labels that the widest search for a good duty goes on with in a quarter of an hour.
const WIDEST: u32 = 64;

/// The labels that a guess goes on with in a quarter of an hour.
const GUESSED: u32 = 16;

/// What the pricing of a driver works with: made once, and used for one driver after another. Contracts see its stored labels.
#[derive(Drop)]
pub struct Scratch {
    pub(crate) walks: Walks,
    pub(crate) outlook: Outlook,
    pub(crate) beam: Beam,
    pub(crate) labels: LabelStore,
    /// How many labels the widest search for a good duty goes on with in a quarter of an hour: 64 where it was just made. The least
    /// value is the same whatever it is; a narrow search may leave more labels to be stored.
    pub widest: u32,
}

/// An empty scratch, with room for the labels of 2,048 chunks, or `Memory` where there is too little. No other call of this
/// crate takes memory.
pub fn make_scratch(alloc: Global) -> Result<Scratch, Memory>
    ensures { IfOk result IsEmpty }
{
    Ok(Scratch {
        walks: make_walks(alloc)?,
        outlook: make_outlook(alloc, ENTRIES)?,
        beam: make_beam(alloc)?,
        labels: make_store(alloc)?,
        widest: WIDEST,
    })
}

impl Scratch {
    /// The steps of the duty that was found to be the least.
    pub fn steps(&self) -> &[Step]
        ensures { result.now ≡ self.now.labels.steps }
    {
        self.labels.steps.as_slice()
    }
}

/// How wide a search for a good duty is: there is none where a forced order is out of reach, since there is no duty then.
fn widest_for(forced: u128, reach: u128, widest: u32) -> u32 {
    if has_all(forced, reach) { widest } else { 0 }
}

/// The least value of a driver at pairs and prices, in cents: a duty's cost less the prices of its orders. A duty that has it is in
/// the scratch's steps, which are none where no duty was found. The labels stay in the scratch, with the chunks that the seat drew for
/// them, until they are given back.
pub fn price_driver(
    case: &Case,
    driver: u32,
    pairs: &Pairs,
    prices: &Prices,
    round: &Round<Slot>,
    seat: &mut Seat<Slot>,
    scratch: &mut Scratch,
) -> Found
    requires case { IsCase case.now }
    requires driver { driver < length case.now.week.drivers }
    requires pairs { IsPairs case.now.week pairs.now }
    requires prices { IsPrices case.now.week prices.now }
    requires few { round.now.chunks ≤ 2048 }
    requires seat { IsNew round.now.name seat.old }
    requires empty { IsEmpty scratch.old }
    ensures found { IsFoundFor round.now.chunks case.now driver pairs.now prices.now seat.new.drawn scratch.new result }
    ensures steps { HasStepsOnlyOfDuty scratch.new.labels result }
    ensures seat { IsSeatOf round.now.chunks case.now driver pairs.now prices.now seat.new.drawn (entries_in scratch.new) }
    ensures holds { HoldsScratch round.now seat.new scratch.new }
    ensures room { HasRoom scratch.new }
{
    scratch.walks.fill(&case.week);
    scratch.outlook.fill(case, driver, pairs, prices);
    let forced = forced(case, driver, pairs);
    let reach = scratch.walks.reached(&case.week, 0, 0);
    let widest = widest_for(forced, reach, scratch.widest);
    let found = scratch.beam.find(
        case,
        driver,
        pairs,
        prices,
        &scratch.walks,
        &scratch.outlook,
        widest,
    );
    let asked = Asked {
        case,
        driver,
        pairs,
        prices,
        round,
        walks: &scratch.walks,
        outlook: &scratch.outlook,
        found,
        steps: scratch.beam.steps(),
        forced,
    };
    scratch.labels.price(&asked, seat)
}

/// Whether some order isn't Barred for a driver.
fn may_serve(week: &Week, driver: u32, pairs: &Pairs) -> bool
    requires week { IsWeek week.now }
    requires driver { driver < length week.now.drivers }
    requires pairs { IsPairs week.now pairs.now }
{
    for order in 0..week.orders.len() as u32 {
        match pairs.pair(week, driver, order) {
            Pair::Free | Pair::Forced => return true,
            Pair::Barred => {}
        }
    }
    false
}

/// Seeks a good duty of a driver inside the pairs, by the search for good duties alone, of the second width. Whether one was found:
/// it is in the scratch's steps then, which are none else. It draws no chunk.
pub fn guess_duty(
    case: &Case,
    driver: u32,
    pairs: &Pairs,
    prices: &Prices,
    scratch: &mut Scratch,
) -> bool
    requires case { IsCase case.now }
    requires driver { driver < length case.now.week.drivers }
    requires pairs { IsPairs case.now.week pairs.now }
    requires prices { IsPrices case.now.week prices.now }
    requires empty { IsEmpty scratch.old }
    ensures duty { result ≡ true → IsChoice case.now driver pairs.now (record { steps = scratch.new.labels.steps }) }
    ensures none { result ≡ false → scratch.new.labels.steps ≡ [] }
    ensures empty { IsEmpty scratch.new }
{
    let widest = if may_serve(&case.week, driver, pairs) {
        scratch.walks.fill(&case.week);
        scratch.outlook.fill(case, driver, pairs, prices);
        GUESSED
    } else {
        0
    };
    let found = scratch.beam.find(
        case,
        driver,
        pairs,
        prices,
        &scratch.walks,
        &scratch.outlook,
        widest,
    );
    if found.is_none() {
        scratch.labels.steps.clear();
        return false;
    }
    scratch.labels.steps.copy(scratch.beam.steps());
    true
}

/// Gives the chunks that a seat holds back to the round, and empties the scratch that has them. Its steps stay.
pub fn give_back(round: &Round<Slot>, seat: &mut Seat<Slot>, scratch: &mut Scratch)
    requires holds { HoldsScratch round.now seat.old scratch.old }
    requires room { HasRoom scratch.old }
    ensures empty { IsEmpty scratch.new }
    ensures steps { scratch.new.labels.steps ≡ scratch.old.labels.steps }
    ensures seat { HasGivenAll seat.old seat.new }
{
    scratch.labels.give_chunks(round, seat);
    scratch.labels.forget();
}
