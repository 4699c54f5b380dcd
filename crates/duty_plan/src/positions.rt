// Where steps leave a driver, and the office rules at one step more: the judge of a duty and a pricing try the same tests.
ghost use Rattle.std.specs.Prelude.{◌≡◌, ◌≤◌, ◌∷◌, [], true, option_map};
ghost use Rattle.week_book.specs.Weeks.{IsWeek, IsDriver};
ghost use Rattle.duty_plan.specs.PartialDuties.{PartialDuty, KeepsOfficeThrough, at_after, follows_road};
ghost use Rattle.duty_plan.specs.Verdicts.{first_failed, numbered, tests_of_step};
ghost use Rattle.duty_plan.specs.Positions.{HasBit, IsPositionOfSome, TriesStep, position_of};

use crate::duties::Step;
use crate::faults::DutyFault;
use crate::office::{
    act_start, carries, effect_of, grid, lengths, loaded_after, night, place_after, serves_anew,
    used_after, window, with_bit,
};
use minute_line::WEEK_MINUTES;
use week_book::{Driver, Week};

/// Where steps leave a driver: what of them the office rules at the next step ask for.
#[derive(Clone, Copy, PartialEq, Eq, Debug)]
pub struct Position {
    /// The week minute at which they end.
    pub at: u32,
    /// The place where they end.
    pub place: u32,
    /// The kg served since the last load act.
    pub used: u32,
    /// Whether there is a load act.
    pub loaded: bool,
    /// Whether there is a step.
    pub begun: bool,
    /// The orders that they serve: order n is the bit n.
    pub served: u128,
}

/// What a step comes to that keeps the office rules.
#[derive(Clone, Copy, PartialEq, Eq, Debug)]
pub struct StepEffect {
    /// The minutes of its act.
    pub minutes: u32,
    /// What its act costs, and its night away from the depot, in cents.
    pub cents: u64,
    /// Where it leaves the driver.
    pub position: Position,
}

impl Position {
    /// Monday 00:00 at the depot, before any step.
    pub fn on_monday() -> Position
        ensures { (week : Week) → result ≡ position_of week [] }
    {
        Position {
            at: 0,
            place: 0,
            used: 0,
            loaded: false,
            begun: false,
            served: 0,
        }
    }

    /// The first office test that the step fails, after the road's, where its act ends at a minute.
    #[inline(always)]
    fn fault(
        &self,
        week: &Week,
        lorry: &Driver,
        open_off: u32,
        number: u32,
        step: &Step,
        end: u64,
    ) -> Option<DutyFault>
        requires week { IsWeek week.now }
        requires used { self.now.used ≤ 100000 }
        requires bit { HasBit step.now.act }
        ensures { (before : PartialDuty) → self.now ≡ position_of week.now before → follows_road week.now step.now before ≡ true →
            end ≡ at_after week.now (step.now ∷ before) →
            result ≡ option_map (numbered number) (first_failed (tests_of_step week.now open_off lorry.now.capacity step.now before)) }
    {
        let start = act_start(self.at, &step.stay);
        if !lengths(!self.begun && open_off > 0, &step.stay) {
            return Some(DutyFault::Stay(number));
        }
        if step.stay.kind.is_weekly() && self.place != 0 {
            return Some(DutyFault::Away(number));
        }
        if !grid(step.stay.kind, start, week.grid) {
            return Some(DutyFault::Grid(number));
        }
        if end > u64::from(WEEK_MINUTES) {
            return Some(DutyFault::Late(number));
        }
        if !window(week, step.act, start) {
            return Some(DutyFault::Window(number));
        }
        if !carries(week, lorry.capacity, self.loaded, self.used, step.act) {
            return Some(DutyFault::Load(number));
        }
        if !serves_anew(self.served, step.act) {
            return Some(DutyFault::Twice(number));
        }
        None
    }

    /// What a step comes to that follows, or the first office test that it fails, told of the step `number`. The tests are
    /// tried in the order of `DutyFault`.
    ///
    /// The lorry is the driver's, and `open_off` the open off run of the driver's history, in minutes. The step may hold any
    /// numbers. The work is constant but for looking a leg up.
    #[inline(always)]
    pub fn try_step(
        &self,
        week: &Week,
        lorry: &Driver,
        open_off: u32,
        number: u32,
        step: &Step,
    ) -> Result<StepEffect, DutyFault>
        requires week { IsWeek week.now }
        requires lorry { IsDriver lorry.now }
        requires position { IsPositionOfSome week.now open_off lorry.now.capacity self.now }
        ensures { (before : PartialDuty) → KeepsOfficeThrough week.now open_off lorry.now.capacity before → self.now ≡ position_of week.now before →
            TriesStep week.now open_off lorry.now.capacity number before step.now result }
    {
        let Some(effect) = effect_of(week, self.place, step.act) else {
            return Err(DutyFault::Road(number));
        };
        let end = act_start(self.at, &step.stay) + u64::from(effect.minutes);
        if let Some(fault) = self.fault(week, lorry, open_off, number, step, end) {
            return Err(fault);
        }
        Ok(StepEffect {
            minutes: effect.minutes,
            cents: night(week, self.place, &step.stay) + effect.cents,
            position: Position {
                at: end as u32,
                place: place_after(step.act, self.place),
                used: used_after(week, step.act, self.used),
                loaded: loaded_after(step.act, self.loaded),
                begun: true,
                served: with_bit(step.act, self.served),
            },
        })
    }
}
