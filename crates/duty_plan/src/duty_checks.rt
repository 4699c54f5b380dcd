// What a judge keeps of the steps behind it.
ghost use Rattle.std.specs.Prelude.{◌≡◌, ◌+◌, ◌≤◌, ◌<◌, ◌^◌, ◌==◌, [], true, if◌then◌else◌, None};
ghost use Rattle.std.specs.Result.{ForOk};
ghost use Rattle.minute_line.specs.declared.lines.TheConstants.{WEEK_MINUTES};
ghost use Rattle.minute_line.specs.Minutes.{Minutes};
ghost use Rattle.minute_line.specs.Marks.{is_working, is_rest};
ghost use Rattle.hours_rules.specs.Rules.{Past};
ghost use Rattle.hours_rules.specs.Standing.{IsClock};
ghost use Rattle.hours_rules.specs.Going.{StandsOrBreaks, with_stay};
ghost use Rattle.week_book.specs.Weeks.{IsWeek, IsDriver};
ghost use Rattle.duty_plan.specs.PartialDuties.{PartialDuty};
ghost use Rattle.duty_plan.specs.Verdicts.{verdict_after};
ghost use Rattle.duty_plan.specs.DutyChecks.{StandsFor, StandsForSome, TakesStep, broken_of};

use crate::duties::Step;
use crate::faults::DutyFault;
use crate::positions::Position;
use hours_rules::{Broken, Clock, Stay, go, start};
use minute_line::{History, Mark};
use week_book::{Driver, Week};

/// What a judge keeps of the steps behind it.
#[derive(Clone, Copy)]
pub(crate) struct DutyCheck {
    /// How many steps there are.
    steps: u32,
    /// Where they leave the driver.
    position: Position,
    /// What the legs and the nights cost, in cents.
    cents: u64,
    /// The clock, or the first minute at which an hours rule failed.
    hours: Result<Clock, Broken>,
}

/// The hours after one more stay and act.
fn hours_after(
    hours: &Result<Clock, Broken>,
    stay: Stay,
    mark: Mark,
    minutes: u32,
) -> Result<Clock, Broken>
    requires clock { ForOk hours.now (λ clock. IsClock clock) }
    requires act { is_working mark ≡ true }
    requires some { 0 < minutes }
    requires end { ForOk hours.now (λ clock. clock.at + stay.ready + stay.off + minutes ≤ WEEK_MINUTES) }
    requires ready { ForOk hours.now (λ clock. 0 < clock.off → stay.ready ≡ 0) }
    requires run { ForOk hours.now (λ clock. is_rest stay.kind ≡ true → 0 < clock.off + stay.off) }
    ensures { (past : Past) (week : Minutes) → StandsOrBreaks 0 past week hours.now → StandsOrBreaks 0 past (with_stay stay mark minutes week) result }
{
    match hours {
        Ok(clock) => go(clock, stay, mark, minutes),
        Err(broken) => Err(*broken),
    }
}

impl DutyCheck {
    /// The walk of no step.
    pub(crate) fn begin(history: &History) -> DutyCheck
        ensures { (week : Week) (driver : Driver) → StandsFor week driver history.now [] result }
    {
        DutyCheck {
            steps: 0,
            position: Position::on_monday(),
            cents: 0,
            hours: Ok(start(history)),
        }
    }

    /// The walk after one more step, or the first office test that the step fails.
    pub(crate) fn after(
        &self,
        week: &Week,
        driver: &Driver,
        history: &History,
        step: &Step,
    ) -> Result<DutyCheck, DutyFault>
        requires week { IsWeek week.now }
        requires driver { IsDriver driver.now }
        requires stands { StandsForSome week.now driver.now history.now self.now }
        ensures { (before : PartialDuty) → StandsFor week.now driver.now history.now before self.now →
            TakesStep week.now driver.now history.now before step.now result }
    {
        match self
            .position
            .try_step(week, driver, history.open_off, self.steps, step)
        {
            Ok(taken) => Ok(DutyCheck {
                steps: self.steps + 1,
                position: taken.position,
                cents: taken.cents + self.cents,
                hours: hours_after(&self.hours, step.stay, step.act.mark(), taken.minutes),
            }),
            Err(fault) => Err(fault),
        }
    }

    /// The cost of the steps, or the fault of their end or of their hours.
    pub(crate) fn end(&self, fee: u64) -> Result<u64, DutyFault>
        requires { fee + self.now.cents < 2 ^ 64 }
        ensures { result
            ≡ verdict_after None (self.now.position.place == 0) (broken_of self.now.hours) (if self.now.steps == 0 then 0 else fee + self.now.cents) }
    {
        if self.position.place != 0 {
            return Err(DutyFault::NotHome);
        }
        match self.hours {
            Err(broken) => Err(DutyFault::Rule(broken)),
            Ok(_) if self.steps == 0 => Ok(0),
            Ok(_) => Ok(fee + self.cents),
        }
    }
}
