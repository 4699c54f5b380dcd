// The clock after a stay and an act, or the first fault in their minutes.
ghost use Rattle.std.specs.Prelude.{◌≡◌, ℕ, ◌+◌, ◌≤◌, ◌<◌, true, IfOk};
ghost use Rattle.minute_line.specs.declared.lines.TheConstants.{WEEK_MINUTES};
ghost use Rattle.minute_line.specs.Marks.{is_duty, is_working, is_rest};
ghost use Rattle.hours_rules.specs.Standing.{IsClock};
ghost use Rattle.hours_rules.specs.Bounds.{IsWithin};
ghost use Rattle.hours_rules.specs.Going.{AnswersBlock, AnswersStay};

use crate::{Broken, Clock, Stay};
use minute_line::{Kind, Mark};

/// The clock after some on-duty minutes, or the first fault in them.
fn go_on(clock: &Clock, mark: Mark, kind: Kind, minutes: u32) -> Result<Clock, Broken>
    requires within { IsWithin 80000 clock.now }
    requires duty { is_duty mark ≡ true }
    requires some { 0 < minutes }
    requires few { minutes ≤ 20000 }
    ensures block { AnswersBlock clock.now mark kind minutes result }
    ensures within { (n : ℕ) → IsWithin n clock.now → IfOk result (λ c. IsWithin (n + minutes + 1) c) }
{
    let ended = clock.end_run(kind);
    match clock.first_fault(&ended, mark, kind, minutes) {
        Some(broken) => Err(broken),
        None => Ok(ended.tick(mark, minutes)),
    }
}

/// The clock after on-duty minutes of one mark, which may be none, or the first fault in them.
#[inline(always)]
pub(crate) fn on_duty(clock: &Clock, mark: Mark, kind: Kind, minutes: u32) -> Result<Clock, Broken>
    requires within { IsWithin 80000 clock.now }
    requires duty { is_duty mark ≡ true }
    requires few { minutes ≤ 20000 }
    ensures block { AnswersBlock clock.now mark kind minutes result }
    ensures within { (n : ℕ) → IsWithin n clock.now → IfOk result (λ c. IsWithin (n + minutes + 1) c) }
{
    if minutes == 0 {
        return Ok(*clock);
    }
    go_on(clock, mark, kind, minutes)
}

/// The clock of the line with a stay and an act of some Drive or Work minutes more, where each rule holds at each of these
/// minutes; or else the first of them at which a rule fails, with the least rule there. The minutes before them are not judged
/// again.
///
/// The stay's Off minutes break no rule: what their run was declared to be is judged at the act's first minute. No Ready minutes
/// follow an open off run, and a stay that is declared a rest has an off run, its own or the open one.
pub fn go(clock: &Clock, stay: Stay, mark: Mark, minutes: u32) -> Result<Clock, Broken>
    requires clock { IsClock clock.now }
    requires act { is_working mark ≡ true }
    requires some { 0 < minutes }
    requires end { clock.now.at + stay.ready + stay.off + minutes ≤ WEEK_MINUTES }
    requires ready { 0 < clock.now.off → stay.ready ≡ 0 }
    requires run { is_rest stay.kind ≡ true → 0 < clock.now.off + stay.off }
    ensures line { AnswersStay clock.now stay mark minutes result }
    ensures clock { IfOk result IsClock }
{
    let waited = on_duty(clock, Mark::Ready, Kind::Plain, stay.ready)?;
    let stayed = waited.add_off(stay.off);
    on_duty(&stayed, mark, stay.kind, minutes)
}
