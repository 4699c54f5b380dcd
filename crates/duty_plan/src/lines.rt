// The line that a duty's steps give.
ghost use Rattle.std.specs.Prelude.{◌≡◌, ◌<◌, ◌++◌, IfOk, OnOk, length};
ghost use Rattle.duty_plan.specs.Duties.{IsCase, partial_of, open_off_at};
ghost use Rattle.duty_plan.specs.Stints.{stay_stints, stints_of, HasLine};

use crate::duties::Duty;
use crate::office::{minutes_at, place_after};
use crate::plans::Case;
use hours_rules::Stay;
use minute_line::{Kind, Line, Many, Mark, Memory, Stint};
use std::alloc::Global;

/// Adds the stints of a stay.
fn push_stay(stints: &mut Many<Stint>, stay: &Stay) -> Result<(), Memory>
    ensures { OnOk result (stints.new ≡ stints.old ++ stay_stints stay.now) }
{
    if stay.ready > 0 {
        stints.push(Stint {
            mark: Mark::Ready,
            minutes: stay.ready,
            kind: Kind::Plain,
        })?;
    }
    if stay.off > 0 || stay.kind.is_rest() {
        stints.push(Stint {
            mark: Mark::Off,
            minutes: stay.off,
            kind: stay.kind,
        })?;
    }
    Ok(())
}

/// The stints that a driver's duty gives, one step's after another's: the stay's Ready minutes, its Off minutes with
/// their kind, the act's minutes. A part without a minute gives none, but for a first daily or weekly rest, which
/// declares the open off run of the history even where it adds no minute.
///
/// The stays have lawful lengths, and each act names an order of the week, or a road from where the driver is. No other
/// office rule is asked.
pub fn line_of(alloc: Global, case: &Case, driver: u32, duty: &Duty) -> Result<Line, Memory>
    requires case { IsCase case.now }
    requires driver { driver < length case.now.week.drivers }
    requires steps { HasLine case.now.week (open_off_at case.now driver) (partial_of duty.now) }
    ensures { IfOk result (λ line. line.stints ≡ stints_of case.now.week (partial_of duty.now)) }
{
    let mut stints = Many::new(alloc);
    let mut place = 0;
    for step in duty.steps.as_slice() {
        push_stay(&mut stints, &step.stay)?;
        stints.push(Stint {
            mark: step.act.mark(),
            minutes: minutes_at(&case.week, place, step.act),
            kind: Kind::Plain,
        })?;
        place = place_after(step.act, place);
    }
    Ok(Line { stints })
}
