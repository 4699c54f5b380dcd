// Which drivers a pass frees.
ghost use Rattle.std.specs.Prelude.{◌≡◌, ◌<◌, ◌≤◌, length, IfOk};
ghost use Rattle.duty_plan.specs.Duties.{IsCase};
ghost use Rattle.cheap_plans.specs.Drafts.{IsDraft};

use crate::drafts::{Draft, no_duty};
use duty_plan::{Case, Duty, copied_duty};
use minute_line::{Many, Memory};
use seeded_draws::Draws;
use std::alloc::Global;

/// How many of the duties aren't empty.
pub(crate) fn used(duties: &[Duty]) -> u32
    requires { length duties.now ≤ 16 }
    ensures { result ≤ length duties.now }
{
    let mut count = 0;
    for duty in duties {
        if !duty.steps.is_empty() {
            count += 1;
        }
    }
    count
}

/// For each driver whether a pass may free him: each used one, and the first idle one.
fn candidates(alloc: Global, duties: &[Duty]) -> Result<Many<bool>, Memory>
    ensures { IfOk result (λ may. length may ≡ length duties.now) }
{
    let mut may = Many::new(alloc);
    let mut has_idle = false;
    for duty in duties {
        let is_idle = duty.steps.is_empty();
        may.push(!(is_idle && has_idle))?;
        has_idle = has_idle || is_idle;
    }
    Ok(may)
}

/// How many of these are true.
fn count_of(these: &[bool]) -> u32
    requires { length these.now ≤ 16 }
    ensures { result ≤ length these.now }
{
    let mut count = 0;
    for is_true in these {
        if *is_true {
            count += 1;
        }
    }
    count
}

/// For each driver whether this pass frees him: a drawn number, at least two, of those whom it may free.
fn drawn(alloc: Global, may: &[bool], draws: &mut Draws) -> Result<Many<bool>, Memory>
    requires { length may.now ≤ 16 }
    ensures { IfOk result (λ freed. length freed ≡ length may.now) }
{
    let mut left = count_of(may);
    let mut wanted = 2 + draws.draw(left.saturating_sub(1).max(1));
    let mut freed = Many::new(alloc);
    for is_candidate in may {
        let is_freed = *is_candidate && draws.draw(left.max(1)) < wanted;
        freed.push(is_freed)?;
        wanted = wanted.saturating_sub(u32::from(is_freed));
        left = left.saturating_sub(u32::from(*is_candidate));
    }
    Ok(freed)
}

/// A copy of the duty of a driver who isn't freed, and the empty duty of one who is.
fn kept_duty(alloc: Global, duty: &Duty, is_freed: bool) -> Result<Duty, Memory> {
    if is_freed {
        Ok(no_duty(alloc))
    } else {
        copied_duty(alloc, duty)
    }
}

/// The duties of the drivers who aren't freed, and empty ones.
fn kept_duties(alloc: Global, duties: &[Duty], freed: &[bool]) -> Result<Many<Duty>, Memory>
    requires { length freed.now ≡ length duties.now }
    ensures { IfOk result (λ kept. length kept ≡ length duties.now) }
{
    let mut kept = Many::new(alloc);
    for driver in 0..duties.len() {
        kept.push(kept_duty(alloc, &duties[driver], freed[driver])?)?;
    }
    Ok(kept)
}

/// The duties with some drivers freed, whom the draws name among those who have a duty and one who has none.
pub(crate) fn some_freed(
    alloc: Global,
    case: &Case,
    duties: &[Duty],
    draws: &mut Draws,
) -> Result<Draft, Memory>
    requires case { IsCase case.now }
    requires duties { length duties.now ≡ length case.now.week.drivers }
    ensures { IfOk result (IsDraft case.now) }
{
    let may = candidates(alloc, duties)?;
    let freed = drawn(alloc, may.as_slice(), draws)?;
    let kept = kept_duties(alloc, duties, freed.as_slice())?;
    Ok(Draft {
        duties: kept,
        freed,
    })
}
