// The week that a seed makes: planned, and summed up.
ghost use Rattle.std.specs.Prelude.{◌≡◌, ◌≤◌, ⊤, length};
ghost use Rattle.desk_csv.specs.declared.reading.TheConstants.{TEXT_LIMIT};
ghost use Rattle.duty_plan.specs.Trees.{IsLimits};
ghost use Rattle.week_maker.specs.MadeWeeks.{made_text};
ghost use Rattle.desk.specs.Office.{device};
ghost use Rattle.desk.specs.Saying.{SaysMade, AnswersMade};
ghost use Rattle.desk.specs.Running.{IsTold};

use crate::running::{WANT_OF_MEMORY, tell, tell_refusal};
use desk_core::{Refusal, Solved, Stop, solve_text};
use desk_csv::TEXT_LIMIT;
use desk_io::Sink;
use desk_report::summary;
use duty_plan::{Gate, Limits};
use minute_line::Bytes;
use planners::TurnPlanner;
use std::alloc::Global;
use std::thread::Threads;
use week_maker::{ROW_COUNT, make_week};

/// The summary of a made text, planned with the histories that it has; or why it is refused, as any text.
fn planned<R: Threads + Sync>(
    rt: &R,
    gate: &(dyn Gate + Sync),
    alloc: Global,
    seed: u64,
    limits: &Limits,
    text: &Bytes,
) -> Result<Bytes, Stop>
    requires limits { IsLimits limits.now }
    requires made { text.now ≡ made_text seed }
    requires length { length text.now ≤ TEXT_LIMIT }
    ensures { AnswersMade seed limits.now result }
{
    let Solved { case, outcome } = solve_text(rt, gate, alloc, text, limits, &mut TurnPlanner)?;
    Ok(summary(alloc, seed, &case.week, ROW_COUNT, &outcome)?)
}

/// The summary of the week that a seed makes.
fn made_week<R: Threads + Sync>(
    rt: &R,
    gate: &(dyn Gate + Sync),
    alloc: Global,
    seed: u64,
    limits: &Limits,
) -> Result<Bytes, Stop>
    requires { IsLimits limits.now }
    ensures { AnswersMade seed limits.now result }
{
    let text = make_week(alloc, seed)?;
    if text.len() > TEXT_LIMIT {
        return Err(Stop::Refused(Refusal::Long));
    }
    planned(rt, gate, alloc, seed, limits, &text)
}

/// Tells the summary of a made week.
pub(crate) fn make<R: Threads + Sync, K: Sink>(
    rt: &R,
    gate: &(dyn Gate + Sync),
    alloc: Global,
    seed: u64,
    limits: &Limits,
    sink: &mut K,
) -> u8
    requires { IsLimits limits.now }
    ensures { IsTold (SaysMade seed limits.now) ⊤ (device (K.held sink.old) (K.faults sink.old)) (device (K.held sink.new) (K.faults sink.new)) result }
{
    match made_week(rt, gate, alloc, seed, limits) {
        Ok(text) => tell(sink, text.as_slice(), 0),
        Err(Stop::Refused(refusal)) => tell_refusal(alloc, &refusal, sink),
        Err(Stop::Fault) => unreachable!(),
        Err(Stop::Memory) => WANT_OF_MEMORY,
    }
}
