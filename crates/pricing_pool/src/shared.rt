// A round whose workers share the chunks.
ghost use Rattle.std.specs.Prelude.{◌≡◌, ◌<◌, ◌≤◌, ℕ, All, length, slice_index, IfOk};
ghost use Rattle.label_arena.specs.Counting.{once_below, times, total};
ghost use Rattle.label_arena.specs.Views.{IsNew, IsReady};
ghost use Rattle.duty_plan.specs.Rounds.{IsRound};
ghost use Rattle.duty_plan.specs.SharedRounds.{AreClasses};
ghost use Rattle.duty_pricing.specs.Finding.{IsEmpty};
ghost use Rattle.pricing_pool.specs.Pricing.{IsAsked};

use crate::answers::answers_of;
use crate::pricing::Asked;
use crate::workers::{release, staff, work_all};
use duty_plan::{Gate, Priced};
use duty_pricing::{Scratch, Slot};
use label_arena::Seat;
use minute_line::{Many, Memory};
use std::alloc::Global;
use std::thread::Threads;

/// The answers for all drivers, each by a worker with one of the seats, and the seats, which hold nothing then. They are a round once
/// it is known that the numbers that the seats drew are those below some number, each drawn once.
pub(crate) fn price_shared<R: Threads + Sync>(
    rt: &R,
    gate: &(dyn Gate + Sync),
    alloc: Global,
    asked: &Asked,
    classes: &[u32],
    seats: Many<Seat<Slot>>,
    scratches: &mut Vec<Scratch>,
) -> Result<(Many<Priced>, Many<Seat<Slot>>), Memory>
    requires asked { IsAsked asked.now }
    requires some { 0 < length asked.now.case.now.week.drivers }
    requires drivers { length classes.now ≡ length asked.now.case.now.week.drivers }
    requires classes { AreClasses asked.now.case.now asked.now.pairs.now (slice_index classes.now) }
    requires seats { length seats ≡ length classes.now }
    requires new { All (IsNew asked.now.round.now.name) seats }
    requires scratches { length classes.now ≤ length scratches.old.items }
    requires empty { All IsEmpty scratches.old.items }
    ensures empty { All IsEmpty scratches.new.items }
    ensures seats { IfOk result (λ done. length done.1 ≡ length seats) }
    ensures ready { IfOk result (λ done. All (IsReady asked.now.round.now.name) done.1) }
    ensures round { IfOk result (λ done. (counter : ℕ) →
        ((number : ℕ) → total (λ seat. times number seat.drawn) done.1 ≡ once_below number counter)
        → IsRound asked.now.round.now.chunks asked.now.case.now asked.now.pairs.now asked.now.prices.now done.0) }
{
    let mut workers = staff(alloc, asked, classes, seats.into_vec(), scratches)?;
    work_all(rt, gate, alloc, asked, &mut workers);
    let answers = answers_of(alloc, &workers)?;
    let seats = release(alloc, workers, scratches)?;
    Ok((answers, seats))
}
