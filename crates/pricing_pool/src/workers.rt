// The workers of a round: one for each driver, with a seat and a scratch of its own.
ghost use Rattle.std.specs.Prelude.{◌≡◌, ◌<◌, ◌≤◌, ℕ, All, length, IfOk};
ghost use Rattle.label_arena.specs.Counting.{times, total};
ghost use Rattle.label_arena.specs.Views.{IsNew, IsReady, RoundName};
ghost use Rattle.duty_plan.specs.Duties.{EachOf};
ghost use Rattle.duty_pricing.specs.Finding.{IsEmpty};
ghost use Rattle.pricing_pool.specs.Pricing.{IsAsked};
ghost use Rattle.pricing_pool.specs.Working.{HasEnded, HasWorked, IsStaffed, MayWork};

use crate::pricing::Asked;
use duty_plan::{Gate, Priced};
use duty_pricing::{Scratch, Slot};
use label_arena::Seat;
use minute_line::{Many, Memory};
use std::alloc::Global;
use std::thread;
use std::thread::Threads;

/// Who prices a driver in a round.
#[derive(Drop)]
pub(crate) struct Worker {
    pub(crate) driver: u32,
    /// The driver who stands for the class of twins of this one. Where that is another, nothing is priced here.
    pub(crate) class: u32,
    pub(crate) seat: Seat<Slot>,
    pub(crate) scratch: Scratch,
    /// What was found; none where memory wanted, or where another driver stands for this one.
    pub(crate) answer: Option<Priced>,
}

/// Passes the gate, and prices the driver unless another stands for him.
fn work(gate: &(dyn Gate + Sync), alloc: Global, asked: &Asked, worker: &mut Worker)
    requires asked { IsAsked asked.now }
    requires worker { MayWork asked.now worker.old }
    ensures { HasWorked asked.now worker.old worker.new }
{
    gate.pass(worker.driver);
    if worker.class != worker.driver {
        return;
    }
    let found = asked.price(alloc, worker.driver, &mut worker.seat, &mut worker.scratch);
    worker.answer = found.ok();
}

/// Has each worker work, in a thread of its own where one can be made.
pub(crate) fn work_all<R: Threads + Sync>(
    rt: &R,
    gate: &(dyn Gate + Sync),
    alloc: Global,
    asked: &Asked,
    workers: &mut [Worker],
)
    requires asked { IsAsked asked.now }
    requires some { 0 < length workers.old }
    requires workers { All (MayWork asked.now) workers.old }
    ensures count { length workers.new ≡ length workers.old }
    ensures worked { EachOf (HasEnded asked.now workers.old) workers.new }
{
    let count = workers.len();
    thread::for_each_mut(
        rt,
        workers,
        count,
        &|_, worker|
            requires asked { IsAsked asked.now }
            requires worker { MayWork asked.now worker.old }
            ensures { HasWorked asked.entry.now worker.old worker.new }
        {
            work(gate, alloc, asked, worker);
        },
    );
}

/// A worker for each driver, with the one who stands for him, a seat and a scratch.
pub(crate) fn staff(
    alloc: Global,
    asked: &Asked,
    classes: &[u32],
    seats: Vec<Seat<Slot>>,
    scratches: &mut Vec<Scratch>,
) -> Result<Vec<Worker>, Memory>
    requires asked { IsAsked asked.now }
    requires classes { length classes.now ≡ length asked.now.case.now.week.drivers }
    requires seats { length seats.items ≡ length classes.now }
    requires new { All (IsNew asked.now.round.now.name) seats.items }
    requires scratches { length classes.now ≤ length scratches.old.items }
    requires empty { All IsEmpty scratches.old.items }
    ensures empty { All IsEmpty scratches.new.items }
    ensures count { IfOk result (λ workers. length workers.items ≡ length classes.now) }
    ensures staff { IfOk result (λ workers. EachOf (IsStaffed classes.now) workers.items) }
    ensures may { IfOk result (λ workers. All (MayWork asked.now) workers.items) }
{
    let mut workers = Vec::with_capacity(alloc, classes.len())?;
    let mut seats = seats;
    'staffing: for driver in 0..asked.case.week.drivers.len() as u32 {
        let (Some(seat), Some(scratch)) = (seats.pop(), scratches.pop()) else {
            unreachable!()
        };
        workers.push_reserved(Worker {
            driver,
            class: classes[driver as usize],
            seat,
            scratch,
            answer: None,
        });
    }
    Ok(workers)
}

/// The seat and the scratch of a worker.
fn dismiss(worker: Worker) -> (Seat<Slot>, Scratch)
    ensures seat { result.0 ≡ worker.seat }
    ensures scratch { result.1 ≡ worker.scratch }
{
    let Worker {
        driver: _,
        class: _,
        seat,
        scratch,
        answer: _,
    } = worker;
    (seat, scratch)
}

/// The seats of the workers. Their scratches join the others.
pub(crate) fn release(
    alloc: Global,
    workers: Vec<Worker>,
    scratches: &mut Vec<Scratch>,
) -> Result<Many<Seat<Slot>>, Memory>
    requires workers { All (λ worker. IsEmpty worker.scratch) workers.items }
    requires empty { All IsEmpty scratches.old.items }
    ensures empty { All IsEmpty scratches.new.items }
    ensures count { IfOk result (λ seats. length seats ≡ length workers.items) }
    ensures ready { (name : RoundName) → All (λ worker. IsReady name worker.seat) workers.items → IfOk result (All (IsReady name)) }
    ensures drawn { IfOk result (λ seats. (number : ℕ) → total (λ seat. times number seat.drawn) seats
        ≡ total (λ worker. times number worker.seat.drawn) workers.items) }
{
    let mut seats = Vec::with_capacity(alloc, workers.len())?;
    let mut workers = workers;
    'releasing: while let Some(worker) = workers.pop() {
        let (seat, scratch) = dismiss(worker);
        seats.push_reserved(seat);
        scratches.push(scratch)?;
    }
    Ok(Many::from_vec(seats))
}
