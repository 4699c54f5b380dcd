// A search whose drivers are priced in turn.
use branch_tree::search;
use duty_plan::{Case, Gate, Limits, Outcome, Planner};
use minute_line::Memory;
use pricing_pool::make_turns;
use std::alloc::Global;
use std::thread::Threads;

/// Plans by rounds that price one driver after another, on the calling thread. Nobody passes the gate.
#[derive(Clone, Copy, Debug)]
pub struct TurnPlanner;

impl Planner for TurnPlanner {
    fn solve<R: Threads + Sync>(
        &mut self,
        rt: &R,
        gate: &(dyn Gate + Sync),
        alloc: Global,
        case: &Case,
        limits: &Limits,
    ) -> Result<Outcome, Memory> {
        let mut pricer = make_turns(alloc, limits.labels)?;
        search(rt, gate, alloc, case, limits, &mut pricer)
    }
}
