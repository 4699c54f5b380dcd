// A search whose drivers are priced side by side.
use branch_tree::search;
use duty_plan::{Case, Gate, Limits, Outcome, Planner};
use minute_line::Memory;
use pricing_pool::make_pool;
use std::alloc::Global;
use std::thread::Threads;

/// Plans by rounds that price all drivers at once, each by a worker who passes the gate first.
#[derive(Clone, Copy, Debug)]
pub struct PoolPlanner;

impl Planner for PoolPlanner {
    fn solve<R: Threads + Sync>(
        &mut self,
        rt: &R,
        gate: &(dyn Gate + Sync),
        alloc: Global,
        case: &Case,
        limits: &Limits,
    ) -> Result<Outcome, Memory> {
        let drivers = case.week.drivers.len() as u32;
        let mut pricer = make_pool(alloc, limits.labels, drivers)?;
        search(rt, gate, alloc, case, limits, &mut pricer)
    }
}
