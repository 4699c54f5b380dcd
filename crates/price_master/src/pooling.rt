// Duties that are kept from round to round, for plans of several of them.
ghost use Rattle.std.specs.Prelude.{◌≡◌, ◌<◌, ◌≤◌, ◌↔◌, [], List, Some, slice_get, length, map, replicate, IfOk, IsTrue, OnErr, OnOk};
ghost use Rattle.duty_plan.specs.declared.plans.Case.{Case as GhostCase};
ghost use Rattle.duty_plan.specs.Duties.{IsCase, IsLawful, cost_after, partial_of};
ghost use Rattle.price_master.specs.declared.pooling.Pooled.{Pooled as GhostPooled};
ghost use Rattle.price_master.specs.Pools.{AddsDuty, AddsTo, IsAmong, IsPool};

use duty_plan::{Case, Duty, check_duty};
use minute_line::Memory;
use std::alloc::Global;
use std::marker::Model;

/// The most duties that are kept for one driver.
const MOST: usize = 64;

/// A duty of a driver, and what it costs in cents.
#[derive(Drop)]
pub struct Pooled {
    pub duty: Duty,
    pub cost: u64,
}

/// For each driver the duties that were kept, the oldest first. Contracts see it as the list of these lists.
#[derive(Drop)]
pub struct Pool {
    drivers: Vec<Vec<Pooled>>,
}

impl Model for Pool {
    ghost Value = { List (List GhostPooled) };

    ghost view = { λ pool. map (λ pooled. pooled.items) pool.drivers.items };
}

/// A pool without duties, for that many drivers.
pub fn empty_pool(alloc: Global, drivers: u32) -> Result<Pool, Memory>
    ensures empty { IfOk result (λ pool. pool ≡ replicate drivers []) }
    ensures pool { IfOk result (λ pool. (case : GhostCase) → length case.week.drivers ≡ drivers → IsPool case pool) }
{
    let mut lists = Vec::new(alloc);
    for _driver in 0..drivers {
        lists.push(Vec::new(alloc))?;
    }
    Ok(Pool { drivers: lists })
}

impl Pool {
    /// The duties of the driver, the oldest first.
    pub fn of(&self, driver: u32) -> &[Pooled]
        requires { driver < length self.now }
        ensures { slice_get self.now driver ≡ Some result.now }
    {
        self.drivers[driver as usize].as_slice()
    }
}

/// Whether the duties have the same steps.
fn is_same(one: &Duty, other: &Duty) -> bool
    ensures { IsTrue result ↔ (one.now ≡ other.now) }
{
    one.steps.as_slice() == other.steps.as_slice()
}

/// Whether the duty is among these.
fn holds(pooled: &[Pooled], duty: &Duty) -> bool
    ensures { IsTrue result ↔ IsAmong pooled.now duty.now }
{
    for entry in pooled {
        if is_same(&entry.duty, duty) {
            return true;
        }
    }
    false
}

/// Keeps one duty more of a driver's. One that is kept already is not kept twice, and where there are 64 the oldest goes.
fn keep(pooled: &mut Vec<Pooled>, entry: Pooled) -> Result<(), Memory>
    requires { length pooled.old.items ≤ 64 }
    ensures added { OnOk result (AddsDuty entry pooled.old.items pooled.new.items) }
    ensures stays { OnErr result (pooled.new.items ≡ pooled.old.items) }
{
    if holds(pooled.as_slice(), &entry.duty) {
        return Ok(());
    }
    pooled.push(entry)?;
    if pooled.len() > MOST {
        pooled.remove(0);
    }
    Ok(())
}

impl Pool {
    /// Keeps a lawful duty of the driver, with its cost. One that is kept already is not kept twice, and a driver of 64
    /// duties loses the oldest.
    pub fn add(&mut self, case: &Case, driver: u32, duty: Duty) -> Result<(), Memory>
        requires case { IsCase case.now }
        requires driver { driver < length case.now.week.drivers }
        requires duty { IsLawful case.now driver duty }
        requires pool { IsPool case.now self.old }
        ensures added { OnOk result (AddsTo driver (record { duty = duty; cost = cost_after case.now driver (partial_of duty) }) self.old self.new) }
        ensures stays { OnErr result (self.new ≡ self.old) }
        ensures pool { IsPool case.now self.new }
    {
        let cost = match check_duty(case, driver, &duty) {
            Ok(cost) => cost,
            Err(_) => unreachable!(),
        };
        keep(&mut self.drivers[driver as usize], Pooled { duty, cost })
    }
}
