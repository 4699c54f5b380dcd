// The rounds of a node.
ghost use Rattle.std.specs.Prelude.{◌≡◌, ℕ, ◌≤◌, IfOk};
ghost use Rattle.std.specs.Thread.{IsSync};
ghost use Rattle.duty_plan.specs.Duties.{IsCase};
ghost use Rattle.duty_plan.specs.Values.{IsPairs, IsPrices};
ghost use Rattle.duty_plan.specs.LabelLists.{chunks_for};
ghost use Rattle.duty_plan.specs.Trees.{IsLimits};
ghost use Rattle.price_master.specs.Laws.{ForcesOnce};
ghost use Rattle.price_master.specs.Pools.{IsPool};
ghost use Rattle.branch_tree.specs.Growth.{IsKept};
ghost use Rattle.branch_tree.specs.Leaving.{HasRan};

use crate::answers::{counts, has_none, is_whole, values};
use crate::keeping::Kept;
use crate::leaves::{copied, evens, is_decided, state_of};
use crate::taking::take_round;
use duty_plan::{Case, Decision, Gate, Limits, Node, NodeStart, NodeState, Pricer, Prices};
use minute_line::{Many, Memory};
use price_master::{lagrange, next_prices};
use std::alloc::Global;
use std::thread::Threads;

/// A leaf, and a number for each order that isn't 1 where the order is uneven after its rounds.
#[derive(Drop)]
pub(crate) struct Leaf {
    pub node: Node,
    pub counts: Many<u32>,
}

/// The leaf that rounds leave, which was not branched.
fn leaf_of(
    parent: u32,
    decision: Decision,
    prices: Prices,
    bound: u64,
    state: NodeState,
    counts: Many<u32>,
) -> Leaf
    ensures node { result.node ≡ record { parent = parent; decision = decision; prices = prices; bound = bound; seen = 0; state = state } }
    ensures counts { result.counts ≡ counts }
{
    Leaf {
        node: Node {
            parent,
            decision,
            prices,
            bound,
            seen: 0,
            state,
        },
        counts,
    }
}

/// What all rounds of a search share: who runs them, and the case and the limits that they are for.
#[derive(Drop)]
pub(crate) struct Task<'a, R> {
    pub rt: &'a R,
    pub alloc: Global,
    pub case: &'a Case,
    pub limits: &'a Limits,
}

/// Runs the rounds of a node that begins so.
pub(crate) fn run_node<R: Threads + Sync, P: Pricer>(
    task: &Task<'_, R>,
    gate: &(dyn Gate + Sync),
    pricer: &mut P,
    kept: &mut Kept,
    start: &NodeStart,
    parent: u32,
    decision: Decision,
) -> Result<Leaf, Memory>
    requires sync { IsSync R.row }
    requires case { IsCase task.now.case.now }
    requires limits { IsLimits task.now.limits.now }
    requires chunks { P.chunks pricer.old ≡ chunks_for task.now.limits.now.labels }
    requires pairs { IsPairs task.now.case.now.week start.now.pairs }
    requires prices { IsPrices task.now.case.now.week start.now.prices }
    requires once { ForcesOnce task.now.case.now.week start.now.pairs }
    requires kept { IsKept task.now.case.now kept.old.plan kept.old.cost }
    requires pool { IsPool task.now.case.now kept.old.pool }
    ensures ran { IfOk result (λ leaf. HasRan task.now.case.now task.now.limits.now kept.new.cost start.now leaf.node leaf.counts) }
    ensures parent { IfOk result (λ leaf. leaf.node.parent ≡ parent) }
    ensures decision { IfOk result (λ leaf. leaf.node.decision ≡ decision) }
    ensures prices { IfOk result (λ leaf. IsPrices task.now.case.now.week leaf.node.prices) }
    ensures kept { IsKept task.now.case.now kept.new.plan kept.new.cost }
    ensures falls { kept.new.cost ≤ kept.old.cost }
    ensures pool { IsPool task.now.case.now kept.new.pool }
    ensures chunks { P.chunks pricer.new ≡ P.chunks pricer.old }
{
    let alloc = task.alloc;
    let case = task.case;
    let decided = is_decided(&case.week, &start.pairs);
    let mut bound = start.bound;
    let mut prices = copied(alloc, &start.prices)?;
    let mut now = copied(alloc, &start.prices)?;
    let mut carried = evens(alloc, &case.week)?;
    let mut k = 0;
    loop {
        let answers = pricer.round(task.rt, gate, alloc, case, &start.pairs, &now)?;
        if !is_whole(answers.as_slice()) {
            let state = state_of(has_none(answers.as_slice()), kept.cost <= bound, decided);
            return Ok(leaf_of(parent, decision, prices, bound, state, carried));
        }
        take_round(alloc, case, kept, answers.as_slice())?;
        let least = values(alloc, answers.as_slice())?;
        carried = counts(alloc, &case.week, answers.as_slice())?;
        let value = lagrange(&case.week, &start.pairs, &now, &least);
        if value > bound {
            bound = value;
            prices = copied(alloc, &now)?;
        }
        if k + 1 == task.limits.rounds || decided || kept.cost <= bound {
            let state = state_of(false, kept.cost <= bound, decided);
            return Ok(leaf_of(parent, decision, prices, bound, state, carried));
        }
        next_prices(&case.week, &mut now, &carried, k);
        k += 1;
    }
}
