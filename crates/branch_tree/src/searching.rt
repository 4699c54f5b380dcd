// The search.
ghost use Rattle.std.specs.Prelude.{◌≡◌, IfOk};
ghost use Rattle.std.specs.Thread.{IsSync};
ghost use Rattle.week_book.specs.Weeks.{IsWeek};
ghost use Rattle.duty_plan.specs.Duties.{IsCase};
ghost use Rattle.duty_plan.specs.LabelLists.{chunks_for};
ghost use Rattle.duty_plan.specs.Trees.{IsLimits, IsRight, IsWithinReach};
ghost use Rattle.duty_plan.specs.declared.outcomes.State.TheVariants.{Proved};
ghost use Rattle.branch_tree.specs.Searching.{IsRootStart};

use crate::children::children;
use crate::choosing::next_node;
use crate::ending::{finish, turned_node};
use crate::improving::improve_open;
use crate::keeping::first_kept;
use crate::pairing::pairs_under;
use crate::rounds::{Task, run_node};
use duty_plan::{Case, Decision, Gate, Limits, NodeStart, Outcome, Pricer};
use minute_line::{Many, Memory};
use price_master::start_prices;
use std::alloc::Global;
use std::thread::Threads;
use week_book::Week;

/// How the root begins.
fn root_start(alloc: Global, week: &Week) -> Result<NodeStart, Memory>
    requires week { IsWeek week.now }
    ensures { IfOk result (λ start. IsRootStart week.now start) }
{
    Ok(NodeStart {
        pairs: pairs_under(alloc, week, &[], 0, Decision::Root)?,
        bound: 0,
        prices: start_prices(alloc, week)?,
    })
}

/// Searches for a cheap plan of the case, within the limits: a lawful plan at its cost, a bound that no lawful plan beats,
/// and the tree that shows it. Where the tree is left with an open leaf, the pricer's guesses make the plan cheaper at the
/// end. Limits with nodes and labels enough for every tree and pricing leave the cost proved.
pub fn search<R: Threads + Sync, P: Pricer>(
    rt: &R,
    gate: &(dyn Gate + Sync),
    alloc: Global,
    case: &Case,
    limits: &Limits,
    pricer: &mut P,
) -> Result<Outcome, Memory>
    requires sync { IsSync R.row }
    requires case { IsCase case.now }
    requires limits { IsLimits limits.now }
    requires chunks { P.chunks pricer.old ≡ chunks_for limits.now.labels }
    ensures right { IfOk result (λ outcome. IsRight case.now limits.now outcome) }
    ensures proved { IfOk result (λ outcome. IsWithinReach case.now limits.now → outcome.state ≡ Proved) }
    ensures chunks { P.chunks pricer.new ≡ P.chunks pricer.old }
{
    let task = Task {
        rt,
        alloc,
        case,
        limits,
    };
    let mut kept = first_kept(alloc, case)?;
    let mut tree = Many::new(alloc);
    let start = root_start(alloc, &case.week)?;
    let root = run_node(&task, gate, pricer, &mut kept, &start, 0, Decision::Root)?;
    tree.push(root.node)?;
    let mut counts = Many::new(alloc);
    counts.push(root.counts)?;
    while tree.len() + 2 <= limits.nodes as usize {
        let Some(number) = next_node(tree.as_slice(), kept.cost) else {
            return finish(alloc, kept, tree.as_slice());
        };
        let cost = kept.cost;
        let (one, two) = children(
            &task,
            gate,
            pricer,
            &mut kept,
            tree.as_slice(),
            counts.as_slice(),
            number,
        )?;
        let place = number as usize - 1;
        let node = turned_node(alloc, &tree.as_slice()[place], cost)?;
        tree.set(place, node);
        tree.push(one.node)?;
        tree.push(two.node)?;
        counts.push(one.counts)?;
        counts.push(two.counts)?;
    }
    let better = improve_open(alloc, case, pricer, tree.as_slice(), kept)?;
    finish(alloc, better, tree.as_slice())
}
