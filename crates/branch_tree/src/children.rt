// The two children of a node.
ghost use Rattle.std.specs.Prelude.{◌≡◌, ℕ, ◌+◌, ◌≤◌, ◌++◌, ◌∷◌, [], List, length, IfOk, Some, slice_get};
ghost use Rattle.std.specs.Thread.{IsSync};
ghost use Rattle.duty_plan.specs.declared.nodes.Node.{Node as GhostNode};
ghost use Rattle.week_book.specs.Weeks.{IsWeek};
ghost use Rattle.duty_plan.specs.Duties.{IsCase};
ghost use Rattle.duty_plan.specs.Nodes.{IsNode};
ghost use Rattle.duty_plan.specs.Values.{IsPrices};
ghost use Rattle.duty_plan.specs.LabelLists.{chunks_for};
ghost use Rattle.duty_plan.specs.Trees.{IsLimits};
ghost use Rattle.price_master.specs.Pools.{IsPool};
ghost use Rattle.branch_tree.specs.Growth.{IsKept, branched_at};
ghost use Rattle.branch_tree.specs.Paths.{HasEarlierParents};
ghost use Rattle.branch_tree.specs.Searching.{IsNextNode, IsSearching, IsStartUnder};

use crate::choosing::next_pair;
use crate::keeping::Kept;
use crate::leaves::copied;
use crate::pairing::{pairs_of, pairs_under};
use crate::rounds::{Leaf, Task, run_node};
use duty_plan::{Decision, Gate, Node, NodeStart, Pricer};
use minute_line::{Many, Memory};
use std::alloc::Global;
use std::thread::Threads;
use week_book::Week;

/// How a child of the node of that number begins.
fn start_under(
    alloc: Global,
    week: &Week,
    tree: &[Node],
    number: u32,
    decision: Decision,
) -> Result<NodeStart, Memory>
    requires week { IsWeek week.now }
    requires number { (1 ≤ number) × (number ≤ length tree.now) }
    requires parents { HasEarlierParents tree.now }
    ensures { IfOk result (λ start. IsStartUnder week.now tree.now number decision start) }
{
    let node = &tree[number as usize - 1];
    Ok(NodeStart {
        pairs: pairs_under(alloc, week, tree, number, decision)?,
        bound: node.bound,
        prices: copied(alloc, &node.prices)?,
    })
}

/// The children of the node of that number, each after its rounds: the forcing one, then the barring one.
pub(crate) fn children<R: Threads + Sync, P: Pricer>(
    task: &Task<'_, R>,
    gate: &(dyn Gate + Sync),
    pricer: &mut P,
    kept: &mut Kept,
    tree: &[Node],
    counts: &[Many<u32>],
    number: u32,
) -> Result<(Leaf, Leaf), Memory>
    requires sync { IsSync R.row }
    requires case { IsCase task.now.case.now }
    requires limits { IsLimits task.now.limits.now }
    requires chunks { P.chunks pricer.old ≡ chunks_for task.now.limits.now.labels }
    requires kept { IsKept task.now.case.now kept.old.plan kept.old.cost }
    requires pool { IsPool task.now.case.now kept.old.pool }
    requires number { (1 ≤ number) × (number ≤ length tree.now) }
    requires parents { HasEarlierParents tree.now }
    requires priced { (k : ℕ) (node : GhostNode) → IsNode tree.now k node → IsPrices task.now.case.now.week node.prices }
    requires as_many { length counts.now ≡ length tree.now }
    requires counted { (n : ℕ) (count : List ℕ) → slice_get counts.now n ≡ Some count → length count ≡ length task.now.case.now.week.orders }
    requires search { IsSearching task.now.case.now task.now.limits.now kept.old.plan kept.old.cost tree.now counts.now }
    requires next { IsNextNode kept.old.cost tree.now number }
    requires room { length tree.now + 2 ≤ task.now.limits.now.nodes }
    ensures grows { IfOk result (λ leaves. (node : GhostNode) → IsNode tree.now number node →
        IsSearching task.now.case.now task.now.limits.now kept.new.plan kept.new.cost
        (branched_at tree.now number kept.old.cost node leaves.0.node leaves.1.node) (counts.now ++ leaves.0.counts ∷ leaves.1.counts ∷ [])) }
    ensures kept { IsKept task.now.case.now kept.new.plan kept.new.cost }
    ensures falls { kept.new.cost ≤ kept.old.cost }
    ensures pool { IsPool task.now.case.now kept.new.pool }
    ensures chunks { P.chunks pricer.new ≡ P.chunks pricer.old }
{
    let alloc = task.alloc;
    let week = &task.case.week;
    let count = &counts[number as usize - 1];
    let here = pairs_of(alloc, week, tree, number)?;
    let Some((driver, order)) = next_pair(week, &here, count.as_slice()) else {
        unreachable!()
    };
    let force = Decision::Forced(driver, order);
    let bar = Decision::Barred(driver, order);
    let forced = start_under(alloc, week, tree, number, force)?;
    let barred = start_under(alloc, week, tree, number, bar)?;
    let one = run_node(task, gate, pricer, kept, &forced, number, force)?;
    let two = run_node(task, gate, pricer, kept, &barred, number, bar)?;
    Ok((one, two))
}
