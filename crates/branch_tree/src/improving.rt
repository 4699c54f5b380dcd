// A cheaper plan where the search leaves an open leaf.
ghost use Rattle.std.specs.Prelude.{◌≡◌, ◌≤◌, length, IfOk};
ghost use Rattle.duty_plan.specs.Duties.{IsCase};
ghost use Rattle.branch_tree.specs.Growth.{IsKept};
ghost use Rattle.branch_tree.specs.Searching.{HasNoNext};

use crate::choosing::next_node;
use crate::keeping::Kept;
use cheap_plans::{Incumbent, improve};
use duty_plan::{Case, Node, Pricer};
use minute_line::Memory;
use std::alloc::Global;

/// The kept plan, or a cheaper one by the pricer's guesses where an open leaf is left whose bound is below the cost.
pub(crate) fn improve_open<P: Pricer>(
    alloc: Global,
    case: &Case,
    pricer: &mut P,
    tree: &[Node],
    kept: Kept,
) -> Result<Kept, Memory>
    requires case { IsCase case.now }
    requires few { length tree.now ≤ 4095 }
    requires kept { IsKept case.now kept.plan kept.cost }
    ensures kept { IfOk result (λ better. IsKept case.now better.plan better.cost) }
    ensures falls { IfOk result (λ better. better.cost ≤ kept.cost) }
    ensures stays { HasNoNext kept.cost tree.now → IfOk result (λ better. better ≡ kept) }
    ensures chunks { P.chunks pricer.new ≡ P.chunks pricer.old }
{
    if next_node(tree, kept.cost).is_none() {
        return Ok(kept);
    }
    let Kept { plan, cost, pool } = kept;
    let better = improve(alloc, case, pricer, Incumbent { plan, cost })?;
    Ok(Kept {
        plan: better.plan,
        cost: better.cost,
        pool,
    })
}
