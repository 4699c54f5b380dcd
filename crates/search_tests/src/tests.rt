// Searches over pricers without chunks, whose answers are plain; and the pairs of a path. What is expected is worked out by
// hand from the rules of a search.
ghost use Rattle.std.specs.Prelude.{◌≡◌, ◌≤◌, ◌==◌, if◌then◌else◌, pos, [], length, IfOk};
ghost use Rattle.std.specs.Thread.{IsSync};
ghost use Rattle.duty_plan.specs.Duties.{IsCase};
ghost use Rattle.branch_tree.specs.Paths.{HasEarlierParents};

use crate::pricers::{Guessing, Spending, Told};
use crate::weeks::{ALIKE, NO_ORDER, ONE_ORDER, TWO_ORDERS, UNLIKE};
use branch_tree::{pairs_of, search};
use duty_plan::{
    Case, Decision, Duty, Gate, Limits, Node, NodeState, Outcome, Pair, Pairs, Priced, Pricer,
    Prices, State, Straight,
};
use minute_line::{Many, Memory};
use sample_weeks::case_of_text;
use std::alloc::Global;
use std::test::Fail;
use std::thread::Threads;

/// A pricer without chunks. Where a week has no order no duty has a value below 0, and the empty duty has it; of all other
/// weeks it says that its memory was spent.
#[derive(Drop)]
struct Homebody;

/// What it answers for each driver.
fn home_answer(alloc: Global, case: &Case) -> Priced
    ensures { result ≡ (if length case.now.week.orders == 0 then Priced.Least (pos 0) (record { steps = [] }) else Priced.Spent 0) }
{
    if case.week.orders.is_empty() {
        Priced::Least(
            0,
            Duty {
                steps: Many::new(alloc),
            },
        )
    } else {
        Priced::Spent(0)
    }
}

impl Pricer for Homebody {
    ghost chunks = { λ _. 0 };

    fn round<R: Threads + Sync>(
        &mut self,
        _rt: &R,
        _gate: &(dyn Gate + Sync),
        alloc: Global,
        case: &Case,
        _pairs: &Pairs,
        _prices: &Prices,
    ) -> Result<Many<Priced>, Memory> {
        let mut answers = Many::new(alloc);
        for _driver in case.week.drivers.as_slice() {
            answers.push(home_answer(alloc, case))?;
        }
        Ok(answers)
    }

    fn guess(
        &mut self,
        alloc: Global,
        case: &Case,
        _pairs: &Pairs,
        _prices: &Prices,
    ) -> Result<Many<Option<Duty>>, Memory> {
        let mut guesses = Many::new(alloc);
        for _driver in case.week.drivers.as_slice() {
            guesses.push(None)?;
        }
        Ok(guesses)
    }
}

/// A week and a number of nodes; and the cost, the bound, the state and the nodes that a search ends with, which no
/// labels were given. Without orders the root is whole and its bound is the cost. Else each round is Spent: of one driver and
/// one order the root has two children, which decide all, where two more nodes fit.
const SEARCHES: [(&str, u32, (u64, u64, State, usize)); 3] = [
    (NO_ORDER, 31, (0, 0, State::Proved, 1)),
    (ONE_ORDER, 31, (9000, 0, State::OpenLabels, 3)),
    (ONE_ORDER, 2, (9000, 0, State::OpenNodes, 1)),
];

#[test]
fn a_search_ends_in_the_state_of_its_budget(rt: HostRuntime) -> Result<(), Fail> {
    let alloc = rt.alloc();
    for (text, nodes, (cost, bound, state, size)) in SEARCHES {
        let case = case_of_text(alloc, text)?;
        let limits = Limits {
            labels: 0,
            nodes,
            rounds: 8,
        };
        assert!(rt; 1 <= nodes && nodes <= 4095);
        let outcome = search(&rt, &Straight, alloc, &case, &limits, &mut Homebody)?;
        assert_eq!(rt; outcome.cost, cost, "{nodes} {text}");
        assert_eq!(rt; outcome.bound, bound, "{nodes} {text}");
        assert_eq!(rt; outcome.tree.len(), size, "{nodes} {text}");
        assert!(rt; outcome.state == state);
    }
    Ok(())
}

/// The outcome of a search without labels over a pricer that answers Spent and guesses so.
fn sought<R: Threads + Sync>(
    rt: &R,
    alloc: Global,
    case: &Case,
    nodes: u32,
    rounds: u32,
    spending: Spending,
    guessing: Guessing,
) -> Result<Outcome, Memory>
    requires sync { IsSync R.row }
    requires case { IsCase case.now }
    requires nodes { (1 ≤ nodes) × (nodes ≤ 4095) }
    requires rounds { (1 ≤ rounds) × (rounds ≤ 100) }
{
    let limits = Limits {
        labels: 0,
        nodes,
        rounds,
    };
    let mut pricer = Told {
        spending,
        guessing,
        rounds: 0,
    };
    search(rt, &Straight, alloc, case, &limits, &mut pricer)
}

/// One answer that is Spent, by its round and its driver; and the cost, the bound, the state and the nodes that a search with two
/// rounds a node ends with.
///
/// Where none is Spent, rounds 0 and 1 are the root's. At 3,000 cents both drivers serve the order and save 1,000: the bound is
/// 3,000 - 2,000, and the plan of one of the duties costs 2,000. At 2,250, a quarter of 3,000 less, they save 250, and the bound
/// is 2,250 - 500. Rounds 2 and 3 are those of the children, who force the order for the first driver and bar it: in each just
/// one driver serves it, and the bound is 2,250 - 250, the cost.
///
/// A Spent at the root leaves it its bound so far, and its prices 3,000 to the children, in whom the bound is 3,000 - 1,000. In
/// the forcing child, where all is decided, it leaves the root's bound; the barring one is open after it, and branched too.
const ONE_SPENT: [(u32, u32, (u64, u64, State, usize)); 8] = [
    (0, 0, (2000, 2000, State::Proved, 3)),
    (0, 1, (2000, 2000, State::Proved, 3)),
    (1, 0, (2000, 2000, State::Proved, 3)),
    (1, 1, (2000, 2000, State::Proved, 3)),
    (2, 0, (2000, 1750, State::OpenLabels, 3)),
    (2, 1, (2000, 1750, State::OpenLabels, 3)),
    (3, 0, (2000, 2000, State::Proved, 5)),
    (3, 1, (2000, 2000, State::Proved, 5)),
];

#[test]
fn a_spent_answer_leaves_what_was_known_before(rt: HostRuntime) -> Result<(), Fail> {
    let alloc = rt.alloc();
    let case = case_of_text(alloc, ALIKE)?;
    for (round, driver, (cost, bound, state, size)) in ONE_SPENT {
        let spending = Spending::At(round, driver);
        let outcome = sought(&rt, alloc, &case, 31, 2, spending, Guessing::Nothing)?;
        assert_eq!(rt; outcome.cost, cost, "{round} {driver}");
        assert_eq!(rt; outcome.bound, bound, "{round} {driver}");
        assert_eq!(rt; outcome.tree.len(), size, "{round} {driver}");
        assert!(rt; outcome.state == state);
    }
    Ok(())
}

/// The round from which on all answers are Spent, and what the same search ends with. The bound is that of the rounds before, and
/// the tree grows until all is decided: the barring child is branched too. Without a whole round no plan is found, and before a
/// fourth round all is proved.
const SPENT_SINCE: [(u32, (u64, u64, State, usize)); 5] = [
    (0, (3000, 0, State::OpenLabels, 5)),
    (1, (2000, 1000, State::OpenLabels, 5)),
    (2, (2000, 1750, State::OpenLabels, 5)),
    (3, (2000, 1750, State::OpenLabels, 5)),
    (4, (2000, 2000, State::Proved, 3)),
];

#[test]
fn the_bound_is_that_of_the_whole_rounds(rt: HostRuntime) -> Result<(), Fail> {
    let alloc = rt.alloc();
    let case = case_of_text(alloc, ALIKE)?;
    for (round, (cost, bound, state, size)) in SPENT_SINCE {
        let spending = Spending::Since(round);
        let outcome = sought(&rt, alloc, &case, 31, 2, spending, Guessing::Nothing)?;
        assert_eq!(rt; outcome.cost, cost, "{round}");
        assert_eq!(rt; outcome.bound, bound, "{round}");
        assert_eq!(rt; outcome.tree.len(), size, "{round}");
        assert!(rt; outcome.state == state);
    }
    Ok(())
}

/// Guesses, and the cost and the bound where one node and one round stay open. Where the round is Spent the trip alone makes a plan
/// that costs less than the subcontractor: of the two drivers who would have it one is refused, since the order is Barred for him
/// once the other serves it. A whole round has that plan already, and its bound of 3,000 - 2,000.
const GUESSES: [(Spending, Guessing, u64, u64); 6] = [
    (Spending::Since(0), Guessing::Nothing, 3000, 0),
    (Spending::Since(0), Guessing::Empty, 3000, 0),
    (Spending::Since(0), Guessing::First, 2000, 0),
    (Spending::Never, Guessing::Nothing, 2000, 1000),
    (Spending::Never, Guessing::Empty, 2000, 1000),
    (Spending::Never, Guessing::First, 2000, 1000),
];

#[test]
fn guesses_change_the_plan_and_no_bound(rt: HostRuntime) -> Result<(), Fail> {
    let alloc = rt.alloc();
    let case = case_of_text(alloc, ALIKE)?;
    for (spending, guessing, cost, bound) in GUESSES {
        let outcome = sought(&rt, alloc, &case, 1, 1, spending, guessing)?;
        assert_eq!(rt; outcome.cost, cost, "{spending:?} {guessing:?}");
        assert_eq!(rt; outcome.bound, bound, "{spending:?} {guessing:?}");
        assert!(rt; outcome.state == State::OpenNodes && outcome.tree.len() == 1);
    }
    Ok(())
}

/// Guesses, and the cost where one node stays open and no round is whole. All given away is 20,000 + 18,000 + 16,000.
///
/// Drivers in turn: the first gains most by A, 20,000 - 8,000, then the second by B, 18,000 - 9,000, the third finds nothing, and so
/// they stay, for 8,000 + 9,000 + 16,000. From any plan in which he has no order the first takes A anew.
///
/// A dive begins with A at 20,000, which all three carry, B at 18,000 and C at 16,000. A falls by 2 x 5,000. At 10,000 the first two
/// carry B and nobody A, so that A rises by 2,500 and B falls by 2,250. At 12,500, 15,750 and 16,000 the first saves 4,500, 7,750 or
/// 8,000 and carries C, the second B and the third A. That is the best round, since its value is the cost of its plan: each driver
/// is fixed so, for 8,000 + 9,000 + 10,000, and no plan costs less.
const DIVES: [(Guessing, u64); 3] = [
    (Guessing::Nothing, 54_000),
    (Guessing::BestAlone, 33_000),
    (Guessing::Best, 27_000),
];

#[test]
fn a_dive_gets_further_than_drivers_in_turn(rt: HostRuntime) -> Result<(), Fail> {
    let alloc = rt.alloc();
    let case = case_of_text(alloc, UNLIKE)?;
    for (guessing, cost) in DIVES {
        let outcome = sought(&rt, alloc, &case, 1, 1, Spending::Never, guessing)?;
        assert_eq!(rt; (outcome.cost, outcome.bound), (cost, 0), "{guessing:?}");
        assert!(rt; outcome.state == State::OpenNodes && outcome.tree.len() == 1);
    }
    Ok(())
}

fn node(alloc: Global, parent: u32, decision: Decision) -> Node
    ensures { result.parent ≡ parent }
{
    Node {
        parent,
        decision,
        prices: Prices {
            cents: Many::new(alloc),
        },
        bound: 0,
        seen: 0,
        state: NodeState::Open,
    }
}

/// The root, a child that forces order 0 for driver 0, and a child of that one that bars order 1 for driver 1.
fn tree(alloc: Global) -> Result<Many<Node>, Memory>
    ensures { IfOk result (λ tree. (length tree ≡ 3) × HasEarlierParents tree) }
{
    let mut tree = Many::new(alloc);
    tree.push(node(alloc, 0, Decision::Root))?;
    tree.push(node(alloc, 1, Decision::Forced(0, 0)))?;
    tree.push(node(alloc, 2, Decision::Barred(1, 1)))?;
    Ok(tree)
}

#[test]
fn a_forced_order_is_barred_for_the_other_driver(rt: HostRuntime) -> Result<(), Fail> {
    let alloc = rt.alloc();
    let case = case_of_text(alloc, TWO_ORDERS)?;
    let tree = tree(alloc)?;
    let pairs = pairs_of(alloc, &case.week, tree.as_slice(), 3)?;
    let wanted = [Pair::Forced, Pair::Free, Pair::Barred, Pair::Barred];
    assert_eq!(rt; pairs.cells.as_slice(), wanted.as_slice());
    Ok(())
}
