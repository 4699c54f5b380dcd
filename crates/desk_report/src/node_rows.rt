// The rows of the nodes.
ghost use Rattle.std.specs.Prelude.{◌≡◌, ◌++◌, ◌∷◌, [], ◌+◌, OnOk, IfOk, length, map, codes};
ghost use Rattle.std.specs.Fmt.{decimal};
ghost use Rattle.desk_report.specs.Exports.{decision_fields, node_word, node_row, price_row, nodes_rows};

use crate::drivers::driver_name;
use crate::rows::Row;
use crate::steps::order_name;
use duty_plan::{Decision, Node, NodeState, Prices};
use minute_line::{Many, Memory};
use std::alloc::Global;
use week_book::Week;

/// The word of a node's state.
fn node_word(state: NodeState) -> &'static [u8]
    ensures { result.now ≡ node_word state }
{
    match state {
        NodeState::Branched => b"branched",
        NodeState::Closed => b"closed",
        NodeState::Empty => b"empty",
        NodeState::Open => b"open",
        NodeState::Spent => b"spent",
    }
}

/// The row with the fields of a decision.
fn with_decision(row: Row, week: &Week, decision: Decision) -> Result<Row, Memory>
    ensures { IfOk result (λ longer. longer ≡ row ++ decision_fields week.now decision) }
{
    match decision {
        Decision::Root => row.field(b"")?.field(b"")?.field(b"root"),
        Decision::Forced(driver, order) => row
            .field(driver_name(week, driver))?
            .field(order_name(week, order))?
            .field(b"forced"),
        Decision::Barred(driver, order) => row
            .field(driver_name(week, driver))?
            .field(order_name(week, order))?
            .field(b"barred"),
    }
}

/// The row of a node.
fn node_row(alloc: Global, week: &Week, number: u64, node: &Node) -> Result<Row, Memory>
    ensures { IfOk result (λ row. row ≡ node_row week.now number node.now) }
{
    let row = Row::of(alloc, b"node")?
        .number(alloc, number)?
        .number(alloc, node.parent as u64)?;
    with_decision(row, week, node.decision)?
        .number(alloc, node.bound)?
        .number(alloc, node.seen)?
        .field(node_word(node.state))
}

/// The row of a node's prices.
fn price_row(alloc: Global, number: u64, prices: &Prices) -> Result<Row, Memory>
    ensures { IfOk result (λ row. row ≡ (codes "price" ∷ decimal number ∷ []) ++ map decimal prices.now.cents) }
{
    let mut row = Row::of(alloc, b"price")?.number(alloc, number)?;
    for cents in prices.cents.as_slice() {
        row = row.number(alloc, *cents)?;
    }
    Ok(row)
}

/// Adds the rows of the nodes, in the order of their numbers, which count from 1.
pub(crate) fn add_nodes(
    alloc: Global,
    rows: &mut Many<Row>,
    week: &Week,
    tree: &[Node],
) -> Result<(), Memory>
    ensures { OnOk result (rows.new ≡ rows.old ++ nodes_rows week.now 1 tree.now) }
{
    for (place, node) in tree.iter().enumerate() {
        let number = place as u64 + 1;
        rows.push(node_row(alloc, week, number, node)?)?;
        rows.push(price_row(alloc, number, &node.prices)?)?;
    }
    Ok(())
}
