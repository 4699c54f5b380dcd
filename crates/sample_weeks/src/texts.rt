// Cases of week texts, so that a test shows its week as an office writes it; and what is decided of orders, and their prices.
ghost use Rattle.std.specs.Prelude.{◌≡◌, ◌<◌, ◌≤◌, true, length, IfOk};
ghost use Rattle.week_book.specs.Weeks.{IsWeek};
ghost use Rattle.duty_plan.specs.Duties.{IsCase, price_of};
ghost use Rattle.duty_plan.specs.Values.{IsPairs, IsPrices, price_at};

use crate::desks::Desk;
use desk_csv::{Form, TEXT_LIMIT, read_rows};
use duty_plan::{Case, Pair, Pairs, Prices};
use minute_line::{Bytes, Many, Memory, fresh};
use std::alloc::Global;
use std::test::Fail;
use week_book::{Week, check_week};

/// The week of a week text.
fn week_of(alloc: Global, text: &str) -> Result<Week, Fail>
    ensures { IfOk result IsWeek }
{
    let bytes = Bytes::from_slice(alloc, text.as_bytes())?;
    if bytes.len() > TEXT_LIMIT {
        return Err(Fail::new("a long text"));
    }
    let rows = read_rows(alloc, &bytes, Form::Plan)?;
    Ok(check_week(alloc, &rows)?)
}

/// The case of a week text, in which each driver was at rest for 2,700 minutes before Monday, whatever the text says of it. It
/// fails where the text is refused.
pub fn case_of_text(alloc: Global, text: &str) -> Result<Case, Fail>
    ensures { IfOk result IsCase }
{
    let week = week_of(alloc, text)?;
    let mut past = Many::new(alloc);
    for _driver in week.drivers.as_slice() {
        past.push(fresh(alloc))?;
    }
    Ok(Case { week, past })
}

/// The same decision of each order for each driver.
pub fn all_pairs(alloc: Global, week: &Week, pair: Pair) -> Result<Pairs, Memory>
    requires { IsWeek week.now }
    ensures { IfOk result (IsPairs week.now) }
{
    let orders = week.orders.len() as u32;
    let drivers = week.drivers.len() as u32;
    let mut cells = Many::new(alloc);
    for _cell in 0..drivers * orders {
        cells.push(pair)?;
    }
    Ok(Pairs { orders, cells })
}

/// Whether there is a cell for each driver and order.
fn are_pairs(week: &Week, pairs: &Pairs) -> bool
    requires { IsWeek week.now }
    ensures { result ≡ true → IsPairs week.now pairs.now }
{
    pairs.orders as usize == week.orders.len()
        && pairs.cells.len() == week.drivers.len() * week.orders.len()
}

/// Whether the price of an order is no more than what a subcontractor takes.
fn is_price(week: &Week, prices: &Prices, order: u32) -> bool
    ensures { result ≡ true → price_at prices.now order ≤ price_of week.now order }
{
    match prices.cents.get(order as usize) {
        Some(price) => match week.orders.get(order as usize) {
            Some(row) => *price <= row.price,
            None => false,
        },
        None => false,
    }
}

/// Whether there is a price for each order, no more than what a subcontractor takes.
fn are_prices(week: &Week, prices: &Prices) -> bool
    requires { IsWeek week.now }
    ensures { result ≡ true → IsPrices week.now prices.now }
{
    if prices.cents.len() != week.orders.len() {
        return false;
    }
    for order in 0..week.orders.len() as u32 {
        if !is_price(week, prices, order) {
            return false;
        }
    }
    true
}

/// What is decided of the orders, where there is a cell for each.
fn decided(alloc: Global, week: &Week, pairs: &[Pair]) -> Result<Pairs, Fail>
    requires { IsWeek week.now }
    ensures { IfOk result (IsPairs week.now) }
{
    let orders = week.orders.len() as u32;
    let cells = Many::from_slice(alloc, pairs)?;
    let pairs = Pairs { orders, cells };
    if are_pairs(week, &pairs) {
        Ok(pairs)
    } else {
        Err(Fail::new("no pairs"))
    }
}

/// The prices, where they are those of the orders.
fn prices_of(alloc: Global, week: &Week, cents: &[u64]) -> Result<Prices, Fail>
    requires { IsWeek week.now }
    ensures { IfOk result (IsPrices week.now) }
{
    let cents = Many::from_slice(alloc, cents)?;
    let prices = Prices { cents };
    if are_prices(week, &prices) {
        Ok(prices)
    } else {
        Err(Fail::new("no prices"))
    }
}

/// The desk of a week text with a driver, where that is decided of its orders, driver by driver, at these prices in cents. It fails
/// where they are none of the week's.
pub fn desk_of_text(alloc: Global, text: &str, pairs: &[Pair], cents: &[u64]) -> Result<Desk, Fail>
    ensures { IfOk result (λ desk. IsCase desk.case × (0 < length desk.case.week.drivers) × IsPairs desk.case.week desk.pairs
        × IsPrices desk.case.week desk.prices) }
{
    let case = case_of_text(alloc, text)?;
    if case.week.drivers.is_empty() {
        return Err(Fail::new("no driver"));
    }
    let pairs = decided(alloc, &case.week, pairs)?;
    let prices = prices_of(alloc, &case.week, cents)?;
    Ok(Desk {
        case,
        pairs,
        prices,
    })
}
