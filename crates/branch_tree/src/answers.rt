// What the answers of a round say together.
ghost use Rattle.std.specs.Prelude.{◌≡◌, ℕ, ◌<◌, ◌≤◌, length, slice_index, IfOk};
ghost use Rattle.week_book.specs.Weeks.{IsWeek};
ghost use Rattle.duty_plan.specs.Rounds.{carriers, carries, has_none, is_least, is_none, is_whole, values_of};

use duty_plan::Priced;
use minute_line::{Many, Memory};
use price_master::serves_in;
use std::alloc::Global;
use week_book::Week;

fn is_least(answer: &Priced) -> bool
    ensures { result ≡ is_least answer.now }
{
    matches!(answer, Priced::Least(_, _))
}

fn is_none(answer: &Priced) -> bool
    ensures { result ≡ is_none answer.now }
{
    matches!(answer, Priced::NoDuty)
}

/// Whether all answers give least values.
pub(crate) fn is_whole(answers: &[Priced]) -> bool
    ensures { result ≡ is_whole answers.now }
{
    for answer in answers {
        if !is_least(answer) {
            return false;
        }
    }
    true
}

/// Whether an answer says that no duty is inside.
pub(crate) fn has_none(answers: &[Priced]) -> bool
    ensures { result ≡ has_none answers.now }
{
    for answer in answers {
        if is_none(answer) {
            return true;
        }
    }
    false
}

/// The least values that the answers give.
pub(crate) fn values(alloc: Global, answers: &[Priced]) -> Result<Many<i64>, Memory>
    ensures { IfOk result (λ values. values ≡ values_of answers.now) }
{
    let mut values = Many::new(alloc);
    for answer in answers {
        if let Priced::Least(value, _) = answer {
            values.push(*value)?;
        }
    }
    Ok(values)
}

/// Whether the answer's duty serves the order.
fn carries(answer: &Priced, order: u32) -> bool
    ensures { result ≡ carries order answer.now }
{
    match answer {
        Priced::Least(_, duty) => serves_in(duty, order),
        Priced::NoDuty | Priced::Spent(_) => false,
    }
}

/// How many duties of the answers serve the order.
fn count(answers: &[Priced], order: u32) -> u32
    requires few { length answers.now ≤ 16 }
    ensures { result ≡ carriers order answers.now }
{
    let mut count = 0;
    for answer in answers {
        if carries(answer, order) {
            count += 1;
        }
    }
    count
}

/// How many duties of the answers serve each order of the week.
pub(crate) fn counts(alloc: Global, week: &Week, answers: &[Priced]) -> Result<Many<u32>, Memory>
    requires week { IsWeek week.now }
    requires few { length answers.now ≤ 16 }
    ensures length { IfOk result (λ counts. length counts ≡ length week.now.orders) }
    ensures each { IfOk result (λ counts. (order : ℕ) → order < length week.now.orders → slice_index counts order ≡ carriers order answers.now) }
{
    let mut counts = Many::new(alloc);
    for order in 0..week.orders.len() as u32 {
        counts.push(count(answers, order))?;
    }
    Ok(counts)
}
