// What walks take at least: a walk is a list of legs, and a walk of no leg leads from a place to itself.
ghost use Rattle.std.specs.Prelude.{◌≡◌, ◌<◌, ◌^◌, if◌then◌else◌, length};
ghost use Rattle.week_book.specs.Weeks.{IsWeek};
ghost use Rattle.duty_plan.specs.Acts.{cents_of_road, minutes_of_road};
ghost use Rattle.duty_label.specs.Tables.{HasZeros, IsBelowLegs};
ghost use Rattle.duty_label.specs.Walks.{AreTaken};

use crate::tables::{Table, make_table};
use minute_line::Memory;
use std::alloc::Global;
use week_book::Week;

/// The least minutes and the least cents of the walks of a week, from each place to each.
#[derive(Drop)]
pub struct Walks {
    pub(crate) minutes: Table,
    pub(crate) cents: Table,
}

/// Room for the walks of any week.
pub fn make_walks(alloc: Global) -> Result<Walks, Memory> {
    Ok(Walks {
        minutes: make_table(alloc)?,
        cents: make_table(alloc)?,
    })
}

/// An order's bit among the bits of orders, or none.
fn bit(order: u32, is_in: bool) -> u128
    requires { order < 128 }
    ensures { result ≡ (if is_in then 2 ^ order else 0) }
{
    if is_in { 1 << order } else { 0 }
}

impl Walks {
    ghost use Rattle.duty_label.specs.Walks.{can_reach, reached_from};
    ghost use Rattle.duty_label.specs.Pruning.{AreLeastWalksOf, AreWalksOf, cents_between, minutes_between};

    /// The least minutes of a walk from one place to another; the largest number where none leads there.
    pub fn minutes(&self, from: u32, to: u32) -> u64
        ensures { result ≡ minutes_between self.now from to }
    {
        self.minutes.number(from, to)
    }

    /// The least cents of a walk from one place to another; the largest number where none leads there.
    pub fn cents(&self, from: u32, to: u32) -> u64
        ensures { result ≡ cents_between self.now from to }
    {
        self.cents.number(from, to)
    }

    /// Notes the walks of one leg.
    fn note_legs(&mut self, week: &Week)
        requires week { IsWeek week.now }
        requires minutes { HasZeros self.old.minutes.rows.items }
        requires cents { HasZeros self.old.cents.rows.items }
        requires minutes_taken { AreTaken minutes_of_road week.now (minutes_between self.old) }
        requires cents_taken { AreTaken cents_of_road week.now (cents_between self.old) }
        ensures minute_zeros { HasZeros self.new.minutes.rows.items }
        ensures cent_zeros { HasZeros self.new.cents.rows.items }
        ensures minutes { IsBelowLegs (λ leg. leg.minutes) week.now self.new.minutes.rows.items }
        ensures cents { IsBelowLegs (λ leg. leg.cents) week.now self.new.cents.rows.items }
        ensures taken { AreLeastWalksOf week.now self.new }
    {
        for leg in week.legs.as_slice() {
            self.minutes.note(leg.from, leg.to, u64::from(leg.minutes));
            self.cents.note(leg.from, leg.to, leg.cents);
        }
    }

    /// Sets the tables for a week: no walk from one place to another takes less than they say, and one takes just so much, where they
    /// don't say the largest number. It takes no memory.
    pub fn fill(&mut self, week: &Week)
        requires { IsWeek week.now }
        ensures bounds { AreWalksOf week.now self.new }
        ensures least { AreLeastWalksOf week.now self.new }
    {
        self.minutes.clear();
        self.cents.clear();
        self.note_legs(week);
        self.minutes.close();
        self.cents.close();
    }

    /// Whether an order can be reached, from a place at a minute, before its window closes.
    pub(crate) fn can_reach(&self, week: &Week, at: u32, place: u32, order: u32) -> bool
        requires { order < length week.now.orders }
        ensures { result ≡ can_reach week.now (minutes_between self.now) at place order }
    {
        match week.orders.get(order as usize) {
            Some(order) => {
                let left = u64::from(order.closes).checked_sub(u64::from(at));
                left.is_some_and(|left| self.minutes(place, order.place) <= left)
            }
            None => false,
        }
    }

    /// The orders that can be reached, from a place at a minute, before their windows close; order n is the bit n.
    #[inline(never)]
    pub fn reached(&self, week: &Week, at: u32, place: u32) -> u128
        requires { IsWeek week.now }
        ensures { result ≡ reached_from week.now (minutes_between self.now) at place }
    {
        let mut bits = 0;
        for order in 0..week.orders.len() as u32 {
            bits |= bit(order, self.can_reach(week, at, place, order));
        }
        bits
    }
}
