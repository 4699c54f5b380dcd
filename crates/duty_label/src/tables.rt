// Numbers from each of 64 places to each: what walks take at least.
ghost use Rattle.std.specs.Prelude.{◌≡◌, ◌≢◌, ◌<◌, ◌≤◌, ℕ, length};
ghost use Rattle.duty_label.specs.Tables.{AreLowered, HasZeros, IsBelow, IsClosedOver, IsLowered, IsNoted, IsNowhere, cell, number_at};
ghost use Rattle.duty_label.specs.Walks.{AreTaken};

use minute_line::Memory;
use std::alloc::Global;

/// How many places a table has.
const PLACES: usize = 64;

/// A number that is larger than what any walk takes.
const NEVER: u64 = u64::MAX;

/// A number from each place to each.
#[derive(Drop)]
pub(crate) struct Table {
    /// A row for each place: the numbers from there.
    pub(crate) rows: Vec<[u64; 64]>,
    ghost size: { length rows.items ≡ 64 },
}

/// A table.
pub(crate) fn make_table(alloc: Global) -> Result<Table, Memory> {
    Ok(Table {
        rows: vec![in alloc; [NEVER; 64]; PLACES]?,
    })
}

/// The row of a place from which no walk is known but that of no leg.
fn row_of(place: usize) -> [u64; 64]
    requires { place < 64 }
    ensures zero { number_at result place ≡ 0 }
    ensures others { (to : ℕ) → to < 64 → to ≢ place → number_at result to ≡ 18446744073709551615 }
{
    let mut row = [NEVER; 64];
    row[place] = 0;
    row
}

/// Lowers each number of a row to what is needed over another place, where that is less.
fn lower_row(row: &mut [u64; 64], over: usize, through: &[u64; 64])
    requires { over < 64 }
    ensures { IsLowered over through.now row.old row.new }
{
    let first = row[over];
    for to in 0..64 {
        let sum = first.saturating_add(through[to]);
        if sum < row[to] {
            row[to] = sum;
        }
    }
}

impl Table {
    ghost use Rattle.std.specs.Prelude.{Option};
    ghost use Rattle.week_book.specs.declared.weeks.Leg.{Leg};
    ghost use Rattle.week_book.specs.declared.weeks.Week.{Week};

    /// The number from one place to another; 0 where either is no place of the table.
    pub(crate) fn number(&self, from: u32, to: u32) -> u64
        ensures { result ≡ cell self.now.rows.items from to }
    {
        match self.rows.get(from as usize) {
            Some(row) => match row.get(to as usize) {
                Some(number) => *number,
                None => 0,
            },
            None => 0,
        }
    }

    /// Forgets all walks but those of no leg.
    pub(crate) fn clear(&mut self)
        ensures zeros { HasZeros self.new.rows.items }
        ensures nowhere { IsNowhere self.new.rows.items }
    {
        for place in 0..PLACES {
            self.rows[place] = row_of(place);
        }
    }

    /// Notes a walk that takes so much.
    pub(crate) fn note(&mut self, from: u32, to: u32, number: u64)
        requires from { from < 64 }
        requires to { to < 64 }
        ensures noted { cell self.new.rows.items from to ≤ number }
        ensures below { IsBelow self.old.rows.items self.new.rows.items }
        ensures others { IsNoted from to number self.old.rows.items self.new.rows.items }
    {
        let row = &mut self.rows[from as usize];
        if number < row[to as usize] {
            row[to as usize] = number;
        }
    }

    /// Notes the walks over a place.
    fn lower_over(&mut self, over: usize)
        requires over { over < 64 }
        requires zeros { HasZeros self.old.rows.items }
        ensures { AreLowered over self.old.rows.items self.new.rows.items }
    {
        let through = self.rows[over];
        for from in 0..PLACES {
            lower_row(&mut self.rows[from], over, &through);
        }
    }

    /// Notes all walks that are put together from those that were noted, one place after the other (Floyd and Warshall).
    pub(crate) fn close(&mut self)
        requires { HasZeros self.old.rows.items }
        ensures zeros { HasZeros self.new.rows.items }
        ensures below { IsBelow self.old.rows.items self.new.rows.items }
        ensures closed { IsClosedOver 64 self.new.rows.items }
        ensures taken { (takes : Option Leg → ℕ) (week : Week) → AreTaken takes week (cell self.old.rows.items) →
            AreTaken takes week (cell self.new.rows.items) }
    {
        for over in 0..PLACES {
            self.lower_over(over);
        }
    }
}
