// How an outlook is filled: the entries of a minute from those of later minutes.
ghost use Rattle.std.specs.Prelude.{◌≡◌, ℕ, ◌+◌, ◌≤◌, ◌<◌};
ghost use Rattle.minute_line.specs.declared.lines.TheConstants.{WEEK_MINUTES};
ghost use Rattle.week_book.specs.declared.weeks.Week.{Week};
ghost use Rattle.week_book.specs.Weeks.{IsWeek};
ghost use Rattle.duty_plan.specs.declared.duties.Act.{Act};
ghost use Rattle.duty_plan.specs.declared.pricing.Prices.{Prices};
ghost use Rattle.duty_plan.specs.Values.{IsPrices};
ghost use Rattle.duty_outlook.specs.Rows.{Grows, number_at};
ghost use Rattle.duty_outlook.specs.Outlooks.{AdmitsAct, AreBlank, CoversRow, IsFilled, IsSameBut, IsSound, later_spot};

use crate::layouts::{set_of, sets_of};
use crate::outlooks::{NOTHING, Outlook};
use crate::rows::raise_all;
use crate::spots::{Entry, Spot};
use duty_plan::Prices;
use minute_line::WEEK_MINUTES;
use week_book::Week;

impl Outlook {
    /// A row for the spot a minute later; at the end of the week a row of no saving at all.
    fn later_row(&self, spot: Spot) -> [u64; 32]
        requires { spot.minute ≤ WEEK_MINUTES }
        ensures { (week : Week) (prices : Prices) → IsFilled week prices self.now → spot.minute < WEEK_MINUTES →
            CoversRow week self.now.scale.capacity self.now.scale.unit prices (later_spot spot) result }
    {
        if spot.minute < WEEK_MINUTES {
            return *self.row_at(Spot {
                place: spot.place,
                minute: spot.minute + 1,
                orders: spot.orders,
            });
        }
        [0; 32]
    }

    /// Raises a row of the spot, where it is the depot: the driver may stay, or load.
    fn raise_depot(&self, row: &mut [u64; 32], spot: Spot, week: &Week)
        requires minute { spot.minute ≤ WEEK_MINUTES }
        requires week { IsWeek week.now }
        ensures grows { Grows row.old row.new }
        ensures home { spot.place ≡ 0 → (level : ℕ) → level < 32 → 2000000000000 ≤ number_at row.new level }
        ensures admits { AdmitsAct week.now self.now spot Act.Load row.new }
    {
        if spot.place != 0 {
            return;
        }
        raise_all(row, NOTHING);
        let end = spot.minute + week.load;
        if end <= WEEK_MINUTES {
            let next = self.row_at(Spot {
                place: 0,
                minute: end,
                orders: spot.orders,
            });
            raise_all(row, next[0]);
        }
    }

    /// A row for the spot, from the entries of later ones.
    fn best_row(&self, spot: Spot, week: &Week, prices: &Prices) -> [u64; 32]
        requires minute { spot.minute ≤ WEEK_MINUTES }
        requires week { IsWeek week.now }
        requires prices { IsPrices week.now prices.now }
        ensures { IsFilled week.now prices.now self.now →
            CoversRow week.now self.now.scale.capacity self.now.scale.unit prices.now spot result }
    {
        let mut row = self.later_row(spot);
        self.raise_depot(&mut row, spot, week);
        self.raise_legs(&mut row, spot, week);
        self.raise_services(&mut row, spot, week, prices);
        row
    }

    /// Puts an entry into a slot. Past the last slot nothing is kept.
    fn keep(&mut self, slot: usize, entry: Entry)
        ensures same { IsSameBut self.old self.new }
        ensures filled { (week : Week) (prices : Prices) → IsFilled week prices self.old →
            IsSound week self.old.scale.capacity self.old.scale.unit prices entry → IsFilled week prices self.new }
    {
        if slot < self.entries.len() {
            self.entries[slot] = entry;
        }
    }

    /// Fills the entries of a spot.
    fn fill_spot(&mut self, spot: Spot, week: &Week, prices: &Prices)
        requires minute { spot.minute ≤ WEEK_MINUTES }
        requires filled { IsFilled week.now prices.now self.old }
        ensures same { IsSameBut self.old self.new }
        ensures filled { IsFilled week.now prices.now self.new }
    {
        let entry = Entry {
            spot,
            numbers: self.best_row(spot, week, prices),
        };
        self.keep(self.ring_slot(spot), entry);
        if self.is_kept(spot.minute) {
            self.keep(self.kept_slot(spot), entry);
        }
    }

    /// Fills the entries of a place at a minute: one for each set of the orders that are remembered there.
    fn fill_place(&mut self, place: u32, minute: u32, week: &Week, prices: &Prices)
        requires minute { minute ≤ WEEK_MINUTES }
        requires filled { IsFilled week.now prices.now self.old }
        ensures same { IsSameBut self.old self.new }
        ensures filled { IsFilled week.now prices.now self.new }
    {
        let remembered = self.remembered(place, minute);
        for number in 0..sets_of(remembered) {
            let orders = set_of(number, remembered) | self.barred;
            let spot = Spot {
                place,
                minute,
                orders,
            };
            self.fill_spot(spot, week, prices);
        }
    }

    /// Fills the entries of a minute.
    fn fill_minute(&mut self, minute: u32, week: &Week, prices: &Prices)
        requires minute { minute ≤ WEEK_MINUTES }
        requires filled { IsFilled week.now prices.now self.old }
        ensures same { IsSameBut self.old self.new }
        ensures filled { IsFilled week.now prices.now self.new }
    {
        for place in 0..week.places.len() {
            self.fill_place(place as u32, minute, week, prices);
        }
    }

    /// Fills the entries of all minutes, the last one first.
    pub(crate) fn fill_all(&mut self, week: &Week, prices: &Prices)
        requires { IsFilled week.now prices.now self.old }
        ensures same { IsSameBut self.old self.new }
        ensures filled { IsFilled week.now prices.now self.new }
    {
        for minute in (0..WEEK_MINUTES + 1).rev() {
            self.fill_minute(minute, week, prices);
        }
    }

    /// Makes all entries ones of no minute in the week.
    pub(crate) fn clear(&mut self)
        ensures same { IsSameBut self.old self.new }
        ensures blank { AreBlank self.new }
    {
        for entry in self.entries.iter_mut() {
            entry.spot.minute = WEEK_MINUTES + 1;
        }
    }
}
