// What is decided of drivers and orders.
ghost use Rattle.std.specs.Prelude.{◌≡◌, ◌<◌, length};
ghost use Rattle.week_book.specs.Weeks.{IsWeek};

use minute_line::Many;
use week_book::Week;

/// What is decided of a driver and an order.
#[derive(Clone, Copy, PartialEq, Eq, Debug)]
pub enum Pair {
    /// Nothing: the driver's duty may serve the order or not.
    Free,
    /// The driver's duty serves the order.
    Forced,
    /// The driver's duty does not serve the order.
    Barred,
}

/// What is decided of each driver and order of a week.
#[derive(Drop)]
pub struct Pairs {
    /// The number of the week's orders.
    pub orders: u32,
    /// One cell for each driver and order: the first driver's orders, then the second's, and so on.
    pub cells: Many<Pair>,
}

impl Pairs {
    ghost use Rattle.duty_plan.specs.Values.{IsPairs, pair_at};

    /// What is decided of a driver and an order of the week.
    pub fn pair(&self, week: &Week, driver: u32, order: u32) -> Pair
        requires week { IsWeek week.now }
        requires pairs { IsPairs week.now self.now }
        requires driver { driver < length week.now.drivers }
        requires order { order < length week.now.orders }
        ensures { result ≡ pair_at self.now driver order }
    {
        match self.cells.get((driver * self.orders + order) as usize) {
            Some(pair) => *pair,
            None => Pair::Free,
        }
    }
}
