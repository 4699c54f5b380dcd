// A week whose names are numbers.
use minute_line::{Many, Monday, Name};

/// A road from one place to another, which a lorry drives in one piece.
#[derive(Clone, Copy, PartialEq, Eq, Debug)]
pub struct Leg {
    /// The place that it leaves.
    pub from: u32,
    /// The place that it leads to, another one.
    pub to: u32,
    /// Drive minutes, 1 to 270.
    pub minutes: u32,
    /// What it costs, at most 1,000,000 cents.
    pub cents: u64,
}

/// A driver, with a lorry.
#[derive(Drop)]
pub struct Driver {
    pub name: Name,
    /// What the lorry carries at most, 1 to 100,000 kg.
    pub capacity: u32,
    /// What a duty costs that isn't empty, at most 10,000,000 cents.
    pub fee: u64,
}

/// A delivery to a place.
#[derive(Drop)]
pub struct Order {
    pub name: Name,
    pub place: u32,
    /// The first minute at which its service may start, at most 10,079.
    pub opens: u32,
    /// The last minute at which its service may start, at most 10,079 and not before `opens`.
    pub closes: u32,
    /// The Work minutes of its service, 1 to 360.
    pub service: u32,
    /// Its load, at most 100,000 kg.
    pub kg: u32,
    /// What a subcontractor takes for it, at most 100,000,000 cents.
    pub price: u64,
}

/// A checked week. Place 0 is the depot.
#[derive(Drop)]
pub struct Week {
    pub monday: Monday,
    /// The Work minutes of a load, 1 to 240.
    pub load: u32,
    /// What a daily rest away from the depot costs, at most 1,000,000 cents.
    pub night: u64,
    /// 15, 30 or 60: after a daily or weekly rest an act starts at a minute that it divides.
    pub grid: u32,
    pub places: Many<Name>,
    pub legs: Many<Leg>,
    pub drivers: Many<Driver>,
    pub orders: Many<Order>,
}
