// What a driver is paid for an order while plans are sought, and what a driver's pricing answers.
use crate::Duty;
use minute_line::Many;

/// A price for each order of a week, in cents, from 0 to what a subcontractor takes for it.
#[derive(Drop)]
pub struct Prices {
    pub cents: Many<u64>,
}

/// The answer for one driver, at pairs and prices.
#[derive(Drop)]
pub enum Priced {
    /// The driver's least value in cents, which may be below 0, and a lawful duty inside the pairs that has it.
    Least(i64, Duty),
    /// No lawful duty of the driver is inside the pairs.
    NoDuty,
    /// The memory for labels was spent, with this number of labels stored for the driver.
    Spent(u32),
}
