// What a week's plan is, and what it is planned for.
use crate::duties::Duty;
use minute_line::{History, Many};
use week_book::Week;

/// A duty for each driver, and the orders that are given to subcontractors.
#[derive(Drop)]
pub struct Plan {
    pub duties: Many<Duty>,
    pub out: Many<u32>,
}

/// A checked week, and the history of each of its drivers.
#[derive(Drop)]
pub struct Case {
    pub week: Week,
    pub past: Many<History>,
}
