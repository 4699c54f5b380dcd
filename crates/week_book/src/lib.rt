//! The rows of a text, and the week that they make. Numbers count places, drivers and orders from 0; rows and fields
//! from 1. Minutes count from Monday 00:00 UTC, money is in cents, loads are in kg.
#![tactic(auto)]

mod checking;
mod driven;
mod errors;
mod fields;
mod keys;
mod laws;
mod name_indexes;
mod names;
mod numbering;
mod ranges;
mod roads;
mod rows;
#[cfg(test)]
mod tests;
mod weeks;

pub use checking::check_week;
pub use driven::check_did;
pub use errors::{WeekError, What};
pub use laws::first_faults;
pub use roads::leg;
pub use rows::{Row, Word};
pub use weeks::{Driver, Leg, Order, Week};
