//! What drivers bring into a week: histories from rows, and a history moved on by a judged week. All times are whole
//! minutes in UTC.
#![tactic(auto)]

mod activities;
mod carrying;
mod errors;
mod laws;
mod moves;
mod owing;
mod reading;
mod rests;
#[cfg(test)]
mod tests;

pub use errors::{HistoryError, LineError};
pub use laws::{advance_lasts, idle_is_advances, idle_settles, rows_last};
pub use moves::{advance, idle};
pub use reading::{read_line, read_past};
