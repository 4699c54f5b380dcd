//! Weeks made from a seed, as the texts that a planner reads: to try it, and to measure it on. Minutes count from Monday
//! 00:00 UTC, money is in cents, loads are in kg.
#![tactic(auto)]

mod drivers;
mod laws;
mod legs;
mod orders;
mod rows;
#[cfg(test)]
mod tests;
mod weeks;

pub use laws::{made_stamps_are_read_back, made_weeks_are_in_range};
pub use weeks::{ROW_COUNT, make_week};
