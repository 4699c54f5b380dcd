//! Weeks for the tests of other crates: one of one driver, with what is known of it, and any that is written as a text. Times are
//! whole minutes, a week minute counts from Monday 00:00 UTC, money is in cents, loads are in kg; drivers, places and orders
//! count from 0, and place 0 is the depot.
#![tactic(auto)]

mod desks;
mod texts;
mod trips;

pub use desks::Desk;
pub use texts::{all_pairs, case_of_text, desk_of_text};
pub use trips::{HOME, LOAD, NONE, OUT, SERVE, case, case_of, duty, orders, prepared};
