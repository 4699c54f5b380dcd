//! The rows of a week text or a check text, read by `csv`. Rows and fields count from 1, bytes from 0; stamps are
//! minutes from Monday 00:00 UTC.
#![tactic(auto)]

mod errors;
mod fields;
mod reading;
mod rows;

pub use errors::{CsvError, Form};
pub use fields::{read_digits, read_monday, read_number};
pub use reading::{TEXT_LIMIT, read_rows};

#[cfg(test)]
mod tests;
