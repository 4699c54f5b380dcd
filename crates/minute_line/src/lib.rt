//! Marked minutes of a week, the lines and histories that they make, and dates as text. All times are whole minutes
//! in UTC.
#![tactic(auto)]

mod dates;
mod debts;
mod errors;
mod histories;
mod lines;
mod many;
mod marks;
mod reading;
mod spelling;
mod stamps;
#[cfg(test)]
mod tests;
mod tokens;
mod valid;
mod writing;

pub use dates::{Monday, monday_in, read_monday};
pub use debts::{REGULAR_WEEKLY_REST, WEEKLY_REST, upgrade};
pub use errors::TextError;
pub use histories::{copy_history, fresh};
pub use lines::{History, Line, PAST_LIMIT, WEEK_MINUTES};
pub use many::{Bytes, Many, Memory, Name};
pub use marks::{Kind, Mark, Stint};
pub use reading::history_read;
pub use spelling::{history_text, text_says_all};
pub use stamps::{
    minute_in, monday_text, only_stamp, only_text, stamp, stamp_in, stamp_minute, week_days,
};
pub use valid::is_line_of;
pub use writing::{push_decimal, push_number, push_word};
