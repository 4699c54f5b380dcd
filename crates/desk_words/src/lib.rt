//! The words of the command line, read by `clap`, and what they ask the desk for.
#![tactic(auto)]

mod asks;
mod command;
mod values;
mod words_error;

pub use asks::{Ask, USUAL_LIMITS, read_words};
pub use words_error::WordsError;
