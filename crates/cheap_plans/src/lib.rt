//! A cheaper plan for a case, sought by a pricer's guesses. Money is in whole cents; drivers and orders count from 0.
#![tactic(auto)]

mod alike;
mod diving;
mod drafts;
mod freeing;
mod guessing;
mod improving;
mod incumbents;
mod starting;
mod turning;
mod valuing;

pub use improving::improve;
pub use incumbents::Incumbent;
