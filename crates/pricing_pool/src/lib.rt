//! Rounds of prices for all drivers of a case: one driver after another, or side by side on threads. Labels are counted in
//! chunks of 1,024; drivers and orders count from 0.
#![tactic(auto)]

mod answers;
mod arenas;
mod copying;
mod guesses;
mod pools;
mod pricing;
mod shared;
mod turns;
mod twins;
mod workers;

pub use pools::{PricingPool, make_pool};
pub use turns::{TurnPricer, make_turns};
