//! Prices of orders, and the bounds that they give. Money is in whole cents; drivers, orders and rounds count from 0.
#![tactic(auto)]

mod alike;
mod bidding;
mod completing;
mod exploring;
mod hoping;
mod laws;
mod moving;
mod picking;
mod pooling;
mod reading;
mod starting;
#[cfg(test)]
mod tests;
mod valuing;

pub use completing::{rest, serves_in};
pub use laws::{below_plans, costs_alone, is_exact, never_falls};
pub use moving::{next_prices, subgradient_step};
pub use picking::{Picked, pick};
pub use pooling::{Pool, Pooled, empty_pool};
pub use starting::start_prices;
pub use valuing::lagrange;
