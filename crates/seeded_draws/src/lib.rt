//! Numbers that a seed determines: a linear congruential generator of 64 bits.
#![tactic(auto)]

mod draws;
mod laws;
#[cfg(test)]
mod tests;

pub use draws::Draws;
pub use laws::draws_go_on;
