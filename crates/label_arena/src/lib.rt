//! Label memory that workers share: chunks of 1,024 places, which the seats of a round claim by numbers from one counter.
#![tactic(auto)]

mod arenas;
mod chunks;
mod closing;
mod laws;
mod opening;
mod rounds;
mod seats;
mod sharing;
#[cfg(test)]
mod tests;
mod turning;
mod views;

pub use arenas::Arena;
pub use chunks::{CHUNK_PLACES, Chunk};
pub use laws::{all_drawn, claim_machine};
pub use rounds::Round;
pub use seats::{Claim, Seat};
pub use sharing::cross_threads;
