//! The least duty of one driver, found by labels. Times are whole minutes, money is in cents, loads are in kg; drivers,
//! places and orders count from 0.
#![tactic(auto)]

mod acts;
mod adding;
mod asking;
mod cells;
mod chunks;
mod claiming;
mod emptying;
mod forcing;
mod giving;
mod hoping;
mod insides;
mod laws;
mod numbers;
mod pricing;
mod rests;
mod scratch;
mod slots;
mod stays;
mod steps;
mod stores;
mod tried;
mod visits;

pub use laws::exhaust;
pub use pricing::Found;
pub use scratch::{Scratch, give_back, guess_duty, make_scratch, price_driver};
pub use slots::Slot;
