//! A good lawful duty of one driver, found by a beam: only so many half-made duties of each quarter of an hour are gone on with.
//! Nothing is promised of how good the duty is; it is confirmed by the judge of duties. Times are whole minutes, money is in
//! cents, loads are in kg; drivers, places and orders count from 0.
#![tactic(auto)]

mod asking;
mod beams;
mod confirming;
mod extending;
mod keeping;
mod nodes;
mod prospects;
mod searches;
mod staying;

pub use beams::{Beam, make_beam};
