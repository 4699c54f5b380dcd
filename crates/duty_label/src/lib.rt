//! The label of a driver's steps, and of one step more; and which labels need not be stored. Times are whole minutes, a week
//! minute counts from Monday 00:00 UTC, money is in cents, loads are in kg; drivers, places and orders count from 0.
#![tactic(auto)]

mod children;
mod laws;
mod prices;
mod pruning;
mod refusals;
mod tables;
mod walks;

pub use children::{child, first};
pub use duty_plan::Label;
pub use laws::{named_as_judged, prune};
pub use prices::price_of_act;
pub use pruning::has_order;
pub use refusals::NoChild;
pub use walks::{Walks, make_walks};
