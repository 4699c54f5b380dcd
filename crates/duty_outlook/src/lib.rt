//! An upper bound on what a driver's half-made duty may still save. Times are whole minutes, a week minute counts from Monday
//! 00:00 UTC, money is in cents, loads are in kg; drivers, places and orders count from 0.
#![tactic(auto)]

mod bounds;
mod choosing;
mod filling;
mod laws;
mod layouts;
mod legs;
mod levels;
mod outlooks;
mod rows;
mod services;
mod spots;

pub use bounds::make_outlook;
pub use laws::has_timetable;
pub use outlooks::Outlook;
