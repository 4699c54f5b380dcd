//! Who plans a week: a search over rounds of prices.
#![tactic(auto)]

mod pools;
mod turns;

pub use pools::PoolPlanner;
pub use turns::TurnPlanner;
