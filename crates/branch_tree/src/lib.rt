//! The tree of a search, and what its outcome shows. Money is in whole cents; drivers, orders and rounds count from 0,
//! nodes from 1.
#![tactic(auto)]

mod answers;
mod children;
mod choosing;
mod ending;
mod improving;
mod keeping;
mod laws;
mod leaves;
mod pairing;
mod rounds;
mod searching;
mod taking;

pub use laws::{
    branching_grows, forces_once, grown_is_right, growth_lasts, keeps_runs, no_cheaper, paths_last,
    root_grows, splits_plans, without_drivers,
};
pub use pairing::{pairs_of, pairs_under};
pub use searching::search;
