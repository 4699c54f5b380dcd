//! Tests of the desk machine, by its public calls. They stand in a crate of their own, as the desk machine knows no planner.
#![tactic(auto)]

#[cfg(test)]
mod tests;
