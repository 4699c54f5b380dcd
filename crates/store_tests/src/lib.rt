//! Tests of stores in memory: what the keeper reads of rows that were written by hand, and commands, each a run of its own. They stand
//! in a crate of their own so that the keeper's crate is proved once.
#![tactic(auto)]

#[cfg(test)]
mod asking;
#[cfg(test)]
mod commands;
#[cfg(test)]
mod running;
#[cfg(test)]
mod stores;
#[cfg(test)]
mod values;
#[cfg(test)]
mod weeks;
