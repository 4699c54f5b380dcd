//! Tests of a whole search, by its public calls. They stand in a crate of their own so that the crate of the search is proved
//! once.
#![tactic(auto)]

#[cfg(test)]
mod pricers;
#[cfg(test)]
mod tests;
#[cfg(test)]
mod trips;
#[cfg(test)]
mod weeks;
