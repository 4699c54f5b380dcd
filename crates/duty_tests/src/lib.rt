//! Tests of duties, of the labels that find them and of pricing one driver, by public calls. They stand in a crate of their own so
//! that the crates below are proved once.
#![tactic(auto)]

#[cfg(test)]
mod beams;
#[cfg(test)]
mod definitions;
#[cfg(test)]
mod duties;
#[cfg(test)]
mod enumeration;
#[cfg(test)]
mod labels;
#[cfg(test)]
mod least;
#[cfg(test)]
mod listing;
#[cfg(test)]
mod orders;
#[cfg(test)]
mod outlooks;
#[cfg(test)]
mod plans;
#[cfg(test)]
mod pricings;
#[cfg(test)]
mod pruning;
#[cfg(test)]
mod weeks;
