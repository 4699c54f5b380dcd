//! Tests of pricers, and of what is made of their answers, by public calls. They stand in a crate of their own so that the crates
//! below are proved once.
#![tactic(auto)]

#[cfg(test)]
mod cases;
#[cfg(test)]
mod choosing;
#[cfg(test)]
mod rounds;
