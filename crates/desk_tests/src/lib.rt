//! Tests of a whole run, by its public calls, over devices and a keeper in memory. They stand in a crate of their own so that the
//! crate of the run is proved once.
#![tactic(auto)]

#[cfg(test)]
mod commands;
#[cfg(test)]
mod devices;
#[cfg(test)]
mod gates;
#[cfg(test)]
mod running;
