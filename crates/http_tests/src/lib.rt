//! Tests of requests and their answers over links in memory and over a socket. They stand in a crate of their own, above the planners.
#![tactic(auto)]

#[cfg(test)]
mod desks;
#[cfg(test)]
mod sockets;
#[cfg(test)]
mod tests;
