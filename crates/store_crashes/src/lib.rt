//! Tests of a store whose disks stop at a call. They stand in a crate of their own so that the keeper's crate is proved
//! without its disks.
#![tactic(auto)]

#[cfg(test)]
mod tests;
