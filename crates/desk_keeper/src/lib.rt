//! What the office keeps from week to week: drivers' histories, drafts of weeks, and issues. A Monday stands for its week.
#![tactic(auto)]

mod copies;
mod keeper;
mod laws;
mod memory;
mod records;
#[cfg(test)]
mod tests;

pub use copies::{copy_kept, copy_seen};
pub use keeper::{Keeper, KeeperError};
pub use laws::publication_moves_its_drivers_alone;
pub use memory::{KeptRow, MemoryKeeper};
pub use records::{DRAFT_LIMIT, Draft, DraftDriver, Issue, Kept, next_monday};
