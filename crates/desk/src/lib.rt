//! One run of the desk: words, a text and the office's tables in, an answer and a status out.
#![tactic(auto)]

mod making;
mod running;

pub use running::{WANT_OF_MEMORY, run_desk, run_gated, tell};
