//! Lists of commands: what the desk replies to one after another, and what holds after any of them.
#![tactic(auto)]

mod laws;
mod playing;

pub use laws::histories_move;
pub use playing::play;
