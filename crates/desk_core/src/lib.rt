//! What the desk answers to a text: the week that it plans for, or the verdicts on what was driven, or its refusal.
#![tactic(auto)]

mod asking;
mod checking;
mod commands;
mod drafting;
mod drafts;
mod laws;
mod lines;
mod planning;
mod publishing;
mod refusals;
mod showing;
mod stepping;

pub use checking::check_text;
pub use commands::{Command, Reply};
pub use laws::{
    each_has_its_history, first_refused_is_told, first_without_is_named, histories_stand,
    issues_stand, lines_are_verdicts, published_once, replies_are_its_steps, what_may_be_is_done,
};
pub use lines::{KEEPER_FAULT, refusal_line};
pub use planning::{Solved, read_case, solve_text};
pub use refusals::{Refusal, Stop};
pub use stepping::step;
