//! The office's tables in a database of `sqlite`. A Monday is kept by its day number, a history by its text.
#![tactic(auto)]

mod causes;
mod drafts;
mod errors;
mod histories;
mod issues;
mod keeper;
mod moving;
mod opening;
mod schema;
mod statements;
mod values;

pub use causes::Cause;
pub use errors::OpenError;
pub use keeper::SqliteKeeper;
pub use opening::{open_store, prepare_store};
