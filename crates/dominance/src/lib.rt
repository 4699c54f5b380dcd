//! The order on labels: which list of steps so far may be forgotten, since a better one has each of its completions. Times
//! are whole minutes, money is in cents, loads are in kg.
#![tactic(auto)]

mod comparing;
mod laws;
mod making;
mod storing;
#[cfg(test)]
mod tests;

pub use comparing::{better, better_within};
pub use laws::{
    bettered_may_be_forgotten, exhausted_labels_price_out, lists_within, reach, shift, simulate,
    simulate_within,
};
pub use making::make_fronts;
pub use storing::Fronts;
