//! Duties and plans: what is lawful, and what it costs; and what a search for a cheap plan must show. Steps, drivers, places
//! and orders count from 0, the nodes of a tree from 1, and place 0 is the depot. Times are whole minutes, a week minute
//! counts from Monday 00:00 UTC, money is in cents, loads are in kg.
#![tactic(auto)]

mod alike;
mod checks;
mod deciding;
mod duties;
mod duty_checks;
mod faults;
mod labels;
mod laws;
mod lines;
mod nodes;
mod office;
mod orders;
mod outcomes;
mod planning;
mod plans;
mod positions;
mod pricing;

pub use alike::are_alike;
pub use checks::{check_duty, check_plan, check_steps};
pub use deciding::{Pair, Pairs};
pub use duties::{Act, Duty, Step, copied_duty};
pub use faults::{DutyFault, PlanFault};
pub use labels::Label;
pub use laws::{
    completions_are_bounded, each_order_once, least_values_are_small, list_alone,
    lists_stay_in_reach, never_overloaded, no_repeat, one_label, rest_is_free, served_bits,
    shared_rounds_are_rounds, spent_seats_are_licensed, stints_are_minutes, test_bits,
    twins_are_alike, twins_share_label_lists,
};
pub use lines::line_of;
pub use nodes::{Decision, Node, NodeStart, NodeState};
pub use office::{minutes_at, place_after, serves_anew, with_bit};
pub use orders::serves;
pub use outcomes::{Limits, Outcome, State};
pub use planning::{Gate, Planner, Pricer, Straight};
pub use plans::{Case, Plan};
pub use positions::{Position, StepEffect};
pub use pricing::{Priced, Prices};
