//! The reports and exports of planned weeks, as text. Money is in cents, and a stamp is in UTC.
#![tactic(auto)]

mod drivers;
mod duty_rows;
mod exports;
mod laws;
mod lines;
mod node_rows;
mod orders;
mod reports;
mod rows;
mod services;
mod steps;

pub use exports::export;
pub use laws::{exports_tell_all, reports_tell_all, reports_tell_findings};
pub use reports::{body, report, summary};
