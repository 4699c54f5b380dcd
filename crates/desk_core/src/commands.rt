// What the desk is asked for, and what it replies.

use crate::refusals::Refusal;
use duty_plan::Limits;
use minute_line::{Bytes, Monday};

/// What the desk is asked for. A text has at most 1,048,576 bytes.
#[derive(Drop)]
pub enum Command {
    /// A draft of the week of a week text, by a search within the limits.
    Plan(Bytes, Limits),
    /// The verdicts on a check text.
    Check(Bytes),
    /// The publication of a week's draft, at the revision that stands.
    Publish(Monday, u64),
    /// The report of a week.
    Show(Monday),
    /// The export of a week.
    Export(Monday),
}

/// What the desk replies.
#[derive(Drop)]
pub enum Reply {
    /// The command was done; its text.
    Done(Bytes),
    Refused(Refusal),
    /// The keeper failed, and the tables are as they were.
    KeeperFault,
    /// Want of memory. The tables are as they were.
    Memory,
}
