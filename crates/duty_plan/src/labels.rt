// What a driver's steps so far come to.

use hours_rules::Clock;
use std::mem::size_of;

/// What a pricing knows of a driver's steps so far.
#[derive(Clone, Copy, PartialEq, Eq, Debug)]
pub struct Label {
    /// The clock that stands for the history and the minutes of the steps.
    pub clock: Clock,
    /// Where the driver is.
    pub place: u32,
    /// The orders that the steps serve: order n is the bit n.
    pub served: u128,
    /// The load served since the last load act, in kg.
    pub used: u32,
    /// Whether there is a load act.
    pub loaded: bool,
    /// Whether there is a step, so that the driver's fee is due.
    pub fee_paid: bool,
    /// The cost of the steps less the prices of their orders, in cents.
    pub value: i64,
}

// Many labels are stored: each takes at most 128 bytes.
const _: () = prove!(size_of::<Label>() <= 128);
