// What a driver is priced by.
use duty_plan::{Case, Pairs, Prices};

/// A case, what is decided of its orders, and their prices.
#[derive(Drop)]
pub struct Desk {
    pub case: Case,
    pub pairs: Pairs,
    pub prices: Prices,
}
