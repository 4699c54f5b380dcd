// What the drivers that have no duty yet can save at most, beside the orders that are served.
ghost use Rattle.std.specs.Prelude.{◌≡◌, ℕ, ◌+◌, ◌==◌, if◌then◌else◌, ◌<◌, ◌≤◌, true, drop, slice_get, slice_index, Some};
ghost use Rattle.price_master.specs.declared.alike.ClassBid.{ClassBid as GhostClassBid};
ghost use Rattle.price_master.specs.Pools.{are_apart};
ghost use Rattle.price_master.specs.Classes.{AreFalling, CanTake, first_saving, free_of, is_home, sum_free};

use crate::alike::{ClassBid, Classes, DRIVERS};
use crate::bidding::HOME;

/// The places of the chosen bids.
pub(crate) type Places = [u32; DRIVERS];

/// Whether no order is in both.
pub(crate) fn are_apart(one: u128, other: u128) -> bool
    ensures { result ≡ are_apart one other }
{
    one & other == 0
}

/// Whether the driver has no duty.
fn is_home(places: &Places, driver: usize) -> bool
    requires { driver < 16 }
    ensures { result ≡ is_home places.now driver }
{
    places[driver] == HOME
}

/// The first of so many drivers that is of the class and has no duty; that number where there is none.
pub(crate) fn free_driver(classes: &Classes, places: &Places, drivers: usize, class: usize) -> usize
    requires { drivers ≤ 16 }
    ensures free { result < drivers → is_home places.now result ≡ true }
    ensures class { result < drivers → slice_index classes.now result ≡ class }
    ensures none { drivers ≤ result → free_of classes.now places.now drivers class ≡ 0 }
{
    for driver in 0..drivers {
        if classes[driver] == class && is_home(places, driver) {
            return driver;
        }
    }
    drivers
}

/// How many of so many drivers have no duty.
pub(crate) fn count_free(places: &Places, drivers: usize) -> u64
    requires { drivers ≤ 16 }
    ensures count { result ≡ sum_free (λ driver. 1) places.now drivers }
    ensures few { result ≤ drivers }
{
    let mut count = 0;
    for driver in 0..drivers {
        if is_home(places, driver) {
            count += 1;
        }
    }
    count
}

/// What the first bid of the class, from that number of the list on, saves that serves none of these orders; nothing where
/// there is none.
fn first_saving(list: &[ClassBid], from: usize, class: usize, served: u128) -> u64
    requires { (k : ℕ) (one : GhostClassBid) → slice_get list.now k ≡ Some one → one.bid.saving ≤ 1099511627776 }
    ensures saving { result ≡ first_saving (drop from list.now) class served }
    ensures low { result ≤ 1099511627776 }
{
    for number in from..list.len() {
        let one = list[number];
        if one.class == class && are_apart(served, one.bid.served) {
            return one.bid.saving;
        }
    }
    0
}

/// At least what the drivers without a duty can save beside the orders that are served, with bids from that number of the
/// list on: the sum of what each can save alone, which is what the first such bid of the class saves.
pub(crate) fn hope_of(
    list: &[ClassBid],
    from: usize,
    classes: &Classes,
    places: &Places,
    drivers: usize,
    served: u128,
) -> u64
    requires drivers { drivers ≤ 16 }
    requires falling { AreFalling list.now }
    requires small { (k : ℕ) (one : GhostClassBid) → slice_get list.now k ≡ Some one → one.bid.saving ≤ 1099511627776 }
    ensures most { (more : ℕ) → CanTake (drop from list.now) (free_of classes.now places.now drivers) served more → more ≤ result }
    ensures low { result ≤ 17592186044416 }
{
    let mut hope = 0;
    for driver in 0..drivers {
        if is_home(places, driver) {
            hope += first_saving(list, from, classes[driver], served);
        }
    }
    hope
}
