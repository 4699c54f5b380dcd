// Drivers with the same bids, and the bids of all drivers in one list.
ghost use Rattle.std.specs.Prelude.{◌≡◌, ◌≤◌, ◌<◌, ◌↔◌, ℕ, IsTrue, length, slice_get, Some, IfOk, OnOk};
ghost use Rattle.price_master.specs.declared.alike.ClassBid.{ClassBid as GhostClassBid};
ghost use Rattle.price_master.specs.Classes.{AddsBids, AreClassBids, AreClasses, AreFalling, IsFirstAlike};

use crate::bidding::Bid;
use minute_line::{Many, Memory};
use std::alloc::Global;

/// The most drivers of a week.
pub(crate) const DRIVERS: usize = 16;

/// For each driver the first driver with the same bids: the class of them all.
pub(crate) type Classes = [usize; DRIVERS];

/// A bid that each driver of a class may be given.
#[derive(Clone, Copy)]
pub(crate) struct ClassBid {
    pub class: usize,
    pub bid: Bid,
}

/// Whether these are the same bids.
fn are_same(one: &[Bid], other: &[Bid]) -> bool
    ensures { IsTrue result ↔ (one.now ≡ other.now) }
{
    one == other
}

/// The first driver with the same bids as this driver.
fn class_of(bids: &[Many<Bid>], driver: usize) -> usize
    requires { driver < length bids.now }
    ensures { IsFirstAlike bids.now driver result }
{
    for earlier in 0..driver {
        if are_same(bids[earlier].as_slice(), bids[driver].as_slice()) {
            return earlier;
        }
    }
    driver
}

/// The classes of all drivers.
pub(crate) fn classes_of(bids: &[Many<Bid>]) -> Classes
    requires { length bids.now ≤ 16 }
    ensures { AreClasses bids.now result }
{
    let mut classes = [0; DRIVERS];
    for driver in 0..bids.len() {
        classes[driver] = class_of(bids, driver);
    }
    classes
}

/// The place of a saving among falling ones, after those that are no less.
fn place_among(list: &[ClassBid], saving: u64) -> usize
    ensures inside { result ≤ length list.now }
    ensures before { (k : ℕ) (one : GhostClassBid) → k < result → slice_get list.now k ≡ Some one → saving ≤ one.bid.saving }
    ensures here { (one : GhostClassBid) → slice_get list.now result ≡ Some one → one.bid.saving ≤ saving }
{
    for place in 0..list.len() {
        if list[place].bid.saving < saving {
            return place;
        }
    }
    list.len()
}

/// Puts those bids of a class that save anything into the list.
fn add_bids(list: &mut Vec<ClassBid>, class: usize, bids: &[Bid]) -> Result<(), Memory>
    requires { AreFalling list.old.items }
    ensures { OnOk result (AddsBids class bids.now list.old.items list.new.items) }
{
    for number in 0..bids.len() {
        let bid = bids[number];
        if bid.saving > 0 {
            list.insert(
                place_among(list.as_slice(), bid.saving),
                ClassBid { class, bid },
            )?;
        }
    }
    Ok(())
}

/// The bids of each class that save anything, by falling savings.
pub(crate) fn class_bids(
    alloc: Global,
    bids: &[Many<Bid>],
    classes: &Classes,
) -> Result<Many<ClassBid>, Memory>
    requires drivers { length bids.now ≤ 16 }
    requires classes { AreClasses bids.now classes.now }
    ensures { IfOk result (λ list. AreClassBids bids.now classes.now list) }
{
    let mut list = Vec::new(alloc);
    for driver in 0..bids.len() {
        if classes[driver] == driver {
            add_bids(&mut list, driver, bids[driver].as_slice())?;
        }
    }
    Ok(Many::from_vec(list))
}
