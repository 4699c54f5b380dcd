// The search for the choice of one bid for each driver that saves most.
ghost use Rattle.std.specs.Prelude.{◌≡◌, ◌⊎◌, ℕ, ◌+◌, ◌*◌, ◌<◌, ◌≤◌, true, false, List, length, drop, set, Some, slice_get, slice_index, bit_or, IfOk};
ghost use Rattle.price_master.specs.declared.bidding.Bid.{Bid as GhostBid};
ghost use Rattle.price_master.specs.Bids.{AreChosen, AreFixed, CanSave, HaveHomes, IsMostOf, turns_of};
ghost use Rattle.price_master.specs.Classes.{AreClassBids, AreClasses, CanTake, free_of, tries_of};
ghost use Rattle.price_master.specs.Sensible.{AreAllSensible};

use crate::alike::{ClassBid, Classes, DRIVERS, class_bids, classes_of};
use crate::bidding::{Bid, HOME};
use crate::hoping::{Places, are_apart, count_free, free_driver, hope_of};
use minute_line::{Many, Memory};
use std::alloc::Global;

/// The turns after which the search is cut; a turn fixes one driver's bid.
const TURNS: u32 = 20_000;

/// The choice that saves most so far, and the turns that were taken.
#[derive(Drop)]
pub(crate) struct Found {
    pub saving: u64,
    pub places: Places,
    pub turns: u32,
    pub is_cut: bool,
}

impl Found {
    /// Keeps the choice in place of the one so far, where it saves more.
    fn offer(&mut self, saving: u64, places: Places)
        ensures grows { self.old.saving ≤ self.new.saving }
        ensures beats { saving ≤ self.new.saving }
        ensures choice { ((self.new.saving ≡ saving) × (self.new.places ≡ places)) ⊎
            ((self.new.saving ≡ self.old.saving) × (self.new.places ≡ self.old.places)) }
        ensures turns { (self.new.turns ≡ self.old.turns) × (self.new.is_cut ≡ self.old.is_cut) }
    {
        if saving > self.saving {
            self.saving = saving;
            self.places = places;
        }
    }
}

fn placed(places: Places, driver: usize, place: u32) -> Places
    requires { driver < 16 }
    ensures { result ≡ set places driver place }
{
    let mut next = places;
    next[driver] = place;
    next
}

/// No duty for each driver.
fn homes() -> Places
    ensures { (driver : ℕ) → driver < 16 → slice_index result driver ≡ 4294967295 }
{
    [HOME; DRIVERS]
}

/// Offers each choice of one bid of the driver, with the empty duty for the others.
fn offer_singles(bids: &[Many<Bid>], driver: usize, found: &mut Found)
    requires drivers { length bids.now ≤ 16 }
    requires driver { driver < length bids.now }
    requires homes { HaveHomes bids.now }
    requires found { AreChosen bids.now found.old.places found.old.saving }
    ensures found { AreChosen bids.now found.new.places found.new.saving }
    ensures grows { found.old.saving ≤ found.new.saving }
    ensures beats { (of_driver : List GhostBid) → slice_get bids.now driver ≡ Some of_driver → IsMostOf of_driver found.new.saving }
    ensures turns { (found.new.turns ≡ found.old.turns) × (found.new.is_cut ≡ found.old.is_cut) }
{
    for bid in bids[driver].as_slice() {
        found.offer(bid.saving, placed(homes(), driver, bid.place));
    }
}

/// The best choice of one bid, with the empty duty for the other drivers. It takes no turn.
fn best_single(bids: &[Many<Bid>]) -> Found
    requires drivers { length bids.now ≤ 16 }
    requires homes { HaveHomes bids.now }
    ensures found { AreChosen bids.now result.places result.saving }
    ensures beats { (driver : ℕ) (of_driver : List GhostBid) → slice_get bids.now driver ≡ Some of_driver → IsMostOf of_driver result.saving }
    ensures turns { (result.turns ≡ 0) × (result.is_cut ≡ false) }
{
    let mut found = Found {
        saving: 0,
        places: homes(),
        turns: 0,
        is_cut: false,
    };
    for driver in 0..bids.len() {
        offer_singles(bids, driver, &mut found);
    }
    found
}

/// Bids that are chosen for some drivers, where the others have none: the orders that they serve and what they save together.
#[derive(Clone, Copy)]
struct Choice {
    places: Places,
    served: u128,
    saving: u64,
}

/// The choice with one bid more.
fn with_bid(choice: &Choice, driver: usize, bid: Bid) -> Choice
    requires driver { driver < 16 }
    requires fits { choice.now.saving + bid.saving < 18446744073709551616 }
    ensures places { result.places ≡ set choice.now.places driver bid.place }
    ensures served { result.served ≡ bit_or choice.now.served bid.served }
    ensures saving { result.saving ≡ choice.now.saving + bid.saving }
{
    Choice {
        places: placed(choice.places, driver, bid.place),
        served: choice.served | bid.served,
        saving: choice.saving + bid.saving,
    }
}

/// Tries each choice that has further bids of the list from `from` on, each for the first driver of its class that has none.
fn explore(
    bids: &[Many<Bid>],
    classes: &Classes,
    list: &[ClassBid],
    found: &mut Found,
    from: usize,
    choice: Choice,
)
    requires drivers { length bids.now ≤ 16 }
    requires bids { AreAllSensible bids.now }
    requires classes { AreClasses bids.now classes.now }
    requires list { AreClassBids bids.now classes.now list.now }
    requires from { from ≤ length list.now }
    requires choice { AreFixed bids.now choice.places (length bids.now) choice.served choice.saving }
    requires found { AreChosen bids.now found.old.places found.old.saving }
    requires turns { found.old.turns ≤ 20000 }
    requires going { found.old.is_cut ≡ false }
    ensures found { AreChosen bids.now found.new.places found.new.saving }
    ensures grows { found.old.saving ≤ found.new.saving }
    ensures best { found.new.is_cut ≡ false → (more : ℕ) →
        CanTake (drop from list.now) (free_of classes.now choice.places (length bids.now)) choice.served more → choice.saving + more ≤ found.new.saving }
    ensures limit { found.new.turns ≤ 20000 }
    ensures turns { found.new.turns ≤ found.old.turns + tries_of (drop from list.now) (free_of classes.now choice.places (length bids.now)) choice.served }
    ensures cut { found.new.is_cut ≡ true → found.new.turns ≡ 20000 }
{
    found.offer(choice.saving, choice.places);
    let free = count_free(&choice.places, bids.len());
    for number in from..list.len() {
        let one = list[number];
        if choice.saving + free * one.bid.saving <= found.saving {
            return;
        }
        let driver = free_driver(classes, &choice.places, bids.len(), one.class);
        if driver < bids.len() && are_apart(choice.served, one.bid.served) {
            let next = with_bid(&choice, driver, one.bid);
            let hope = hope_of(
                list,
                number + 1,
                classes,
                &next.places,
                bids.len(),
                next.served,
            );
            if next.saving + hope > found.saving {
                if found.turns == TURNS {
                    found.is_cut = true;
                    return;
                }
                found.turns += 1;
                explore(bids, classes, list, found, number + 1, next);
                if found.is_cut {
                    return;
                }
            }
        }
    }
}

/// The choice of one bid for each driver that saves most, unless it is cut; in any case one that saves no less than any bid
/// alone.
pub(crate) fn best_choice(alloc: Global, bids: &[Many<Bid>]) -> Result<Found, Memory>
    requires drivers { length bids.now ≤ 16 }
    requires homes { HaveHomes bids.now }
    requires bids { AreAllSensible bids.now }
    ensures found { IfOk result (λ found. AreChosen bids.now found.places found.saving) }
    ensures best { IfOk result (λ found. found.is_cut ≡ false → (saving : ℕ) → CanSave bids.now 0 saving → saving ≤ found.saving) }
    ensures beats { IfOk result (λ found. (driver : ℕ) (of_driver : List GhostBid) → slice_get bids.now driver ≡ Some of_driver → IsMostOf of_driver found.saving) }
    ensures long { IfOk result (λ found. found.is_cut ≡ true → 20000 ≤ turns_of bids.now 0) }
{
    let classes = classes_of(bids);
    let list = class_bids(alloc, bids, &classes)?;
    let mut found = best_single(bids);
    let none = Choice {
        places: homes(),
        served: 0,
        saving: 0,
    };
    explore(bids, &classes, list.as_slice(), &mut found, 0, none);
    Ok(found)
}
