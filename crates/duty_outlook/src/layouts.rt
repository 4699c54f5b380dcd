// Where the entries of an outlook lie. Nothing rests on it but how tight the bound is: an entry says itself which spot it is
// of, and whoever reads it asks that.
ghost use Rattle.std.specs.Prelude.{◌<◌, ◌≤◌, ◌^◌};

use crate::spots::Spot;
use duty_label::{Walks, make_walks};
use minute_line::Memory;
use std::alloc::Global;

/// The parts of a week, where a part has 15 minutes.
pub(crate) const PARTS: u32 = 673;

/// The most places of a week.
const PLACES: usize = 64;

/// So many minutes are kept at once while an outlook is filled.
pub(crate) const RING: u32 = 256;

/// At most so many orders are remembered at a place.
const MOST: u32 = 4;

/// Where the entries of a place lie in a part of the week.
#[derive(Clone, Copy)]
pub(crate) struct Shelf {
    /// The orders that are remembered; order n is the bit n.
    pub(crate) remembered: u128,
    /// How many entries of a minute come before those of the place.
    pub(crate) before: u32,
}

/// Where the entries of an outlook lie.
#[derive(Drop)]
pub(crate) struct Layout {
    pub(crate) places: u32,
    /// The quarters of an hour of a part: the first minute of a part is kept.
    pub(crate) quarters: u32,
    pub(crate) walks: Walks,
    /// A shelf for each part and place, part by part.
    pub(crate) shelves: Vec<Shelf>,
    /// How many kept entries come before those of a part.
    pub(crate) parts: Vec<u32>,
    /// How many entries a minute has at most.
    pub(crate) width: u32,
}

/// The number of a set of remembered orders among all such sets.
fn number_of(orders: u128, remembered: u128) -> u32 {
    let mut rest = remembered;
    let mut number = 0;
    for place in 0..MOST {
        let low = rest & rest.wrapping_neg();
        if orders & low != 0 {
            number |= 1 << place;
        }
        rest &= !low;
    }
    number
}

/// The set of remembered orders of that number.
pub(crate) fn set_of(number: u32, remembered: u128) -> u128 {
    let mut rest = remembered;
    let mut orders = 0;
    for place in 0..MOST {
        let low = rest & rest.wrapping_neg();
        if (number >> place) & 1 == 1 {
            orders |= low;
        }
        rest &= !low;
    }
    orders
}

/// How many sets of remembered orders there are.
pub(crate) fn sets_of(remembered: u128) -> u32 {
    1 << remembered.count_ones().min(MOST)
}

/// A layout of no entries, with room for the places of any week.
pub(crate) fn make_layout(alloc: Global) -> Result<Layout, Memory> {
    let shelf = Shelf {
        remembered: 0,
        before: 0,
    };
    Ok(Layout {
        places: 0,
        quarters: 1,
        walks: make_walks(alloc)?,
        shelves: vec![in alloc; shelf; PARTS as usize * PLACES]?,
        parts: vec![in alloc; 0; PARTS as usize]?,
        width: 0,
    })
}

impl Layout {
    /// The minutes of a part.
    pub(crate) fn step(&self) -> u32
        ensures some { 0 < result }
        ensures few { result ≤ 60 }
    {
        match self.quarters {
            1 => 15,
            2 => 30,
            _ => 60,
        }
    }

    /// Whether the minute is the first of a part.
    pub(crate) fn is_kept(&self, minute: u32) -> bool {
        minute % self.step() == 0
    }

    /// The shelf of a place in a part.
    fn shelf(&self, place: u32, part: u32) -> Shelf {
        let index = part as usize * self.places as usize + place as usize;
        match self.shelves.get(index) {
            Some(shelf) => *shelf,
            None => Shelf {
                remembered: 0,
                before: 0,
            },
        }
    }

    /// The orders that are remembered at a place at a minute.
    pub(crate) fn remembered(&self, place: u32, minute: u32) -> u128 {
        self.shelf(place, minute / self.step()).remembered
    }

    /// Where the entry of a spot lies among those of its minute.
    fn row(&self, spot: Spot) -> usize
        ensures { result < 2 ^ 40 }
    {
        let shelf = self.shelf(spot.place, spot.minute / self.step());
        shelf.before as usize + number_of(spot.orders, shelf.remembered) as usize
    }

    /// Where the entry of a spot lies while the outlook is filled at about its minute.
    pub(crate) fn ring_slot(&self, spot: Spot) -> usize {
        (spot.minute % RING) as usize * self.width as usize + self.row(spot)
    }

    /// Where the entry that is kept for a spot lies.
    pub(crate) fn kept_slot(&self, spot: Spot) -> usize {
        let part = match self.parts.get((spot.minute / self.step()) as usize) {
            Some(part) => *part,
            None => 0,
        };
        RING as usize * self.width as usize + part as usize + self.row(spot)
    }
}
