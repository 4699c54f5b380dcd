// The entries of an outlook, and how they are read.
ghost use Rattle.std.specs.Prelude.{◌≡◌, ℕ, ◌*◌, ◌<◌, ◌≤◌, IfSome};
ghost use Rattle.week_book.specs.declared.weeks.Week.{Week};
ghost use Rattle.duty_plan.specs.declared.pricing.Prices.{Prices};

use crate::layouts::{Layout, RING};
use crate::spots::{Entry, Spot};

/// The number that stands for no cents.
pub(crate) const NOTHING: u64 = 2_000_000_000_000;

/// A number at which nothing is known.
pub(crate) const LIMIT: u64 = 4_000_000_000_000;

/// What a lorry carries, and the levels of its load.
#[derive(Clone, Copy)]
pub(crate) struct Scale {
    /// What the lorry carries at most, in kg.
    pub(crate) capacity: u32,
    /// The kg of a level of load.
    pub(crate) unit: u32,
    ghost most: { capacity ≤ 100000 },
    ghost some: { 0 < unit },
    ghost few: { unit ≤ 200000 },
    ghost room: { capacity < 32 * unit },
}

/// The levels of a lorry that carries so much: of so many kg each, where they are enough.
pub(crate) fn scale_of(capacity: u32, wish: u32) -> Scale
    requires { capacity ≤ 100000 }
    ensures { result.capacity ≡ capacity }
{
    if wish > 0 && wish <= 200_000 && capacity < 32 * wish {
        return Scale {
            capacity,
            unit: wish,
        };
    }
    Scale {
        capacity,
        unit: capacity / 32 + 1,
    }
}

/// An upper bound on what a driver's half-made duty may still save.
#[derive(Drop)]
pub struct Outlook {
    pub(crate) scale: Scale,
    /// The orders that are Barred for the driver; order n is the bit n.
    pub(crate) barred: u128,
    pub(crate) layout: Layout,
    pub(crate) entries: Vec<Entry>,
}

/// A row at which nothing is known.
const FULL: [u64; 32] = [LIMIT; 32];

impl Outlook {
    ghost use Rattle.duty_outlook.specs.Covering.{Covers};
    ghost use Rattle.duty_outlook.specs.Outlooks.{CoversRow, IsFilled, cents_of};

    /// Where the entry of a spot lies while the outlook is filled at about its minute.
    pub(crate) fn ring_slot(&self, spot: Spot) -> usize {
        self.layout.ring_slot(spot)
    }

    /// Where the entry that is kept for a spot lies.
    pub(crate) fn kept_slot(&self, spot: Spot) -> usize {
        self.layout.kept_slot(spot)
    }

    /// Whether the entries of a minute are kept.
    pub(crate) fn is_kept(&self, minute: u32) -> bool {
        self.layout.is_kept(minute)
    }

    /// The orders that are remembered at a place at a minute.
    pub(crate) fn remembered(&self, place: u32, minute: u32) -> u128 {
        self.layout.remembered(place, minute)
    }

    /// The row of the entry that lies there, where it is one for the spot.
    fn row_in(&self, slot: usize, spot: Spot) -> Option<&[u64; 32]>
        ensures { (week : Week) (prices : Prices) → IsFilled week prices self.now →
            IfSome result (λ row. CoversRow week self.now.scale.capacity self.now.scale.unit prices spot row.now) }
    {
        match self.entries.get(slot) {
            Some(entry) if entry.spot.is_within(spot) => Some(&entry.numbers),
            _ => None,
        }
    }

    /// Where the entry for a spot lies: the one of its own minute, if it is there, else the one that is kept.
    fn slot(&self, spot: Spot) -> usize {
        let slot = self.ring_slot(spot);
        match self.entries.get(slot) {
            Some(entry) if entry.spot.minute == spot.minute => slot,
            _ => self.kept_slot(spot),
        }
    }

    /// Where the entry for a spot lies once the outlook is filled: of later minutes none but those that are kept are left.
    fn last_slot(&self, spot: Spot) -> usize {
        if spot.minute < RING {
            self.slot(spot)
        } else {
            self.kept_slot(spot)
        }
    }

    /// A number for the spot at a level of load.
    pub(crate) fn number_at(&self, spot: Spot, level: usize) -> u64
        requires { level < 32 }
        ensures { (week : Week) (prices : Prices) → IsFilled week prices self.now →
            Covers week self.now.scale.capacity prices spot.orders spot.place spot.minute (level * self.now.scale.unit) (cents_of result) }
    {
        let Some(entry) = self.entries.get(self.last_slot(spot)) else {
            return LIMIT;
        };
        if !entry.spot.is_within(spot) {
            return LIMIT;
        }
        entry.numbers[level]
    }

    /// A row for the spot.
    pub(crate) fn row_at(&self, spot: Spot) -> &[u64; 32]
        ensures { (week : Week) (prices : Prices) → IsFilled week prices self.now →
            CoversRow week self.now.scale.capacity self.now.scale.unit prices spot result.now }
    {
        match self.row_in(self.slot(spot), spot) {
            Some(row) => row,
            None => &FULL,
        }
    }
}
