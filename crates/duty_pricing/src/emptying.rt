// A label store is made once, and emptied after each driver.
ghost use Rattle.std.specs.Prelude.{◌≡◌, [], None, IfOk, length, replicate};
ghost use Rattle.duty_pricing.specs.Finding.{IsEmptyStore, StoreHasRoom};
ghost use Rattle.duty_pricing.specs.Slots.{AreChained};

use crate::chunks::Chunks;
use crate::numbers::Numbers;
use crate::steps::Steps;
use crate::stores::LabelStore;
use minute_line::{Memory, WEEK_MINUTES};
use std::alloc::Global;

/// The minutes at which a label may end: those of a week, from 0 to 10,080.
const MINUTES: usize = WEEK_MINUTES as usize + 1;

/// The cells of the most places of a week, two for each of the hours from 0 to 168.
const CELLS: usize = 64 * 2 * 169;

/// No label, and room for those of 2,048 chunks.
pub(crate) fn make_store(alloc: Global) -> Result<LabelStore, Memory>
    ensures { IfOk result IsEmptyStore }
{
    Ok(LabelStore {
        slots: Chunks::with_room(alloc)?,
        numbers: Numbers::with_room(alloc)?,
        minutes: vec![in alloc; 0; MINUTES]?,
        cells: vec![in alloc; 0; CELLS]?,
        known: None,
        best: None,
        steps: Steps::with_room(alloc)?,
    })
}

/// Sets each number to 0.
fn clear(numbers: &mut [u32])
    ensures { numbers.new ≡ replicate (length numbers.old) 0 }
{
    for number in numbers.iter_mut() {
        *number = 0;
    }
}

impl LabelStore {
    /// Forgets the heads of all links, and what is known.
    pub(crate) fn forget(&mut self)
        requires { StoreHasRoom self.old }
        ensures heads { AreChained self.new.minutes.items self.new.cells.items [] }
        ensures room { StoreHasRoom self.new }
        ensures known { self.new.known ≡ None }
        ensures same { (self.new.slots ≡ self.old.slots) × (self.new.numbers ≡ self.old.numbers) }
        ensures steps { self.new.steps ≡ self.old.steps }
    {
        clear(self.minutes.as_mut_slice());
        clear(self.cells.as_mut_slice());
        self.known = None;
    }
}
