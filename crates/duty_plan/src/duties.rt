// What one driver does in a week.
ghost use Rattle.std.specs.Prelude.{◌≡◌, true, IfOk};
ghost use Rattle.minute_line.specs.Marks.{is_working};
ghost use Rattle.duty_plan.specs.Acts.{mark_of};

use hours_rules::Stay;
use minute_line::{Many, Mark, Memory};
use std::alloc::Global;

/// What a driver does after a stay.
#[derive(Clone, Copy, PartialEq, Eq, Debug)]
pub enum Act {
    /// Drives to the place of that number, in one piece.
    Leg(u32),
    /// Serves the order of that number, at its place.
    Serve(u32),
    /// Loads the lorry, at the depot.
    Load,
}

impl Act {
    /// What the act's minutes are marked with: Drive for a leg, else Work.
    pub fn mark(self) -> Mark
        ensures mark { result ≡ mark_of self }
        ensures working { is_working result ≡ true }
    {
        match self {
            Act::Leg(_) => Mark::Drive,
            Act::Serve(_) | Act::Load => Mark::Work,
        }
    }
}

/// A stay, and the act after it.
#[derive(Clone, Copy, PartialEq, Eq, Debug)]
pub struct Step {
    pub stay: Stay,
    pub act: Act,
}

/// The steps of a driver's week, one after another from Monday 00:00 at the depot. What is left of the week is Off; no
/// step is the whole week Off.
#[derive(Drop)]
pub struct Duty {
    pub steps: Many<Step>,
}

/// The same duty once more.
pub fn copied_duty(alloc: Global, duty: &Duty) -> Result<Duty, Memory>
    ensures { IfOk result (λ copy. copy ≡ duty.now) }
{
    let steps = Many::from_slice(alloc, duty.steps.as_slice())?;
    Ok(Duty { steps })
}
