// The steps of the least duty, read from its slots.
ghost use Rattle.std.specs.Prelude.{◌≡◌, ◌≤◌, ◌<◌, List, [], ◌∷◌, ◌++◌, length, reverse, IfOk, vec_capacity};
ghost use Rattle.minute_line.specs.declared.lines.TheConstants.{WEEK_MINUTES};
ghost use Rattle.duty_plan.specs.declared.duties.Step.{Step};
ghost use Rattle.duty_pricing.specs.Slots.{HaveParents, entries_of, partial_at};

use crate::chunks::Chunks;
use duty_plan::Step;
use minute_line::{Memory, WEEK_MINUTES};
use std::alloc::Global;
use std::marker::Model;

/// The most steps of a duty: each act takes a minute at least.
const MOST: usize = WEEK_MINUTES as usize;

/// The steps of a duty, in a list that takes no memory when it grows.
#[derive(Drop)]
pub struct Steps {
    steps: Vec<Step>,
}

impl Model for Steps {
    ghost Value = { List Step };

    ghost view = { λ s. s.steps.items };

    ghost invariant = { λ s. WEEK_MINUTES ≤ vec_capacity s.steps };
}

impl Steps {
    /// A list with room for the steps of any duty.
    pub fn with_room(alloc: Global) -> Result<Steps, Memory>
        ensures { IfOk result (λ steps. steps ≡ []) }
    {
        Ok(Steps {
            steps: Vec::with_capacity(alloc, MOST)?,
        })
    }

    /// The steps as a slice.
    pub fn as_slice(&self) -> &[Step]
        ensures { result.now ≡ self.now }
    {
        self.steps.as_slice()
    }

    /// Forgets the steps.
    pub(crate) fn clear(&mut self)
        ensures { self.new ≡ [] }
    {
        self.steps.clear();
    }

    fn push(&mut self, step: Step)
        requires { length self.old < WEEK_MINUTES }
        ensures { self.new ≡ self.old ++ step ∷ [] }
    {
        self.steps.push_reserved(step);
    }

    /// Replaces the steps by others.
    pub(crate) fn copy(&mut self, steps: &[Step])
        requires { length steps.now ≤ WEEK_MINUTES }
        ensures { self.new ≡ steps.now }
    {
        self.steps.clear();
        let Ok(()) = self.steps.extend_from_slice(steps) else {
            unreachable!()
        };
    }

    fn reverse(&mut self)
        ensures { self.new ≡ reverse self.old }
    {
        self.steps.reverse();
    }
}

/// Writes the steps of a slot, from the first on.
pub(crate) fn trace(slots: &Chunks, number: u32, steps: &mut Steps)
    requires parents { HaveParents slots.now }
    requires number { number < length slots.now }
    requires few { length (partial_at (entries_of slots.now) number) ≤ WEEK_MINUTES }
    ensures { steps.new ≡ reverse (partial_at (entries_of slots.now) number) }
{
    steps.clear();
    let mut at = number;
    while at > 0 {
        let Some(slot) = slots.get(at) else {
            return;
        };
        steps.push(slot.step);
        at = slot.parent;
    }
    steps.reverse();
}
