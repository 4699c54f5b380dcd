// Twins have one answer, and one guess.
ghost use Rattle.std.specs.Prelude.{◌≡◌, IfOk};

use duty_plan::{Duty, Priced, copied_duty};
use minute_line::Memory;
use std::alloc::Global;

/// The same guess once more.
pub(crate) fn copy_guess(alloc: Global, guess: &Option<Duty>) -> Result<Option<Duty>, Memory>
    ensures { IfOk result (λ copy. copy ≡ guess.now) }
{
    match guess {
        Some(duty) => Ok(Some(copied_duty(alloc, duty)?)),
        None => Ok(None),
    }
}

/// The same answer once more.
pub(crate) fn copy_answer(alloc: Global, answer: &Priced) -> Result<Priced, Memory>
    ensures { IfOk result (λ copy. copy ≡ answer.now) }
{
    match answer {
        Priced::Least(value, duty) => Ok(Priced::Least(*value, copied_duty(alloc, duty)?)),
        Priced::NoDuty => Ok(Priced::NoDuty),
        Priced::Spent(stored) => Ok(Priced::Spent(*stored)),
    }
}
