// The answers of a round, once its workers have ended.
ghost use Rattle.std.specs.Prelude.{◌≡◌, ◌<◌, length, IfOk};
ghost use Rattle.duty_plan.specs.Duties.{EachOf};
ghost use Rattle.pricing_pool.specs.Working.{HasAnswerAt, HasAnswerOfClass, HaveClasses};

use crate::copying::copy_answer;
use crate::workers::Worker;
use duty_plan::Priced;
use minute_line::{Many, Memory};
use std::alloc::Global;

/// What the worker of that number found; want of memory where it found nothing.
fn answer_at(alloc: Global, workers: &[Worker], number: u32) -> Result<Priced, Memory>
    requires { number < length workers.now }
    ensures { IfOk result (HasAnswerAt workers.now number) }
{
    match &workers[number as usize].answer {
        Some(answer) => copy_answer(alloc, answer),
        None => Err(Memory),
    }
}

/// The answer for each driver: what the worker found whose driver stands for that one.
pub(crate) fn answers_of(alloc: Global, workers: &[Worker]) -> Result<Many<Priced>, Memory>
    requires { HaveClasses workers.now }
    ensures count { IfOk result (λ answers. length answers ≡ length workers.now) }
    ensures found { IfOk result (EachOf (HasAnswerOfClass workers.now)) }
{
    let mut answers = Many::new(alloc);
    'copying: for number in 0..workers.len() {
        answers.push(answer_at(alloc, workers, workers[number].class)?)?;
    }
    Ok(answers)
}
