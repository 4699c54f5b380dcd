// Who prices the drivers of a case, and who plans a week; and the gate that their workers pass.
ghost use Rattle.std.specs.Prelude.{◌≡◌, ℕ, IfOk};
ghost use Rattle.std.specs.Thread.{IsSync};
ghost use Rattle.duty_plan.specs.Duties.{IsCase};
ghost use Rattle.duty_plan.specs.Values.{IsPairs, IsPrices};
ghost use Rattle.duty_plan.specs.Rounds.{AreGuesses, IsRound};
ghost use Rattle.duty_plan.specs.Trees.{IsLimits, IsRight, IsWithinReach};
ghost use Rattle.duty_plan.specs.declared.outcomes.State.TheVariants.{Proved};

use crate::{Case, Duty, Limits, Outcome, Pairs, Priced, Prices};
use minute_line::{Many, Memory};
use std::alloc::Global;
use std::thread::Threads;

/// What each worker of a round passes before it prices, so that whoever asks for a round sees it under way. `Straight` lets
/// everybody through; the gate of a run at a terminal counts who passes, and says how far it is; a test's sees that workers stand
/// side by side.
pub trait Gate {
    /// Lets the worker of that number through.
    fn pass(&self, worker: u32);
}

/// The gate that lets each worker through at once.
#[derive(Clone, Copy, Debug)]
pub struct Straight;

impl Gate for Straight {
    fn pass(&self, _worker: u32) {}
}

/// Prices the drivers of a case, each once in a round, at pairs and prices.
pub trait Pricer {
    /// The number of its chunks of 1,024 labels, which no call changes. It licenses the answer Spent.
    ghost chunks: { Self → ℕ };

    /// One answer for each driver, the first driver's first: the least value with a lawful duty inside the pairs that has
    /// it, no duty where none is inside, or Spent where the chunks are fewer than the drivers or label lists fill them.
    fn round<R: Threads + Sync>(
        &mut self,
        rt: &R,
        gate: &(dyn Gate + Sync),
        alloc: Global,
        case: &Case,
        pairs: &Pairs,
        prices: &Prices,
    ) -> Result<Many<Priced>, Memory>
        requires sync { IsSync R.row }
        requires case { IsCase case.now }
        requires pairs { IsPairs case.now.week pairs.now }
        requires prices { IsPrices case.now.week prices.now }
        ensures round { IfOk result (λ answers. IsRound (chunks self.old) case.now pairs.now prices.now answers) }
        ensures chunks { chunks self.new ≡ chunks self.old };

    /// For each driver, the first driver's first, a lawful duty inside the pairs, or none. Nothing is said of its value, and no
    /// label is stored.
    fn guess(
        &mut self,
        alloc: Global,
        case: &Case,
        pairs: &Pairs,
        prices: &Prices,
    ) -> Result<Many<Option<Duty>>, Memory>
        requires case { IsCase case.now }
        requires pairs { IsPairs case.now.week pairs.now }
        requires prices { IsPrices case.now.week prices.now }
        ensures guesses { IfOk result (AreGuesses case.now pairs.now) }
        ensures chunks { chunks self.new ≡ chunks self.old };
}

/// Plans the week of a case.
pub trait Planner {
    /// A lawful plan at its cost, a bound that no lawful plan beats, and a tree within the limits that shows it. Nodes and
    /// labels enough for every tree and pricing leave the cost proved.
    fn solve<R: Threads + Sync>(
        &mut self,
        rt: &R,
        gate: &(dyn Gate + Sync),
        alloc: Global,
        case: &Case,
        limits: &Limits,
    ) -> Result<Outcome, Memory>
        requires sync { IsSync R.row }
        requires case { IsCase case.now }
        requires limits { IsLimits limits.now }
        ensures right { IfOk result (λ outcome. IsRight case.now limits.now outcome) }
        ensures proved { IfOk result (λ outcome. IsWithinReach case.now limits.now → outcome.state ≡ Proved) };
}
