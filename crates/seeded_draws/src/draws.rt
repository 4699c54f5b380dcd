// The draws of a generator, one after another.
ghost use Rattle.std.specs.Prelude.{◌≡◌, ◌<◌};
ghost use Rattle.seeded_draws.specs.Draws.{state_next, state_after, drawn};

/// What a state is multiplied by, and what is added (Knuth's MMIX).
const FACTOR: u64 = 6_364_136_223_846_793_005;

const SUMMAND: u64 = 1_442_695_040_888_963_407;

/// A stream of numbers, which its state determines.
#[derive(Drop)]
pub struct Draws {
    pub state: u64,
}

/// The state after one more draw.
fn next_state(state: u64) -> u64
    ensures { result ≡ state_next state }
{
    state.wrapping_mul(FACTOR).wrapping_add(SUMMAND)
}

impl Draws {
    /// The numbers that follow a seed.
    pub fn seeded(seed: u64) -> Draws
        ensures { result.state ≡ seed }
    {
        Draws { state: seed }
    }

    /// The next number below `size`: of the state's high 31 bits, since its low ones recur after few draws.
    pub fn draw(&mut self, size: u32) -> u32
        requires { 0 < size }
        ensures state { self.new.state ≡ state_after self.old.state 1 }
        ensures number { result ≡ drawn self.old.state 0 size }
        ensures below { result < size }
    {
        self.state = next_state(self.state);
        (self.state >> 33) as u32 % size
    }
}
