// Laws on draws, whose function does nothing.
ghost use Rattle.std.specs.Prelude.{◌≡◌, ◌+◌, ◌<◌, ℕ};
ghost use Rattle.seeded_draws.specs.Draws.{state_after, drawn};

/// The laws of draws: each is below its size, and draws from a state that others have left go on with the numbers after theirs.
pub fn draws_go_on()
    ensures below { (seed others size : ℕ) → 0 < size → drawn seed others size < size }
    ensures on { (seed before others size : ℕ) → drawn (state_after seed before) others size ≡ drawn seed (before + others) size }
{}
