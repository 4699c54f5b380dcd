// What holds after every list of steps: each law is the contract of a function that does nothing.
ghost use Rattle.label_arena.specs.Laws.{DrawsOnce, HasOneHolder, HoldsChunksAlone, FindsNextAtHome, DrawsAllBeforeFull, FullMeansAllDrawn};

/// The laws of the claim machine: after every list of steps the numbers that the seats drew are those below the counter, each
/// once; each chunk is at home or is held by exactly one seat, which drew it; the chunk of the next number is at home; and
/// where a seat drew a number that has no chunk, each chunk's number has been drawn.
pub fn claim_machine()
    ensures once { DrawsOnce }
    ensures holder { HasOneHolder }
    ensures chunks { HoldsChunksAlone }
    ensures next { FindsNextAtHome }
    ensures full { DrawsAllBeforeFull }
{}

/// The law that where the seats of a closed round drew the numbers below some number, each once, and one of them was answered
/// Full, each chunk's number was drawn once.
pub fn all_drawn()
    ensures { FullMeansAllDrawn }
{}
