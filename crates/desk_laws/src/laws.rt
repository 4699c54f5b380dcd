// What a publication moves, after any list of commands: a law, whose function does nothing.
ghost use Rattle.desk_laws.specs.Moving.{HistoriesMove};

/// The law that after any list of commands, over tables that held no draft at first, a publication which is done makes of what is
/// kept of each driver of its draft the history that the draft's report prints, advanced by the duty that it prints, up to the
/// Monday after; and that what is kept of any other driver stays.
pub fn histories_move()
    ensures { HistoriesMove }
{}
