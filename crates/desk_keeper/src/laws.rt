// What a publication moves: a law, whose function does nothing.
ghost use Rattle.desk_keeper.specs.Laws.{PublicationMovesItsDrivers};

/// The law that a publication makes of what is kept of each driver of its draft the history after the week, up to the Monday
/// that follows, and that what is kept of any other driver stays.
pub fn publication_moves_its_drivers_alone()
    ensures { PublicationMovesItsDrivers }
{}
