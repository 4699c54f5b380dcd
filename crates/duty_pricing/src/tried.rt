// What becomes of a step that is tried.
ghost use Rattle.std.specs.Prelude.{◌≡◌, ◌↔◌, true};

/// What became of a step that was tried after a label.
#[derive(Clone, Copy, PartialEq, Eq, Debug)]
pub(crate) enum Tried {
    /// There was no room for its label.
    Full,
    /// Its label was stored, or need not be.
    Done,
    /// The outlook rules it out, with all steps that end there no sooner.
    RuledOut,
}

impl Tried {
    /// Whether there was no room.
    pub(crate) fn is_full(self) -> bool
        ensures { result ≡ true ↔ self ≡ Tried.Full }
    {
        match self {
            Tried::Full => true,
            Tried::Done | Tried::RuledOut => false,
        }
    }
}
