// Why a request is answered before its command.
ghost use Rattle.std.specs.Prelude.{◌≡◌, codes};
ghost use Rattle.desk_http.specs.declared.early.Halt.TheVariants.{Early as answered_early, Memory as WantOfMemory};
ghost use Rattle.desk_http.specs.Requests.{method_of};

use http::Method;
use minute_line::Memory;

/// The two methods that routes have.
#[derive(Clone, Copy, PartialEq, Eq, Debug)]
pub(crate) enum Verb {
    Get,
    Post,
}

impl Verb {
    /// The method.
    pub(crate) fn method(self) -> Method
        ensures { result ≡ method_of self }
    {
        match self {
            Verb::Get => Method::GET,
            Verb::Post => Method::POST,
        }
    }
}

/// Why a request is answered before its command: the first cause, in the order of the steps of reading it.
#[derive(Clone, Copy, PartialEq, Eq, Debug)]
pub(crate) enum Early {
    /// Its head is none, or its body is none or does not come, or is not told.
    Bad,
    /// Its target has no route, or names no Monday where the route does.
    Lost,
    /// Its route has this method and no other.
    Method(Verb),
    /// Its body is longer than 1,048,576 bytes.
    Long,
}

/// Why no command came of a request.
#[derive(Clone, Copy, PartialEq, Eq, Debug)]
pub(crate) enum Halt {
    Early(Early),
    Memory,
}

impl From<Memory> for Halt {
    ghost from_gives = { λ _ e. e ≡ WantOfMemory };

    fn from(_error: Memory) -> Halt {
        Halt::Memory
    }
}

impl From<Early> for Halt {
    ghost from_gives = { λ early e. e ≡ answered_early early };

    fn from(early: Early) -> Halt {
        Halt::Early(early)
    }
}
