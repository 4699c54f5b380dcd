// Why a call on the store gave no answer.
ghost use Rattle.std.specs.Prelude.{◌≡◌};
ghost use Rattle.desk_keeper.specs.declared.keeper.KeeperError.TheVariants.{Fault, Memory as NoMemory};
ghost use Rattle.keeper_sqlite.specs.Causes.{cause_of, error_of};
ghost use Rattle.keeper_sqlite.specs.declared.causes.Cause.TheVariants.{Memory as WantOfMemory};

use desk_keeper::KeeperError;
use minute_line::Memory;
use sqlite::{Error, ErrorCode};
use std::alloc::AllocError;

/// Why a call on the store gave no answer.
#[derive(Clone, Copy, Debug, PartialEq, Eq)]
pub enum Cause {
    /// `sqlite` refused a statement, and not for want of memory.
    Refused,
    /// A stored value can't be read, or is out of its type's range.
    Unreadable,
    /// Want of memory.
    Memory,
}

impl From<Error> for Cause {
    ghost from_gives = { λ error cause. cause ≡ cause_of error };

    fn from(error: Error) -> Cause {
        match error {
            Error::SqliteFailure(ErrorCode::OutOfMemory) => Cause::Memory,
            _ => Cause::Refused,
        }
    }
}

impl From<Memory> for Cause {
    ghost from_gives = { λ _ cause. cause ≡ WantOfMemory };

    fn from(_error: Memory) -> Cause {
        Cause::Memory
    }
}

impl Cause {
    /// What a keeper answers for it.
    pub(crate) fn error(self) -> KeeperError
        ensures { result ≡ error_of self }
    {
        match self {
            Cause::Refused | Cause::Unreadable => KeeperError::Fault,
            Cause::Memory => KeeperError::Memory,
        }
    }
}
