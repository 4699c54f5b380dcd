// Why a store was not opened.
ghost use Rattle.std.specs.Prelude.{◌≡◌};
ghost use Rattle.keeper_sqlite.specs.Causes.{cause_of};
ghost use Rattle.keeper_sqlite.specs.Opens.{refusal_of};
ghost use Rattle.keeper_sqlite.specs.declared.errors.OpenError.TheVariants.{Memory as WantOfMemory};

use crate::causes::Cause;
use minute_line::Memory;
use sqlite::Error;

/// Why a store was not opened. It is as it was.
#[derive(Clone, Copy, Debug, PartialEq, Eq)]
pub enum OpenError {
    /// `sqlite` refused a statement, and not for want of memory, or a stored value can't be read.
    Fault,
    /// A stored text of an older store is the text of no history.
    Text,
    /// The store's texts are of that other version. It is 0 where several versions are stored.
    Version(i64),
    /// Want of memory.
    Memory,
}

impl From<Cause> for OpenError {
    ghost from_gives = { λ cause error. error ≡ refusal_of cause };

    fn from(cause: Cause) -> OpenError {
        match cause {
            Cause::Refused | Cause::Unreadable => OpenError::Fault,
            Cause::Memory => OpenError::Memory,
        }
    }
}

impl From<Error> for OpenError {
    ghost from_gives = { λ refusal error. error ≡ refusal_of (cause_of refusal) };

    fn from(refusal: Error) -> OpenError {
        OpenError::from(Cause::from(refusal))
    }
}

impl From<Memory> for OpenError {
    ghost from_gives = { λ _ error. error ≡ WantOfMemory };

    fn from(_error: Memory) -> OpenError {
        OpenError::Memory
    }
}
