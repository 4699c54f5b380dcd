// Why rows make no week.
ghost use Rattle.std.specs.Prelude.{◌≡◌};
ghost use Rattle.week_book.specs.declared.errors.WeekError.TheVariants.{Memory as WantOfMemory};

use minute_line::Memory;
use std::alloc::AllocError;

/// What a week has a limited number of.
#[derive(Clone, Copy, PartialEq, Eq, Debug)]
pub enum What {
    Places,
    Legs,
    Drivers,
    Orders,
}

/// Why rows make no week. Rows and fields count from 1; a row's word is its field 1.
#[derive(Clone, Copy, PartialEq, Eq, Debug)]
pub enum WeekError {
    /// So many rows of a kind are there, more than a week may have.
    Count(What, u32),
    /// No place row is there.
    NoDepot,
    /// This row's field is the first that lies outside its range.
    Range(u32, u32),
    /// This row is the first that repeats a name of its kind, a leg's ends, a driver's `rest` or `worked` row, or the
    /// week row.
    Double(u32),
    /// This row's field is the first name that no row defines.
    Unknown(u32, u32),
    /// Want of memory.
    Memory,
}

impl From<Memory> for WeekError {
    ghost from_gives = { λ _ e. e ≡ WantOfMemory };

    fn from(_error: Memory) -> WeekError {
        WeekError::Memory
    }
}

impl From<AllocError> for WeekError {
    ghost from_gives = { λ _ e. e ≡ WantOfMemory };

    fn from(_error: AllocError) -> WeekError {
        WeekError::Memory
    }
}
