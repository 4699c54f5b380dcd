// Why rows make no history, or no line of a week.
ghost use Rattle.std.specs.Prelude.{◌≡◌};
ghost use Rattle.driver_history.specs.declared.errors.HistoryError.TheVariants.{Memory as NoHistoryMemory};
ghost use Rattle.driver_history.specs.declared.errors.LineError.TheVariants.{Memory as NoLineMemory};

use minute_line::Memory;
use std::alloc::AllocError;

/// Why a driver's rows make no history. Rows count from 1. The first cause in the order written is named.
#[derive(Clone, Copy, PartialEq, Eq, Debug)]
pub enum HistoryError {
    /// The driver has history rows, and no rest row among them.
    NoRest,
    /// The driver has history rows, and no worked row among them.
    NoWorked,
    /// This WEEKLY past row is the first that isn't the driver's last past row.
    LateWeekly(u32),
    /// This off row is the first that stands right after another off row of the driver.
    TwoOffs(u32),
    /// The past rows have so many minutes, and so many are needed from the rest's end to Monday 00:00.
    NotToMonday(u64, u64),
    /// The past rows before the trailing off row have so many minutes, more than the 20,160 that a history states.
    OverLong(u64),
    /// Want of memory.
    Memory,
}

/// Why a driver's did rows make no line of a week. Rows count from 1. The first cause in the order written is named.
#[derive(Clone, Copy, PartialEq, Eq, Debug)]
pub enum LineError {
    /// This off row is the first that stands right after another off row of the driver.
    TwoOffs(u32),
    /// The did rows have so many minutes, more than the 10,080 of a week.
    TooLong(u64),
    /// Want of memory.
    Memory,
}

impl From<Memory> for HistoryError {
    ghost from_gives = { λ _ e. e ≡ NoHistoryMemory };

    fn from(_error: Memory) -> HistoryError {
        HistoryError::Memory
    }
}

impl From<AllocError> for HistoryError {
    ghost from_gives = { λ _ e. e ≡ NoHistoryMemory };

    fn from(_error: AllocError) -> HistoryError {
        HistoryError::Memory
    }
}

impl From<Memory> for LineError {
    ghost from_gives = { λ _ e. e ≡ NoLineMemory };

    fn from(_error: Memory) -> LineError {
        LineError::Memory
    }
}
