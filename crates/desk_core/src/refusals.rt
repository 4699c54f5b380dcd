// Why the desk refuses a command.
ghost use Rattle.std.specs.Prelude.{◌≡◌};
ghost use Rattle.desk_core.specs.declared.refusals.Stop.TheVariants.{Memory as WantOfMemory};
ghost use Rattle.desk_core.specs.Stops.{keeper_stop, csv_stop, week_stop, past_stop, line_stop};

use desk_csv::CsvError;
use desk_keeper::KeeperError;
use driver_history::{HistoryError, LineError};
use minute_line::{Memory, Monday, Name};
use week_book::WeekError;

/// Why a command is refused: the first cause, in the order of the command's own steps. The errors inside are never want of
/// memory.
#[derive(Drop)]
pub enum Refusal {
    /// The text has more than 1,048,576 bytes.
    Long,
    /// The text has no rows of its form.
    Csv(CsvError),
    /// The rows make no week, or name no drivers.
    Week(WeekError),
    /// The history rows of this driver make no history.
    Past(Name, HistoryError),
    /// The did rows of this driver make no line.
    Line(Name, LineError),
    /// The week of this Monday is published, under this receipt.
    Published(Monday, u64),
    /// The week of this Monday has no draft.
    NoDraft(Monday),
    /// The draft that stands is not of the revision that is named, which comes first, but of another.
    Stale(u64, u64),
    /// What is kept of this driver is not what was kept as the draft was made.
    Moved(Name),
    /// This driver of a week text has history rows, and a history is kept too.
    Kept(Name),
    /// The history that is kept of this driver leads up to that Monday, which is past the week's.
    Later(Name, Monday),
    /// This driver of a week text has no history rows, and none is kept.
    NoHistory(Name),
    /// The week of this Monday has as many drafts as there may be.
    DraftsFull(Monday),
}

/// Why a command came to no end.
#[derive(Drop)]
pub enum Stop {
    Refused(Refusal),
    /// The keeper failed.
    Fault,
    Memory,
}

impl From<Memory> for Stop {
    ghost from_gives = { λ _ e. e ≡ WantOfMemory };

    fn from(_error: Memory) -> Stop {
        Stop::Memory
    }
}

impl From<KeeperError> for Stop {
    ghost from_gives = { λ e stop. stop ≡ keeper_stop e };

    fn from(error: KeeperError) -> Stop {
        match error {
            KeeperError::Fault => Stop::Fault,
            KeeperError::Memory => Stop::Memory,
        }
    }
}

impl From<CsvError> for Stop {
    ghost from_gives = { λ e stop. stop ≡ csv_stop e };

    fn from(error: CsvError) -> Stop {
        match error {
            CsvError::Memory => Stop::Memory,
            error => Stop::Refused(Refusal::Csv(error)),
        }
    }
}

impl From<WeekError> for Stop {
    ghost from_gives = { λ e stop. stop ≡ week_stop e };

    fn from(error: WeekError) -> Stop {
        match error {
            WeekError::Memory => Stop::Memory,
            error => Stop::Refused(Refusal::Week(error)),
        }
    }
}

/// Why a driver's history can't be read.
pub(crate) fn stop_past(name: Name, error: HistoryError) -> Stop
    ensures { result ≡ past_stop name error }
{
    match error {
        HistoryError::Memory => Stop::Memory,
        error => Stop::Refused(Refusal::Past(name, error)),
    }
}

/// Why a driver's line can't be read.
pub(crate) fn stop_line(name: Name, error: LineError) -> Stop
    ensures { result ≡ line_stop name error }
{
    match error {
        LineError::Memory => Stop::Memory,
        error => Stop::Refused(Refusal::Line(name, error)),
    }
}
