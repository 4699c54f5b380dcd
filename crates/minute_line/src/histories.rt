// The history that no driver brings along, and copies.
ghost use Rattle.std.specs.Prelude.{◌≡◌, IfOk};
ghost use Rattle.minute_line.specs.Histories.{fields_of, fresh_fields};

use crate::debts::REGULAR_WEEKLY_REST;
use crate::lines::{History, Line};
use crate::many::{Many, Memory};
use std::alloc::Global;

/// The history of a driver who was at rest for the 2,700 minutes before Monday, did nothing before and owes nothing. It
/// takes no memory.
pub fn fresh(alloc: Global) -> History
    ensures { fields_of result ≡ fresh_fields }
{
    History {
        prev_weekly: REGULAR_WEEKLY_REST,
        stints: Line {
            stints: Many::new(alloc),
        },
        open_off: REGULAR_WEEKLY_REST,
        prev_drive: 0,
        work16: [0; 16],
        owed: 0,
        due: 0,
    }
}

/// A line of the same stints.
fn copy_line(alloc: Global, line: &Line) -> Result<Line, Memory>
    ensures { IfOk result (λ copy. copy.stints ≡ line.now.stints) }
{
    Ok(Line {
        stints: Many::from_slice(alloc, line.stints.as_slice())?,
    })
}

/// A history with the same fields.
pub fn copy_history(alloc: Global, history: &History) -> Result<History, Memory>
    ensures { IfOk result (λ copy. fields_of copy ≡ fields_of history.now) }
{
    let stints = copy_line(alloc, &history.stints)?;
    let work16 = history.work16;
    Ok(History {
        prev_weekly: history.prev_weekly,
        stints,
        open_off: history.open_off,
        prev_drive: history.prev_drive,
        work16,
        owed: history.owed,
        due: history.due,
    })
}
