// The rest that a driver owes for a reduced weekly rest (Art. 8(6)), and texts from before it was kept.
ghost use Rattle.std.specs.Prelude.{◌≡◌, ◌≤◌, ◌-◌, IfOk};
ghost use Rattle.minute_line.specs.Histories.{fields_of};
ghost use Rattle.minute_line.specs.Debts.{weeks_left, with_debt, with_rest_debt, with_own_debt, since_rest};
ghost use Rattle.minute_line.specs.Spelling.{older_spelling, GivesBack};
ghost use Rattle.minute_line.specs.declared.debts.TheConstants.{REGULAR_WEEKLY_REST, WEEKLY_REST};
ghost use Rattle.minute_line.specs.declared.lines.History.{History as AHistory};

use crate::errors::TextError;
use crate::lines::{History, WEEK_MINUTES};
use crate::many::Many;
use crate::marks::Stint;
use crate::reading::history_read;
use std::alloc::Global;

/// The least minutes of a weekly rest, a reduced one (Regulation 561/2006, Art. 4(h): 24 hours).
pub const WEEKLY_REST: u32 = 1_440;
/// The least minutes of a weekly rest that is not reduced (Art. 4(h): 45 hours).
pub const REGULAR_WEEKLY_REST: u32 = 2_700;

/// The weeks from Monday to the end of the third week after that of the last minute of a rest, which ended so many
/// minutes before Monday; 0 where that end is past.
fn weeks_left_after(ago: u64) -> u32
    ensures { result ≡ weeks_left ago }
{
    let weeks_ago = ago / WEEK_MINUTES as u64 + 1;
    4u64.saturating_sub(weeks_ago) as u32
}

impl History {
    /// The history with so many minutes owed, due in so many weeks, in place of its own debt.
    pub fn with_debt(self, owed: u32, due: u32) -> History
        requires owed { owed ≤ REGULAR_WEEKLY_REST - WEEKLY_REST }
        requires due { due ≤ 3 }
        requires none { owed ≡ 0 → due ≡ 0 }
        ensures { fields_of result ≡ with_debt owed due (fields_of self) }
    {
        let work16 = self.work16;
        History {
            prev_weekly: self.prev_weekly,
            stints: self.stints,
            open_off: self.open_off,
            prev_drive: self.prev_drive,
            work16,
            owed,
            due,
        }
    }

    /// The history with the debt that a weekly rest of `rest` minutes leaves, which ended `ago` minutes before Monday
    /// 00:00, in place of its own.
    pub fn with_rest_debt(self, rest: u32, ago: u64) -> History
        requires { WEEKLY_REST ≤ rest }
        ensures { fields_of result ≡ with_rest_debt rest ago (fields_of self) }
    {
        let owed = REGULAR_WEEKLY_REST.saturating_sub(rest);
        let due = if owed == 0 { 0 } else { weeks_left_after(ago) };
        self.with_debt(owed, due)
    }

    /// The minutes from the end of its last weekly rest to Monday 00:00, of an open run as far as it is stated.
    fn minutes_since_rest(&self) -> u64
        ensures { result ≡ since_rest (fields_of self.now) }
    {
        let stints: u64 = self
            .stints
            .stints
            .as_slice()
            .iter()
            .map(|stint| stint.minutes as u64)
            .sum();
        stints + self.open_off as u64
    }
}

/// The history of a text from before debts were kept: the five parts before them. It has the debt that its last weekly
/// rest leaves. `Bad` exactly where the text is no history's without its debt.
pub fn upgrade(alloc: Global, text: &[u8]) -> Result<History, TextError>
    // What is read is spelled so.
    ensures found { IfOk result (λ history. text.now ≡ older_spelling (fields_of history)) }
    // Its debt is that of its last weekly rest.
    ensures debt { IfOk result (λ history. fields_of history ≡ with_own_debt (fields_of history)) }
    // What a history is spelled as without its debt is read back.
    ensures back { (history : AHistory) → text.now ≡ older_spelling (fields_of history)
        → GivesBack (with_own_debt (fields_of history)) result }
{
    let mut whole = Many::from_slice(alloc, text)?;
    whole.extend_from_slice(b" 0 0".as_slice())?;
    let history = history_read(alloc, whole.as_slice())?;
    let rest = history.prev_weekly;
    let ago = history.minutes_since_rest();
    Ok(history.with_rest_debt(rest, ago))
}
