// The history of a text. The only history whose text this could be is read, tested, written again and compared.
ghost use Rattle.std.specs.Prelude.{◌≡◌, true, IfOk};
ghost use Rattle.minute_line.specs.Histories.{fields_of, is_history};
ghost use Rattle.minute_line.specs.Spelling.{spelling, GivesBack};
ghost use Rattle.minute_line.specs.Tokens.{candidate_of, tokens_of, parts_of};
ghost use Rattle.minute_line.specs.declared.lines.History.{History as AHistory};

use crate::debts::{REGULAR_WEEKLY_REST, WEEKLY_REST};
use crate::errors::TextError;
use crate::lines::{History, Line, PAST_LIMIT, WEEK_MINUTES};
use crate::many::{Many, Memory};
use crate::marks::Stint;
use crate::spelling::history_text;
use crate::tokens::{number, stints, tokens};
use crate::valid::{are_few, are_up_to, is_past_of};
use std::alloc::Global;

/// What a text was read as. It need not be a history.
#[derive(Drop)]
pub struct Candidate {
    pub prev_weekly: u32,
    pub stints: Many<Stint>,
    pub open_off: u32,
    pub prev_drive: u32,
    pub work16: [u32; 16],
    pub owed: u32,
    pub due: u32,
}

impl Candidate {
    /// Whether it is a history.
    fn is_history(&self) -> bool
        ensures { result ≡ is_history (parts_of self.now) }
    {
        let rests = (WEEKLY_REST <= self.prev_weekly && self.prev_weekly <= 1_000_000)
            && self.open_off <= PAST_LIMIT;
        let debt = self.owed <= REGULAR_WEEKLY_REST - WEEKLY_REST
            && (self.due <= 3 && (self.owed >= 1 || self.due == 0));
        let sums = self.prev_drive <= WEEK_MINUTES && are_up_to(WEEK_MINUTES, &self.work16);
        let stints = is_past_of(self.stints.as_slice()) && are_few(self.stints.as_slice());
        (rests && debt) && (sums && stints)
    }

    /// The history that it is.
    fn into_history(self) -> History
        requires { is_history (parts_of self) ≡ true }
        ensures { fields_of result ≡ parts_of self }
    {
        let work16 = self.work16;
        History {
            prev_weekly: self.prev_weekly,
            stints: Line {
                stints: self.stints,
            },
            open_off: self.open_off,
            prev_drive: self.prev_drive,
            work16,
            owed: self.owed,
            due: self.due,
        }
    }
}

/// The only history whose text this could be.
fn read_parts(alloc: Global, text: &[u8]) -> Result<Candidate, Memory>
    ensures { IfOk result (λ c. parts_of c ≡ candidate_of (tokens_of text.now)) }
{
    let all = tokens(alloc, text)?;
    let all = all.as_slice();
    let (t, debt) = all.split_at(all.len().saturating_sub(2));
    let rest = if t.len() < 19 { &t[..0] } else { &t[19..] };
    let stints = stints(alloc, rest)?;
    Ok(Candidate {
        prev_weekly: number(t, 0),
        stints,
        open_off: number(t, 18),
        prev_drive: number(t, 1),
        work16: [
            number(t, 2),
            number(t, 3),
            number(t, 4),
            number(t, 5),
            number(t, 6),
            number(t, 7),
            number(t, 8),
            number(t, 9),
            number(t, 10),
            number(t, 11),
            number(t, 12),
            number(t, 13),
            number(t, 14),
            number(t, 15),
            number(t, 16),
            number(t, 17),
        ],
        owed: number(debt, 0),
        due: number(debt, 1),
    })
}

/// The history whose text this is. `Bad` exactly where the text is the text of no history.
pub fn history_read(alloc: Global, text: &[u8]) -> Result<History, TextError>
    // What is read is spelled so.
    ensures found { IfOk result (λ history. text.now ≡ spelling (fields_of history)) }
    // What a history is spelled as is read back.
    ensures back { (history : AHistory) → text.now ≡ spelling (fields_of history) → GivesBack (fields_of history) result }
{
    let candidate = read_parts(alloc, text)?;
    if !candidate.is_history() {
        return Err(TextError::Bad);
    }
    let history = candidate.into_history();
    let again = history_text(alloc, &history)?;
    if again.as_slice() != text {
        return Err(TextError::Bad);
    }
    Ok(history)
}
