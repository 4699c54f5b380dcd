// Whether a field lies in its range, and the first that doesn't.
ghost use Rattle.std.specs.Prelude.{◌≡◌, ◌<◌, ◌^◌, length, map, nat_le};
ghost use Rattle.minute_line.specs.declared.lines.TheConstants.{WEEK_MINUTES};
ghost use Rattle.week_book.specs.Ranges.{is_within, is_week_minute, is_close_of, is_grid, is_other_name, is_did_span, first_outside};

use crate::errors::WeekError;
use crate::names::is_name;
use crate::rows::Word;
use minute_line::WEEK_MINUTES;

/// Whether a number is from the first to the last.
pub fn is_within(first: u64, last: u64, n: u64) -> bool
    ensures { result ≡ is_within first last n }
{
    first <= n && n <= last
}

/// Whether it is a minute of the week.
pub fn is_week_minute(minute: i64) -> bool
    ensures { result ≡ is_week_minute minute }
{
    0 <= minute && minute <= 10_079
}

/// Whether an order's window closes in the week, and not before it opens.
pub fn is_close_of(opens: i64, closes: i64) -> bool
    ensures { result ≡ is_close_of opens closes }
{
    is_week_minute(closes) && opens <= closes
}

/// Whether it is a number of minutes at whose multiples acts after a rest may start.
pub fn is_grid(grid: u64) -> bool
    ensures { result ≡ is_grid grid }
{
    grid == 15 || (grid == 30 || grid == 60)
}

/// Whether the second is a name, and not the first one.
pub fn is_other_name(from: &[u8], to: &[u8]) -> bool
    ensures { result ≡ is_other_name from.now to.now }
{
    is_name(to) && from != to
}

/// Whether a `did` row may have so many minutes: none only where it is off and its driver's first.
pub fn is_did_span(begun: bool, word: Word, minutes: u64) -> bool
    ensures { result ≡ is_did_span begun word minutes }
{
    minutes <= WEEK_MINUTES as u64 && (1 <= minutes || (word.is_off() && !begun))
}

/// The first field that is outside its range, of the fields after a row's word.
pub fn first_outside(row: u32, fields: &[bool]) -> Option<WeekError>
    requires { length fields.now < 2 ^ 16 }
    ensures { result ≡ first_outside row 2 fields.now }
{
    let mut field = 2;
    for is_in in fields {
        if !*is_in {
            return Some(WeekError::Range(row, field));
        }
        field += 1;
    }
    None
}

/// The first of sixteen weeks that has more minutes than a week.
pub fn weeks_outside(row: u32, weeks: &[u64; 16]) -> Option<WeekError>
    ensures { result ≡ first_outside row 4 (map (λ m. nat_le m WEEK_MINUTES) weeks.now) }
{
    let mut field = 4;
    for week in weeks {
        if *week > WEEK_MINUTES as u64 {
            return Some(WeekError::Range(row, field));
        }
        field += 1;
    }
    None
}
