// Dates as text, by the calendar of `jiff`.
ghost use Rattle.std.specs.Prelude.{◌≡◌, ◌↔◌, ◌+◌, ◌*◌, ◌≤◌, ◌<◌, pos, ◌≤ℤ◌, IsSome, IfSome, length};
ghost use Rattle.jiff_core.specs.Calendar.{IsBetween, weekday_number};
ghost use Rattle.jiff_core.specs.Date.{epoch_day};
ghost use Rattle.minute_line.specs.DateText.{IsDigitAt, digit_at, two_at, four_at, IsDateText, IsMondayText, text_day};

use jiff::civil::{Date, Weekday};

/// A Monday from 2000-01-03 to 2100-01-04, by its day number: the days from 1970-01-01, as `jiff` counts them.
#[derive(Clone, Copy, Debug, Drop)]
pub struct Monday {
    pub day: i32,
    pub ghost day_in: { IsBetween (pos 10957) (pos 47485) day },
    pub ghost is_monday: { weekday_number day ≡ 0 },
}

/// The digit at that place, where there is one.
fn digit(text: &[u8], i: usize) -> Option<u8>
    requires { i + 1 ≤ length text.now }
    ensures some { IsSome result ↔ IsDigitAt text.now i }
    ensures value { IfSome result (λ d. d ≡ digit_at text.now i) }
    ensures bound { IfSome result (λ d. d ≤ 9) }
{
    let byte = text[i];
    if byte >= b'0' && byte <= b'9' {
        Some(byte - b'0')
    } else {
        None
    }
}

/// The number of the two digits at that place.
pub(crate) fn two(text: &[u8], i: usize) -> Option<u8>
    requires { i + 2 ≤ length text.now }
    ensures some { IsSome result ↔ (IsDigitAt text.now i × IsDigitAt text.now (i + 1)) }
    ensures value { IfSome result (λ d. d ≡ two_at text.now i) }
    ensures bound { IfSome result (λ d. d ≤ 99) }
{
    let tens = digit(text, i)?;
    let ones = digit(text, i + 1)?;
    Some(tens * 10 + ones)
}

/// The date of the years `low` to `high` that the text begins with.
#[tactic(auto, unfolding(crate::specs::DateText::IsDateText))]
pub(crate) fn date(text: &[u8], low: u16, high: u16) -> Option<Date>
    requires { 10 ≤ length text.now }
    ensures some { IsSome result ↔ IsDateText low high text.now }
    ensures value { IfSome result (λ d. (d.year ≡ pos (four_at text.now 0)) × (d.month ≡ two_at text.now 5) × (d.day ≡ two_at text.now 8)) }
    ensures years { IfSome result (λ d. (pos low ≤ℤ d.year) × (d.year ≤ℤ pos high)) }
{
    let century = two(text, 0)?;
    let rest = two(text, 2)?;
    let month = two(text, 5)?;
    let day = two(text, 8)?;
    if text[4] != b'-' || text[7] != b'-' {
        return None;
    }
    let year = century as u16 * 100 + rest as u16;
    if year < low || year > high {
        return None;
    }
    match Date::new(year as i16, month as i8, day as i8) {
        Ok(date) => Some(date),
        Err(_) => None,
    }
}

/// The Monday with that day number.
fn make_monday(day: i32) -> Monday
    requires within { IsBetween (pos 10957) (pos 47485) day }
    requires monday { weekday_number day ≡ 0 }
    ensures { result.day ≡ day }
{
    Monday { day }
}

/// The Monday that a date of the years 2000 to 2099 is.
fn monday_of(date: Date) -> Option<Monday>
    requires low { pos 2000 ≤ℤ date.year }
    requires high { date.year ≤ℤ pos 2099 }
    ensures some { IsSome result ↔ (weekday_number (epoch_day date) ≡ 0) }
    ensures day { IfSome result (λ m. m.day ≡ epoch_day date) }
{
    if date.weekday() != Weekday::Monday {
        return None;
    }
    Some(make_monday(date.to_plain().to_unix_epoch_day()))
}

/// The Monday of the years 2000 to 2099 that the bytes name as `YYYY-MM-DD`.
pub fn monday_in(text: &[u8]) -> Option<Monday>
    ensures some { IsSome result ↔ IsMondayText text.now }
    ensures day { IfSome result (λ m. m.day ≡ text_day text.now) }
{
    if text.len() != 10 {
        return None;
    }
    let date = date(text, 2000, 2099)?;
    monday_of(date)
}

/// The Monday of the years 2000 to 2099 that the text names as `YYYY-MM-DD`. None for every other text.
pub fn read_monday(text: &str) -> Option<Monday>
    ensures some { IsSome result ↔ IsMondayText text.now }
    ensures day { IfSome result (λ m. m.day ≡ text_day text.now) }
{
    monday_in(text.as_bytes())
}
