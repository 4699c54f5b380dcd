// Stamps: a minute as a date and a time of day in UTC.
ghost use Rattle.std.specs.Prelude.{ℤ, List, ℕ, ◌≡◌, ◌↔◌, ◌+◌, ◌*◌, ◌≤◌, ◌<◌, ◌++◌, ◌/◌, pos, ◌*ℤ◌, ◌+ℤ◌, ◌-ℤ◌, ◌≤ℤ◌, neg_ℤ, IsSome, IfSome, length};
ghost use Rattle.jiff_core.specs.Calendar.{IsBetween, IsEpochDay};
ghost use Rattle.jiff_core.specs.Date.{epoch_day};
ghost use Rattle.minute_line.specs.DateWriting.{IsDayText, AreDaysOf, clock_text, stamp_text};
ghost use Rattle.minute_line.specs.declared.lines.TheConstants.{WEEK_MINUTES};
ghost use Rattle.minute_line.specs.DateText.{IsDigitAt, two_at, IsDateText, IsStampText, IsClockText, clock_minutes, stamp_minutes, text_day};

use crate::dates::{Monday, date, two};
use jiff::civil::Date;

/// The minute of the day in the last six bytes, THH:MM.
#[tactic(auto, unfolding(crate::specs::DateText::IsClockText))]
fn clock(text: &[u8]) -> Option<i64>
    requires { length text.now ≡ 16 }
    ensures some { IsSome result ↔ IsClockText text.now }
    ensures value { IfSome result (λ m. m ≡ pos (clock_minutes text.now)) }
    ensures bound { IfSome result (λ m. IsBetween (pos 0) (pos 1439) m) }
{
    if text[10] != b'T' || text[13] != b':' {
        return None;
    }
    let hour = two(text, 11)?;
    let minute = two(text, 14)?;
    if hour > 23 || minute > 59 {
        return None;
    }
    Some((hour as u16 * 60 + minute as u16) as i64)
}

/// The minutes of so many days and so many minutes.
fn minutes_of(days: i64, minutes: i64) -> i64
    requires days { IsBetween (neg_ℤ (pos 10000000)) (pos 10000000) days }
    requires minutes { IsBetween (pos 0) (pos 1439) minutes }
    ensures { result ≡ (days *ℤ pos 1440) +ℤ minutes }
{
    days * 1440 + minutes
}

/// The days from one day number to another.
fn days_between(from: i32, to: i32) -> i64
    requires from { IsEpochDay from }
    requires to { IsEpochDay to }
    ensures value { result ≡ to -ℤ from }
    ensures bound { IsBetween (neg_ℤ (pos 10000000)) (pos 10000000) result }
{
    to as i64 - from as i64
}

/// The minutes from the Monday's midnight to the stamp that the bytes name as `YYYY-MM-DDTHH:MM`, of the years 1999 to
/// 2100; below 0 before that Monday.
pub fn minute_in(monday: Monday, text: &[u8]) -> Option<i64>
    ensures some { IsSome result ↔ IsStampText text.now }
    ensures minutes { IfSome result (λ m. m ≡ stamp_minutes monday.day text.now) }
{
    if text.len() != 16 {
        return None;
    }
    let date = date(text, 1999, 2100)?;
    let minutes = clock(text)?;
    let days = days_between(monday.day, date.to_plain().to_unix_epoch_day());
    Some(minutes_of(days, minutes))
}

/// The minutes from the Monday's midnight to the stamp that the text names as `YYYY-MM-DDTHH:MM`, of the years 1999 to
/// 2100; below 0 before that Monday. None for every other text.
pub fn stamp_minute(monday: Monday, text: &str) -> Option<i64>
    ensures some { IsSome result ↔ IsStampText text.now }
    ensures minutes { IfSome result (λ m. m ≡ stamp_minutes monday.day text.now) }
{
    minute_in(monday, text.as_bytes())
}

/// The two digits of a number.
fn ascii(n: u8) -> [u8; 2]
    requires { n < 100 }
    ensures first { IsDigitAt result 0 }
    ensures second { IsDigitAt result 1 }
    ensures value { two_at result 0 ≡ n }
{
    [b'0' + n / 10, b'0' + n % 10]
}

/// The date with that day number.
fn date_of(day: i32) -> Date
    requires { IsBetween (pos 10957) (pos 47492) day }
    ensures day { epoch_day result ≡ day }
    ensures low { pos 2000 ≤ℤ result.year }
    ensures high { result.year ≤ℤ pos 2100 }
{
    let Ok(date) = jiff_core::civil::Date::from_unix_epoch_day(day as i64) else {
        unreachable!();
    };
    Date::from_plain(date)
}

/// The text of a date.
#[tactic(auto, unfolding(crate::specs::DateText::IsDateText))]
fn date_bytes(date: Date) -> [u8; 10]
    requires low { pos 2000 ≤ℤ date.year }
    requires high { date.year ≤ℤ pos 2100 }
    ensures form { IsDateText 2000 2100 result }
    ensures day { text_day result ≡ epoch_day date }
{
    let year = date.year() as u16;
    let century = ascii((year / 100) as u8);
    let rest = ascii((year % 100) as u8);
    let month = ascii(date.month() as u8);
    let day = ascii(date.day() as u8);
    [
        century[0], century[1], rest[0], rest[1], b'-', month[0], month[1], b'-', day[0], day[1],
    ]
}

/// The day with that number as `YYYY-MM-DD`.
fn day_text(day: i32) -> [u8; 10]
    requires { IsBetween (pos 10957) (pos 47492) day }
    ensures { IsDayText day result }
{
    date_bytes(date_of(day))
}

/// The Monday as `YYYY-MM-DD`, which may be 2100-01-04 too.
pub fn monday_text(monday: Monday) -> [u8; 10]
    ensures { IsDayText monday.day result }
{
    day_text(monday.day)
}

/// A law, which does nothing: a day has one text.
pub fn only_text()
    ensures { (day : ℤ) → (first : List ℕ) → (second : List ℕ)
        → IsDayText day first → IsDayText day second → first ≡ second }
{}

/// A date, and the time of day of a week minute.
fn at_clock(date: &[u8; 10], minute: u32) -> [u8; 16]
    ensures { result ≡ date.now ++ clock_text minute }
{
    let hour = ascii((minute / 60 % 24) as u8);
    let minutes = ascii((minute % 60) as u8);
    [
        date[0], date[1], date[2], date[3], date[4], date[5], date[6], date[7], date[8], date[9],
        b'T', hour[0], hour[1], b':', minutes[0], minutes[1],
    ]
}

/// The number of the day of a minute that lies at most a week after the Monday's midnight.
fn day_at(monday: Monday, minute: u32) -> i32
    requires { minute ≤ WEEK_MINUTES }
    ensures { result ≡ monday.day +ℤ pos (minute / 1440) }
{
    monday.day + (minute / 1440) as i32
}

/// The stamp of a minute that lies at most a week after the Monday's midnight.
pub fn stamp(monday: Monday, minute: u32) -> [u8; 16]
    requires { minute ≤ WEEK_MINUTES }
    ensures form { IsStampText result }
    ensures minutes { stamp_minutes monday.day result ≡ pos minute }
{
    at_clock(&day_text(day_at(monday, minute)), minute)
}

/// The days of a week as `YYYY-MM-DD`, Monday first.
pub fn week_days(monday: Monday) -> [[u8; 10]; 7]
    ensures { AreDaysOf monday.day result }
{
    let day = monday.day;
    [
        day_text(day),
        day_text(day + 1),
        day_text(day + 2),
        day_text(day + 3),
        day_text(day + 4),
        day_text(day + 5),
        day_text(day + 6),
    ]
}

/// The stamp of a week minute, by the texts of the week's days.
pub fn stamp_in(days: &[[u8; 10]; 7], minute: u32) -> [u8; 16]
    requires { minute < WEEK_MINUTES }
    ensures { result ≡ stamp_text days.now minute }
{
    at_clock(&days[(minute / 1440) as usize], minute)
}

/// Laws, which do nothing: by the days of a week, the stamp of a week minute is a stamp of just that minute; and a minute
/// has one stamp.
pub fn only_stamp()
    ensures stamp { (day : ℤ) → (days : List (List ℕ)) → (minute : ℕ) → AreDaysOf day days → minute < WEEK_MINUTES
        → IsStampText (stamp_text days minute) × (stamp_minutes day (stamp_text days minute) ≡ pos minute) }
    ensures only { (day : ℤ) → (first : List ℕ) → (second : List ℕ) → IsStampText first → IsStampText second
        → stamp_minutes day first ≡ stamp_minutes day second → first ≡ second }
{}
