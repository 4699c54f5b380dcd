// The rows of one driver.
ghost use Rattle.std.specs.Prelude.{◌≡◌, ◌<◌, ◌≤◌, ◌^◌, map, true, false, IfOk};
ghost use Rattle.week_book.specs.Pasts.{Activity as ActivitySaid, past_activity, did_activity, past_activities, did_activities, is_off_word};
ghost use Rattle.driver_history.specs.Reading.{stint_said, is_weekly_word, late_weekly, second_off, minutes_said, off_in, trailing_off};
ghost use Rattle.driver_history.specs.Finding.{each_within};

use minute_line::{Kind, Mark, Memory, Stint};
use std::alloc::Global;
use std::marker::Model;
use week_book::{Row, Word};

/// A mark word with its minutes, and the row that has them.
#[derive(Drop)]
pub struct Activity {
    row: u32,
    word: Word,
    minutes: u64,
}

impl Model for Activity {
    ghost Value = { ActivitySaid };

    ghost view = { λ s. record { row = s.row; word = s.word; minutes = s.minutes } };
}

/// Whether a word is off: OFF, DAILY or WEEKLY.
fn is_off(word: Word) -> bool
    ensures { result ≡ is_off_word word }
{
    matches!(word, Word::Off | Word::Daily | Word::Weekly)
}

/// Whether a word is WEEKLY.
fn is_weekly(word: Word) -> bool
    ensures { result ≡ is_weekly_word word }
{
    matches!(word, Word::Weekly)
}

/// What a past row of the driver says.
fn past_row(row: &Row, name: &[u8]) -> Option<Activity>
    ensures { result ≡ past_activity name.now row.now }
{
    match row {
        Row::Past {
            row,
            driver,
            word,
            minutes,
        } if driver.as_slice() == name => Some(Activity {
            row: *row,
            word: *word,
            minutes: *minutes,
        }),
        _ => None,
    }
}

/// The past rows of a driver.
pub fn past_rows(alloc: Global, rows: &[Row], name: &[u8]) -> Result<Vec<Activity>, Memory>
    ensures { IfOk result (λ activities. activities.items ≡ past_activities name.now rows.now) }
{
    let activities = rows
        .iter()
        .filter_map(|row| past_row(row, name))
        .collect(alloc)?;
    Ok(activities)
}

/// What a did row of the driver says.
fn did_row(row: &Row, name: &[u8]) -> Option<Activity>
    ensures { result ≡ did_activity name.now row.now }
{
    match row {
        Row::Did {
            row,
            driver,
            word,
            minutes,
        } if driver.as_slice() == name => Some(Activity {
            row: *row,
            word: *word,
            minutes: *minutes,
        }),
        _ => None,
    }
}

/// The did rows of a driver.
pub fn did_rows(alloc: Global, rows: &[Row], name: &[u8]) -> Result<Vec<Activity>, Memory>
    ensures { IfOk result (λ activities. activities.items ≡ did_activities name.now rows.now) }
{
    let activities = rows
        .iter()
        .filter_map(|row| did_row(row, name))
        .collect(alloc)?;
    Ok(activities)
}

/// The row of the first weekly rest that another row follows.
pub fn find_late_weekly(activities: &[Activity]) -> Option<u32>
    ensures { result ≡ late_weekly activities.now }
{
    for (place, activity) in activities.iter().enumerate() {
        if is_weekly(activity.word) && place + 1 < activities.len() {
            return Some(activity.row);
        }
    }
    None
}

/// The row of the first off row right after another.
pub fn find_second_off(activities: &[Activity]) -> Option<u32>
    ensures { result ≡ second_off false activities.now }
{
    let mut after_off = false;
    for activity in activities {
        let off = is_off(activity.word);
        if after_off && off {
            return Some(activity.row);
        }
        after_off = off;
    }
    None
}

/// The minutes of some rows.
pub fn minutes(activities: &[Activity]) -> u64
    requires { minutes_said activities.now < 2 ^ 64 }
    ensures { result ≡ minutes_said activities.now }
{
    activities.iter().map(|activity| activity.minutes).sum()
}

/// The minutes of a row that is off, and 0 of another.
fn off_minutes(activity: &Activity) -> u64
    ensures { result ≡ off_in activity.now }
{
    if is_off(activity.word) {
        activity.minutes
    } else {
        0
    }
}

/// The minutes of the off row at their end.
pub fn trailing(activities: &[Activity]) -> u64
    ensures { result ≡ trailing_off activities.now }
{
    match activities.last() {
        Some(activity) => off_minutes(activity),
        None => 0,
    }
}

/// The stint that a row says.
fn stint(activity: &Activity) -> Stint
    requires { activity.now.minutes ≤ 2000000 }
    ensures { result ≡ stint_said activity.now }
{
    let minutes = activity.minutes as u32;
    let (mark, kind) = match activity.word {
        Word::Drive => (Mark::Drive, Kind::Plain),
        Word::Work => (Mark::Work, Kind::Plain),
        Word::Ready => (Mark::Ready, Kind::Plain),
        Word::Off => (Mark::Off, Kind::Plain),
        Word::Daily => (Mark::Off, Kind::Daily),
        Word::Weekly => (Mark::Off, Kind::Weekly),
    };
    Stint {
        mark,
        minutes,
        kind,
    }
}

/// The stints that some rows say.
pub fn stints(alloc: Global, activities: &[Activity]) -> Result<Vec<Stint>, Memory>
    requires { each_within 2000000 activities.now ≡ true }
    ensures { IfOk result (λ stints. stints.items ≡ map stint_said activities.now) }
{
    let mut stints = Vec::new(alloc);
    for activity in activities {
        stints.push(stint(activity))?;
    }
    Ok(stints)
}
