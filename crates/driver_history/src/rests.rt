// What stands before a driver's past rows: the rest and the worked row.
ghost use Rattle.std.specs.Prelude.{◌≡◌, slice_get};
ghost use Rattle.week_book.specs.Pasts.{Rested, PastWorkingTime, rest_said, past_working_time, rests_of, past_working_times_of};
ghost use Rattle.driver_history.specs.Reading.{minutes_needed};
ghost use Rattle.driver_history.specs.Finding.{IsRestInRange, IsPastWorkingTime};

use std::marker::Model;
use week_book::Row;

/// What a rest row says: the end in minutes from Monday, at most 0, and the length in minutes.
#[derive(Drop)]
pub struct Rest {
    end: i64,
    minutes: u64,
}

impl Model for Rest {
    ghost Value = { Rested };

    ghost view = { λ r. record { end = r.end; minutes = r.minutes } };
}

/// What a worked row says: last week's Drive minutes, and the working minutes of sixteen weeks, the oldest first.
#[derive(Drop)]
pub struct Worked {
    last: u64,
    weeks: [u64; 16],
}

impl Model for Worked {
    ghost Value = { PastWorkingTime };

    ghost view = { λ w. record { last = w.last; weeks = w.weeks } };
}

/// What a rest row of the driver says.
fn rest_row(row: &Row, name: &[u8]) -> Option<Rest>
    ensures { result ≡ rest_said name.now row.now }
{
    match row {
        Row::Rest {
            driver,
            end,
            minutes,
            ..
        } if driver.as_slice() == name => Some(Rest {
            end: *end,
            minutes: *minutes,
        }),
        _ => None,
    }
}

/// The first rest row of a driver.
pub fn find_rest(rows: &[Row], name: &[u8]) -> Option<Rest>
    ensures { result ≡ slice_get (rests_of name.now rows.now) 0 }
{
    for row in rows {
        if let Some(rest) = rest_row(row, name) {
            return Some(rest);
        }
    }
    None
}

/// What a worked row of the driver says.
fn worked_row(row: &Row, name: &[u8]) -> Option<Worked>
    ensures { result ≡ past_working_time name.now row.now }
{
    match row {
        Row::Worked {
            driver,
            last,
            weeks,
            ..
        } if driver.as_slice() == name => Some(Worked {
            last: *last,
            weeks: *weeks,
        }),
        _ => None,
    }
}

/// The first worked row of a driver.
pub fn find_worked(rows: &[Row], name: &[u8]) -> Option<Worked>
    ensures { result ≡ slice_get (past_working_times_of name.now rows.now) 0 }
{
    for row in rows {
        if let Some(worked) = worked_row(row, name) {
            return Some(worked);
        }
    }
    None
}

impl Rest {
    /// The minutes from its end to Monday 00:00.
    pub fn minutes_to_monday(&self) -> u64
        ensures { result ≡ minutes_needed self.now }
    {
        self.end.unsigned_abs()
    }

    /// Its length in minutes.
    pub fn length(&self) -> u32
        requires { IsRestInRange self.now }
        ensures { result ≡ self.now.minutes }
    {
        self.minutes as u32
    }
}

impl Worked {
    /// Last week's Drive minutes.
    pub fn last_week(&self) -> u32
        requires { IsPastWorkingTime self.now }
        ensures { result ≡ self.now.last }
    {
        self.last as u32
    }

    /// The working minutes of the sixteen weeks before, the oldest first.
    pub fn sixteen_weeks(&self) -> [u32; 16]
        requires { IsPastWorkingTime self.now }
        ensures { result ≡ self.now.weeks }
    {
        let mut weeks = [0; 16];
        for place in 0..16 {
            weeks[place] = self.weeks[place] as u32;
        }
        weeks
    }
}
