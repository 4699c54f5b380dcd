// A judge for the tests alone: it reads the rules minute by minute over the whole line, and keeps no clock.
use crate::{Broken, Rule, Verdict};
use minute_line::{History, Kind, Line, Mark, Stint};
use std::alloc::{AllocError, Global};

/// A minute of the line. Where it ends an off run, `run` is that run's minutes and `kind` what it was declared to be.
#[derive(Clone, Copy)]
struct Minute {
    mark: Mark,
    run: usize,
    kind: Kind,
}

impl Minute {
    fn ends_rest(&self) -> bool {
        self.run >= 1 && self.kind.is_rest()
    }

    fn ends_weekly(&self) -> bool {
        self.run >= 1 && self.kind.is_weekly()
    }
}

/// A line so far, the oldest minute first, with its open off run.
#[derive(Drop)]
struct Minutes {
    list: Vec<Minute>,
    run: usize,
    kind: Kind,
}

impl Minutes {
    /// Adds the minutes of a stint. An off stint declares what its run is, and where no run is open it means nothing.
    fn add(&mut self, stint: &Stint) -> Result<(), AllocError> {
        let mark = stint.mark;
        if mark.is_off() {
            self.kind = stint.kind;
        }
        for _ in 0..stint.minutes {
            let run = if mark.is_off() { 0 } else { self.run };
            self.list.push(Minute {
                mark,
                run,
                kind: self.kind,
            })?;
            self.run = if mark.is_off() {
                self.run.saturating_add(1)
            } else {
                0
            };
        }
        if !mark.is_off() {
            self.kind = Kind::Plain;
        }
        Ok(())
    }

    fn add_all(&mut self, stints: &[Stint]) -> Result<(), AllocError> {
        for stint in stints {
            self.add(stint)?;
        }
        Ok(())
    }
}

/// The minutes after the last daily or weekly rest that ended before the last of them.
fn work_day(line: &[Minute]) -> &[Minute] {
    match line.iter().rposition(|minute| minute.ends_rest()) {
        Some(from) => &line[from..],
        None => line,
    }
}

/// The minutes after the last weekly rest.
fn since_weekly(line: &[Minute]) -> &[Minute] {
    match line.iter().rposition(|minute| minute.ends_weekly()) {
        Some(from) => &line[from..],
        None => line,
    }
}

/// The minutes after the last off run of 15 or more.
fn since_pause(line: &[Minute]) -> &[Minute] {
    match line.iter().rposition(|minute| minute.run >= 15) {
        Some(from) => &line[from..],
        None => line,
    }
}

/// The minutes after the last full break: a run of 45, or one of 30 after one of 15 in the same period.
fn driving_period(line: &[Minute]) -> &[Minute] {
    let mut period = line;
    let mut has_part = false;
    for (i, minute) in line.iter().enumerate() {
        if minute.run >= 45 || (minute.run >= 30 && has_part) {
            period = &line[i..];
            has_part = false;
        } else if minute.run >= 15 {
            has_part = true;
        }
    }
    period
}

/// The minutes of the week.
fn week_of(line: &[Minute], monday: usize) -> &[Minute] {
    line.get(monday..).unwrap_or(&[])
}

fn drive_in(minutes: &[Minute]) -> usize {
    minutes
        .iter()
        .filter(|minute| minute.mark.is_drive())
        .count()
}

fn work_in(minutes: &[Minute]) -> usize {
    minutes
        .iter()
        .filter(|minute| minute.mark.is_working())
        .count()
}

/// Whether a minute ends a reduced daily rest, after the minutes `before`.
fn ends_reduced(minute: &Minute, before: &[Minute]) -> bool {
    let day = work_day(before);
    let split = day.iter().skip(1).any(|earlier| earlier.run >= 180);
    let offset = day.len().saturating_sub(minute.run);
    minute.run >= 1 && minute.kind.is_daily() && !split && (minute.run < 660 || offset > 780)
}

/// How many reduced daily rests ended after the last weekly rest.
fn reduced_rests(line: &[Minute]) -> usize {
    let week = since_weekly(line);
    let mut count: usize = 0;
    for (i, minute) in week.iter().enumerate() {
        if i > 0 && minute.run >= 1 && ends_reduced(minute, &week[..i]) {
            count = count.saturating_add(1);
        }
    }
    count
}

/// How many long days ended whose last minute before the rest is one of the week, which begins at `monday`.
fn long_days(line: &[Minute], monday: usize) -> usize {
    let mut count: usize = 0;
    for (i, minute) in line.iter().enumerate() {
        if minute.ends_rest()
            && i > monday.saturating_add(minute.run)
            && drive_in(work_day(&line[..i])) > 540
        {
            count = count.saturating_add(1);
        }
    }
    count
}

/// The length of the last weekly rest before the last minute of the line.
fn weekly_before(history: &History, before: &[Minute]) -> usize {
    match before.iter().rfind(|minute| minute.ends_weekly()) {
        Some(minute) => minute.run,
        None => history.prev_weekly as usize,
    }
}

/// The minutes of rest that are owed at the end of the line, and how many minutes the line may have when they are paid. A week
/// begins at `monday`, and no weekly rest ends before it.
fn debt(history: &History, line: &[Minute], monday: usize) -> (usize, usize) {
    let mut owed = history.owed as usize;
    let mut due = monday.saturating_add((history.due as usize).saturating_mul(10_080));
    for (i, minute) in line.iter().enumerate() {
        let regular: usize = if minute.kind.is_weekly() { 2700 } else { 660 };
        if minute.ends_rest() && minute.run >= regular.saturating_add(owed) {
            owed = 0;
        } else if minute.ends_weekly() && minute.run < 2700 && owed == 0 {
            owed = 2700usize.saturating_sub(minute.run);
            let weeks = i.saturating_sub(monday).div_ceil(10_080).saturating_add(3);
            due = monday.saturating_add(weeks.saturating_mul(10_080));
        }
    }
    (owed, due)
}

/// The off minutes of the earlier runs of 15 or more of a work day.
fn paused(day: &[Minute]) -> usize {
    day.iter()
        .skip(1)
        .filter(|minute| minute.run >= 15)
        .fold(0usize, |sum, minute| sum.saturating_add(minute.run))
}

/// Whether a rule on driving holds at a Drive minute, the last of the line.
fn driving_holds(history: &History, line: &[Minute], monday: usize, rule: Rule) -> bool {
    match rule {
        Rule::H1 => drive_in(driving_period(line)) <= 270,
        Rule::H2 => {
            let limit = if long_days(line, monday) < 2 {
                600
            } else {
                540
            };
            drive_in(work_day(line)) <= limit
        }
        Rule::H7 => drive_in(week_of(line, monday)) <= 3360,
        Rule::H8 => {
            let week = drive_in(week_of(line, monday));
            week.saturating_add(history.prev_drive as usize) <= 5400
        }
        _ => true,
    }
}

/// Whether a rule on rest holds at an on-duty minute, the last of the line.
fn rest_holds(
    history: &History,
    minute: &Minute,
    before: &[Minute],
    line: &[Minute],
    monday: usize,
    rule: Rule,
) -> bool {
    match rule {
        Rule::H3 => work_day(line).len() <= 900,
        Rule::H4 => reduced_rests(line) <= 3,
        Rule::H5 => {
            minute.run == 0
                || match minute.kind {
                    Kind::Plain => true,
                    Kind::Daily => minute.run >= 540,
                    Kind::Weekly => {
                        minute.run >= 2700
                            || (minute.run >= 1440
                                && weekly_before(history, before) >= 2700
                                && debt(history, before, monday).0 == 0)
                    }
                }
        }
        Rule::H6 => since_weekly(line).len() <= 8640,
        Rule::H12 => {
            let (owed, due) = debt(history, line, monday);
            owed == 0 || line.len().saturating_add(660).saturating_add(owed) <= due
        }
        _ => true,
    }
}

/// Whether a rule on working time holds at a working minute, the last of the line.
fn working_holds(history: &History, line: &[Minute], monday: usize, rule: Rule) -> bool {
    match rule {
        Rule::H9 => {
            let week = work_in(week_of(line, monday));
            let before = history.work16.iter().fold(
                0usize,
                |sum, minutes| sum.saturating_add(*minutes as usize),
            );
            week <= 3600 && week.saturating_add(before) <= 48960
        }
        Rule::H10 => work_in(since_pause(line)) <= 360,
        Rule::H11 => {
            let day = work_day(line);
            let worked = work_in(day);
            (worked < 361 || paused(day) >= 30) && (worked < 541 || paused(day) >= 45)
        }
        _ => true,
    }
}

/// The least rule that fails at the last minute of the line.
fn failing(history: &History, line: &[Minute], monday: usize) -> Option<Rule> {
    let Some((minute, before)) = line.split_last() else {
        return None;
    };
    let rules = [
        Rule::H1,
        Rule::H2,
        Rule::H3,
        Rule::H4,
        Rule::H5,
        Rule::H6,
        Rule::H7,
        Rule::H8,
        Rule::H9,
        Rule::H10,
        Rule::H11,
        Rule::H12,
    ];
    for rule in rules {
        let mark = minute.mark;
        if (mark.is_drive() && !driving_holds(history, line, monday, rule))
            || (!mark.is_off() && !rest_holds(history, minute, before, line, monday, rule))
            || (mark.is_working() && !working_holds(history, line, monday, rule))
        {
            return Some(rule);
        }
    }
    None
}

/// What the rules say of a week's line, minute by minute.
pub(crate) fn judge_plainly(
    alloc: Global,
    history: &History,
    line: &Line,
) -> Result<Verdict, AllocError> {
    let mut minutes = Minutes {
        list: Vec::new(alloc),
        run: 0,
        kind: Kind::Plain,
    };
    minutes.add_all(history.stints.stints.as_slice())?;
    minutes.add(&Stint {
        mark: Mark::Off,
        minutes: history.open_off,
        kind: Kind::Plain,
    })?;
    let monday = minutes.list.len();
    minutes.add_all(line.stints.as_slice())?;
    let all = minutes.list.as_slice();
    let mut minute: u32 = 0;
    for end in monday..all.len() {
        if let Some(rule) = failing(history, &all[..end + 1], monday) {
            return Ok(Verdict::Broken(Broken { rule, minute }));
        }
        minute = minute.saturating_add(1);
    }
    Ok(Verdict::Lawful)
}
