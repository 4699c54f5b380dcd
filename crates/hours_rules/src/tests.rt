// Lines with the answers that a person worked out, through three judges: the proved one, one that reads the rules minute
// by minute, and `go` step by step.
ghost use Rattle.std.specs.Prelude.{◌≡◌, ◌≤◌, true, IfSome, IfOk};
ghost use Rattle.minute_line.specs.Minutes.{total_of};
ghost use Rattle.minute_line.specs.Stints.{each_follows, is_line, is_past};
ghost use Rattle.hours_rules.specs.Standing.{IsClock};

use crate::plain::judge_plainly;
use crate::{Broken, Clock, Stay, Verdict, go, judge, number, start};
use minute_line::{History, Kind, Line, Many, Mark, Stint, fresh};
use std::alloc::{AllocError, Global};
use std::test::Fail;

/// What a driver did before Monday.
#[derive(Clone, Copy)]
enum Before {
    /// Nothing, and at rest for 2,700 minutes.
    Fresh,
    /// So many Drive minutes last week and working minutes in each of sixteen weeks, at rest for 2,880 minutes.
    Worked(u32, u32),
    /// A day of 600 Drive minutes that ended 700 minutes before Monday.
    Drove,
    /// A weekly rest of 1,440 minutes, an hour on duty and 2,880 minutes of rest. The 1,260 minutes that are owed are due after so
    /// many weeks.
    Owing(u32),
    /// The same debt, due on Monday; after it a daily rest of so many minutes between two hours of work, and 2,880 of rest.
    Rested(u32),
}

/// A stay in which nothing is done.
const NO_STAY: Stay = Stay {
    ready: 0,
    off: 0,
    kind: Kind::Plain,
};

fn stint(mark: Mark, minutes: u32) -> Stint {
    Stint {
        mark,
        minutes,
        kind: Kind::Plain,
    }
}

fn rest(minutes: u32, kind: Kind) -> Stint {
    Stint {
        mark: Mark::Off,
        minutes,
        kind,
    }
}

/// The stint of a word and a number; a text of another form gives a stint of no minute, which no line has.
fn stint_of(part: &str) -> Stint {
    let Some((word, digits)) = part.trim().split_once(' ') else {
        return stint(Mark::Work, 0);
    };
    let Ok(minutes) = digits.parse::<u32>() else {
        return stint(Mark::Work, 0);
    };
    match word {
        "DRIVE" => stint(Mark::Drive, minutes),
        "WORK" => stint(Mark::Work, minutes),
        "READY" => stint(Mark::Ready, minutes),
        "OFF" => rest(minutes, Kind::Plain),
        "DAILY" => rest(minutes, Kind::Daily),
        "WEEKLY" => rest(minutes, Kind::Weekly),
        _ => stint(Mark::Work, 0),
    }
}

fn stints_of(alloc: Global, text: &str) -> Result<Vec<Stint>, AllocError> {
    let mut stints = Vec::new(alloc);
    for part in text.split(',') {
        stints.push(stint_of(part))?;
    }
    Ok(stints)
}

/// Whether each stint may follow the one before it.
fn each_may_follow(after_off: bool, stints: &[Stint]) -> bool
    ensures { result ≡ each_follows after_off stints.now }
{
    match stints {
        [] => true,
        [first, rest @ ..] => {
            let off = first.mark.is_off();
            first.minutes >= 1
                && (off || !first.kind.is_rest())
                && !(after_off && off)
                && each_may_follow(off, rest)
        }
    }
}

/// Whether the stints are those of a line.
fn are_a_line(stints: &[Stint]) -> bool
    ensures { result ≡ is_line stints.now }
{
    match stints {
        [] => true,
        [first, rest @ ..] => {
            let off = first.mark.is_off();
            let declares = off && first.minutes == 0;
            let may_begin = first.minutes >= 1 && (off || !first.kind.is_rest());
            (declares || may_begin) && each_may_follow(off, rest)
        }
    }
}

/// Whether the stints are those of a history.
fn are_a_past(after_off: bool, stints: &[Stint]) -> bool
    ensures { result ≡ is_past after_off stints.now }
{
    match stints {
        [] => !after_off,
        [first, rest @ ..] => {
            let off = first.mark.is_off();
            first.minutes >= 1
                && (off || !first.kind.is_rest())
                && !(after_off && off)
                && !first.kind.is_weekly()
                && are_a_past(off, rest)
        }
    }
}

/// Whether the stints fit into a week.
fn fit(stints: &[Stint]) -> bool
    ensures { result ≡ true → total_of stints.now ≤ 10080 }
{
    let mut left: u32 = 10080;
    for stint in stints {
        if stint.minutes > left {
            return false;
        }
        left -= stint.minutes;
    }
    true
}

fn line_of(stints: Vec<Stint>) -> Option<Line>
    ensures { IfSome result (λ line. (line.stints ≡ stints.items) × (total_of line.stints ≤ 10080)) }
{
    if !are_a_line(stints.as_slice()) || !fit(stints.as_slice()) {
        return None;
    }
    Some(Line {
        stints: Many::from_vec(stints),
    })
}

fn worked(alloc: Global, prev_drive: u32, each: u32) -> Option<History> {
    if prev_drive > 10080 || each > 10080 {
        return None;
    }
    Some(History {
        prev_weekly: 2700,
        stints: Line {
            stints: Many::new(alloc),
        },
        open_off: 2880,
        prev_drive,
        work16: [each; 16],
        owed: 0,
        due: 0,
    })
}

fn drove(alloc: Global) -> Result<Option<History>, AllocError> {
    let stints = stints_of(alloc, "DRIVE 270, OFF 45, DRIVE 270, OFF 45, DRIVE 60")?;
    if !are_a_past(false, stints.as_slice()) {
        return Ok(None);
    }
    let Some(line) = line_of(stints) else {
        return Ok(None);
    };
    Ok(Some(History {
        prev_weekly: 2700,
        stints: line,
        open_off: 700,
        prev_drive: 600,
        work16: [600; 16],
        owed: 0,
        due: 0,
    }))
}

/// A history of 1,260 minutes that are owed, which ends with 2,880 minutes of rest.
fn owing(alloc: Global, text: &str, due: u32) -> Result<Option<History>, AllocError> {
    let stints = stints_of(alloc, text)?;
    if !are_a_past(false, stints.as_slice()) || due > 3 {
        return Ok(None);
    }
    let Some(line) = line_of(stints) else {
        return Ok(None);
    };
    Ok(Some(History {
        prev_weekly: 1440,
        stints: line,
        open_off: 2880,
        prev_drive: 0,
        work16: [0; 16],
        owed: 1260,
        due,
    }))
}

fn history_of(alloc: Global, before: Before) -> Result<Option<History>, AllocError> {
    match before {
        Before::Fresh => Ok(Some(fresh(alloc))),
        Before::Worked(prev_drive, each) => Ok(worked(alloc, prev_drive, each)),
        Before::Drove => drove(alloc),
        Before::Owing(weeks) => owing(alloc, "READY 60", weeks),
        Before::Rested(minutes) => owing(
            alloc,
            format!(in alloc; "WORK 60, DAILY {minutes}, WORK 60")?.as_str(),
            0,
        ),
    }
}

/// `go` where its caller may call it.
fn step(clock: &Clock, stay: Stay, mark: Mark, minutes: u32) -> Option<Result<Clock, Broken>>
    requires { IsClock clock.now }
    ensures { IfSome result (λ answer. IfOk answer IsClock) }
{
    let end = clock
        .at
        .saturating_add(stay.ready)
        .saturating_add(stay.off)
        .saturating_add(minutes);
    let open = clock.off > 0;
    if !mark.is_working() || minutes == 0 || end > 10080 || (open && stay.ready > 0) {
        return None;
    }
    if stay.kind.is_rest() && !open && stay.off == 0 {
        return None;
    }
    Some(go(clock, stay, mark, minutes))
}

/// The verdict by steps of a stay and an act, or None where the stints are not those of such steps.
fn judge_by_steps(history: &History, stints: &[Stint]) -> Option<Verdict> {
    let mut clock = start(history);
    let mut stay = NO_STAY;
    for stint in stints {
        match stint.mark {
            Mark::Ready if stay == NO_STAY => stay.ready = stint.minutes,
            Mark::Ready => return None,
            Mark::Off => {
                stay.off = stint.minutes;
                stay.kind = stint.kind;
            }
            mark => match step(&clock, stay, mark, stint.minutes)? {
                Ok(next) => {
                    clock = next;
                    stay = NO_STAY;
                }
                Err(broken) => return Some(Verdict::Broken(broken)),
            },
        }
    }
    if stay.ready > 0 {
        return None;
    }
    Some(Verdict::Lawful)
}

/// The number of the rule and the minute of a fault.
fn fault_of(verdict: Verdict) -> Option<(u32, u32)> {
    match verdict {
        Verdict::Lawful => None,
        Verdict::Broken(broken) => Some((number(broken.rule), broken.minute)),
    }
}

/// What three judges find of a line: the proved one, the plain one, and `go` by steps where the line has such steps.
fn found(
    alloc: Global,
    before: Before,
    text: &str,
) -> Result<Option<(Verdict, Verdict, Option<Verdict>)>, AllocError> {
    let Some(history) = history_of(alloc, before)? else {
        return Ok(None);
    };
    let stints = stints_of(alloc, text)?;
    let by_steps = judge_by_steps(&history, stints.as_slice());
    let Some(line) = line_of(stints) else {
        return Ok(None);
    };
    let plainly = judge_plainly(alloc, &history, &line)?;
    Ok(Some((judge(&history, &line), plainly, by_steps)))
}

/// A driver's weeks before, a line, and the number of the rule and the minute of its fault, if any.
type Row = (Before, &'static str, Option<(u32, u32)>);

/// Worked lines of the hours rules. Where no calculation stands above a row, the rule's threshold is in it.
const ROWS: [Row; 64] = [
    // four and a half hours of driving, and a minute more
    (Before::Fresh, "WEEKLY 360, DRIVE 270", None),
    (Before::Fresh, "WEEKLY 360, DRIVE 271", Some((1, 630))),
    // 15 and then 30 are a full break, 30 and then 15 are none, and 45 are never a first part
    (
        Before::Fresh,
        "WEEKLY 360, DRIVE 200, OFF 15, DRIVE 70, OFF 30, DRIVE 270",
        None,
    ),
    (
        Before::Fresh,
        "WEEKLY 360, DRIVE 200, OFF 30, DRIVE 70, OFF 15, DRIVE 270",
        Some((1, 675)),
    ),
    (
        Before::Fresh,
        "WEEKLY 360, DRIVE 200, OFF 45, DRIVE 70, OFF 30, DRIVE 270",
        Some((1, 905)),
    ),
    // by hand: 360 + 270 + 45 + 270 + 45 + 60 = 1050, the 601st Drive minute of the day
    (
        Before::Fresh,
        "WEEKLY 360, DRIVE 270, OFF 45, DRIVE 270, OFF 45, DRIVE 60",
        None,
    ),
    (
        Before::Fresh,
        "WEEKLY 360, DRIVE 270, OFF 45, DRIVE 270, OFF 45, DRIVE 61",
        Some((2, 1050)),
    ),
    // two days of 600, and a third of 540
    (
        Before::Fresh,
        "WEEKLY 360, DRIVE 270, OFF 45, DRIVE 270, OFF 45, DRIVE 60, DAILY 660, DRIVE 270, OFF 45, \
     DRIVE 270, OFF 45, DRIVE 60, DAILY 660, DRIVE 270, OFF 45, DRIVE 270",
        None,
    ),
    (
        Before::Fresh,
        "WEEKLY 360, DRIVE 270, OFF 45, DRIVE 270, OFF 45, DRIVE 60, DAILY 660, DRIVE 270, OFF 45, \
     DRIVE 270, OFF 45, DRIVE 60, DAILY 660, DRIVE 270, OFF 45, DRIVE 270, OFF 45, DRIVE 1",
        Some((2, 3690)),
    ),
    // by hand: the 901st minute of the day is 360 + 900
    (Before::Fresh, "WEEKLY 360, READY 900", None),
    (Before::Fresh, "WEEKLY 360, READY 901", Some((3, 1260))),
    // the 2,700 open minutes are no rest unless the line declares them, and belong to the day
    (Before::Fresh, "WORK 1", Some((3, 0))),
    // a rest of 660 is reduced where it begins after 780 minutes of its day
    (
        Before::Fresh,
        "WEEKLY 360, WORK 60, DAILY 540, WORK 60, DAILY 540, WORK 60, DAILY 540, READY 780, \
     DAILY 660, WORK 1",
        None,
    ),
    (
        Before::Fresh,
        "WEEKLY 360, WORK 60, DAILY 540, WORK 60, DAILY 540, WORK 60, DAILY 540, READY 781, \
     DAILY 660, WORK 1",
        Some((4, 3601)),
    ),
    // a run of 180 in the day makes the rest regular
    (
        Before::Fresh,
        "WEEKLY 360, WORK 60, DAILY 540, WORK 60, DAILY 540, WORK 60, DAILY 540, READY 300, OFF 180, \
     READY 420, DAILY 540, WORK 1",
        None,
    ),
    (
        Before::Fresh,
        "WEEKLY 360, WORK 60, DAILY 540, WORK 60, DAILY 540, WORK 60, DAILY 540, READY 300, OFF 179, \
     READY 421, DAILY 540, WORK 1",
        Some((4, 3600)),
    ),
    (
        Before::Fresh,
        "WEEKLY 360, WORK 60, DAILY 540, WORK 60, DAILY 540, WORK 60, DAILY 540, READY 300, OFF 180, \
     READY 421, DAILY 540, WORK 1",
        Some((3, 3060)),
    ),
    // a fourth reduced rest, or a weekly rest in its place
    (
        Before::Fresh,
        "WEEKLY 360, WORK 60, DAILY 540, WORK 60, DAILY 540, WORK 60, DAILY 540, WORK 60, DAILY 540, \
     WORK 1",
        Some((4, 2760)),
    ),
    (
        Before::Fresh,
        "WEEKLY 360, WORK 60, DAILY 540, WORK 60, DAILY 540, WORK 60, DAILY 540, WORK 60, \
     WEEKLY 1440, WORK 1",
        None,
    ),
    // by hand: 360 + 60 + 539 = 959; 360 + 60 + 1439 = 1859; 360 + 60 + 1440 + 60 + 2699 = 4619
    (
        Before::Fresh,
        "WEEKLY 360, WORK 60, DAILY 540, WORK 1",
        None,
    ),
    (
        Before::Fresh,
        "WEEKLY 360, WORK 60, DAILY 539, WORK 1",
        Some((5, 959)),
    ),
    (
        Before::Fresh,
        "WEEKLY 360, WORK 60, WEEKLY 1440, WORK 1",
        None,
    ),
    (
        Before::Fresh,
        "WEEKLY 360, WORK 60, WEEKLY 1439, WORK 1",
        Some((5, 1859)),
    ),
    (
        Before::Fresh,
        "WEEKLY 360, WORK 60, WEEKLY 1440, WORK 60, WEEKLY 2700, WORK 1",
        None,
    ),
    (
        Before::Fresh,
        "WEEKLY 360, WORK 60, WEEKLY 1440, WORK 60, WEEKLY 2699, WORK 1",
        Some((5, 4619)),
    ),
    // after a weekly rest below 2,700 a daily rest of 1,440 may follow, and no weekly one
    (
        Before::Fresh,
        "WEEKLY 360, WORK 60, WEEKLY 1440, WORK 60, WEEKLY 1440, WORK 1",
        Some((5, 3360)),
    ),
    (
        Before::Fresh,
        "WEEKLY 360, WORK 60, WEEKLY 1440, WORK 60, DAILY 1440, WORK 1",
        None,
    ),
    // six days of 1,440 minutes after a weekly rest
    (
        Before::Fresh,
        "WEEKLY 0, WORK 60, DAILY 1380, WORK 60, DAILY 1380, WORK 60, DAILY 1380, WORK 60, \
     DAILY 1380, WORK 60, DAILY 1380, WORK 60, DAILY 660, READY 720",
        None,
    ),
    (
        Before::Fresh,
        "WEEKLY 0, WORK 60, DAILY 1380, WORK 60, DAILY 1380, WORK 60, DAILY 1380, WORK 60, \
     DAILY 1380, WORK 60, DAILY 1380, WORK 60, DAILY 660, READY 721",
        Some((6, 8640)),
    ),
    // by hand: days of 600, 600 and four times 540 are 3,360; 360 + 2 * 1350 + 4 * 1245 = 8040
    (
        Before::Fresh,
        "WEEKLY 360, DRIVE 270, OFF 45, DRIVE 270, OFF 45, DRIVE 60, DAILY 660, DRIVE 270, OFF 45, \
     DRIVE 270, OFF 45, DRIVE 60, DAILY 660, DRIVE 270, OFF 45, DRIVE 270, DAILY 660, DRIVE 270, \
     OFF 45, DRIVE 270, DAILY 660, DRIVE 270, OFF 45, DRIVE 270, DAILY 660, DRIVE 270, OFF 45, \
     DRIVE 270, DAILY 660, WORK 1",
        None,
    ),
    (
        Before::Fresh,
        "WEEKLY 360, DRIVE 270, OFF 45, DRIVE 270, OFF 45, DRIVE 60, DAILY 660, DRIVE 270, OFF 45, \
     DRIVE 270, OFF 45, DRIVE 60, DAILY 660, DRIVE 270, OFF 45, DRIVE 270, DAILY 660, DRIVE 270, \
     OFF 45, DRIVE 270, DAILY 660, DRIVE 270, OFF 45, DRIVE 270, DAILY 660, DRIVE 270, OFF 45, \
     DRIVE 270, DAILY 660, DRIVE 1",
        Some((7, 8040)),
    ),
    // with last week's 3,360 Drive minutes
    (
        Before::Worked(3360, 2400),
        "WEEKLY 360, DRIVE 270, OFF 45, DRIVE 270, DAILY 660, DRIVE 270, OFF 45, DRIVE 270, \
     DAILY 660, DRIVE 270, OFF 45, DRIVE 270, DAILY 660, DRIVE 270, OFF 45, DRIVE 150",
        None,
    ),
    (
        Before::Worked(3360, 2400),
        "WEEKLY 360, DRIVE 270, OFF 45, DRIVE 270, DAILY 660, DRIVE 270, OFF 45, DRIVE 270, \
     DAILY 660, DRIVE 270, OFF 45, DRIVE 270, DAILY 660, DRIVE 270, OFF 45, DRIVE 151",
        Some((8, 4560)),
    ),
    // sixteen weeks of 2,880 and this one, and sixteen of 3,060, which leave none
    (
        Before::Worked(0, 2880),
        "WEEKLY 360, WORK 360, OFF 45, WORK 180, DAILY 660, WORK 360, OFF 45, WORK 180, DAILY 660, \
     WORK 360, OFF 45, WORK 180, DAILY 660, WORK 360, OFF 45, WORK 180, DAILY 660, WORK 360, \
     OFF 45, WORK 180, DAILY 660, WORK 180",
        None,
    ),
    (
        Before::Worked(0, 2880),
        "WEEKLY 360, WORK 360, OFF 45, WORK 180, DAILY 660, WORK 360, OFF 45, WORK 180, DAILY 660, \
     WORK 360, OFF 45, WORK 180, DAILY 660, WORK 360, OFF 45, WORK 180, DAILY 660, WORK 360, \
     OFF 45, WORK 180, DAILY 660, WORK 181",
        Some((9, 6765)),
    ),
    (
        Before::Worked(0, 3060),
        "WEEKLY 360, WORK 1",
        Some((9, 360)),
    ),
    (Before::Worked(0, 3060), "WEEKLY 360, READY 1", None),
    // six hours of work without a pause, and nine with pauses of 30
    (Before::Fresh, "WEEKLY 360, WORK 360", None),
    (Before::Fresh, "WEEKLY 360, WORK 361", Some((10, 720))),
    (
        Before::Fresh,
        "WEEKLY 360, WORK 360, OFF 30, WORK 180",
        None,
    ),
    (
        Before::Fresh,
        "WEEKLY 360, WORK 360, OFF 30, WORK 181",
        Some((11, 930)),
    ),
    // by hand: 360 + 180 + 15 + 180 = 735, and 360 + 180 + 15 + 90 + 14 + 90 = 749; 14 are no pause
    (
        Before::Fresh,
        "WEEKLY 360, WORK 180, OFF 15, WORK 180",
        None,
    ),
    (
        Before::Fresh,
        "WEEKLY 360, WORK 180, OFF 15, WORK 181",
        Some((11, 735)),
    ),
    (
        Before::Fresh,
        "WEEKLY 360, WORK 180, OFF 15, WORK 90, OFF 15, WORK 91",
        None,
    ),
    (
        Before::Fresh,
        "WEEKLY 360, WORK 180, OFF 15, WORK 90, OFF 14, WORK 91",
        Some((11, 749)),
    ),
    // by hand: a day of 600 whose rest begins before Monday is no long day of the week; 20 + 690 + 660 + 690 + 660 + 630 = 3350
    (
        Before::Drove,
        "DAILY 20, DRIVE 270, OFF 45, DRIVE 270, OFF 45, DRIVE 60, DAILY 660, DRIVE 270, OFF 45, \
     DRIVE 270, OFF 45, DRIVE 60",
        None,
    ),
    (
        Before::Drove,
        "DAILY 20, DRIVE 270, OFF 45, DRIVE 270, OFF 45, DRIVE 60, DAILY 660, DRIVE 270, OFF 45, \
     DRIVE 270, OFF 45, DRIVE 60, DAILY 660, DRIVE 270, OFF 45, DRIVE 270, OFF 45, DRIVE 1",
        Some((2, 3350)),
    ),
    // a reduced weekly rest of 1,440 leaves 1,260 to be paid, by a weekly rest of 2,700 and them or a daily one of 660 and them;
    // while they are owed no weekly rest may be reduced. By hand: 360 + 60 + 1440 + 60 + 2700 + 60 + 1440 = 6120, and with 3959
    // for 2700 it is 7379
    (
        Before::Fresh,
        "WEEKLY 360, WORK 60, WEEKLY 1440, WORK 60, WEEKLY 2700, WORK 60, WEEKLY 1440, WORK 1",
        Some((5, 6120)),
    ),
    (
        Before::Fresh,
        "WEEKLY 360, WORK 60, WEEKLY 1440, WORK 60, WEEKLY 3960, WORK 60, WEEKLY 1440, WORK 1",
        None,
    ),
    (
        Before::Fresh,
        "WEEKLY 360, WORK 60, WEEKLY 1440, WORK 60, WEEKLY 3959, WORK 60, WEEKLY 1440, WORK 1",
        Some((5, 7379)),
    ),
    (
        Before::Fresh,
        "WEEKLY 360, WORK 60, WEEKLY 1440, WORK 60, WEEKLY 2700, WORK 60, WEEKLY 2700, WORK 1",
        None,
    ),
    // by hand: 360 + 60 + 1500 + 60 + 1859 + 60 + 2700 + 60 + 1440 = 8099
    (
        Before::Fresh,
        "WEEKLY 360, WORK 60, WEEKLY 1500, WORK 60, DAILY 1860, WORK 60, WEEKLY 2700, WORK 60, \
     WEEKLY 1440, WORK 1",
        None,
    ),
    (
        Before::Fresh,
        "WEEKLY 360, WORK 60, WEEKLY 1500, WORK 60, DAILY 1859, WORK 60, WEEKLY 2700, WORK 60, \
     WEEKLY 1440, WORK 1",
        Some((5, 8099)),
    ),
    // a debt of 1,260 due at minute 10,080: the last on-duty minute is 8,159, since 8160 + 660 + 1260 = 10080. By hand:
    // 360 + 5 * 1440 + 600 = 8160
    (
        Before::Owing(1),
        "WEEKLY 360, WORK 60, DAILY 1380, WORK 60, DAILY 1380, WORK 60, DAILY 1380, WORK 60, \
     DAILY 1380, WORK 60, DAILY 1380, READY 600",
        None,
    ),
    (
        Before::Owing(1),
        "WEEKLY 360, WORK 60, DAILY 1380, WORK 60, DAILY 1380, WORK 60, DAILY 1380, WORK 60, \
     DAILY 1380, WORK 60, DAILY 1380, READY 601",
        Some((12, 8160)),
    ),
    (
        Before::Owing(2),
        "WEEKLY 360, WORK 60, DAILY 1380, WORK 60, DAILY 1380, WORK 60, DAILY 1380, WORK 60, \
     DAILY 1380, WORK 60, DAILY 1380, READY 601",
        None,
    ),
    // a first rest of 2880 + 1080 = 2700 + 1260 pays, and one of a minute less doesn't; by hand: 1079 + 5 * 1440 = 8279
    (
        Before::Owing(1),
        "WEEKLY 1080, WORK 60, DAILY 1380, WORK 60, DAILY 1380, WORK 60, DAILY 1380, WORK 60, \
     DAILY 1380, WORK 60, DAILY 1380, READY 601",
        None,
    ),
    (
        Before::Owing(1),
        "WEEKLY 1079, WORK 60, DAILY 1380, WORK 60, DAILY 1380, WORK 60, DAILY 1380, WORK 60, \
     DAILY 1380, WORK 60, DAILY 1380, READY 601",
        Some((12, 8279)),
    ),
    // what was due on Monday stands until it is paid, also late
    (Before::Owing(0), "WEEKLY 1079, WORK 1", Some((12, 1079))),
    (Before::Owing(0), "WEEKLY 1080, WORK 1", None),
    // a daily rest of 660 + 1260 before Monday has paid
    (Before::Rested(1920), "WEEKLY 360, WORK 1", None),
    (Before::Rested(1919), "WEEKLY 360, WORK 1", Some((12, 360))),
    // too short a weekly rest after which it is too late to pay: the least rule is named; by hand: 360 + 4 * 1440 + 60 + 2000
    (
        Before::Owing(1),
        "WEEKLY 360, WORK 60, DAILY 1380, WORK 60, DAILY 1380, WORK 60, DAILY 1380, WORK 60, \
     DAILY 1380, WORK 60, WEEKLY 2000, WORK 1",
        Some((5, 8180)),
    ),
    // the 601st Drive minute of the day and its 1,391st minute: the least rule is named
    (Before::Drove, "DRIVE 1", Some((2, 0))),
];

#[test]
fn each_row_has_its_fault_by_every_judge(rt: HostRuntime) -> Result<(), Fail> {
    let mut by_steps: u32 = 0;
    for (before, text, fault) in ROWS.iter() {
        let Some((proved, plain, steps)) = found(rt.alloc(), *before, text)? else {
            panic!(rt; "no line: {text}");
        };
        assert_eq!(rt; fault_of(proved), *fault, "judge: {text}");
        assert_eq!(rt; fault_of(plain), *fault, "plainly: {text}");
        if let Some(verdict) = steps {
            assert_eq!(rt; fault_of(verdict), *fault, "by steps: {text}");
            by_steps = by_steps.saturating_add(1);
        }
    }
    assert_eq!(rt; by_steps, 49, "rows that are stays and acts");
    Ok(())
}

/// A clock's fields before a step, but for those that the duty changes.
fn after_weekly(at: u32, drive: u32, work: u32) -> Clock {
    Clock {
        at,
        off: 0,
        day_from: 405,
        rest_from: 405,
        period: drive,
        drive_day: drive,
        long_days: 0,
        reduced: 0,
        prev_weekly: 3285,
        work_run: work,
        work_day: work,
        pause_day: 0,
        drive_week: drive,
        work_week: work,
        prev_drive: 0,
        work_before: 0,
        owed: 0,
        due: 0,
        half: false,
        split: false,
    }
}

// By hand. At rest for 2,880 minutes on Monday; the duty is 405 minutes of weekly rest, 15 of Work, 60 of Drive, 30 of
// Work and 60 of Drive. The rest has 3,285 minutes and ends at minute 405, so the day and the week begin there.
#[test]
fn a_clock_counts_the_minutes_of_each_step(rt: HostRuntime) {
    let Some(history) = worked(rt.alloc(), 0, 0) else {
        panic!(rt; "no history");
    };
    let mut clock = start(&history);
    let monday = Clock {
        off: 2880,
        day_from: -2880,
        rest_from: -2880,
        prev_weekly: 2700,
        ..after_weekly(0, 0, 0)
    };
    assert_eq!(rt; clock, monday, "at Monday");
    let weekly = Stay {
        ready: 0,
        off: 405,
        kind: Kind::Weekly,
    };
    let steps = [
        (weekly, Mark::Work, 15, after_weekly(420, 0, 15)),
        (NO_STAY, Mark::Drive, 60, after_weekly(480, 60, 75)),
        (NO_STAY, Mark::Work, 30, after_weekly(510, 60, 105)),
        (NO_STAY, Mark::Drive, 60, after_weekly(570, 120, 165)),
    ];
    'steps: for (stay, mark, minutes, after) in steps {
        match step(&clock, stay, mark, minutes) {
            Some(Ok(next)) => clock = next,
            _ => panic!(rt; "no clock at {}", after.at),
        }
        assert_eq!(rt; clock, after, "at {}", after.at);
    }
}

// By hand. A rest of 1,440 that ends on Monday 00:00 has its last minute in the week before, so what it leaves is due at the end
// of the second week after the planned one's; a minute later it is due a week later, and there is a minute less of it.
#[test]
fn a_debt_is_due_three_weeks_after_the_last_minute_of_its_rest(
    rt: HostRuntime,
) -> Result<(), Fail> {
    let rows: [(u32, u32, i32); 4] = [
        (0, 1260, 30_240),
        (1, 1259, 40_320),
        (1259, 1, 40_320),
        (1260, 0, 0),
    ];
    let mut history = fresh(rt.alloc());
    history.open_off = 1440;
    for (off, owed, due) in rows {
        let rest = Stay {
            ready: 0,
            off,
            kind: Kind::Weekly,
        };
        let Some(Ok(clock)) = step(&start(&history), rest, Mark::Work, 15) else {
            panic!(rt; "no clock after {off}");
        };
        assert_eq!(rt; (clock.owed, clock.due), (owed, due), "after {off}");
    }
    Ok(())
}
