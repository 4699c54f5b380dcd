// What of a line the rules read, and what a step of a duty adds before its act.
use minute_line::Kind;

/// The numbers of a line, cut at a week minute, that the rules read. Lengths and counts are minutes. The off run that is open
/// there counts in `at` and `off` alone: what it is to the rules shows at the minute on duty that ends it.
#[derive(Clone, Copy, PartialEq, Eq, Debug)]
pub struct Clock {
    /// The week minute reached.
    pub at: u32,
    /// The length of the open off run, which has not ended.
    pub off: u32,
    /// Where the work day began, as a week minute, below 0 before Monday: where the last daily or weekly rest ended, or else
    /// where the line begins.
    pub day_from: i32,
    /// Where the last weekly rest ended, as a week minute, or else where the line begins. Daily rests and breaks leave it as it
    /// is.
    pub rest_from: i32,
    /// The Drive minutes of the driving period, which is all since the last full break.
    pub period: u32,
    /// The Drive minutes of the work day.
    pub drive_day: u32,
    /// How many long days of the week have ended: those whose rest follows a minute of the week.
    pub long_days: u32,
    /// How many reduced daily rests have ended since the last weekly rest.
    pub reduced: u32,
    /// The length of the last weekly rest that has ended.
    pub prev_weekly: u32,
    /// The working minutes since the last off run of 15 or more. Ready minutes and shorter off runs lie among them: they do not
    /// count, and do not end the stretch.
    pub work_run: u32,
    /// The working minutes of the work day, without its Ready minutes.
    pub work_day: u32,
    /// The Off minutes of the work day in off runs of 15 or more, held at 45, the most that a rule asks for. Shorter runs are left
    /// out, and so is the rest that the day began after.
    pub pause_day: u32,
    /// The Drive minutes of the week.
    pub drive_week: u32,
    /// The working minutes of the week.
    pub work_week: u32,
    /// Last week's Drive minutes.
    pub prev_drive: u32,
    /// The working minutes of the sixteen weeks before.
    pub work_before: u32,
    /// The minutes of rest that are owed for a reduced weekly rest.
    pub owed: u32,
    /// The end of the week by which they are due, as a week minute.
    pub due: i32,
    /// Whether the driving period has an off run of 15 or more, the first part of a break. The break that the period began after
    /// is left out, so a run of 45 is never a first part.
    pub half: bool,
    /// Whether the work day has an off run of 180 or more, the first part of a daily rest in two parts. The rest that the day began
    /// after is left out.
    pub split: bool,
}

// A label of pricing holds a clock, and there are up to two million of them. The flags stand last, so that they share a
// word.
const _: () = prove!(size_of::<Clock>() <= 80);

/// What a driver does at a place before an act: `ready` Ready minutes, then `off` Off minutes of a kind.
#[derive(Clone, Copy, PartialEq, Eq, Debug)]
pub struct Stay {
    /// The Ready minutes, which come first.
    pub ready: u32,
    /// The Off minutes after them. They go into an off run that is open already.
    pub off: u32,
    /// What the off run is declared to be once the act ends it.
    pub kind: Kind,
}
