// The thresholds of the rules. A number that changes with the regulation stands here once, and the definitions cite it.

/// The most Drive minutes of a driving period (Regulation 561/2006, Art. 7).
pub const PERIOD_DRIVE: u32 = 270;
/// The shortest full break, in minutes (Art. 7).
pub const FULL_BREAK: u32 = 45;
/// The shortest first part of a break, in minutes (Art. 7).
pub const FIRST_PART: u32 = 15;
/// The shortest second part of a break, in minutes (Art. 7).
pub const SECOND_PART: u32 = 30;
/// The most Drive minutes of a work day (Art. 6(1)).
pub const DAY_DRIVE: u32 = 540;
/// The most Drive minutes of a long work day (Art. 6(1)).
pub const LONG_DAY_DRIVE: u32 = 600;
/// How many long days a week may have (Art. 6(1)).
pub const LONG_DAYS: u32 = 2;
/// The most minutes of a work day (Art. 8(2)).
pub const DAY_LENGTH: u32 = 900;
/// The shortest daily rest, a reduced one, in minutes (Art. 4(g)).
pub const DAILY_REST: u32 = 540;
/// The shortest daily rest that is no reduced one, in minutes (Art. 4(g)).
pub const REGULAR_DAILY_REST: u32 = 660;
/// The most minutes of the work day before a daily rest that is no reduced one (Art. 8(2)).
pub const DAY_BEFORE_REST: u32 = 780;
/// The shortest first part of a daily rest in two parts, in minutes (Art. 4(g)).
pub const SPLIT_REST: u32 = 180;
/// How many reduced daily rests may lie between two weekly rests (Art. 8(4)).
pub const REDUCED_RESTS: u32 = 3;
/// The most minutes from a weekly rest on (Art. 8(6)).
pub const WEEKLY_SPAN: u32 = 8_640;
/// The most Drive minutes of a week (Art. 6(2)).
pub const WEEK_DRIVE: u32 = 3_360;
/// The most Drive minutes of two weeks (Art. 6(3)).
pub const FORTNIGHT_DRIVE: u32 = 5_400;
/// The most working minutes of a week (Directive 2002/15/EC, Art. 4).
pub const WEEK_WORK: u32 = 3_600;
/// The most working minutes of seventeen weeks (Directive, Art. 4).
pub const SEVENTEEN_WEEKS_WORK: u32 = 48_960;
/// The shortest pause, in minutes (Directive, Art. 5).
pub const PAUSE: u32 = 15;
/// The most working minutes without a pause, and of a work day without the shorter pauses (Directive, Art. 5).
pub const UNPAUSED_WORK: u32 = 360;
/// The pauses of a longer work day, in minutes (Directive, Art. 5).
pub const SHORT_PAUSES: u32 = 30;
/// The most working minutes of a work day without the longer pauses (Directive, Art. 5).
pub const BRIEFLY_PAUSED_WORK: u32 = 540;
/// The pauses of a still longer work day, in minutes (Directive, Art. 5).
pub const LONG_PAUSES: u32 = 45;
