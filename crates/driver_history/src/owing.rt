// The debt of reduced weekly rests along a line of stints (Art. 8(6), 8(7)), where it is due in whole weeks.
ghost use Rattle.std.specs.Prelude.{◌≡◌, fold};
ghost use Rattle.minute_line.specs.Minutes.{total_of};
ghost use Rattle.driver_history.specs.Owing.{ends_as_weekly, ends_as_paying, ends_as_owing, owed_after, owe_stint, owing_from, owing_on_monday, weeks_later, IsShort};

use hours_rules::REGULAR_DAILY_REST;
use minute_line::{Kind, REGULAR_WEEKLY_REST, Stint, WEEK_MINUTES};

/// What is owed in minutes, and the end of the week by which it is due, in weeks from Monday.
#[derive(Clone, Copy)]
pub struct Owed {
    pub owed: u32,
    pub due: u32,
}

/// The debt of a line so far, and where what is left of it began; the open run, and the minutes since Monday.
#[derive(Clone, Copy)]
pub struct Owing {
    pub debt: Owed,
    pub begun: Owed,
    pub off: u32,
    pub declared: Kind,
    pub at: u32,
}

impl Owing {
    /// Before the first minute of a line that begins with a debt.
    pub fn from_start(owed: Owed) -> Owing
        ensures { result ≡ owing_from owed }
    {
        Owing {
            debt: owed,
            begun: owed,
            off: 0,
            declared: Kind::Plain,
            at: 0,
        }
    }

    /// On Monday, after so many open minutes.
    pub fn on_monday(self, open_off: u32) -> Owing
        requires { IsShort self open_off }
        ensures { result ≡ owing_on_monday self open_off }
    {
        Owing {
            off: self.off + open_off,
            declared: Kind::Plain,
            at: 0,
            ..self
        }
    }

    /// Whether the open run ends as a weekly rest.
    fn ends_weekly(&self) -> bool
        ensures { result ≡ ends_as_weekly self.now }
    {
        self.off >= 1 && self.declared.is_weekly()
    }

    /// Whether it ends as a regular rest that is longer by what is owed.
    fn pays(&self) -> bool
        ensures { result ≡ ends_as_paying self.now }
    {
        let daily = self.off >= 1 && self.declared.is_daily();
        let off = self.off as u64;
        let owed = self.debt.owed as u64;
        (daily && REGULAR_DAILY_REST as u64 + owed <= off)
            || (self.ends_weekly() && REGULAR_WEEKLY_REST as u64 + owed <= off)
    }

    /// Whether it ends as a reduced weekly rest where nothing is owed yet.
    fn owes(&self) -> bool
        ensures { result ≡ ends_as_owing self.now }
    {
        self.ends_weekly() && (self.off < REGULAR_WEEKLY_REST && self.debt.owed == 0)
    }

    /// The debt once the open run has ended.
    fn debt_after(&self) -> Owed
        requires { IsShort self.now 0 }
        ensures { result ≡ owed_after self.now }
    {
        if self.pays() {
            return Owed { owed: 0, due: 0 };
        }
        if self.owes() {
            return Owed {
                owed: REGULAR_WEEKLY_REST - self.off,
                due: (self.at + (WEEK_MINUTES - 1)) / WEEK_MINUTES + 3,
            };
        }
        self.debt
    }

    /// One more stint.
    fn carry(self, stint: &Stint) -> Owing
        requires { IsShort self stint.now.minutes }
        ensures { result ≡ owe_stint self stint.now }
    {
        if stint.mark.is_off() {
            return Owing {
                off: self.off + stint.minutes,
                declared: stint.kind,
                at: self.at + stint.minutes,
                ..self
            };
        }
        let debt = self.debt_after();
        let begun = if self.ends_weekly() { debt } else { self.begun };
        Owing {
            debt,
            begun,
            off: 0,
            declared: Kind::Plain,
            at: self.at + stint.minutes,
        }
    }

    /// More stints.
    pub fn carry_all(self, stints: &[Stint]) -> Owing
        requires { IsShort self (total_of stints.now) }
        ensures { result ≡ fold owe_stint self stints.now }
    {
        let mut owing = self;
        for stint in stints {
            owing = owing.carry(stint);
        }
        owing
    }
}

impl Owed {
    /// The weeks from next Monday to the end of the week by which it is due, 0 where that is past or nothing is owed.
    pub fn weeks_from_next_monday(self) -> u32
        ensures { result ≡ weeks_later self }
    {
        if self.owed == 0 {
            return 0;
        }
        self.due.saturating_sub(1)
    }
}
