// What is left of a line of stints after its last weekly rest, stint by stint.
ghost use Rattle.std.specs.Prelude.{◌≡◌, ◌+◌, ◌≤◌, fold, true, IfOk};
ghost use Rattle.minute_line.specs.declared.lines.TheConstants.{WEEK_MINUTES};
ghost use Rattle.minute_line.specs.Histories.{fields_of};
ghost use Rattle.minute_line.specs.Minutes.{total_of};
ghost use Rattle.minute_line.specs.Stints.{all_up_to};
ghost use Rattle.driver_history.specs.Carrying.{no_line, same_mark, all_stints, add_off, end_off, add_duty, carry, fields_left};
ghost use Rattle.driver_history.specs.Keeping.{seen, held, KeepsHistoryBounds};

use minute_line::{History, Kind, Line, Many, Mark, PAST_LIMIT, Stint};
use std::alloc::{AllocError, Global};

/// What is left of a line so far: the last weekly rest that ended, the stints since then, the on-duty block at their
/// end, and the off run after it. Lengths are minutes.
#[derive(Drop)]
pub struct SinceWeeklyRest {
    pub prev_weekly: u32,
    pub stints: Vec<Stint>,
    pub mark: Mark,
    pub minutes: u32,
    pub open_off: u32,
    pub declared: Kind,
}

impl SinceWeeklyRest {
    /// The line after a weekly rest of this length, before its first minute.
    pub fn after(alloc: Global, prev_weekly: u32) -> SinceWeeklyRest
        ensures { seen result ≡ no_line prev_weekly }
    {
        SinceWeeklyRest {
            prev_weekly,
            stints: Vec::new(alloc),
            mark: Mark::Work,
            minutes: 0,
            open_off: 0,
            declared: Kind::Plain,
        }
    }

    /// The stints up to the last on-duty minute.
    fn into_stints(self) -> Result<Vec<Stint>, AllocError>
        ensures { IfOk result (λ stints. stints.items ≡ all_stints (seen self)) }
    {
        let SinceWeeklyRest {
            mark,
            minutes,
            mut stints,
            ..
        } = self;
        if minutes == 0 {
            return Ok(stints);
        }
        stints.push(Stint {
            mark,
            minutes,
            kind: Kind::Plain,
        })?;
        Ok(stints)
    }

    /// Off minutes lengthen the off run, and say what it is.
    pub fn rest(self, minutes: u32, kind: Kind) -> SinceWeeklyRest
        requires { self.open_off + minutes ≤ 4000000 }
        ensures { seen result ≡ add_off (seen self) minutes kind }
    {
        SinceWeeklyRest {
            open_off: self.open_off + minutes,
            declared: kind,
            ..self
        }
    }

    /// The off run ends: after a weekly one nothing before it is left.
    fn end_run(self, alloc: Global) -> Result<SinceWeeklyRest, AllocError>
        ensures { IfOk result (λ next. seen next ≡ end_off (seen self)) }
    {
        if self.open_off == 0 {
            return Ok(self);
        }
        let open_off = self.open_off;
        let declared = self.declared;
        if declared.is_weekly() {
            return Ok(SinceWeeklyRest::after(alloc, open_off));
        }
        let prev_weekly = self.prev_weekly;
        let mut stints = self.into_stints()?;
        stints.push(Stint {
            mark: Mark::Off,
            minutes: open_off,
            kind: declared,
        })?;
        Ok(SinceWeeklyRest {
            stints,
            ..SinceWeeklyRest::after(alloc, prev_weekly)
        })
    }

    /// On-duty minutes join those of the same mark right before them.
    fn work(self, mark: Mark, minutes: u32) -> Result<SinceWeeklyRest, AllocError>
        requires { self.minutes + minutes ≤ 4000000 }
        ensures { IfOk result (λ next. seen next ≡ add_duty (seen self) mark minutes) }
    {
        if is_same(self.mark, mark) {
            return Ok(SinceWeeklyRest {
                mark,
                minutes: self.minutes + minutes,
                declared: Kind::Plain,
                ..self
            });
        }
        let prev_weekly = self.prev_weekly;
        let open_off = self.open_off;
        let stints = self.into_stints()?;
        Ok(SinceWeeklyRest {
            prev_weekly,
            stints,
            mark,
            minutes,
            open_off,
            declared: Kind::Plain,
        })
    }

    /// The line with one more stint.
    fn carry(self, alloc: Global, stint: &Stint) -> Result<SinceWeeklyRest, AllocError>
        requires { held (seen self) + stint.now.minutes ≤ 4000000 }
        ensures { IfOk result (λ next. seen next ≡ carry (seen self) stint.now) }
    {
        if stint.mark.is_off() {
            return Ok(self.rest(stint.minutes, stint.kind));
        }
        let awake = self.end_run(alloc)?;
        awake.work(stint.mark, stint.minutes)
    }

    /// The line with more stints.
    pub fn carry_all(self, alloc: Global, stints: &[Stint]) -> Result<SinceWeeklyRest, AllocError>
        requires { held (seen self) + total_of stints.now ≤ 4000000 }
        ensures { IfOk result (λ next. seen next ≡ fold carry (seen self) stints.now) }
    {
        let mut left = self;
        for stint in stints {
            left = left.carry(alloc, stint)?;
        }
        Ok(left)
    }

    /// The history that states this, with the work of the weeks before, and nothing owed.
    pub fn into_history(self, prev_drive: u32, work16: [u32; 16]) -> Result<History, AllocError>
        requires kept { KeepsHistoryBounds (seen self) }
        requires drive { prev_drive ≤ WEEK_MINUTES }
        requires weeks { all_up_to WEEK_MINUTES work16 ≡ true }
        ensures { IfOk result (λ history. fields_of history ≡ fields_left (seen self) prev_drive work16) }
    {
        let prev_weekly = self.prev_weekly;
        let open_off = self.open_off.min(PAST_LIMIT);
        let stints = self.into_stints()?;
        Ok(History {
            prev_weekly,
            stints: Line {
                stints: Many::from_vec(stints),
            },
            open_off,
            prev_drive,
            work16,
            owed: 0,
            due: 0,
        })
    }
}

/// Whether two marks are one.
fn is_same(a: Mark, b: Mark) -> bool
    ensures { result ≡ same_mark a b }
{
    matches!(
        (a, b),
        (Mark::Drive, Mark::Drive)
            | (Mark::Work, Mark::Work)
            | (Mark::Ready, Mark::Ready)
            | (Mark::Off, Mark::Off)
    )
}
