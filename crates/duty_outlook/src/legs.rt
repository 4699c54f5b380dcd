// What the legs from a spot bring.
ghost use Rattle.std.specs.Prelude.{◌≡◌, ℕ, ◌≤◌};
ghost use Rattle.minute_line.specs.declared.lines.TheConstants.{WEEK_MINUTES};
ghost use Rattle.week_book.specs.declared.weeks.Week.{Week};
ghost use Rattle.duty_plan.specs.declared.duties.Act.{Act};
ghost use Rattle.duty_outlook.specs.Rows.{Grows};
ghost use Rattle.duty_outlook.specs.Outlooks.{AdmitsAct, AdmitsRoad};

use crate::outlooks::Outlook;
use crate::rows::raise;
use crate::spots::Spot;
use minute_line::WEEK_MINUTES;
use week_book::{Leg, Week};

impl Outlook {
    /// Raises a row of the spot by a leg.
    fn raise_leg(&self, row: &mut [u64; 32], spot: Spot, leg: &Leg)
        requires { spot.minute ≤ WEEK_MINUTES }
        ensures grows { Grows row.old row.new }
        ensures admits { (week : Week) → AdmitsRoad week self.now spot row.new leg.now }
    {
        let end = spot.minute.saturating_add(leg.minutes);
        if leg.from == spot.place && end <= WEEK_MINUTES {
            let next = self.row_at(Spot {
                place: leg.to,
                minute: end,
                orders: spot.orders,
            });
            raise(row, next, 0, 32, 0, leg.cents.min(100_000_000));
        }
    }

    /// Raises a row of the spot by all legs.
    pub(crate) fn raise_legs(&self, row: &mut [u64; 32], spot: Spot, week: &Week)
        requires { spot.minute ≤ WEEK_MINUTES }
        ensures grows { Grows row.old row.new }
        ensures admits { (to : ℕ) → AdmitsAct week.now self.now spot (Act.Leg to) row.new }
    {
        for leg in week.legs.as_slice() {
            self.raise_leg(row, spot, leg);
        }
    }
}
