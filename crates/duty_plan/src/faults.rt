// Why a duty or a plan isn't lawful.
use hours_rules::Broken;

/// The first fault of a duty. A number is that of the step, from 0.
#[derive(Clone, Copy, PartialEq, Eq, Debug)]
pub enum DutyFault {
    /// No road leads there from where the driver is, no order has that number, a service isn't at its order's place, or
    /// a load isn't at the depot.
    Road(u32),
    /// The stay has a length that its kind doesn't allow, or Ready minutes in an open off run of the history.
    Stay(u32),
    /// A weekly rest isn't at the depot.
    Away(u32),
    /// The act after a daily or weekly rest starts at a minute that the week's grid doesn't divide.
    Grid(u32),
    /// The act ends after the end of the week.
    Late(u32),
    /// The service starts before its order's window or after it.
    Window(u32),
    /// The service comes before any load act, or takes more than the lorry's capacity since the last one.
    Load(u32),
    /// The order was served before.
    Twice(u32),
    /// The last step doesn't end at the depot.
    NotHome,
    /// The first minute at which an hours rule fails, and the least rule there.
    Rule(Broken),
}

/// The first fault of a plan. Drivers and orders count from 0.
#[derive(Clone, Copy, PartialEq, Eq, Debug)]
pub enum PlanFault {
    /// So many duties are there, and not one for each driver.
    Duties(u32),
    /// That driver's duty is the first that isn't lawful, and this is its first fault.
    Duty(u32, DutyFault),
    /// That order is the first in two places: served by a duty, or given away.
    Twice(u32),
    /// That order is the first in no place.
    Lost(u32),
}
