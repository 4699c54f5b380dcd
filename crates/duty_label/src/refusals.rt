// Why a label has no child by a step.
use duty_plan::DutyFault;

/// Why a step makes no child of a driver's label.
#[derive(Clone, Copy, PartialEq, Eq, Debug)]
pub enum NoChild {
    /// The act serves an order that is Barred for the driver.
    Barred,
    /// The steps aren't lawful with this one. The fault is told as of step 0.
    Fault(DutyFault),
}
