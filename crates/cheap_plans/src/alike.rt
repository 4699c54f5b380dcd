// Drivers who are alike, so that one pricing serves all of them.
ghost use Rattle.std.specs.Prelude.{◌≡◌, ◌<◌, ◌≤◌, length};
ghost use Rattle.duty_plan.specs.Duties.{IsCase};

use duty_plan::{Case, are_alike};

/// Whether a freed driver before this one is alike.
fn has_earlier(case: &Case, freed: &[bool], driver: u32) -> bool
    requires case { IsCase case.now }
    requires freed { length freed.now ≡ length case.now.week.drivers }
    requires driver { driver < length case.now.week.drivers }
{
    for other in 0..driver {
        if freed[other as usize] && are_alike(case, driver, other) {
            return true;
        }
    }
    false
}

/// How many of the freed drivers are like no freed driver before them.
pub(crate) fn kinds(case: &Case, freed: &[bool]) -> u32
    requires case { IsCase case.now }
    requires freed { length freed.now ≡ length case.now.week.drivers }
    ensures { result ≤ length case.now.week.drivers }
{
    let mut kinds = 0;
    for driver in 0..freed.len() as u32 {
        if freed[driver as usize] && !has_earlier(case, freed, driver) {
            kinds += 1;
        }
    }
    kinds
}
