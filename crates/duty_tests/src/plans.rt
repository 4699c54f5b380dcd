// Plans, and the stints of a duty, in the week of one driver. Costs, faults and stints are worked out by hand from the rules: a leg
// is 60 minutes and 3,000 cents, the fee 2,000, a night 3,000; the order at P opens at 480 and closes at 720.
ghost use Rattle.std.specs.Prelude.{◌≡◌, ◌<◌, ◌∷◌, [], IfOk, length};
ghost use Rattle.duty_plan.specs.Duties.{IsCase};

use duty_plan::{Case, Duty, DutyFault, Plan, PlanFault, Step, check_duty, check_plan, line_of};
use minute_line::{Kind, Line, Many, Mark, Memory, Stint, read_monday};
use sample_weeks::{HOME, LOAD, OUT, SERVE, case, duty};
use std::alloc::Global;

/// The line of the duty, where it is lawful.
fn lawful_line(alloc: Global, case: &Case, duty: &Duty) -> Result<Option<Line>, Memory>
    requires case { IsCase case.now }
    requires driver { 0 < length case.now.week.drivers }
{
    if check_duty(case, 0, duty).is_err() {
        return Ok(None);
    }
    Ok(Some(line_of(alloc, case, 0, duty)?))
}

#[test]
fn a_trip_has_five_stints(rt: HostRuntime) {
    let monday = read_monday("2026-03-02").expect(&rt, "a Monday");
    let case = case(rt.alloc(), monday, 480, 720).expect(&rt, "memory");
    let duty = duty(rt.alloc(), &[LOAD, OUT, SERVE, HOME]).expect(&rt, "memory");
    let line = lawful_line(rt.alloc(), &case, &duty)
        .expect(&rt, "memory")
        .expect(&rt, "lawful");
    let rows = [
        (Mark::Off, 405, Kind::Weekly),
        (Mark::Work, 15, Kind::Plain),
        (Mark::Drive, 60, Kind::Plain),
        (Mark::Work, 30, Kind::Plain),
        (Mark::Drive, 60, Kind::Plain),
    ];
    assert!(rt; line.stints.len() == rows.len(), "five stints");
    for (place, (mark, minutes, kind)) in rows.iter().enumerate() {
        let stint = Stint {
            mark: *mark,
            minutes: *minutes,
            kind: *kind,
        };
        assert!(rt; line.stints.get(place) == Some(&stint), "stint {place}");
    }
}

/// So many duties: the first has those steps, the others none.
fn duties_of(alloc: Global, steps: &[Step], count: u32) -> Result<Many<Duty>, Memory> {
    let mut duties = Many::new(alloc);
    for number in 0..count {
        let first = if number == 0 { steps } else { &[] };
        duties.push(duty(alloc, first)?)?;
    }
    Ok(duties)
}

#[test]
fn each_plan_has_its_fault(rt: HostRuntime) {
    let monday = read_monday("2026-03-02").expect(&rt, "a Monday");
    let case = case(rt.alloc(), monday, 480, 720).expect(&rt, "memory");
    let rows: [(&str, &[Step], u32, Result<u64, PlanFault>); 5] = [
        ("carried", &[LOAD, OUT, SERVE, HOME], 1, Ok(8000)),
        ("no duty", &[], 0, Err(PlanFault::Duties(0))),
        (
            "two duties",
            &[LOAD, OUT, SERVE, HOME],
            2,
            Err(PlanFault::Duties(2)),
        ),
        (
            "not home",
            &[LOAD, OUT],
            1,
            Err(PlanFault::Duty(0, DutyFault::NotHome)),
        ),
        ("lost", &[], 1, Err(PlanFault::Lost(0))),
    ];
    for (story, steps, count, expected) in rows {
        let plan = Plan {
            duties: duties_of(rt.alloc(), steps, count).expect(&rt, "memory"),
            out: Many::new(rt.alloc()),
        };
        assert!(rt; plan.duties.len() < 9, "few duties");
        let found = check_plan(&case, &plan);
        assert!(rt; found == expected, "{story}: {found:?}");
    }
}

/// The order, given away.
fn given_away(alloc: Global) -> Result<Many<u32>, Memory>
    ensures { IfOk result (λ out. out ≡ 0 ∷ []) }
{
    let mut out = Many::new(alloc);
    out.push(0)?;
    Ok(out)
}

// By hand: a carried order that is given away too is in two places; given away alone it costs its price, 9,000.
#[test]
fn an_order_is_in_one_place(rt: HostRuntime) {
    let monday = read_monday("2026-03-02").expect(&rt, "a Monday");
    let case = case(rt.alloc(), monday, 480, 720).expect(&rt, "memory");
    let rows: [(&[Step], Result<u64, PlanFault>); 2] = [
        (&[LOAD, OUT, SERVE, HOME], Err(PlanFault::Twice(0))),
        (&[], Ok(9000)),
    ];
    for (steps, expected) in rows {
        let plan = Plan {
            duties: duties_of(rt.alloc(), steps, 1).expect(&rt, "memory"),
            out: given_away(rt.alloc()).expect(&rt, "memory"),
        };
        assert!(rt; plan.duties.len() < 9, "few duties");
        let found = check_plan(&case, &plan);
        assert!(rt; found == expected, "{found:?}");
    }
}
