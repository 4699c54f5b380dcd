// Two workers at a gate.

use crate::running::{new_keeper, run_at};
use duty_plan::Gate;
use std::sync::atomic::{AtomicBool, Ordering};
use std::test::Fail;

/// How often a worker looks for the other's flag.
const LOOKS: u32 = 100_000_000;

/// A gate of two flags: who passes raises his own, and looks for the other's.
#[derive(Drop)]
struct TwoFlags {
    raised: [AtomicBool; 2],
    seen: [AtomicBool; 2],
}

impl Gate for TwoFlags {
    fn pass(&self, worker: u32) {
        if worker > 1 {
            return;
        }
        let own = worker as usize;
        self.raised[own].store(true, Ordering::SeqCst);
        for _ in 0..LOOKS {
            if self.raised[1 - own].load(Ordering::SeqCst) {
                self.seen[own].store(true, Ordering::SeqCst);
                return;
            }
        }
    }
}

/// A week of an order and two drivers of unlike fees.
const TWO_DRIVERS: &str =
    "week,2026-03-02,15,3000,15\nplace,HUB\nplace,P\nleg,HUB,P,60,3000\nleg,P,HUB,60,3000\ndriver,D1,24000,2000\nrest,D1,2026-02-28T00:00,2700\nworked,D1,0,0,0,0,0,0,0,0,0,0,0,0,0,0,0,0,0\npast,D1,OFF,2880\ndriver,D2,24000,2500\nrest,D2,2026-02-28T00:00,2700\nworked,D2,0,0,0,0,0,0,0,0,0,0,0,0,0,0,0,0,0\npast,D2,OFF,2880\norder,A,P,2026-03-02T08:00,2026-03-02T12:00,30,12000,9000\n";

#[test]
fn two_workers_meet(rt: HostRuntime) -> Result<(), Fail> {
    let gate = TwoFlags {
        raised: [AtomicBool::new(false), AtomicBool::new(false)],
        seen: [AtomicBool::new(false), AtomicBool::new(false)],
    };
    let words = ["plan", "--labels", "2048", "--nodes", "1", "--rounds", "1"];
    let mut keeper = new_keeper(rt.alloc(), 0)?;
    let (status, _) = run_at(
        &rt,
        &gate,
        rt.alloc(),
        &mut keeper,
        &words,
        TWO_DRIVERS.as_bytes(),
        4096,
        (0, 0),
    )?;
    assert_eq!(rt; status, 0);
    assert!(rt; gate.seen[0].load(Ordering::SeqCst) && gate.seen[1].load(Ordering::SeqCst));
    Ok(())
}
