// What is said on a terminal while a plan is sought.
use duty_plan::Gate;
use std::sync::atomic::{AtomicU64, Ordering};
use std::time::Instant;

/// How many seconds pass between two lines.
const PAUSE: u64 = 2;

/// The gate of a run at a terminal. As the first worker passes, it says on standard error for how many seconds a plan has been
/// sought and in how many rounds of prices, once in two seconds at most.
#[derive(Drop)]
pub(crate) struct Progress<'a> {
    rt: &'a HostRuntime,
    begun: Instant,
    told: AtomicU64,
    rounds: AtomicU64,
}

impl<'a> Progress<'a> {
    /// A run that begins now, or none where there is no clock.
    pub(crate) fn begin(rt: &'a HostRuntime) -> Option<Progress<'a>> {
        let begun = Instant::now(rt).ok()?;
        Some(Progress {
            rt,
            begun,
            told: AtomicU64::new(0),
            rounds: AtomicU64::new(0),
        })
    }

    /// Says it, where two seconds went by since it was said. A line that can't be written is left out.
    fn tell(&self, rounds: u64) {
        let Ok(elapsed) = self.begun.elapsed(self.rt) else {
            return;
        };
        let seconds = elapsed.as_secs();
        let told = self.told.load(Ordering::Relaxed);
        if seconds.saturating_sub(told) >= PAUSE {
            self.told.store(seconds, Ordering::Relaxed);
            let _ = eprintln!(self.rt; "desk: {seconds} s, {rounds} rounds of prices");
        }
    }
}

impl Gate for Progress<'_> {
    fn pass(&self, worker: u32) {
        if worker == 0 {
            let rounds = self.rounds.fetch_add(1, Ordering::Relaxed);
            self.tell(rounds.saturating_add(1));
        }
    }
}
